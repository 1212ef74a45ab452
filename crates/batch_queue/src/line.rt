//! A waiting line of numbers.
ghost use Rattle.std.specs.Prelude.{◌≡◌, ◌+◌, ◌++◌, ◌∷◌, ◌<◌, [], true, false, nat_eq, slice_get, IfOk, OnOk, OnErr};
ghost use Rattle.batch_queue.specs.Lines.{InLine, without, stands};

use proto_wire::Mem;
use std::alloc::Global;
use std::marker::Model;

/// The neighbours of a link.
#[derive(Clone, Copy, Debug, PartialEq, Eq)]
pub(crate) struct Link {
    before: usize,
    after: usize,
}

/// Numbers in a waiting line: each joins at the end, and may leave from any place. Contracts see how many numbers there are,
/// and those in line. A call takes the same time however long the line is.
#[derive(Drop)]
pub(crate) struct Line {
    /// Link 0 is the line's end on both sides, and link n + 1 is that of the number n. Links are in both directions.
    links: Vec<Link>,
}

impl Model for Line {
    ghost use Rattle.batch_queue.specs.Lines.{InLine, in_line, IsLinked};

    ghost Value = { InLine };

    ghost view = { λ l. in_line l.links.items };

    ghost invariant = { λ l. IsLinked l.links.items };
}

impl Line {
    /// There is no number.
    pub(crate) fn new(alloc: Global) -> Mem<Line>
        ensures { IfOk result (λ line. line ≡ record { size = 0; numbers = [] }) }
    {
        let mut links = Vec::new(alloc);
        links.push(Link {
            before: 0,
            after: 0,
        })?;
        Ok(Line { links })
    }

    /// One number more, which is not in line. An `Err` changes nothing.
    pub(crate) fn grow(&mut self) -> Mem<()>
        ensures ok { OnOk result (self.new ≡ record self.old { size = self.old.size + 1 }) }
        ensures err { OnErr result (self.new ≡ self.old) }
    {
        self.links.push(Link {
            before: 0,
            after: 0,
        })?;
        Ok(())
    }

    /// How many numbers there are: they are those below.
    pub(crate) fn size(&self) -> usize
        ensures { result ≡ self.now.size }
    {
        self.links.len() - 1
    }

    /// The first number in line.
    pub(crate) fn first(&self) -> Option<usize>
        ensures { result ≡ slice_get self.now.numbers 0 }
    {
        match self.links[0].after {
            0 => None,
            after => Some(after - 1),
        }
    }

    /// A number goes last in line.
    pub(crate) fn join(&mut self, number: usize)
        requires known { number < self.old.size }
        requires apart { stands number self.old.numbers ≡ false }
        ensures { self.new ≡ record self.old { numbers = self.old.numbers ++ number ∷ [] } }
    {
        let last = self.links[0].before;
        self.links[number + 1] = Link {
            before: last,
            after: 0,
        };
        self.links[last].after = number + 1;
        self.links[0].before = number + 1;
    }

    /// A number leaves the line.
    pub(crate) fn leave(&mut self, number: usize)
        requires { stands number self.old.numbers ≡ true }
        ensures { self.new ≡ record self.old { numbers = without number self.old.numbers } }
    {
        let Link { before, after } = self.links[number + 1];
        self.links[before].after = after;
        self.links[after].before = before;
    }
}
