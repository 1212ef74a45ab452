//! What a link did, with a way to each start.
ghost use Rattle.std.specs.Prelude.{◌≡◌, [], ◌∷◌, ◌++◌, OnOk, OnErr, option_copied, option_and_then, slice_get};
ghost use Rattle.sf_outside.specs.declared.call.LinkEvent.TheVariants.{Started as WasStarted, Polled as WasPolled};
ghost use Rattle.sf_outside.specs.Script.{start_number};

use crate::{Call, LinkEvent, Outcome};
use proto_wire::{Bytes, List, Mem, OutOfMemory, Text};
use std::alloc::Global;
use std::marker::Model;

/// What a link did, oldest first.
#[derive(Drop)]
pub struct Journal {
    events: List<LinkEvent>,
    /// Where the starts stand among them.
    places: Vec<usize>,
}

impl Model for Journal {
    ghost use Rattle.std.specs.Prelude.{◌≡◌, List};
    ghost use Rattle.sf_outside.specs.declared.call.LinkEvent.{LinkEvent};
    ghost use Rattle.sf_outside.specs.Script.{places_from};

    ghost Value = { List LinkEvent };

    ghost view = { λ journal. journal.events };

    ghost invariant = { λ journal. journal.places.items ≡ places_from 0 journal.events };
}

impl Journal {
    /// Nothing was done. Takes no memory.
    pub(crate) fn new(alloc: Global) -> Journal
        ensures { result ≡ [] }
    {
        Journal {
            events: List::new(alloc),
            places: Vec::new(alloc),
        }
    }

    /// What was done.
    pub(crate) fn events(&self) -> &List<LinkEvent>
        ensures { result.now ≡ self.now }
    {
        &self.events
    }

    /// The start with this number, counted from 0. Looks at no other event.
    #[tactic(auto, using(crate::proofs::Starts::start_is))]
    pub(crate) fn start(&self, number: u64) -> Option<&LinkEvent>
        ensures { option_copied result ≡ start_number self.now number }
    {
        at_place(self.events.as_slice(), self.places.as_slice(), number)
    }

    /// Adds a start. An `Err` changes nothing.
    #[tactic(auto, using(crate::proofs::Starts::places_start))]
    pub(crate) fn add_start(&mut self, call: Call, url: Text, request: Bytes) -> Mem<()>
        ensures ok { OnOk result (self.new ≡ self.old ++ WasStarted call url request ∷ []) }
        ensures err { OnErr result (self.new ≡ self.old) }
    {
        self.places.push(self.events.len())?;
        let event = LinkEvent::Started { call, url, request };
        if self.events.push(event).is_err() {
            let _ = self.places.pop();
            return Err(OutOfMemory);
        }
        Ok(())
    }

    /// Adds the answer of a poll. An `Err` changes nothing.
    #[tactic(auto, using(crate::proofs::Starts::places_poll))]
    pub(crate) fn add_poll(&mut self, outcome: Option<Outcome>) -> Mem<()>
        ensures ok { OnOk result (self.new ≡ self.old ++ WasPolled outcome ∷ []) }
        ensures err { OnErr result (self.new ≡ self.old) }
    {
        self.events.push(LinkEvent::Polled(outcome))
    }
}

fn at_place<'a>(events: &'a [LinkEvent], places: &[usize], number: u64) -> Option<&'a LinkEvent>
    ensures { option_copied result ≡ option_and_then (λ place. slice_get events.now place) (slice_get places.now number) }
{
    let place = *places.get(number as usize)?;
    events.get(place)
}
