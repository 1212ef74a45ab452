//! A link over HTTP.
ghost use Rattle.std.specs.Prelude.{◌≡◌, [], None};
ghost use Rattle.sf_outside.specs.Answers.{LostRoseBy};

use crate::Connect;
use crate::exchange::{Made, Started, make};
use proto_wire::{Bytes, Mem, Text, TryClone};
use sf_outside::{Answered, Call, Fault, Link, Outcome};
use std::alloc::Global;
use std::collections::VecDeque;
use std::thread;
use std::thread::Threads;

/// How many calls are made at once.
const AT_ONCE: usize = 16;

/// How the calls of a link are made: `make_all` over a runtime, boxed in `main`, which has the runtime.
#[derive(Drop)]
pub struct Caller {
    make: Box<dyn Fn(Vec<Started>) -> Mem<Vec<Made>> + Drop>,
    ghost callable: { IsAlwaysCallable make },
}

impl Caller {
    /// Calls are made so.
    pub fn new(make: Box<dyn Fn(Vec<Started>) -> Mem<Vec<Made>> + Drop>) -> Caller
        requires { IsAlwaysCallable make }
    {
        Caller { make }
    }

    fn make(&self, calls: Vec<Started>) -> Mem<Vec<Made>> {
        (self.make)(calls)
    }
}

/// A link that posts each request to its URL, on a connection of its own (RFC 9112).
///
/// A started call waits until a poll finds no outcome ready; that poll makes up to 16 calls at once, and then they are told one by
/// one. A call without an answer is lost, with a note that says why. The link tells nothing of what it did, and never answers
/// `Failed`.
#[derive(Drop)]
pub struct HttpLink<'a> {
    alloc: Global,
    caller: &'a Caller,
    /// The calls that are not made yet, oldest first.
    waiting: VecDeque<Started>,
    /// The calls that are made and not told yet, oldest first.
    ready: VecDeque<Made>,
    /// How many calls it told as lost.
    lost: u64,
}

impl<'a> HttpLink<'a> {
    /// A link whose calls are made by this caller. Takes no memory.
    pub fn new(alloc: Global, caller: &'a Caller) -> HttpLink<'a>
        ensures waiting { result.waiting.items ≡ [] }
        ensures ready { result.ready.items ≡ [] }
        ensures lost { result.lost ≡ 0 }
    {
        HttpLink {
            alloc,
            caller,
            waiting: VecDeque::new(alloc),
            ready: VecDeque::new(alloc),
            lost: 0,
        }
    }
}

impl Link for HttpLink<'_> {
    ghost journal = { λ _. None };

    ghost exchanges = { λ _. [] };

    ghost faults = { λ _. 0 };

    ghost losses = { λ link. link.lost };

    /// Lets the call wait for the next poll that finds no outcome ready.
    fn start(&mut self, call: Call, url: &Text, request: &[u8]) -> Result<(), Fault> {
        let url = url.try_clone(self.alloc)?;
        let request = Bytes::copy_of(self.alloc, request)?;
        self.waiting.push_back(Started { call, url, request })?;
        Ok(())
    }

    /// The outcome that has been ready longest. Where none is, the calls that wait are made first, so that it may wait for their
    /// peers.
    fn poll(&mut self, _wait: u32) -> Result<Option<Outcome>, Fault> {
        if self.ready.is_empty() {
            make_waiting(self.alloc, self.caller, &mut self.waiting, &mut self.ready)?;
        }
        let Some(Made { call, what }) = self.ready.pop_front() else {
            return Ok(None);
        };
        let Some(what) = what else {
            return Err(Fault::OutOfMemory);
        };
        self.lost = lost_behind(self.lost, &what);
        Ok(Some(Outcome { call, what }))
    }
}

/// Makes the calls that have waited longest, up to 16 at once.
fn make_waiting(
    alloc: Global,
    caller: &Caller,
    waiting: &mut VecDeque<Started>,
    ready: &mut VecDeque<Made>,
) -> Mem<()> {
    let mut calls = Vec::new(alloc);
    for _ in 0..AT_ONCE {
        let Some(started) = waiting.pop_front() else {
            break;
        };
        calls.push(started)?;
    }
    for made in caller.make(calls)? {
        ready.push_back(made)?;
    }
    Ok(())
}

/// The count of losses behind what was told of a call. It stays at its last value.
fn lost_behind(lost: u64, what: &Answered) -> u64
    ensures { LostRoseBy lost result what.now }
{
    match what {
        Answered::Lost(_) => lost.saturating_add(1),
        Answered::Answer(_) => lost,
    }
}

/// Makes calls at once, each on a thread of its own that is joined. A socket waits 10 seconds for its peer at most, and an answer has
/// at most 4,194,304 bytes.
pub fn make_all<R: Connect + Threads + Sync>(
    rt: &R,
    alloc: Global,
    calls: Vec<Started>,
) -> Mem<Vec<Made>> {
    Ok(thread::map_vec(rt, calls, &|started| make(rt, alloc, started))?)
}
