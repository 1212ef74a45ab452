//! Calls of functions over a link, and what becomes of them.
use proto_wire::{Bytes, Mem, Text, TryClone};
use std::alloc::Global;

/// The number of a call: no two calls of a run have the same one.
#[derive(Clone, Copy, Debug, PartialEq, Eq, PartialOrd, Ord, Hash)]
pub struct Call {
    /// The leg in which it was started.
    pub leg: u64,
    /// The partition that started it.
    pub partition: u32,
    /// Its number, from 0, among those that this partition started in this leg.
    pub turn: u32,
}

impl TryClone for Call {
    fn try_clone(&self, _alloc: Global) -> Mem<Call> {
        Ok(*self)
    }
}

/// What became of a call.
#[derive(Drop)]
pub enum Answered {
    /// The endpoint's answer.
    Answer(Bytes),
    /// No answer came, with the link's note on why.
    Lost(u32),
}

impl TryClone for Answered {
    fn try_clone(&self, alloc: Global) -> Mem<Answered> {
        match self {
            Answered::Answer(answer) => Ok(Answered::Answer(answer.try_clone(alloc)?)),
            Answered::Lost(note) => Ok(Answered::Lost(*note)),
        }
    }
}

/// What a link tells of one call. It may come late, and more than once.
#[derive(Drop)]
pub struct Outcome {
    pub call: Call,
    pub what: Answered,
}

impl TryClone for Outcome {
    fn try_clone(&self, alloc: Global) -> Mem<Outcome> {
        Ok(Outcome {
            call: self.call,
            what: self.what.try_clone(alloc)?,
        })
    }
}

/// One thing that a link did.
#[derive(Drop)]
pub enum LinkEvent {
    /// It started a call: `request` goes to `url`.
    Started {
        call: Call,
        url: Text,
        request: Bytes,
    },
    /// It answered a poll.
    Polled(Option<Outcome>),
}

impl TryClone for LinkEvent {
    fn try_clone(&self, alloc: Global) -> Mem<LinkEvent> {
        match self {
            LinkEvent::Started { call, url, request } => Ok(LinkEvent::Started {
                call: *call,
                url: url.try_clone(alloc)?,
                request: request.try_clone(alloc)?,
            }),
            LinkEvent::Polled(None) => Ok(LinkEvent::Polled(None)),
            LinkEvent::Polled(Some(outcome)) => {
                Ok(LinkEvent::Polled(Some(outcome.try_clone(alloc)?)))
            }
        }
    }
}

/// One request and the answer that the endpoint gave to it.
#[derive(Drop)]
pub struct Exchange {
    pub call: Call,
    pub url: Text,
    pub request: Bytes,
    pub answer: Bytes,
}

impl TryClone for Exchange {
    fn try_clone(&self, alloc: Global) -> Mem<Exchange> {
        Ok(Exchange {
            call: self.call,
            url: self.url.try_clone(alloc)?,
            request: self.request.try_clone(alloc)?,
            answer: self.answer.try_clone(alloc)?,
        })
    }
}
