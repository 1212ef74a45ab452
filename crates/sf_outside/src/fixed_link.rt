//! A link with one answer for every call.
ghost use Rattle.std.specs.Prelude.{◌≡◌, ◌++◌, [], ◌∷◌, None, drop, IfOk, OnOk, OnErr};
ghost use Rattle.sf_outside.specs.declared.call.LinkEvent.TheVariants.{Started as WasStarted, Polled as WasPolled};
ghost use Rattle.sf_outside.specs.Told.{HasCause, more};
ghost use Rattle.sf_outside.specs.Answers.{Extends, IsAnswered, LostRose};
ghost use Rattle.sf_outside.specs.Fixed.{first_answered};

use crate::{Answered, Call, Fault, Link, Outcome};
use proto_wire::{Bytes, Text, TryClone};
use std::alloc::Global;
use std::collections::VecDeque;

/// A link that answers each call that was started once, in their order, with the same bytes. It never fails, loses no
/// call, sends nothing anywhere and tells nothing.
#[derive(Drop)]
pub struct FixedLink {
    alloc: Global,
    answer: Bytes,
    /// The calls without an answer yet, oldest first.
    waiting: VecDeque<Call>,
}

impl FixedLink {
    /// A link with this answer. Takes no memory.
    pub fn new(alloc: Global, answer: Bytes) -> FixedLink
        ensures answer { result.answer ≡ answer }
        ensures waiting { result.waiting.items ≡ [] }
    {
        FixedLink {
            alloc,
            answer,
            waiting: VecDeque::new(alloc),
        }
    }
}

impl Link for FixedLink {
    ghost journal = { λ _. None };

    ghost exchanges = { λ _. [] };

    ghost faults = { λ _. 0 };

    ghost losses = { λ _. 0 };

    /// Lets the call wait for its answer.
    fn start(&mut self, call: Call, _url: &Text, _request: &[u8]) -> Result<(), Fault>
        ensures cause { HasCause 0 0 result }
        ensures waits { OnOk result (self.new.waiting.items ≡ self.old.waiting.items ++ call ∷ []) }
        ensures stays { OnErr result (self.new.waiting.items ≡ self.old.waiting.items) }
        ensures answer { self.new.answer ≡ self.old.answer }
    {
        self.waiting.push_back(call)?;
        Ok(())
    }

    /// Answers the call that waits longest. Waits for nothing.
    fn poll(&mut self, _wait: u32) -> Result<Option<Outcome>, Fault>
        ensures lost { LostRose 0 0 result }
        ensures cause { HasCause 0 0 result }
        ensures answers { IfOk result (λ outcome. outcome ≡ first_answered self.old.waiting.items self.old.answer) }
        ensures taken { OnOk result (self.new.waiting.items ≡ drop 1 self.old.waiting.items) }
        ensures stays { OnErr result (self.new.waiting.items ≡ self.old.waiting.items) }
        ensures answer { self.new.answer ≡ self.old.answer }
    {
        if self.waiting.is_empty() {
            return Ok(None);
        }
        let answer = self.answer.try_clone(self.alloc)?;
        match self.waiting.pop_front() {
            Some(call) => Ok(Some(Outcome {
                call,
                what: Answered::Answer(answer),
            })),
            None => Ok(None),
        }
    }
}
