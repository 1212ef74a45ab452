//! A link in memory, which follows a script.
ghost use Rattle.std.specs.Prelude.{◌≡◌, ◌↔◌, ◌++◌, [], ◌∷◌, Some, slice_get, option_copied, option_to_list, IsOkAnd, IsErrOf, IfOk, OnOk, OnErr};
ghost use Rattle.sf_outside.specs.declared.fault.Fault.TheVariants.{Failed as HasFailed};
ghost use Rattle.sf_outside.specs.declared.call.LinkEvent.TheVariants.{Started as WasStarted, Polled as WasPolled};
ghost use Rattle.sf_outside.specs.Told.{HasCause, more};
ghost use Rattle.sf_outside.specs.Answers.{Extends, IsAnswered, LostRose};
ghost use Rattle.sf_outside.specs.Failing.{IsFresh, FailsNext, CountsOne};
ghost use Rattle.sf_outside.specs.Script.{told, exchange_of, losses_behind, turns_behind};
ghost use Rattle.sf_outside.specs.Untouched.{IsUntouched};

use crate::call_count::CallCount;
use crate::journal::Journal;
use crate::planned::{Planned, add, losses_behind, plan_of};
use crate::{Call, Exchange, Fault, Link, LinkEvent, Outcome, Turn};
use proto_wire::{Bytes, List, Mem, Text, TryClone};
use std::alloc::Global;

/// A link whose polls take the turns of a script one by one, and whose listed calls fail. It keeps all that it did.
#[derive(Drop)]
pub struct ScriptLink {
    alloc: Global,
    turns: List<Turn>,
    /// How many turns were taken.
    taken: usize,
    done: Journal,
    answered: List<Exchange>,
    lost: u64,
    count: CallCount,
}

impl ScriptLink {
    /// A link with this script. `fail` has the numbers, from 0, of the calls, starts and polls alike, that fail.
    /// It always succeeds.
    pub fn new(alloc: Global, turns: List<Turn>, fail: List<u64>) -> Mem<ScriptLink>
        ensures { IsOkAnd result (λ link. IsUntouched turns link × IsFresh fail link.count) }
    {
        Ok(ScriptLink {
            alloc,
            turns,
            taken: 0,
            done: Journal::new(alloc),
            answered: List::new(alloc),
            lost: 0,
            count: CallCount::new(fail),
        })
    }

    /// A link with this script, none of whose calls fails. It always succeeds.
    pub fn steady(alloc: Global, turns: List<Turn>) -> Mem<ScriptLink>
        ensures { IsOkAnd result (λ link. IsUntouched turns link × IsFresh [] link.count) }
    {
        ScriptLink::new(alloc, turns, List::new(alloc))
    }

    /// What it did, oldest first.
    pub fn journal(&self) -> &List<LinkEvent>
        ensures { result.now ≡ self.now.done }
    {
        self.done.events()
    }

    /// What was answered, oldest first.
    pub fn exchanges(&self) -> &List<Exchange>
        ensures { result.now ≡ self.now.answered }
    {
        &self.answered
    }
}

impl Link for ScriptLink {
    ghost journal = { λ link. Some link.done };

    ghost exchanges = { λ link. link.answered };

    ghost faults = { λ link. link.count.faults };

    ghost losses = { λ link. link.lost };

    /// Notes the start in the journal.
    fn start(&mut self, call: Call, url: &Text, request: &[u8]) -> Result<(), Fault>
        ensures started { OnOk result (Some self.new.done ≡ more (Some self.old.done) (WasStarted call url.now request.now ∷ [])) }
        ensures err { OnErr result (Some self.new.done ≡ Some self.old.done) }
        ensures exchanges { Extends self.old.answered self.new.answered }
        ensures losses { self.new.lost ≡ self.old.lost }
        ensures cause { HasCause self.old.count.faults self.new.count.faults result }
        // The exchanges and the script stand.
        ensures answered { self.new.answered ≡ self.old.answered }
        ensures script { (self.new.turns ≡ self.old.turns) × (self.new.taken ≡ self.old.taken) }
        // It fails exactly where it is listed.
        ensures fails { IsErrOf result HasFailed ↔ FailsNext self.old.count }
        ensures counted { CountsOne self.old.count self.new.count }
    {
        self.count.enter()?;
        let url = url.try_clone(self.alloc)?;
        let request = Bytes::copy_of(self.alloc, request)?;
        self.done.add_start(call, url, request)?;
        Ok(())
    }

    /// What the next turn tells. Waits for nothing.
    fn poll(&mut self, _wait: u32) -> Result<Option<Outcome>, Fault>
        ensures polled { IfOk result (λ outcome. Some self.new.done ≡ more (Some self.old.done) (WasPolled outcome ∷ [])) }
        ensures err { OnErr result (Some self.new.done ≡ Some self.old.done) }
        ensures exchanges { Extends self.old.answered self.new.answered }
        ensures answered { IfOk result (λ outcome. IsAnswered (Some self.old.done) self.new.answered outcome) }
        ensures lost { LostRose self.old.lost self.new.lost result }
        ensures cause { HasCause self.old.count.faults self.new.count.faults result }
        // It tells what the next turn tells, and takes that turn.
        ensures tells { IfOk result (λ outcome. outcome ≡ told self.old.done (slice_get self.old.turns self.old.taken)) }
        ensures taken { OnOk result (self.new.taken ≡ turns_behind self.old.turns self.old.taken) }
        ensures exchanged { OnOk result (self.new.answered
            ≡ self.old.answered ++ option_to_list (exchange_of self.old.done (slice_get self.old.turns self.old.taken))) }
        ensures losses { IfOk result (λ outcome. self.new.lost ≡ losses_behind self.old.lost outcome) }
        // Without an answer the turn stays.
        ensures stays { OnErr result ((self.new.taken ≡ self.old.taken) × (self.new.answered ≡ self.old.answered) × (self.new.lost ≡ self.old.lost)) }
        ensures turns { self.new.turns ≡ self.old.turns }
        // It fails exactly where it is listed.
        ensures fails { IsErrOf result HasFailed ↔ FailsNext self.old.count }
        ensures counted { CountsOne self.old.count self.new.count }
    {
        self.count.enter()?;
        let turn = turn_at(self.turns.as_slice(), self.taken);
        let Planned {
            outcome,
            copy,
            exchange,
        } = plan_of(self.alloc, &self.done, turn)?;
        add(
            self.alloc,
            &mut self.done,
            &mut self.answered,
            copy,
            exchange,
        )?;
        self.lost = losses_behind(self.lost, &outcome);
        if self.taken < self.turns.len() {
            self.taken += 1;
        }
        Ok(outcome)
    }
}

fn turn_at(turns: &[Turn], number: usize) -> Option<&Turn>
    ensures { option_copied result ≡ slice_get turns.now number }
{
    turns.get(number)
}
