//! Which calls on a form in memory fail.
ghost use Rattle.std.specs.Prelude.{◌≡◌, ◌↔◌, ◌+◌, ◌-◌, ◌^◌, min, Contains, IsErr, OnErr, OnOk, IfErr};
ghost use Rattle.sf_outside.specs.declared.fault.Fault.TheVariants.{Failed as HasFailed};
ghost use Rattle.sf_outside.specs.Told.{HasCause};
ghost use Rattle.sf_outside.specs.Failing.{IsFresh, CountsOne};

use crate::Fault;
use proto_wire::List;

/// The calls made so far, and those that fail.
#[derive(Drop)]
pub struct CallCount {
    /// How many calls were made. It stays at its last value.
    made: u64,
    /// The numbers, from 0, of the calls that fail.
    failing: List<u64>,
    /// How many failed. It stays at its last value.
    faults: u64,
}

impl CallCount {
    /// No call was made. Takes no memory.
    pub(crate) fn new(failing: List<u64>) -> CallCount
        ensures { IsFresh failing result }
    {
        CallCount {
            made: 0,
            failing,
            faults: 0,
        }
    }

    /// Counts one more call, which fails exactly where its number is listed.
    pub(crate) fn enter(&mut self) -> Result<(), Fault>
        ensures fails { IsErr result ↔ Contains self.old.failing self.old.made }
        ensures fault { IfErr result (λ fault. fault ≡ HasFailed) }
        ensures counted { CountsOne self.old self.new }
        ensures cause { HasCause self.old.faults self.new.faults result }
        ensures faults { OnErr result (self.new.faults ≡ min (self.old.faults + 1) (2 ^ 64 - 1)) }
    {
        let fails = self.failing.as_slice().contains(&self.made);
        self.made = self.made.saturating_add(1);
        if fails {
            self.faults = self.faults.saturating_add(1);
            return Err(Fault::Failed);
        }
        Ok(())
    }
}
