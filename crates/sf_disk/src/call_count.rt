//! Which calls on a disk in memory fail.
ghost use Rattle.std.specs.Prelude.{◌≡◌, ◌↔◌, ◌≤◌, Some, IsErr, IfErr, IsTrue, IsSomeAnd};
ghost use Rattle.sf_outside.specs.declared.fault.Fault.TheVariants.{Failed as HasFailed};
ghost use Rattle.sf_outside.specs.Told.{HasCause};
ghost use Rattle.sf_disk.specs.Failing.{IsFresh, FailsNext, CountsOne};

use proto_wire::List;
use sf_outside::Fault;

/// The calls made so far, and those that fail.
#[derive(Drop)]
pub struct CallCount {
    /// How many calls were made. It stays at its last value.
    made: u64,
    /// The numbers, from 0, of the calls that fail.
    failing: List<u64>,
    /// The number from which on every call fails.
    stop: Option<u64>,
    /// How many failed. It stays at its last value.
    faults: u64,
}

impl CallCount {
    /// No call was made, and none stops all.
    pub(crate) fn new(failing: List<u64>) -> CallCount
        ensures { IsFresh failing result }
    {
        CallCount {
            made: 0,
            failing,
            stop: None,
            faults: 0,
        }
    }

    /// From call k on every call fails.
    pub(crate) fn stop_at(&mut self, k: u64)
        ensures made { self.new.made ≡ self.old.made }
        ensures listed { self.new.failing ≡ self.old.failing }
        ensures stop { self.new.stop ≡ Some k }
        ensures faults { self.new.faults ≡ self.old.faults }
    {
        self.stop = Some(k);
    }

    /// Counts one more call, which fails exactly where it is listed, or all have stopped.
    pub(crate) fn enter(&mut self) -> Result<(), Fault>
        ensures fails { IsErr result ↔ FailsNext self.old }
        ensures fault { IfErr result (λ fault. fault ≡ HasFailed) }
        ensures counted { CountsOne self.old self.new }
        ensures cause { HasCause self.old.faults self.new.faults result }
    {
        let listed = self.failing.as_slice().contains(&self.made);
        let fails = listed || is_reached(self.stop, self.made);
        self.made = self.made.saturating_add(1);
        if fails {
            self.faults = self.faults.saturating_add(1);
            return Err(Fault::Failed);
        }
        Ok(())
    }
}

fn is_reached(stop: Option<u64>, made: u64) -> bool
    ensures { IsTrue result ↔ IsSomeAnd stop (λ k. k ≤ made) }
{
    match stop {
        Some(k) => k <= made,
        None => false,
    }
}
