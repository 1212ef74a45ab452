//! Why a call on the outside has no answer.
ghost use Rattle.std.specs.Prelude.{◌≡◌};
ghost use Rattle.sf_outside.specs.declared.fault.Fault.TheVariants.{OutOfMemory as WantsMemory};

use proto_wire::OutOfMemory;
use std::alloc::{AllocError, AllocFailed};

/// Why a call on the outside has no answer.
#[derive(Clone, Copy, Debug, PartialEq, Eq)]
pub enum Fault {
    /// The object failed, and its count of faults rose.
    Failed,
    /// The call could not get the memory that it asked for.
    OutOfMemory,
}

impl From<OutOfMemory> for Fault {
    ghost from_gives = { λ _ e. e ≡ WantsMemory };

    fn from(_: OutOfMemory) -> Fault {
        Fault::OutOfMemory
    }
}

impl From<AllocError> for Fault {
    ghost from_gives = { λ _ e. e ≡ WantsMemory };

    fn from(_: AllocError) -> Fault {
        Fault::OutOfMemory
    }
}

impl<T: Drop> From<AllocFailed<T>> for Fault {
    ghost from_gives = { λ _ e. e ≡ WantsMemory };

    fn from(_: AllocFailed<T>) -> Fault {
        Fault::OutOfMemory
    }
}
