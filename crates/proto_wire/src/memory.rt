//! Want of memory, and how plain values are copied.
ghost use Rattle.std.specs.Prelude.{◌≡◌, IfOk};
ghost use Rattle.proto_wire.specs.declared.memory.OutOfMemory.{OutOfMemory};

use std::alloc::{AllocError, AllocFailed, Global};
use std::fmt;

/// The call could not get the memory that it asked for.
#[derive(Clone, Copy, Debug, PartialEq, Eq, PartialOrd, Ord, Hash)]
pub struct OutOfMemory;

/// What a call that may want memory answers.
pub type Mem<T> = Result<T, OutOfMemory>;

impl fmt::Display for OutOfMemory {
    fn fmt<W: fmt::Write>(&self, f: &mut fmt::Formatter<W>) -> fmt::Result {
        write!(f, "out of memory")
    }
}

impl From<AllocError> for OutOfMemory {
    ghost from_gives = { λ _ e. e ≡ record {} };

    fn from(_: AllocError) -> OutOfMemory {
        OutOfMemory
    }
}

impl<T: Drop> From<AllocFailed<T>> for OutOfMemory {
    ghost from_gives = { λ _ e. e ≡ record {} };

    fn from(_: AllocFailed<T>) -> OutOfMemory {
        OutOfMemory
    }
}

/// A value that can be copied, memory permitting.
pub trait TryClone {
    /// The same value again, in memory of its own.
    fn try_clone(&self, alloc: Global) -> Mem<Self>
        ensures { IfOk result (λ copy. copy ≡ self.now) };
}

impl<T: TryClone> TryClone for Option<T> {
    fn try_clone(&self, alloc: Global) -> Mem<Option<T>> {
        match self {
            Some(value) => Ok(Some(value.try_clone(alloc)?)),
            None => Ok(None),
        }
    }
}
