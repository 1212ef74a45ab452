//! Why a folder of checkpoints has no answer.
ghost use Rattle.std.specs.Prelude.{◌≡◌};
ghost use Rattle.store_faults.specs.Faults.{fault_in};
ghost use Rattle.store_faults.specs.declared.fault.StoreFault.TheVariants.{OutOfMemory as WantsMemory};

use block_log::LogFault;
use proto_wire::{OutOfMemory, Text};
use std::alloc::{AllocError, AllocFailed};

/// Why a folder of checkpoints has no answer.
#[derive(Drop)]
pub enum StoreFault {
    /// The disk failed, and its count of faults rose.
    DiskFault,
    /// The bytes of a file break its form at that place.
    NotAStore { file: u32, place: u64 },
    /// The folder is of another job.
    StoreOfOther { kept: Text, given: Text },
    /// The call could not get the memory that it asked for.
    OutOfMemory,
}

impl From<OutOfMemory> for StoreFault {
    ghost from_gives = { λ _ e. e ≡ WantsMemory };

    fn from(_: OutOfMemory) -> StoreFault {
        StoreFault::OutOfMemory
    }
}

impl From<AllocError> for StoreFault {
    ghost from_gives = { λ _ e. e ≡ WantsMemory };

    fn from(_: AllocError) -> StoreFault {
        StoreFault::OutOfMemory
    }
}

impl<T: Drop> From<AllocFailed<T>> for StoreFault {
    ghost from_gives = { λ _ e. e ≡ WantsMemory };

    fn from(_: AllocFailed<T>) -> StoreFault {
        StoreFault::OutOfMemory
    }
}

/// What the fault of a log makes of the folder that has it as this file.
pub fn in_file(file: u32, fault: LogFault) -> StoreFault
    ensures { result ≡ fault_in file fault }
{
    match fault {
        LogFault::DiskFault => StoreFault::DiskFault,
        LogFault::NotALog { place } => StoreFault::NotAStore { file, place },
        LogFault::OutOfMemory => StoreFault::OutOfMemory,
    }
}
