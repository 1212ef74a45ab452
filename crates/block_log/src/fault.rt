//! Why a log has no answer.
ghost use Rattle.std.specs.Prelude.{◌≡◌};
ghost use Rattle.block_log.specs.Faults.{of_fault};
ghost use Rattle.block_log.specs.declared.fault.LogFault.TheVariants.{OutOfMemory as WantsMemory};

use proto_wire::OutOfMemory;
use sf_outside::Fault;
use std::alloc::AllocError;
use thiserror::Error;

/// Why a log has no answer.
#[derive(Clone, Copy, Debug, PartialEq, Eq, Error)]
pub enum LogFault {
    /// The disk failed, and its count of faults rose.
    #[error("the disk failed")]
    DiskFault,
    /// The file is no log: the gate at that place is open, and its block does not fit.
    #[error("no log, by the gate at {place}")]
    NotALog { place: u64 },
    /// The call could not get the memory that it asked for.
    #[error("out of memory")]
    OutOfMemory,
}

impl From<Fault> for LogFault {
    ghost from_gives = { λ fault e. e ≡ of_fault fault };

    fn from(fault: Fault) -> LogFault {
        match fault {
            Fault::Failed => LogFault::DiskFault,
            Fault::OutOfMemory => LogFault::OutOfMemory,
        }
    }
}

impl From<OutOfMemory> for LogFault {
    ghost from_gives = { λ _ e. e ≡ WantsMemory };

    fn from(_: OutOfMemory) -> LogFault {
        LogFault::OutOfMemory
    }
}

impl From<AllocError> for LogFault {
    ghost from_gives = { λ _ e. e ≡ WantsMemory };

    fn from(_: AllocError) -> LogFault {
        LogFault::OutOfMemory
    }
}
