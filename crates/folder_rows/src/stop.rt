//! Why a life of a folder ends early.
use proto_wire::OutOfMemory;
use row_text::Failure;
use std::alloc::Global;
use store_faults::StoreFault;

/// Why a life of a folder ends early.
#[derive(Drop)]
pub enum Stop {
    /// The folder has no answer.
    Fault(StoreFault),
    /// The program gives up.
    Failure(Failure),
}

impl From<StoreFault> for Stop {
    fn from(fault: StoreFault) -> Stop {
        Stop::Fault(fault)
    }
}

impl From<Failure> for Stop {
    fn from(failure: Failure) -> Stop {
        Stop::Failure(failure)
    }
}

impl From<OutOfMemory> for Stop {
    fn from(_: OutOfMemory) -> Stop {
        Stop::Failure(Failure::OutOfMemory)
    }
}

/// A fault of the folder, where the program does not give up.
pub(crate) fn refusal(stop: Stop) -> Result<StoreFault, Failure> {
    match stop {
        Stop::Fault(StoreFault::OutOfMemory) => Err(Failure::OutOfMemory),
        Stop::Fault(fault) => Ok(fault),
        Stop::Failure(failure) => Err(failure),
    }
}

/// The words of a fault.
pub(crate) fn fault_word(alloc: Global, fault: &StoreFault) -> Result<String, Failure> {
    match fault {
        StoreFault::DiskFault => Ok(String::from_str(alloc, "disk fault")?),
        StoreFault::NotAStore { file, place } => {
            Ok(format!(in alloc; "not a store {file} {place}")?)
        }
        StoreFault::StoreOfOther { .. } => Ok(String::from_str(alloc, "other")?),
        StoreFault::OutOfMemory => Err(Failure::OutOfMemory),
    }
}
