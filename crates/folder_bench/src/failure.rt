//! Why the program gives up.
use proto_wire::OutOfMemory;
use std::alloc::{AllocError, AllocFailed};
use std::io;
use std::num::ParseIntError;
use store_faults::StoreFault;

/// Why the program gives up.
#[derive(Clone, Copy, Debug, PartialEq, Eq)]
pub enum Failure {
    /// The words are none of the lists.
    Words,
    /// The disk failed.
    Disk,
    /// The folder is none of checkpoints, or of another job.
    NotAStore,
    /// A call could not get the memory that it asked for.
    OutOfMemory,
    /// A line could not be written.
    System,
}

impl Failure {
    /// The exit status that tells of it.
    pub(crate) fn status(self) -> u8 {
        match self {
            Failure::Words => 2,
            Failure::Disk => 3,
            Failure::NotAStore => 4,
            Failure::OutOfMemory => 6,
            Failure::System => 7,
        }
    }

    /// What is told of it.
    pub(crate) fn text(self) -> &'static str {
        match self {
            Failure::Words => {
                "the words are make FOLDER CHECKPOINTS ENTRIES, large FOLDER LETTERS SIZE, open FOLDER, load FOLDER, read FOLDER or whole FOLDER CHECKPOINTS ENTRIES"
            }
            Failure::Disk => "the disk failed",
            Failure::NotAStore => "the folder is none of checkpoints of the job",
            Failure::OutOfMemory => "out of memory",
            Failure::System => "a line could not be written",
        }
    }
}

impl From<StoreFault> for Failure {
    fn from(fault: StoreFault) -> Failure {
        match fault {
            StoreFault::DiskFault => Failure::Disk,
            StoreFault::NotAStore { .. } => Failure::NotAStore,
            StoreFault::StoreOfOther { .. } => Failure::NotAStore,
            StoreFault::OutOfMemory => Failure::OutOfMemory,
        }
    }
}

impl From<OutOfMemory> for Failure {
    fn from(_: OutOfMemory) -> Failure {
        Failure::OutOfMemory
    }
}

impl From<AllocError> for Failure {
    fn from(_: AllocError) -> Failure {
        Failure::OutOfMemory
    }
}

impl<T: Drop> From<AllocFailed<T>> for Failure {
    fn from(_: AllocFailed<T>) -> Failure {
        Failure::OutOfMemory
    }
}

impl From<ParseIntError> for Failure {
    fn from(_: ParseIntError) -> Failure {
        Failure::Words
    }
}

impl From<io::Error> for Failure {
    fn from(_: io::Error) -> Failure {
        Failure::System
    }
}
