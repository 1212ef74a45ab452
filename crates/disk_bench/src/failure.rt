//! Why the program gives up.
use block_log::LogFault;
use proto_wire::OutOfMemory;
use std::alloc::{AllocError, AllocFailed};
use std::io;
use std::num::ParseIntError;

/// Why the program gives up.
#[derive(Clone, Copy, Debug, PartialEq, Eq)]
pub enum Failure {
    /// The words are none of the three lists.
    Words,
    /// The disk failed.
    Disk,
    /// The file is no log.
    NotALog,
    /// A block's body is not its number.
    Number,
    /// A call could not get the memory that it asked for.
    OutOfMemory,
    /// A line could not be written.
    System,
}

impl Failure {
    /// The exit status that tells of it.
    pub(crate) fn status(self) -> u8 {
        match self {
            Failure::Words => 2,
            Failure::Disk => 3,
            Failure::NotALog => 4,
            Failure::Number => 5,
            Failure::OutOfMemory => 6,
            Failure::System => 7,
        }
    }

    /// What is told of it.
    pub(crate) fn text(self) -> &'static str {
        match self {
            Failure::Words => {
                "the words are append FOLDER COUNT SIZE, number FOLDER COUNT or check FOLDER"
            }
            Failure::Disk => "the disk failed",
            Failure::NotALog => "the file is no log",
            Failure::Number => "a block's body is not its number",
            Failure::OutOfMemory => "out of memory",
            Failure::System => "a line could not be written",
        }
    }
}

impl From<LogFault> for Failure {
    fn from(fault: LogFault) -> Failure {
        match fault {
            LogFault::DiskFault => Failure::Disk,
            LogFault::NotALog { place: _ } => Failure::NotALog,
            LogFault::OutOfMemory => Failure::OutOfMemory,
        }
    }
}

impl From<OutOfMemory> for Failure {
    fn from(_: OutOfMemory) -> Failure {
        Failure::OutOfMemory
    }
}

impl From<AllocError> for Failure {
    fn from(_: AllocError) -> Failure {
        Failure::OutOfMemory
    }
}

impl<T: Drop> From<AllocFailed<T>> for Failure {
    fn from(_: AllocFailed<T>) -> Failure {
        Failure::OutOfMemory
    }
}

impl From<ParseIntError> for Failure {
    fn from(_: ParseIntError) -> Failure {
        Failure::Words
    }
}

impl From<io::Error> for Failure {
    fn from(_: io::Error) -> Failure {
        Failure::System
    }
}
