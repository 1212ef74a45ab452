//! Why the program gave no line.
use proto_wire::{DecodeFault, OutOfMemory};
use std::alloc::{AllocError, AllocFailed};
use std::io;
use yaml_block::YamlFault;

/// Why the program gave no line.
#[derive(Clone, Copy, Debug, PartialEq, Eq)]
pub(crate) enum Failure {
    /// The words are not a work and two numbers.
    Words,
    /// A message that was encoded was not decoded, or the module file is refused.
    Fault,
    /// A call could not get the memory that it asked for.
    OutOfMemory,
    /// The words could not be read, or the line not be written.
    System,
}

impl Failure {
    /// The exit status that tells of it.
    pub(crate) fn status(self) -> u8 {
        match self {
            Failure::Words => 2,
            Failure::Fault => 3,
            Failure::OutOfMemory => 4,
            Failure::System => 5,
        }
    }

    /// What is told of it.
    pub(crate) fn text(self) -> &'static str {
        match self {
            Failure::Words => {
                "the words are: letters|request|answer|cells|mail|mailboxes|delays|replay|egresses|judged|module NUMBER ROUNDS"
            }
            Failure::Fault => "a message was not decoded, or the module file is refused",
            Failure::OutOfMemory => "out of memory",
            Failure::System => "the words could not be read, or the line not be written",
        }
    }
}

impl From<OutOfMemory> for Failure {
    fn from(_: OutOfMemory) -> Failure {
        Failure::OutOfMemory
    }
}

impl From<AllocError> for Failure {
    fn from(_: AllocError) -> Failure {
        Failure::OutOfMemory
    }
}

impl<T: Drop> From<AllocFailed<T>> for Failure {
    fn from(_: AllocFailed<T>) -> Failure {
        Failure::OutOfMemory
    }
}

impl From<DecodeFault> for Failure {
    fn from(fault: DecodeFault) -> Failure {
        match fault {
            DecodeFault::Wire(_) => Failure::Fault,
            DecodeFault::OutOfMemory => Failure::OutOfMemory,
        }
    }
}

impl From<YamlFault> for Failure {
    fn from(fault: YamlFault) -> Failure {
        match fault {
            YamlFault::Refused { .. } => Failure::Fault,
            YamlFault::OutOfMemory => Failure::OutOfMemory,
        }
    }
}

impl From<io::Error> for Failure {
    fn from(_: io::Error) -> Failure {
        Failure::System
    }
}
