//! Why a program of rows gives up.
ghost use Rattle.std.specs.Prelude.{◌≡◌};
ghost use Rattle.row_text.specs.declared.failure.Failure.TheVariants as failures;

use hex::FromHexError;
use proto_wire::{DecodeFault, OutOfMemory};
use std::alloc::{AllocError, AllocFailed};
use std::io;
use std::num::ParseIntError;
use std::str::Utf8Error;

/// Why a program of rows gives up.
#[derive(Clone, Copy, Debug, PartialEq, Eq)]
pub enum Failure {
    /// A row is not of its form.
    Row,
    /// A call could not get the memory that it asked for.
    OutOfMemory,
    /// Rows could not be read, or lines not be written.
    System,
}

impl Failure {
    /// The exit status that tells of it.
    pub(crate) fn status(self) -> u8 {
        match self {
            Failure::Row => 3,
            Failure::OutOfMemory => 4,
            Failure::System => 5,
        }
    }

    /// What is told of it.
    pub(crate) fn text(self) -> &'static str {
        match self {
            Failure::Row => "the row behind the last line is not of its form",
            Failure::OutOfMemory => "out of memory",
            Failure::System => "rows could not be read, or lines not be written",
        }
    }
}

impl From<OutOfMemory> for Failure {
    fn from(_: OutOfMemory) -> Failure {
        Failure::OutOfMemory
    }
}

impl From<AllocError> for Failure {
    ghost from_gives = { λ _ r. r ≡ failures.OutOfMemory };

    fn from(_: AllocError) -> Failure {
        Failure::OutOfMemory
    }
}

impl<T: Drop> From<AllocFailed<T>> for Failure {
    fn from(_: AllocFailed<T>) -> Failure {
        Failure::OutOfMemory
    }
}

impl From<ParseIntError> for Failure {
    fn from(_: ParseIntError) -> Failure {
        Failure::Row
    }
}

impl From<Utf8Error> for Failure {
    fn from(_: Utf8Error) -> Failure {
        Failure::Row
    }
}

impl From<io::Error> for Failure {
    fn from(_: io::Error) -> Failure {
        Failure::System
    }
}

impl From<DecodeFault> for Failure {
    fn from(fault: DecodeFault) -> Failure {
        match fault {
            DecodeFault::Wire(_) => Failure::Row,
            DecodeFault::OutOfMemory => Failure::OutOfMemory,
        }
    }
}

impl From<FromHexError> for Failure {
    fn from(error: FromHexError) -> Failure {
        match error {
            FromHexError::OutOfMemory => Failure::OutOfMemory,
            FromHexError::InvalidHexCharacter { .. }
            | FromHexError::OddLength
            | FromHexError::InvalidStringLength => Failure::Row,
        }
    }
}
