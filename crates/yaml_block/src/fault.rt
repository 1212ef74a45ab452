//! Why a text is refused.
ghost use Rattle.std.specs.Prelude.{◌≡◌};
ghost use Rattle.yaml_block.specs.declared.fault.YamlFault.TheVariants.{OutOfMemory as NoMemory};
ghost use Rattle.yaml_block.specs.declared.fault.BlockFault.TheVariants.{OutOfMemory as NoMemoryLeft};

use proto_wire::{ModuleKind, OutOfMemory};
use std::alloc::{AllocError, AllocFailed};

/// Why there are no trees.
#[derive(Clone, Copy, Debug, PartialEq, Eq)]
pub enum YamlFault {
    /// The first line that the profile refuses, and in it the leftmost fault.
    Refused {
        /// The document, from 1. Those that stand before it without a node are not counted. 0 where the whole text is
        /// at fault.
        document: u32,
        /// The line, from 1. 0 where the text is too long.
        line: u32,
        kind: ModuleKind,
    },
    /// The call could not get the memory that it asked for.
    OutOfMemory,
}

impl From<OutOfMemory> for YamlFault {
    ghost from_gives = { λ _ fault. fault ≡ NoMemory };

    fn from(_: OutOfMemory) -> YamlFault {
        YamlFault::OutOfMemory
    }
}

impl From<AllocError> for YamlFault {
    ghost from_gives = { λ _ fault. fault ≡ NoMemory };

    fn from(_: AllocError) -> YamlFault {
        YamlFault::OutOfMemory
    }
}

/// The first refusal in a block.
#[derive(Clone, Copy, Debug, PartialEq, Eq)]
pub(crate) struct Refusal {
    pub(crate) line: u32,
    pub(crate) kind: ModuleKind,
}

/// Why a block was not read.
#[derive(Clone, Copy, Debug, PartialEq, Eq)]
pub(crate) enum BlockFault {
    Refused(Refusal),
    OutOfMemory,
}

impl From<OutOfMemory> for BlockFault {
    ghost from_gives = { λ _ fault. fault ≡ NoMemoryLeft };

    fn from(_: OutOfMemory) -> BlockFault {
        BlockFault::OutOfMemory
    }
}

impl From<AllocError> for BlockFault {
    ghost from_gives = { λ _ fault. fault ≡ NoMemoryLeft };

    fn from(_: AllocError) -> BlockFault {
        BlockFault::OutOfMemory
    }
}

impl<T: Drop> From<AllocFailed<T>> for BlockFault {
    ghost from_gives = { λ _ fault. fault ≡ NoMemoryLeft };

    fn from(_: AllocFailed<T>) -> BlockFault {
        BlockFault::OutOfMemory
    }
}
