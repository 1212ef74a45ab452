//! Why a module file is refused.
ghost use Rattle.std.specs.Prelude.{◌≡◌};
ghost use Rattle.proto_wire.specs.declared.module_kind.ModuleKind.TheVariants.{BadValue};
ghost use Rattle.module_yaml.specs.declared.fault.ModuleFault.TheVariants.{OutOfMemory as NoMemory};
ghost use Rattle.module_yaml.specs.declared.fault.Fault.TheVariants.{OutOfMemory as NoMemoryLeft};

use proto_wire::{ModuleKind, OutOfMemory};

/// Why a module file gives no module.
#[derive(Clone, Copy, Debug, PartialEq, Eq)]
pub enum ModuleFault {
    /// The first refusal.
    Refused {
        /// The document, from 1; documents without a node are not counted. 0 where the whole file is at fault.
        document: u32,
        /// The line, from 1. 0 where none is at fault.
        line: u32,
        kind: ModuleKind,
    },
    /// The call could not get the memory that it asked for.
    OutOfMemory,
}

impl From<OutOfMemory> for ModuleFault {
    ghost from_gives = { λ _ fault. fault ≡ NoMemory };

    fn from(_: OutOfMemory) -> ModuleFault {
        ModuleFault::OutOfMemory
    }
}

/// A refusal in a document.
#[derive(Clone, Copy, Debug, PartialEq, Eq)]
pub(crate) struct Refusal {
    pub(crate) line: u32,
    pub(crate) kind: ModuleKind,
}

/// Why a part of a document was not read.
#[derive(Clone, Copy, Debug, PartialEq, Eq)]
pub(crate) enum Fault {
    Refused(Refusal),
    OutOfMemory,
}

impl From<OutOfMemory> for Fault {
    ghost from_gives = { λ _ fault. fault ≡ NoMemoryLeft };

    fn from(_: OutOfMemory) -> Fault {
        Fault::OutOfMemory
    }
}

/// A refusal on a line.
pub(crate) fn refused(line: u32, kind: ModuleKind) -> Fault
    ensures { result ≡ Fault.Refused (record { line = line; kind = kind }) }
{
    Fault::Refused(Refusal { line, kind })
}

/// A bad value on a line.
pub(crate) fn bad(line: u32) -> Fault
    ensures { result ≡ Fault.Refused (record { line = line; kind = BadValue }) }
{
    refused(line, ModuleKind::BadValue)
}
