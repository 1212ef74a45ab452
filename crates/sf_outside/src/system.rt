//! What the system answers.
ghost use Rattle.std.specs.Prelude.{◌≡◌, IfOk};
ghost use Rattle.std.specs.String.{string_bytes};
ghost use Rattle.sf_outside.specs.System.{log_path, fault_by};

use crate::Fault;
use proto_wire::Mem;
use std::alloc::Global;
use std::io::ErrorKind;

/// What an error of this kind means.
pub(crate) fn fault_of(kind: ErrorKind) -> Fault
    ensures { result ≡ fault_by kind }
{
    match kind {
        ErrorKind::OutOfMemory => Fault::OutOfMemory,
        _ => Fault::Failed,
    }
}

/// The log of a split in a folder.
pub(crate) fn path_of(alloc: Global, folder: &str, split: u32) -> Mem<String>
    ensures { IfOk result (λ path. string_bytes path ≡ log_path folder.now split) }
{
    Ok(format!(in alloc; "{folder}/split-{split}.log")?)
}
