//! What the files of a folder are called, and what the system answers.
ghost use Rattle.std.specs.Prelude.{◌≡◌, IfOk};
ghost use Rattle.std.specs.String.{string_bytes};
ghost use Rattle.sf_disk.specs.Names.{file_path, fault_by};

use proto_wire::Mem;
use sf_outside::Fault;
use std::alloc::Global;
use std::io::ErrorKind;

/// The path of a file: 0 is the manifest, 1 the egress, and from 2 on the pieces of each partition.
pub(crate) fn path_of(alloc: Global, folder: &str, file: u32) -> Mem<String>
    ensures { IfOk result (λ path. string_bytes path ≡ file_path folder.now file) }
{
    let path = match file {
        0 => format!(in alloc; "{folder}/manifest")?,
        1 => format!(in alloc; "{folder}/egress")?,
        _ => {
            let partition = file - 2;
            format!(in alloc; "{folder}/pieces-{partition}")?
        }
    };
    Ok(path)
}

/// What an error of this kind means.
pub(crate) fn fault_of(kind: ErrorKind) -> Fault
    ensures { result ≡ fault_by kind }
{
    match kind {
        ErrorKind::OutOfMemory => Fault::OutOfMemory,
        _ => Fault::Failed,
    }
}
