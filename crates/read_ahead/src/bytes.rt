//! Bytes of a file of a disk.
ghost use Rattle.std.specs.Prelude.{◌≡◌, ◌+◌, ◌≤◌, length, take, drop, IfOk};
ghost use Rattle.sf_outside.specs.Told.{HasCause};
ghost use Rattle.sf_disk.specs.Moments.{WhereTold};

use proto_wire::Bytes;
use sf_disk::Disk;
use sf_outside::Fault;
use std::alloc::Global;

/// So many bytes of a file from `at` on.
pub(crate) fn bytes_at<D: Disk>(
    alloc: Global,
    disk: &mut D,
    file: u32,
    at: u64,
    len: u64,
) -> Result<Bytes, Fault>
    requires { WhereTold (D.moments disk.old) (λ now. at + len ≤ length (now file).seen) }
    ensures bytes { IfOk result (λ bytes. WhereTold (D.moments disk.old) (λ now. bytes ≡ take len (drop at (now file).seen))) }
    ensures len { IfOk result (λ bytes. length bytes ≡ len) }
    ensures same { D.moments disk.new ≡ D.moments disk.old }
    ensures cause { HasCause (D.faults disk.old) (D.faults disk.new) result }
{
    let mut bytes = vec![in alloc; 0; len as usize]?;
    disk.read(file, at, &mut bytes)?;
    Ok(Bytes::of(bytes))
}
