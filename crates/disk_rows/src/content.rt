//! The bytes of a file.
use proto_wire::Bytes;
use sf_disk::Disk;
use sf_outside::Fault;
use std::alloc::Global;

/// All bytes of a file.
pub(crate) fn content_of<D: Disk>(alloc: Global, disk: &mut D, file: u32) -> Result<Bytes, Fault> {
    let len = disk.len(file)?;
    let mut bytes = vec![in alloc; 0; len as usize]?;
    disk.read(file, 0, &mut bytes)?;
    Ok(Bytes::of(bytes))
}
