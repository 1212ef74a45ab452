//! What was done to a disk in memory.
use proto_wire::Bytes;

/// One change of a file, or a sync.
#[derive(Drop)]
pub enum Change {
    /// These bytes were written at an offset.
    Write { file: u32, at: u64, bytes: Bytes },
    /// The file was cut to a length.
    Cut { file: u32, len: u64 },
    /// The file was synced.
    Sync { file: u32 },
}
