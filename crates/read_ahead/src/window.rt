//! Bytes of a file that were read ahead.
ghost use Rattle.std.specs.Prelude.{◌^◌, ◌≤◌, length};

use proto_wire::Bytes;

/// Bytes of a file that were read ahead.
#[derive(Drop)]
pub struct Window {
    pub(crate) file: u32,
    /// Where in the file they begin.
    pub(crate) at: u64,
    pub(crate) bytes: Bytes,
    ghost few: { length bytes ≤ 2 ^ 20 },
}
