//! What bounds a batch.

/// What bounds a batch: an endpoint's limits, or lower ones.
#[derive(Clone, Copy, Debug, PartialEq, Eq)]
pub struct Bounds {
    /// The most letters of a batch.
    pub max_letters: u32,
    /// The most bytes of its request.
    pub max_bytes: u64,
}
