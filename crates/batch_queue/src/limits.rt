//! What bounds a batch.

/// What bounds a batch.
#[derive(Clone, Copy, Debug, PartialEq, Eq)]
pub struct Limits {
    /// The most letters that a batch may have.
    pub max_letters: u32,
    /// The most bytes that the request of a batch may have.
    pub max_bytes: u64,
    /// How many bytes the records of the request's target and of its state have, or `u64::MAX` where they have more.
    pub head_bytes: u64,
}
