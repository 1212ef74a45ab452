//! What was put for a partition.

/// What was put for a partition since the newest checkpoint.
#[derive(Clone, Copy)]
pub(crate) struct Slot {
    /// Where its piece stands in the partition's file.
    pub piece: Option<u64>,
    /// The greatest moment in that piece, in milliseconds.
    pub latest: u64,
    /// Where its letters stand in the partition's file.
    pub letters: Option<u64>,
}

/// Nothing was put.
pub(crate) const EMPTY: Slot = Slot {
    piece: None,
    latest: 0,
    letters: None,
};
