//! What a checkpoint says of itself.
use proto_wire::List;
use run_record::Entry;

/// What a checkpoint says beside its pieces.
#[derive(Drop)]
pub struct Mark {
    /// Its number, from 1.
    pub number: u64,
    /// The leg in which it was made.
    pub leg: u64,
    /// The moment of that leg, in milliseconds.
    pub moment: u64,
    /// How many records of each split were taken.
    pub taken: List<u64>,
    /// The entries that took them since the checkpoint before.
    pub takes: List<Entry>,
}
