//! What a checkpoint keeps of a partition.
use piece_messages::AddressState;
use proto_wire::List;
use typed_values::{Delay, Letter};

/// What a checkpoint keeps of a partition's work.
#[derive(Drop)]
pub struct KeptWork {
    /// The letters that wait or are in flight: by target in byte order of its encoding, those to one target in order of arrival.
    pub letters: List<Letter>,
    /// What each address has beside its letters, in byte order of the encoded addresses.
    pub states: List<AddressState>,
    /// The delayed letters that wait, in order of put.
    pub delays: List<Delay>,
}
