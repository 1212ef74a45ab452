//! A checkpoint that was loaded.
use piece_messages::Piece;
use proto_wire::List;
use typed_values::Letter;

/// The newest checkpoint of a folder, or the empty one, whose numbers are 0 and whose lists are empty.
#[derive(Drop)]
pub struct Loaded {
    /// The checkpoint's number, 0 for none.
    pub number: u64,
    /// The leg in which it was made.
    pub leg: u64,
    /// The moment of that leg, in milliseconds.
    pub moment: u64,
    /// How many records of each split were taken.
    pub taken: List<u64>,
    /// The pieces, by partition.
    pub pieces: List<Piece>,
    /// The letters that were on the way to each partition.
    pub feedback: List<List<Letter>>,
}
