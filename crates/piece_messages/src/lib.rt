//! The messages of a folder: what a partition keeps of a checkpoint, and what was committed of its egress.
//!
//! Each encoder gives the canonical spelling, and decoding that gives the message again. Each decoder answers `Ok` exactly where the bytes spell a message, else
//! their first fault. A number of 32 bits above its range is OverLimit, at the first byte of the number, also where a later record takes its place. Where a
//! part is absent that the message needs, and no other fault came, the fault is NoMember, at the input's length.
#![tactic(auto)]

mod address_state;
mod cell_state;
mod commit;
mod feedback;
mod lists;
mod piece;
mod stored;

pub use address_state::{AddressState, decode_address_state, encode_address_state};
pub use cell_state::{CellState, decode_cell_state, encode_cell_state};
pub use commit::{Commit, decode_commit, encode_commit};
pub use feedback::{Feedback, decode_feedback, encode_feedback};
pub use piece::{Piece, decode_piece, encode_piece};

#[cfg(test)]
mod tests;
