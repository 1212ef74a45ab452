//! What may stand in the files of a folder of checkpoints, and what it stands for.
#![tactic(auto)]

mod blocks;
mod complete;
mod loaded;
mod mark;
mod pieces;
mod shape;
mod states;

pub use blocks::{job_in, letters_in, manifest_in, piece_in};
pub use complete::is_next;
pub use loaded::Loaded;
pub use mark::Mark;
pub use pieces::{Home, latest_in, owns_letters, owns_piece};
pub use shape::{Shape, shape_in};

#[cfg(test)]
mod tests;
