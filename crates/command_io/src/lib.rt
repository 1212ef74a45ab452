//! What the commands over a folder share: their words, a source that is read to its end, and how an end is told.
#![tactic(auto)]

mod input;
mod lines;
mod output;
mod words;

pub use input::read_up_to;
pub use lines::not_a_store_line;
pub use output::{tell, tell_made, write_whole};
pub use words::{Asked, refusal};
