//! Logs of blocks, each in one file of a disk: a crash leaves whole blocks.
#![tactic(auto)]

mod fault;
mod find;
mod frame;
mod gate;
mod laws;
mod log;
mod mend;
mod open;
mod read;

pub use fault::LogFault;
pub use laws::{a_file_has_one_meaning, what_is_behind_means_nothing, what_was_answered_is_found};
pub use log::BlockLog;
pub use open::open_log;
