//! Why a folder of checkpoints has no answer.
#![tactic(auto)]

mod fault;

pub use fault::{StoreFault, in_file};
