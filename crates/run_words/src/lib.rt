//! The words of `statefun run` over a folder of checkpoints.
#![tactic(auto)]

mod numbers;
mod reading;
#[cfg(test)]
mod tests;
mod words;

pub use words::{RunWords, WordsFault, read_run_words};
