//! The words of `statefun serve`.
#![tactic(auto)]

mod words;

pub use words::{ServeAsk, read_serve_words};
