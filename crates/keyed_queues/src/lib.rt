//! Queues and numbers by keys. A key that has none takes no memory.
#![tactic(auto)]

mod exact;
mod key;
mod numbers;
mod queue;
mod shelf;
mod shelves;

pub use exact::{Exact, same_all};
pub use numbers::Numbers;
pub use shelf::{Key, Shelf};
pub use shelves::{Place, Placed, Shelves};
