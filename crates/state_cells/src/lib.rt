//! The cells that keep a function's state, of one address.
#![tactic(auto)]

mod cells;
mod fault;
mod kept;
mod laws;

pub use cells::Cells;
pub use fault::CellFault;
pub use laws::{a_value_lives_from_its_use, a_value_lives_from_its_write, a_value_stays_for_good};
