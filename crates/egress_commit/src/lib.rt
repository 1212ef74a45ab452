//! The egress file of a folder: each checkpoint's egress is committed once.
#![tactic(auto)]

mod open;
mod outlet;
mod reading;

pub use outlet::Outlet;
pub use store_faults::StoreFault;
