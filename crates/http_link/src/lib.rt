//! Calls to endpoints over HTTP.
#![tactic(auto)]

mod connect;
mod exchange;
mod link;

pub use connect::Connect;
pub use exchange::{Made, Started};
pub use link::{Caller, HttpLink, make_all};
