//! Bodies of HTTP messages (RFC 9112), read from a source and written to a sink.
#![tactic(auto)]

mod body;
mod fault;
mod fields;
mod held;
mod message;
mod output;
mod part;
mod reading;
mod text;

pub use fault::HttpFault;
pub use message::{read_request, read_response};
pub use output::{write_request, write_response};

#[cfg(test)]
mod tests;
