//! Functions that are served: a table of them, their answers to requests, and connections over HTTP.
#![tactic(auto)]

mod answering;
mod asked;
mod fault;
mod function;
mod greeter;
mod messages;
mod network;
mod server_link;
mod serving;
mod table;
mod total;

pub use answering::answer_request;
pub use fault::ServeFault;
pub use function::Function;
pub use greeter::Greeter;
pub use network::serve;
pub use server_link::ServerLink;
pub use serving::{Reply, serve_connection};
pub use table::{Entry, FunctionTable, OwnedFunction, Served, Services};
pub use total::Total;

#[cfg(test)]
mod tests;
