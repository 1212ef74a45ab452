//! What lies outside the runtime: ingresses, links and sinks, with forms in memory and adapters to the system.
#![tactic(auto)]

mod call;
mod call_count;
mod fault;
mod fixed_link;
mod folder_ingress;
mod front;
mod ingress;
mod journal;
mod link;
mod memory_ingress;
mod memory_sink;
mod memory_source;
mod planned;
mod reader_source;
mod script_link;
mod sink;
mod source;
mod split_log;
mod system;
mod turn;
mod unread;
mod writer_sink;

pub use call::{Answered, Call, Exchange, LinkEvent, Outcome};
pub use fault::Fault;
pub use fixed_link::FixedLink;
pub use folder_ingress::FolderIngress;
pub use ingress::{Ingress, IngressRecord};
pub use link::Link;
pub use memory_ingress::MemoryIngress;
pub use memory_sink::MemorySink;
pub use memory_source::MemorySource;
pub use reader_source::ReaderSource;
pub use script_link::ScriptLink;
pub use sink::Sink;
pub use source::Source;
pub use turn::Turn;
pub use writer_sink::WriterSink;

#[cfg(test)]
mod tests;
