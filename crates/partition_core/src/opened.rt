//! Batches that were opened.
use proto_wire::{Bytes, List};
use typed_values::Sender;

/// A batch that was opened: its letters are in flight.
#[derive(Drop)]
pub struct Opened {
    /// The senders of its letters, in their order.
    pub picks: List<Sender>,
    /// The canonical spelling of its request.
    pub request: Bytes,
}
