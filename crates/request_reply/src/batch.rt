//! Batches of letters, and why serving them stops.
use crate::Reason;
use proto_wire::List;
use typed_values::{Address, Letter};

/// Letters that go to one address in one request.
#[derive(Drop)]
pub struct Batch {
    pub address: Address,
    /// In order of arrival.
    pub letters: List<Letter>,
}

/// Why a run stops at a batch.
#[derive(Drop)]
pub enum Stop {
    /// As many attempts as the endpoint has failed in a row, for these reasons.
    EndpointFailed {
        address: Address,
        reasons: List<Reason>,
    },
    /// The request with the first letter alone is longer than its endpoint takes.
    BatchTooLarge {
        address: Address,
        /// In bytes; the greatest number where it is greater.
        size: u64,
        /// In bytes.
        limit: u64,
    },
}
