//! Why a batch is not opened.
ghost use Rattle.std.specs.Prelude.{◌≡◌};
ghost use Rattle.batch_queue.specs.declared.fault.BatchFault.TheVariants as faults;

use proto_wire::OutOfMemory;

/// Why a batch is not opened.
#[derive(Clone, Copy, Debug, PartialEq, Eq)]
pub enum BatchFault {
    /// The request with the first letter alone is longer than the limit.
    TooLarge {
        /// The size of that request in bytes, or `u64::MAX` where it is greater.
        size: u64,
        /// The most bytes that a request may have.
        limit: u64,
    },
    /// The call could not get the memory that it asked for.
    OutOfMemory,
}

impl From<OutOfMemory> for BatchFault {
    ghost from_gives = { λ _ fault. fault ≡ faults.OutOfMemory };

    fn from(_: OutOfMemory) -> BatchFault {
        BatchFault::OutOfMemory
    }
}
