//! How a run ends.
ghost use Rattle.std.specs.Prelude.{◌≡◌};
ghost use Rattle.statefun_driver.specs.declared.end.End.TheVariants.{Broke as HasBroken};
ghost use Rattle.statefun_driver.specs.declared.end.Broken.TheVariants.{Memory as WantsMemory};

use batch_queue::BatchFault;
use proto_wire::{List, OutOfMemory};
use request_reply::Reason;
use typed_values::Address;

/// What broke a run off.
#[derive(Clone, Copy, Debug, PartialEq, Eq)]
pub enum Broken {
    /// The ingress failed.
    Ingress,
    /// The link failed.
    Link,
    /// The run could not get the memory that it asked for.
    Memory,
}

/// How a run ends.
#[derive(Drop)]
pub enum End {
    /// Every split had no more records in the last turn, no letter is left, and no delayed letter waits. So many records
    /// were taken.
    Done {
        taken: u64,
    },
    /// All turns were made, and there is still work.
    TurnsSpent {
        taken: u64,
    },
    /// The key and the value of a record have together more bytes than they may. It was not taken.
    RecordTooLarge {
        split: u32,
        offset: u64,
        /// In bytes.
        size: u64,
    },
    /// The request with the first letter of an address alone is longer than its endpoint takes.
    BatchTooLarge {
        address: Address,
        /// In bytes, or `u64::MAX` where it is greater.
        size: u64,
        /// In bytes.
        limit: u64,
    },
    /// As many attempts as the endpoint has failed in a row, for these reasons.
    EndpointFailed {
        address: Address,
        reasons: List<Reason>,
    },
    /// Something else failed.
    Broke(Broken),
}

impl From<OutOfMemory> for End {
    ghost from_gives = { λ _ end. end ≡ HasBroken WantsMemory };

    fn from(_: OutOfMemory) -> End {
        End::Broke(Broken::Memory)
    }
}

impl From<Broken> for End {
    ghost from_gives = { λ broken end. end ≡ HasBroken broken };

    fn from(broken: Broken) -> End {
        End::Broke(broken)
    }
}
