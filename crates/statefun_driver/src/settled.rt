//! Valid answers.
use invocation::Effects;
use proto_wire::{Bytes, List};
use typed_values::CellSpec;

/// A valid answer to a batch.
#[derive(Drop)]
pub(crate) enum Valid {
    /// A result, with these effects.
    Accepted {
        answer: Bytes,
        effects: Effects,
    },
    /// An answer that misses values, of which these are new.
    Missed {
        answer: Bytes,
        specs: List<CellSpec>,
    },
}
