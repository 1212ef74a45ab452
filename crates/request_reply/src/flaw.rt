//! Why an answer is not valid, and why an attempt failed.
use proto_wire::{Bytes, WireFault};

/// What is wrong with an answer that is not valid.
#[derive(Clone, Copy, Debug, PartialEq, Eq)]
pub enum FlawKind {
    /// 1: too long, or not in the wire format.
    Wire,
    /// 2: a mutation that neither deletes nor sets.
    BadMutation,
    /// 3: a mutation of a cell that is not registered.
    UnknownName,
    /// 4: a value of another type than its cell's.
    TypeDiffers,
    /// 5: a value that is too long.
    TooLarge,
    /// 6: a message without a target, or to a type without an endpoint.
    NoEndpoint,
    /// 7: a delay below 0.
    NegativeDelay,
    /// 8: a cancellation without a token.
    EmptyToken,
    /// 9: a record for an egress that the module does not have.
    UnknownEgress,
    /// 10: an expiry that is none.
    BadExpiry,
    /// 11: a cell too many.
    TooMany,
    /// 12: missing values of which none is new.
    NoNewName,
}

/// The first thing that is wrong with an answer.
#[derive(Clone, Copy, Debug, PartialEq, Eq)]
pub struct Flaw {
    pub kind: FlawKind,
    /// The place of the element in its list; 0 where no element is at fault.
    pub index: u32,
    /// The fault of the bytes, exactly where the kind is Wire.
    pub wire: Option<WireFault>,
}

/// Why an attempt at a call failed.
#[derive(Drop)]
pub enum Reason {
    /// The call was lost, with the link's note.
    Lost(u32),
    /// No outcome came in time.
    Late,
    /// The answer is not valid.
    Refused { answer: Bytes, flaw: Flaw },
}
