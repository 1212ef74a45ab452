//! Delayed letters and egress records.
use crate::{Address, TypeName, TypedValue};
use proto_wire::Text;

/// A letter that waits for its moment.
#[derive(PartialEq, Eq, Drop)]
pub struct Delay {
    pub sender: Address,
    /// The moment from which it may be sent, in milliseconds.
    pub due: u64,
    pub target: Address,
    /// By which its sender can cancel it; empty for none.
    pub token: Text,
    pub argument: TypedValue,
}

/// What a function gave to an egress.
#[derive(PartialEq, Eq, Drop)]
pub struct EgressRecord {
    pub sender: Address,
    pub egress: TypeName,
    pub argument: TypedValue,
}
