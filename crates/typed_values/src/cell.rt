//! What a function declares of its state.
use proto_wire::Text;

/// When a cell's value expires.
#[derive(Clone, Copy, Debug, PartialEq, Eq, PartialOrd, Ord, Hash)]
pub enum Expiry {
    Never,
    /// So long after it was last written.
    AfterWrite,
    /// So long after it was last written or its function was last invoked.
    AfterInvoke,
}

/// The declaration of a cell.
#[derive(PartialEq, Eq, Drop)]
pub struct CellSpec {
    pub name: Text,
    /// The type of its values.
    pub typename: Text,
    pub mode: Expiry,
    /// How long a value lasts, in milliseconds; 0 where it never expires.
    pub millis: u64,
}
