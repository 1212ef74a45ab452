//! What an accepted answer does.
use proto_wire::{List, Text};
use typed_values::{Delay, EgressRecord, Letter, TypedValue};

/// What an accepted answer does, each list in the order of the answer.
#[derive(Drop)]
pub struct Effects {
    pub mutations: List<Change>,
    /// From the address that answered.
    pub letters: List<Letter>,
    pub delays: List<DelayChange>,
    pub egress: List<EgressRecord>,
}

/// A change of one cell.
#[derive(Drop)]
pub enum Change {
    /// The cell of that name has this value now; its `has_value` is true.
    Set { name: Text, value: TypedValue },
    /// The cell of that name has no value now.
    Clear { name: Text },
}

/// A letter that is to be sent later, or the cancellation of such letters.
#[derive(Drop)]
pub enum DelayChange {
    Add(Delay),
    /// Of all that the address sent with this token.
    Cancel(Text),
}
