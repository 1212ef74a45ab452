//! Values that are compared exactly.
ghost use Rattle.std.specs.Prelude.{◌≡◌, ◌↔◌, IsTrue};

use typed_values::{Cell, Delay, TypedValue};

/// Values of which each two are told apart.
pub trait Exact {
    ghost use Rattle.std.specs.Prelude.{◌≡◌, ◌↔◌, IsTrue};

    /// Whether another value is this one. Takes no memory.
    fn same(&self, other: &Self) -> bool
        ensures { IsTrue result ↔ (self.now ≡ other.now) };
}

impl Exact for TypedValue {
    #[tactic(auto, using(crate::proofs::Exactly::values_Decides))]
    fn same(&self, other: &TypedValue) -> bool {
        self == other
    }
}

impl Exact for Cell {
    #[tactic(auto, using(crate::proofs::Exactly::cells_Decides))]
    fn same(&self, other: &Cell) -> bool {
        self == other
    }
}

impl Exact for Delay {
    #[tactic(auto, using(crate::proofs::Exactly::delays_Decides))]
    fn same(&self, other: &Delay) -> bool {
        self == other
    }
}

/// Whether two lists have the same values in the same order. Takes no memory.
pub fn same_all<T: Exact>(one: &[T], other: &[T]) -> bool
    ensures { IsTrue result ↔ (one.now ≡ other.now) }
{
    if one.len() != other.len() {
        return false;
    }
    for place in 0..one.len() {
        if !one[place].same(&other[place]) {
            return false;
        }
    }
    true
}
