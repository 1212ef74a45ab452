//! How long a value lives.
//!
//! Each function does nothing: its contract is a law over any calls on the cells of an address.
ghost use Rattle.state_cells.specs.Lifetimes.{StaysForGood, LivesFromItsWrite, LivesFromItsUse};

/// A value of a cell that never expires is there until it is written again or deleted, whatever else is called.
pub fn a_value_stays_for_good()
    ensures { StaysForGood }
{}

/// Where time counts from the last write, a value is there at a moment exactly if less than its time has passed since it
/// was written, whatever else was called, and however often the function was invoked up to then.
pub fn a_value_lives_from_its_write()
    ensures { LivesFromItsWrite }
{}

/// Where time counts from the last write or invocation, a value is there at a moment exactly if less than its time passed
/// between its write, each invocation since, and that moment. So none brings back a value whose time was over.
pub fn a_value_lives_from_its_use()
    ensures { LivesFromItsUse }
{}
