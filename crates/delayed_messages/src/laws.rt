//! What becomes of delays.
//!
//! Each function does nothing: its contract is a law over the definitions that the calls' contracts cite.
ghost use Rattle.delayed_messages.specs.Laws.{CancelsItsOwn, LeastIsDue, NoneIsDue, NoneIsEarly, NoneIsLost};

/// A cancellation takes out all of its sender's with its token, and nothing else.
pub fn a_cancellation_takes_its_own()
    ensures { CancelsItsOwn }
{}

/// What comes due has the least due, and was put first among equals; the others stay in their order.
pub fn the_least_is_due()
    ensures { LeastIsDue }
{}

/// Where nothing comes due, the moment of none has come.
pub fn none_is_due_before_its_moment()
    ensures { NoneIsDue }
{}

/// Whatever is called, nothing comes due before its moment.
pub fn none_is_sent_early()
    ensures { NoneIsEarly }
{}

/// Whatever is called, what no cancellation is for comes due once or still waits.
pub fn none_is_lost()
    ensures { NoneIsLost }
{}
