//! Delayed letters, which wait for their moments.
#![tactic(auto)]

mod delays;
mod laws;
mod queue;

pub use delays::Delays;
pub use laws::{
    a_cancellation_takes_its_own, none_is_due_before_its_moment, none_is_lost, none_is_sent_early,
    the_least_is_due,
};
