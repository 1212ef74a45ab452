//! The turns of a run: what a job's partition asks of the outside, and what it does with the answers.
#![tactic(auto)]

mod attempts;
mod end;
mod job;
mod laws;
mod outside;
mod progress;
mod running;
mod settled;
mod steps;
mod world;

pub use end::{Broken, End};
pub use job::Job;
pub use laws::{what_turns_come_to, what_turns_come_to_is_a_run};
pub use outside::Outside;
pub use progress::Progress;
pub use running::{Ran, run};
pub use steps::Cut;
pub use world::World;
