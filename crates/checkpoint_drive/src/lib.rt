//! Runs over a folder of checkpoints: what their legs and the checkpoints between them come to.
#![tactic(auto)]

mod begin;
mod checkpoint;
mod driving;
mod end;
mod job;
mod laws;
mod legs;
mod opening;
mod options;
mod run;

pub use driving::drive;
pub use end::DriveEnd;
pub use job::folder_text;
pub use laws::{
    an_empty_folder_is_good, what_a_run_leaves_is_good, what_is_committed_is_of_the_machine,
    what_legs_complete_is_good, what_many_runs_have_done, what_many_runs_leave_is_good,
    what_runs_make_of_nothing_is_good,
};
pub use options::Options;
