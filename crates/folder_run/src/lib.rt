//! Running a job over a folder of checkpoints, from the words of the command to the line of its end.
#![tactic(auto)]

mod end;
mod line;
mod run;

pub use end::RunEnd;
pub use run::statefun_run;
