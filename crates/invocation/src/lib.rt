//! Requests to functions, and what their answers do.
#![tactic(auto)]

mod convert;
mod effects;
mod job;
mod judging;
mod laws;
mod request;
mod size;

pub use effects::{Change, DelayChange, Effects};
pub use job::Job;
pub use judging::{Judged, judge};
pub use laws::{a_request_is_its_head_and_its_letters, an_accepted_answer_fits};
pub use request::Request;
pub use request_reply::{Flaw, FlawKind};
pub use size::{RequestSize, head_bytes};
