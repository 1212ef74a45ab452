//! The command `statefun audit`: whether the stored record of a folder leads to its newest checkpoint.
#![tactic(auto)]

mod audit;
mod end;
mod help;
mod judging;
mod record;
mod words;

pub use audit::statefun_audit;
pub use end::AuditEnd;
pub use words::read_audit_words;
