//! The lines in which decoded messages are printed for people.
#![tactic(auto)]

mod answer_text;
mod fault_text;
mod parts;
mod request_text;

pub use answer_text::put_answer_lines;
pub use fault_text::put_fault_line;
pub use parts::put_decimal;
pub use request_text::put_request_lines;
