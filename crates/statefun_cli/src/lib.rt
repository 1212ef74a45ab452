//! The commands of `statefun`.
#![tactic(auto)]

mod check;
mod check_help;
mod check_words;
mod decode;
mod decode_help;
mod decode_words;
mod egress_out;
mod end;
mod input;
mod line;
mod message_lines;
mod output;
mod run;
mod run_words;

pub use check::{CheckEnd, statefun_check};
pub use check_words::{CheckAsk, read_check_words};
pub use decode::{DecodeEnd, statefun_decode};
pub use decode_words::{DecodeAsk, MessageKind, UnknownKind, read_decode_words};
pub use end::{PlainEnd, PlainRun, WordsFault};
pub use output::write_whole;
pub use run::statefun_run;
pub use run_words::{RunWords, read_run_words};
