//! Two commands over a folder: `append`, which adds records to an ingress log, and `show`, which prints what was committed to egress.
#![tactic(auto)]

mod append;
mod append_help;
mod append_lines;
mod append_words;
mod laws;
mod log_record;
mod show;
mod show_help;
mod show_text;
mod show_words;

pub use append::{AppendEnd, statefun_append};
pub use append_words::read_append_words;
pub use laws::appended_records_are_read;
pub use show::{ShowEnd, statefun_show};
pub use show_words::read_show_words;
