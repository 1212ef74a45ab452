//! What the programs whose tests are rows share: how rows write words, bytes and numbers, and the loop that shows each.
//!
//! A row is a line of standard input that is neither empty nor begins with `#`. The programs' stored output is what
//! says that this crate reads rows rightly; it carries no promise of the runtime.
#![tactic(auto)]

mod failure;
mod rows;
mod shown;
mod words;

pub use failure::Failure;
pub use rows::{Rows, show_rows};
pub use shown::put_written;
pub use words::{bytes_of, calls_of, text_of, words_of};
