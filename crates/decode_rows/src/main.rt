//! The program `decode_rows`: gives the words and bytes of rows on standard input to the command `statefun decode`, or to
//! `statefun check` where their first word is `check`, over a source and a sink in memory, and prints what came of each.
#![tactic(auto)]

mod decoding;
mod row;
mod showing;

use row_text::{Failure, Rows, show_rows};
use showing::shown;
use std::alloc::Global;
use std::process::ExitCode;

#[derive(Drop)]
struct DecodeRows;

impl Rows for DecodeRows {
    fn shown(&self, alloc: Global, row: &str) -> Result<String, Failure> {
        shown(alloc, row)
    }
}

fn main(rt: HostRuntime) -> ExitCode {
    show_rows(&rt, "decode_rows", &DecodeRows)
}
