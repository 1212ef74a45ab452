//! The program `record_rows`: makes the steps, replays and merges that rows on standard input ask for, and prints what came
//! of each.
#![tactic(auto)]

mod entries;
mod job;
mod lines;
mod merging;
mod replaying;
mod showing;
mod stepping;

use row_text::{Failure, Rows, show_rows};
use showing::shown;
use std::alloc::Global;
use std::process::ExitCode;

#[derive(Drop)]
struct RecordRows;

impl Rows for RecordRows {
    fn shown(&self, alloc: Global, row: &str) -> Result<String, Failure> {
        shown(alloc, row)
    }
}

fn main(rt: HostRuntime) -> ExitCode {
    show_rows(&rt, "record_rows", &RecordRows)
}
