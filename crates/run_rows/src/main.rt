//! The program `run_rows`: makes the runs that rows on standard input ask for, over an outside in memory, and prints what
//! came of each.
#![tactic(auto)]

mod comparing;
mod detail;
mod ends;
mod making;
mod module_file;
mod records;
mod replays;
mod row;
mod script;
mod showing;

use row_text::{Failure, Rows, show_rows};
use showing::shown;
use std::alloc::Global;
use std::process::ExitCode;

#[derive(Drop)]
struct RunRows;

impl Rows for RunRows {
    fn shown(&self, alloc: Global, row: &str) -> Result<String, Failure> {
        shown(alloc, row)
    }
}

fn main(rt: HostRuntime) -> ExitCode {
    show_rows(&rt, "run_rows", &RunRows)
}
