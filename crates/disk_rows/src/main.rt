//! The program `disk_rows`: appends blocks to a log on a disk in memory as rows on standard input ask for, stops the disk
//! at its calls, and prints what each crash leaves.
#![tactic(auto)]

mod content;
mod life;
mod log_rows;
mod shown;
mod stop_rows;

use block_log::{a_file_has_one_meaning, what_is_behind_means_nothing, what_was_answered_is_found};
use row_text::{Failure, Rows, show_rows};
use std::alloc::Global;
use std::process::ExitCode;

#[derive(Drop)]
struct DiskRows;

impl Rows for DiskRows {
    fn shown(&self, alloc: Global, row: &str) -> Result<String, Failure> {
        let (kind, words) = row.split_once(' ').unwrap_or((row, ""));
        match kind {
            "log" => log_rows::show(alloc, words),
            "stops" => stop_rows::show(alloc, words),
            "laws" => laws(alloc),
            _ => Err(Failure::Row),
        }
    }
}

/// Calls the laws of the log, which do nothing.
fn laws(alloc: Global) -> Result<String, Failure> {
    a_file_has_one_meaning();
    what_is_behind_means_nothing();
    what_was_answered_is_found();
    Ok(String::from_str(alloc, "  called\n")?)
}

fn main(rt: HostRuntime) -> ExitCode {
    show_rows(&rt, "disk_rows", &DiskRows)
}
