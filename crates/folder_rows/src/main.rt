//! The program `folder_rows`: writes folders of checkpoints on a disk in memory as rows on standard input ask for, stops
//! the disk at its calls, breaks the folders' form and cuts their files, and prints what is found.
#![tactic(auto)]

mod crash_rows;
mod files;
mod found;
mod life;
mod open_rows;
mod plan;
mod quiet;
mod spans;
mod stop;
mod whole_rows;

use row_text::{Failure, Rows, show_rows};
use std::alloc::Global;
use std::process::ExitCode;

#[derive(Drop)]
struct FolderRows;

impl Rows for FolderRows {
    fn shown(&self, alloc: Global, row: &str) -> Result<String, Failure> {
        let (kind, words) = row.split_once(' ').unwrap_or((row, ""));
        match kind {
            "whole" => whole_rows::show(alloc, words),
            "crashes" => crash_rows::show(alloc, words),
            "open" => open_rows::show(alloc, words),
            "cut" => open_rows::show_cuts(alloc, words),
            _ => Err(Failure::Row),
        }
    }
}

fn main(rt: HostRuntime) -> ExitCode {
    show_rows(&rt, "folder_rows", &FolderRows)
}
