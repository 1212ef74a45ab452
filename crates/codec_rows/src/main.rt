//! The program `codec_rows`: reads rows from standard input, decodes and encodes what they spell, and prints each row with what came of it.
#![tactic(auto)]

mod answer_job;
mod container_rows;
mod judge_rows;
mod pieces;
mod request_rows;
mod rows;
mod stored_rows;
mod told;
mod whole;
mod whole_rows;
mod wire_rows;
mod wrapped_rows;

use row_text::{Failure, Rows, show_rows};
use rows::outcome;
use std::alloc::Global;
use std::process::ExitCode;

#[derive(Drop)]
struct CodecRows;

impl Rows for CodecRows {
    fn shown(&self, alloc: Global, row: &str) -> Result<String, Failure> {
        let text = outcome(alloc, row)?;
        Ok(format!(in alloc; "  {text}\n")?)
    }
}

fn main(rt: HostRuntime) -> ExitCode {
    show_rows(&rt, "codec_rows", &CodecRows)
}
