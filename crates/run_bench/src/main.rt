//! The program `run_bench`: runs a job of the demonstration functions in memory, for `bench/run` to time. Its words: the number of
//! records, and the most letters of a batch. The egress of the run, and the line of its end, go to standard output.
#![tactic(auto)]

mod answering;
mod making;

use proto_wire::{Mem, OutOfMemory};
use std::env;
use std::process::ExitCode;

/// The status of wrong words.
const USAGE: u8 = 2;

/// The status where memory ran out.
const NO_MEMORY: u8 = 15;

fn main(rt: HostRuntime) -> ExitCode {
    ExitCode::from(match asked(&rt) {
        Some((records, letters)) => made(making::run(&rt, records, letters)),
        None => {
            let _told = eprintln!(rt;
                "run_bench: the words are two numbers: records, and the most letters of a batch"
            );
            USAGE
        }
    })
}

fn made(status: Mem<u8>) -> u8 {
    match status {
        Ok(status) => status,
        Err(OutOfMemory) => NO_MEMORY,
    }
}

/// The numbers that the words ask for.
fn asked(rt: &HostRuntime) -> Option<(u32, u32)> {
    let words: Vec<String> = env::args(rt).ok()?.collect(rt.alloc()).ok()?;
    match words.as_slice() {
        [_, records, letters] => Some((records.parse().ok()?, letters.parse().ok()?)),
        _ => None,
    }
}
