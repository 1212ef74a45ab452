//! The program `folder_bench`: makes a folder of checkpoints, and opens, loads and reads it, for `bench/run` to time.
//!
//! - `make FOLDER CHECKPOINTS ENTRIES` writes so many checkpoints of so many entries each, of one partition.
//! - `large FOLDER LETTERS SIZE` writes a checkpoint whose piece has so many letters of so many bytes each, and prints the
//!   nanoseconds in which it was put and completed.
//! - `open FOLDER` opens the folder, and prints its newest checkpoint and leg.
//! - `load FOLDER` loads that checkpoint too, and prints how many states and letters it has.
//! - `read FOLDER` reads all entries in place of that, and prints how many there are.
//! - `whole FOLDER CHECKPOINTS ENTRIES` makes a folder, and then does the last three.
#![tactic(auto)]

mod content;
mod failure;
mod reading;
mod writing;

use failure::Failure;
use std::env;
use std::process::ExitCode;

fn main(rt: HostRuntime) -> ExitCode {
    match run(&rt) {
        Ok(()) => ExitCode::SUCCESS,
        Err(failure) => {
            let text = failure.text();
            let _told = eprintln!(rt; "folder_bench: {text}");
            ExitCode::from(failure.status())
        }
    }
}

fn run(rt: &HostRuntime) -> Result<(), Failure> {
    let words: Vec<String> = env::args(rt)?.collect(rt.alloc())?;
    match words.as_slice() {
        [_, work, folder] => read(rt, work.as_str(), folder.as_str()),
        [_, work, folder, first, second] => write(
            rt,
            work.as_str(),
            folder.as_str(),
            first.parse::<u32>()?,
            second.parse::<u32>()?,
        ),
        _ => Err(Failure::Words),
    }
}

fn read(rt: &HostRuntime, work: &str, folder: &str) -> Result<(), Failure> {
    match work {
        "open" => reading::open(rt, folder),
        "load" => reading::load(rt, folder),
        "read" => reading::read(rt, folder),
        _ => Err(Failure::Words),
    }
}

fn write(
    rt: &HostRuntime,
    work: &str,
    folder: &str,
    first: u32,
    second: u32,
) -> Result<(), Failure> {
    match work {
        "make" => writing::make(rt, folder, first, second),
        "large" => writing::large(rt, folder, first, second),
        "whole" => {
            writing::make(rt, folder, first, second)?;
            reading::open(rt, folder)?;
            reading::load(rt, folder)?;
            reading::read(rt, folder)
        }
        _ => Err(Failure::Words),
    }
}
