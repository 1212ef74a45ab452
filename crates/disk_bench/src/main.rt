//! The program `disk_bench`: appends blocks to a log in a real folder, for `bench/run` to time and `bench/crash` to kill.
//!
//! - `append FOLDER COUNT SIZE` appends so many blocks of so many bytes, and prints the number of its syncs and the
//!   nanoseconds that they took.
//! - `number FOLDER COUNT` appends blocks whose bodies are their numbers, from those that stand there on, and prints each
//!   number once its `append` was answered Ok.
//! - `check FOLDER` opens the log, prints how many blocks it has, and fails where one's body is not its number.
#![tactic(auto)]

mod failure;
mod timed_disk;
mod work;

use failure::Failure;
use std::env;
use std::process::ExitCode;

fn main(rt: HostRuntime) -> ExitCode {
    match run(&rt) {
        Ok(()) => ExitCode::SUCCESS,
        Err(failure) => {
            let text = failure.text();
            let _told = eprintln!(rt; "disk_bench: {text}");
            ExitCode::from(failure.status())
        }
    }
}

fn run(rt: &HostRuntime) -> Result<(), Failure> {
    let words: Vec<String> = env::args(rt)?.collect(rt.alloc())?;
    match words.as_slice() {
        [_, work, folder, count, size] if work.as_str() == "append" => work::append(
            rt,
            folder.as_str(),
            count.parse::<u64>()?,
            size.parse::<usize>()?,
        ),
        [_, work, folder, count] if work.as_str() == "number" => {
            work::number(rt, folder.as_str(), count.parse::<u64>()?)
        }
        [_, work, folder] if work.as_str() == "check" => work::check(rt, folder.as_str()),
        _ => Err(Failure::Words),
    }
}
