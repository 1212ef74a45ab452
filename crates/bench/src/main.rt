//! The program `bench`: decodes and encodes messages again and again, writes cells, puts, cancels and sends delays, puts and takes
//! letters, replays a record of the machine, or reads the module file on standard input. `bench/run` times it.
#![tactic(auto)]

mod answers;
mod egresses;
mod failure;
mod job;
mod letters;
mod modules;
mod parts;
mod posts;
mod records;
mod requests;
mod state;
mod steps;
mod tally;
mod waiting;
mod words;

use failure::Failure;
use std::process::ExitCode;
use tally::Tally;
use words::{Work, asked};

fn main(rt: HostRuntime) -> ExitCode {
    match run(&rt) {
        Ok(()) => ExitCode::SUCCESS,
        Err(failure) => ended(&rt, failure),
    }
}

/// Tells a failure on standard error, and gives its status.
fn ended(rt: &HostRuntime, failure: Failure) -> ExitCode {
    let text = failure.text();
    let _told = eprintln!(rt; "bench: {text}");
    ExitCode::from(failure.status())
}

/// Does the work that the words ask for, and prints its line.
fn run(rt: &HostRuntime) -> Result<(), Failure> {
    let task = asked(rt)?;
    let tally = done(rt, task.work, task.count, task.rounds)?;
    let work = task.work.word();
    let count = task.count;
    let rounds = task.rounds;
    let bytes = tally.bytes;
    let same = tally.word();
    println!(rt; "{work} {count} {rounds} bytes {bytes} same {same}")?;
    Ok(())
}

/// The rounds of one work.
fn done(rt: &HostRuntime, work: Work, count: u32, rounds: u32) -> Result<Tally, Failure> {
    let alloc = rt.alloc();
    match work {
        Work::Letters => letters::work(alloc, count, rounds),
        Work::Request => requests::work(alloc, count, rounds),
        Work::Answer => answers::work(alloc, count, rounds),
        Work::Module => modules::work(rt, count, rounds),
        Work::Cells => state::work(alloc, count, rounds),
        Work::Mail => posts::work(alloc, 97, count, rounds),
        Work::Mailboxes => posts::work(alloc, 10_000, count, rounds),
        Work::Delays => waiting::work(alloc, count, rounds),
        Work::Replay => records::work(alloc, count, rounds),
        Work::Egresses => egresses::decode(alloc, count, rounds),
        Work::Judged => egresses::judge_all(alloc, count, rounds),
    }
}
