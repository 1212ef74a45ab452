//! The program `statefun`: its commands over the working folder and the standard streams.
#![tactic(auto)]

mod arguments;
mod check;
mod help;
mod missing;
mod serve;

use http_link::{Caller, HttpLink, make_all};
use proto_wire::{Mem, Text};
use serve::serve_command;
use sf_clock::SystemClock;
use sf_outside::{FolderIngress, ReaderSource, Source, WriterSink};
use statefun_cli::{PlainEnd, statefun_decode, statefun_run};
use std::fs;
use std::process::ExitCode;

/// The status of wrong words.
const USAGE: u8 = 2;

fn main(rt: HostRuntime) -> ExitCode {
    let alloc = rt.alloc();
    let Ok(words) = arguments::words(&rt, alloc) else {
        return ExitCode::from(PlainEnd::OutOfMemory.status());
    };
    let Ok(make) = Box::new(alloc, move |calls| make_all(&rt, alloc, calls)) else {
        return ExitCode::from(PlainEnd::OutOfMemory.status());
    };
    let made = if is_serve(words.as_slice()) {
        serve_command(&rt, alloc, words.as_slice())
    } else {
        command(&rt, &Caller::new(make), words.as_slice())
    };
    ExitCode::from(status_of(&rt, made))
}

/// The status of a command that ended so. Beside wrong words a help is shown.
fn status_of(rt: &HostRuntime, made: Mem<u8>) -> u8 {
    let status = match made {
        Ok(status) => status,
        Err(_) => PlainEnd::OutOfMemory.status(),
    };
    if status == USAGE {
        help::show(rt);
    }
    status
}

fn is_serve(words: &[String]) -> bool {
    match words.first() {
        Some(word) => word.as_str() == "serve",
        None => false,
    }
}

/// The command that the first word names. Where it names none, the words are those of a run, and wrong.
fn command(rt: &HostRuntime, caller: &Caller, words: &[String]) -> Mem<u8> {
    match words.first() {
        Some(word) if word.as_str() == "decode" => Ok(decode(rt, words)),
        Some(word) if word.as_str() == "check" => check::check(rt, words),
        _ => run(rt, caller, words),
    }
}

/// Runs the job of the module file that the words name, over the logs of the working folder.
fn run(rt: &HostRuntime, caller: &Caller, words: &[String]) -> Mem<u8> {
    match fs::open(rt, check::text_at(words, 1)) {
        Ok(file) => run_over(rt, caller, words, &mut ReaderSource::new(file)),
        Err(_) => run_over(rt, caller, words, &mut check::unreadable(rt.alloc())?),
    }
}

fn run_over<Y: Source>(
    rt: &HostRuntime,
    caller: &Caller,
    words: &[String],
    module: &mut Y,
) -> Mem<u8> {
    let alloc = rt.alloc();
    let mut ingress = FolderIngress::new(alloc, rt, Text::copy_of(alloc, ".")?);
    let mut link = HttpLink::new(alloc, caller);
    let mut clock = SystemClock::new(rt);
    let mut out = WriterSink::new(rt.stdout());
    let made = statefun_run(
        alloc,
        words,
        module,
        &mut ingress,
        &mut link,
        &mut clock,
        &mut out,
    );
    Ok(made.end.status())
}

fn decode(rt: &HostRuntime, words: &[String]) -> u8 {
    let mut input = ReaderSource::new(rt.stdin());
    let mut out = WriterSink::new(rt.stdout());
    statefun_decode(rt.alloc(), words, &mut input, &mut out)
}
