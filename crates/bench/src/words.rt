//! The words of the command line.
use crate::failure::Failure;
use std::env;

/// What is done again and again.
#[derive(Clone, Copy, Debug, PartialEq, Eq)]
pub(crate) enum Work {
    /// Letters, one by one.
    Letters,
    /// One request with many letters.
    Request,
    /// One answer with many messages for functions.
    Answer,
    /// The module file on standard input.
    Module,
    /// Writes of cells.
    Cells,
    /// Letters for 97 addresses that are put, opened in batches and taken.
    Mail,
    /// The same for 10,000 addresses.
    Mailboxes,
    /// Delays that are put, cancelled and sent.
    Delays,
    /// A record of the machine that is replayed.
    Replay,
    /// An answer with egress messages, decoded.
    Egresses,
    /// The same answer, judged.
    Judged,
}

impl Work {
    /// The word that asks for it.
    pub(crate) fn word(self) -> &'static str {
        match self {
            Work::Letters => "letters",
            Work::Request => "request",
            Work::Answer => "answer",
            Work::Module => "module",
            Work::Cells => "cells",
            Work::Mail => "mail",
            Work::Mailboxes => "mailboxes",
            Work::Delays => "delays",
            Work::Replay => "replay",
            Work::Egresses => "egresses",
            Work::Judged => "judged",
        }
    }
}

/// What the words ask for.
#[derive(Clone, Copy, Debug, PartialEq, Eq)]
pub(crate) struct Task {
    pub(crate) work: Work,
    /// How many letters, messages, writes, delays, entries or documents there are.
    pub(crate) count: u32,
    /// How often all of them are gone through.
    pub(crate) rounds: u32,
}

/// What the program's words ask for.
pub(crate) fn asked(rt: &HostRuntime) -> Result<Task, Failure> {
    let words: Vec<String> = env::args(rt)?.collect(rt.alloc())?;
    match words.as_slice() {
        [_, work, count, rounds] => read(work.as_str(), count.as_str(), rounds.as_str()),
        _ => Err(Failure::Words),
    }
}

fn read(work: &str, count: &str, rounds: &str) -> Result<Task, Failure> {
    Ok(Task {
        work: work_of(work)?,
        count: number(count)?,
        rounds: number(rounds)?,
    })
}

fn work_of(word: &str) -> Result<Work, Failure> {
    match word {
        "letters" => Ok(Work::Letters),
        "request" => Ok(Work::Request),
        "answer" => Ok(Work::Answer),
        "module" => Ok(Work::Module),
        "cells" => Ok(Work::Cells),
        "mail" => Ok(Work::Mail),
        "mailboxes" => Ok(Work::Mailboxes),
        "delays" => Ok(Work::Delays),
        "replay" => Ok(Work::Replay),
        "egresses" => Ok(Work::Egresses),
        "judged" => Ok(Work::Judged),
        _ => Err(Failure::Words),
    }
}

fn number(word: &str) -> Result<u32, Failure> {
    match word.parse::<u32>() {
        Ok(number) => Ok(number),
        Err(_) => Err(Failure::Words),
    }
}
