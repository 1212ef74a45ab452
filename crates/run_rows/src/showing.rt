//! What is printed of a row.
use crate::detail::{put_starts, put_steps, put_sum};
use crate::ends::end_of;
use crate::making::{Made, make};
use crate::replays::{Again, Held, replay_row};
use crate::row::{Row, row_of};
use proto_wire::Bytes;
use row_text::{Failure, put_written};
use run_record::{Entry, Step};
use sf_outside::{Call, LinkEvent};
use std::alloc::Global;
use std::str;

/// What came of a row, line by line, each with two blanks before it.
pub(crate) fn shown(alloc: Global, line: &str) -> Result<String, Failure> {
    match line.strip_prefix("end ") {
        Some(field) => end_shown(alloc, field),
        None => run_shown(alloc, line),
    }
}

/// The line and the status of an end.
fn end_shown(alloc: Global, field: &str) -> Result<String, Failure> {
    let end = end_of(alloc, field)?;
    let mut line = Bytes::new(alloc);
    end.put_line(&mut line, 0)?;
    let mut text = String::new(alloc);
    put_written(&mut text, str::from_utf8(line.as_slice())?)?;
    let status = end.status();
    text.push_str(format!(in alloc; "  status {status}\n")?.as_str())?;
    Ok(text)
}

/// What came of the run of a row.
fn run_shown(alloc: Global, line: &str) -> Result<String, Failure> {
    let row = row_of(line);
    let made = make(alloc, &row)?;
    let mut text = String::new(alloc);
    put_run(alloc, &mut text, &row, &made)?;
    Ok(text)
}

fn put_run(alloc: Global, text: &mut String, row: &Row, made: &Made) -> Result<(), Failure> {
    let replay = replay_row(alloc, row, &made.entries)?;
    put_written(text, str::from_utf8(made.out.bytes().as_slice())?)?;
    put_status(alloc, text, made.status)?;
    put_entries(alloc, text, made.entries.as_slice())?;
    put_calls(alloc, text, made.link.journal().as_slice())?;
    put_replay(alloc, text, replay)?;
    put_detail(alloc, text, row.detail, made)
}

/// Adds requests and steps, or a checksum of them.
fn put_detail(alloc: Global, text: &mut String, detail: &str, made: &Made) -> Result<(), Failure> {
    let mut lines = String::new(alloc);
    put_starts(alloc, &mut lines, made.link.journal().as_slice())?;
    put_steps(alloc, &mut lines, made.entries.as_slice())?;
    match detail {
        "full" => text.push_str(lines.as_str())?,
        "sum" => put_sum(alloc, text, lines.as_str())?,
        _ => {}
    }
    Ok(())
}

fn put_status(alloc: Global, text: &mut String, status: u8) -> Result<(), Failure> {
    text.push_str(format!(in alloc; "  status {status}; entries")?.as_str())?;
    Ok(())
}

/// Adds the kinds and keys of the entries.
fn put_entries(alloc: Global, text: &mut String, entries: &[Entry]) -> Result<(), Failure> {
    if entries.is_empty() {
        text.push_str(" none")?;
    }
    for entry in entries {
        put_entry(alloc, text, entry)?;
    }
    Ok(())
}

fn put_entry(alloc: Global, text: &mut String, entry: &Entry) -> Result<(), Failure> {
    let kind = match &entry.step {
        Step::Take(_) => "T",
        Step::Batch(_) => "B",
        Step::Register(_) => "R",
        Step::Due { .. } => "D",
    };
    let leg = entry.leg;
    let stamp = entry.stamp;
    let node = entry.node;
    text.push_str(format!(in alloc; " {kind}{leg}.{stamp}.{node}")?.as_str())?;
    Ok(())
}

/// Adds the calls that were started, and how many polls were answered.
fn put_calls(alloc: Global, text: &mut String, journal: &[LinkEvent]) -> Result<(), Failure> {
    text.push_str("; calls")?;
    if journal.is_empty() {
        text.push_str(" none")?;
    }
    for event in journal {
        if let LinkEvent::Started { call, .. } = event {
            put_call(alloc, text, call)?;
        }
    }
    let polls = polls_in(journal);
    text.push_str(format!(in alloc; "; polls {polls}")?.as_str())?;
    Ok(())
}

fn put_call(alloc: Global, text: &mut String, call: &Call) -> Result<(), Failure> {
    let leg = call.leg;
    let partition = call.partition;
    let turn = call.turn;
    text.push_str(format!(in alloc; " {leg}.{partition}.{turn}")?.as_str())?;
    Ok(())
}

/// How many polls were answered.
fn polls_in(journal: &[LinkEvent]) -> usize {
    let mut polls = 0usize;
    for event in journal {
        if let LinkEvent::Polled(_) = event {
            polls = polls.saturating_add(1);
        }
    }
    polls
}

/// Adds what came of the replay, which ends the line.
fn put_replay(alloc: Global, text: &mut String, replay: Again) -> Result<(), Failure> {
    match replay {
        Again::NoJob => text.push_str("; no job\n")?,
        Again::GivenUp => text.push_str("; replay given up\n")?,
        Again::NotAllowed(place) => put_place(alloc, text, place)?,
        Again::State(held) => put_held(alloc, text, held)?,
    }
    Ok(())
}

fn put_place(alloc: Global, text: &mut String, place: u64) -> Result<(), Failure> {
    text.push_str(format!(in alloc; "; not allowed at {place}\n")?.as_str())?;
    Ok(())
}

fn put_held(alloc: Global, text: &mut String, held: Held) -> Result<(), Failure> {
    let [first, second] = held.taken;
    let kept = held.kept;
    text.push_str(format!(in alloc;
        "; replays, taken {first} {second}, egress {kept}\n"
    )?.as_str())?;
    Ok(())
}
