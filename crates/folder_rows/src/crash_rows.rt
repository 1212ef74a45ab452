//! Rows of crashes, two deep: `crashes FIRST SECOND PLAN`.
//!
//! The disk is stopped at each call of the life that writes what is planned, and crashes by the first pick. Each image is
//! opened again and stopped at each call of that; this crash is by the second pick. What is left is opened once more. A
//! line has the stops of the life between which as much was answered and the same is found, and how often the second crash
//! left that. A case in which something else is found has a line of its own, `broken` with its stops.
use crate::found::{Found, find, put_bytes};
use crate::life::{Life, live, opened};
use crate::plan::{Plan, plan_of};
use crate::quiet::Quiet;
use crate::spans::{Outcome, Span, put_span, with_stop};
use crate::stop::refusal;
use proto_wire::List;
use row_text::Failure;
use std::alloc::Global;

/// A life and an opening make fewer calls on their disk.
const MOST_CALLS: u64 = 1024;

/// The picks of a row.
#[derive(Clone, Copy)]
struct Picks {
    first: u8,
    second: u8,
}

/// A line for each span of stops, and for each case that is not as it should be.
pub fn show(alloc: Global, words: &str) -> Result<String, Failure> {
    let (first, words) = words.split_once(' ').ok_or(Failure::Row)?;
    let (second, words) = words.split_once(' ').ok_or(Failure::Row)?;
    let picks = Picks {
        first: first.parse::<u8>()?,
        second: second.parse::<u8>()?,
    };
    let plan = plan_of(alloc, words)?;
    let mut text = String::new(alloc);
    let mut span = None;
    for stop in 0..MOST_CALLS {
        let (life, image) = stopped(alloc, &plan, stop, picks.first)?;
        match found_in(alloc, &plan, &image, life.answered, life.begun)? {
            Some(found) => {
                let cases = reopened(alloc, &plan, &image, &found, picks, stop, &mut text)?;
                let next = span_of(stop, life.answered, &found, cases);
                span = Some(with_stop(alloc, &mut text, span, next)?);
            }
            None => text.push_str(format!(in alloc; "  broken {stop}\n")?.as_str())?,
        }
        if life.fault.is_none() {
            break;
        }
    }
    put_span(alloc, &mut text, span)?;
    Ok(text)
}

// A life on a disk that stops at a call, and what a crash behind it leaves.
fn stopped(alloc: Global, plan: &Plan, stop: u64, pick: u8) -> Result<(Life, Quiet), Failure> {
    let mut disk = Quiet::stopping(alloc, List::new(alloc), stop)?;
    let life = live(alloc, &mut disk, plan)?;
    let image = disk.crash(pick)?;
    Ok((life, image))
}

// How often a crash in an opening of the image leaves what was found in it.
fn reopened(
    alloc: Global,
    plan: &Plan,
    image: &Quiet,
    found: &Found,
    picks: Picks,
    first: u64,
    text: &mut String,
) -> Result<u64, Failure> {
    let state = state_of(plan, found).unwrap_or(0);
    let mut cases: u64 = 0;
    for stop in 0..MOST_CALLS {
        let mut disk = image.copy(stop)?;
        let is_opened = is_open(alloc, plan, &mut disk)?;
        let left = disk.crash(picks.second)?;
        match found_in(alloc, plan, &left, state, state)? {
            Some(_found) => cases = cases.saturating_add(1),
            None => text.push_str(format!(in alloc; "  broken {first} {stop}\n")?.as_str())?,
        }
        if is_opened {
            break;
        }
    }
    Ok(cases)
}

// Whether opening a folder goes on to its end.
fn is_open(alloc: Global, plan: &Plan, disk: &mut Quiet) -> Result<bool, Failure> {
    match opened(alloc, disk, &plan.job) {
        Ok(_store) => Ok(true),
        Err(stop) => {
            let _fault = refusal(stop)?;
            Ok(false)
        }
    }
}

// What is found on an image, where it is what was put, with as many runs and checkpoints as these bounds say.
fn found_in(
    alloc: Global,
    plan: &Plan,
    image: &Quiet,
    least: u64,
    most: u64,
) -> Result<Option<Found>, Failure> {
    let mut disk = image.crash(1)?;
    match find(alloc, &mut disk, &plan.job) {
        Ok(found) => {
            if is_right(alloc, plan, &found, least, most)? {
                Ok(Some(found))
            } else {
                Ok(None)
            }
        }
        Err(stop) => {
            let _fault = refusal(stop)?;
            Ok(None)
        }
    }
}

fn is_right(
    alloc: Global,
    plan: &Plan,
    found: &Found,
    least: u64,
    most: u64,
) -> Result<bool, Failure> {
    let checkpoints = plan.checkpoints.as_slice();
    let newest = match found.newest {
        0 => None,
        number => checkpoints.get(number as usize - 1),
    };
    let put = put_bytes(alloc, newest)?;
    match state_of(plan, found) {
        Some(state) => Ok(
            least <= state && state <= most && put.as_slice() == found.loaded.as_slice(),
        ),
        None => Ok(false),
    }
}

// How many runs and checkpoints stand in what is found, where they lead to it.
fn state_of(plan: &Plan, found: &Found) -> Option<u64> {
    let mut state: u64 = 0;
    let mut newest: u64 = 0;
    let mut leg: u64 = 0;
    for checkpoint in plan.checkpoints.as_slice() {
        if newest == found.newest && leg == found.leg {
            return Some(state);
        }
        leg = leg.max(checkpoint.limit);
        if newest == found.newest && leg == found.leg {
            return Some(state.saturating_add(1));
        }
        state = state.saturating_add(2);
        newest = newest.saturating_add(1);
        leg = leg.max(checkpoint.mark.leg);
    }
    if newest == found.newest && leg == found.leg {
        return Some(state);
    }
    None
}

fn span_of(stop: u64, answered: u64, found: &Found, cases: u64) -> Span {
    Span {
        first: stop,
        last: stop,
        outcome: Outcome {
            answered,
            newest: found.newest,
            leg: found.leg,
            entries: found.entries.len() as u64,
        },
        cases,
    }
}
