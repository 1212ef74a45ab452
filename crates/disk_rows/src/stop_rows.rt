//! Rows of crashes, two deep: `stops PICK SECOND BODY ..`.
//!
//! The disk is stopped at each call of the life that appends the bodies, and crashes by the first pick. On each image a
//! second life appends two blocks, and is stopped at each of its calls; that crash is by the second pick. A line has the
//! first stop, the positions that were answered and the bodies that were found behind it, and behind a colon the bodies
//! found behind each second stop.
ghost use Rattle.std.specs.Prelude.{◌≤◌, IfOk};

use crate::life::{Life, live};
use crate::log_rows::bodies_of;
use crate::shown::{bodies, fault_word};
use proto_wire::{Bytes, List};
use row_text::Failure;
use sf_disk::MemoryDisk;
use std::alloc::Global;

/// A life of the rows makes fewer calls on its disk.
const MOST_CALLS: u64 = 64;

/// What the second life appends.
const SECOND: &str = "7a 7a7a";

/// A line for each stop of the first life, the last of them behind its calls.
pub fn show(alloc: Global, words: &str) -> Result<String, Failure> {
    let (first, words) = words.split_once(' ').ok_or(Failure::Row)?;
    let (second, words) = words.split_once(' ').ok_or(Failure::Row)?;
    let (first, second) = (pick_of(first)?, pick_of(second)?);
    let more = bodies_of(alloc, words)?;
    let mut text = String::new(alloc);
    for stop in 0..MOST_CALLS {
        let disk = MemoryDisk::steady(alloc, List::new(alloc))?;
        let (life, image) = stopped(alloc, disk, stop, more.as_slice(), first)?;
        let line = line_of(alloc, stop, &life, &image, second)?;
        text.push_str(line.as_str())?;
        if life.fault.is_none() {
            break;
        }
    }
    Ok(text)
}

fn pick_of(word: &str) -> Result<u8, Failure>
    ensures { IfOk result (λ pick. pick ≤ 2) }
{
    match word.parse::<u8>()? {
        pick if pick <= 2 => Ok(pick),
        _ => Err(Failure::Row),
    }
}

// A life on a disk that stops at a call, and what a crash behind it leaves.
fn stopped(
    alloc: Global,
    disk: MemoryDisk,
    stop: u64,
    more: &[Bytes],
    pick: u8,
) -> Result<(Life, MemoryDisk), Failure>
    requires { pick ≤ 2 }
{
    let mut disk = disk;
    disk.stop_at(stop);
    let life = live(alloc, &mut disk, more);
    let image = disk.crash(pick)?;
    Ok((life, image))
}

fn line_of(
    alloc: Global,
    stop: u64,
    life: &Life,
    image: &MemoryDisk,
    pick: u8,
) -> Result<String, Failure>
    requires { pick ≤ 2 }
{
    let mut text = format!(in alloc; "  {stop}")?;
    for position in life.answered.as_slice() {
        text.push_str(format!(in alloc; " {position}")?.as_str())?;
    }
    let found = found_in(alloc, image)?;
    text.push_str(format!(in alloc; " found {found}:")?.as_str())?;
    put_seconds(alloc, &mut text, image, pick)?;
    text.push_str("\n")?;
    Ok(text)
}

// What is found behind each stop of a second life on the image.
fn put_seconds(
    alloc: Global,
    text: &mut String,
    image: &MemoryDisk,
    pick: u8,
) -> Result<(), Failure>
    requires { pick ≤ 2 }
{
    let more = bodies_of(alloc, SECOND)?;
    for stop in 0..MOST_CALLS {
        let (life, left) = stopped(alloc, image.crash(1)?, stop, more.as_slice(), pick)?;
        let found = found_in(alloc, &left)?;
        text.push_str(format!(in alloc; " {found}")?.as_str())?;
        if life.fault.is_none() {
            break;
        }
    }
    Ok(())
}

// The bodies that opening finds on an image, or its fault.
fn found_in(alloc: Global, image: &MemoryDisk) -> Result<String, Failure> {
    let mut disk = image.crash(1)?;
    let life = live(alloc, &mut disk, &[]);
    match life.fault {
        None => bodies(alloc, life.found.as_slice()),
        Some(fault) => fault_word(alloc, fault),
    }
}
