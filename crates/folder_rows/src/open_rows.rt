//! Rows of folders that no life made: `open FILE BODY .. / FILE = BYTES / FILE + BYTES` and `cut FILE / FILE BODY .. / ..`.
//!
//! `FILE BODY ..` adds blocks to a file; behind `=` stands what a file holds in place of what it held, and behind `+` what
//! it holds in place of its last byte. Bodies and bytes are words with `,` between their parts. An `open` row shows what
//! opening the folder for its job and as it is answers; the job is of two partitions. A `cut` row cuts the file to each
//! length from its end down to 0, and shows what opening for the job answers, a line for lengths with the same answer.
use crate::files::{add, bodies_of, changed, content_of, parts_of};
use crate::life::opened;
use crate::quiet::Quiet;
use crate::stop::{fault_word, refusal};
use proto_wire::{List, Text};
use row_text::Failure;
use snapshot_files::Store;
use std::alloc::Global;

/// The job's text.
const JOB: &str = "partitions 2\ningress a/b 2 io.statefun.types/string c/d\n";

/// What the two openings answer.
pub fn show(alloc: Global, words: &str) -> Result<String, Failure> {
    let mut disk = disk_of(alloc, words)?;
    let mut copy = disk.crash(1)?;
    let by_job = opening(alloc, &mut copy)?;
    let as_it_is = opening_kept(alloc, &mut disk)?;
    Ok(format!(in alloc; "  {by_job}; as it is {as_it_is}\n")?)
}

/// What is answered at each length.
pub fn show_cuts(alloc: Global, words: &str) -> Result<String, Failure> {
    let (file, words) = words.split_once(" / ").ok_or(Failure::Row)?;
    let file = file.parse::<u32>()?;
    let mut disk = disk_of(alloc, words)?;
    let len = content_of(alloc, &mut disk, file)?.len();
    let mut text = String::new(alloc);
    let mut first = len;
    let mut before = opening(alloc, &mut disk.crash(1)?)?;
    for cut in (0..len).rev() {
        let answer = opening(alloc, &mut changed(alloc, &mut disk, file, cut, &[])?)?;
        if answer != before {
            let last = cut.saturating_add(1);
            text.push_str(format!(in alloc; "  {first}..{last} {before}\n")?.as_str())?;
            first = cut;
            before = answer;
        }
    }
    text.push_str(format!(in alloc; "  {first}..0 {before}\n")?.as_str())?;
    Ok(text)
}

fn disk_of(alloc: Global, words: &str) -> Result<Quiet, Failure> {
    let mut disk = Quiet::new(alloc, List::new(alloc))?;
    for change in words.split(" / ") {
        disk = with_change(alloc, disk, change)?;
    }
    Ok(disk)
}

fn with_change(alloc: Global, disk: Quiet, change: &str) -> Result<Quiet, Failure> {
    let mut disk = disk;
    let (file, what) = change.split_once(' ').ok_or(Failure::Row)?;
    let file = file.parse::<u32>()?;
    let (mark, rest) = what.split_once(' ').unwrap_or((what, ""));
    match mark {
        "=" => changed(alloc, &mut disk, file, 0, parts_of(alloc, rest)?.as_slice()),
        "+" => {
            let front = content_of(alloc, &mut disk, file)?.len().saturating_sub(1);
            changed(
                alloc,
                &mut disk,
                file,
                front,
                parts_of(alloc, rest)?.as_slice(),
            )
        }
        _ => {
            add(alloc, &mut disk, file, bodies_of(alloc, what)?.as_slice())?;
            Ok(disk)
        }
    }
}

fn opening(alloc: Global, disk: &mut Quiet) -> Result<String, Failure> {
    let job = Text::copy_of(alloc, JOB)?;
    match opened(alloc, disk, &job) {
        Ok(store) => words_of(alloc, &store),
        Err(stop) => fault_word(alloc, &refusal(stop)?),
    }
}

fn opening_kept(alloc: Global, disk: &mut Quiet) -> Result<String, Failure> {
    match Store::open_kept(alloc, disk) {
        Ok(Some(store)) => words_of(alloc, &store),
        Ok(None) => Ok(String::from_str(alloc, "no job")?),
        Err(fault) => fault_word(alloc, &fault),
    }
}

fn words_of(alloc: Global, store: &Store) -> Result<String, Failure> {
    let newest = store.newest();
    let leg = store.stored_leg();
    Ok(format!(in alloc; "ok newest {newest} leg {leg}")?)
}
