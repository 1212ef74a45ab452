//! What a life writes, as a row says it: `JOB / LIMIT MARK PART .. / LIMIT MARK PART ..`.
//!
//! JOB is the text of a job. Behind it stands each checkpoint: the limit of the legs of a run that is begun before, what
//! the checkpoint says of itself (a block of a manifest without places), and for each partition `PIECE:LETTERS`.
use folder_form::Mark;
use folder_messages::{Complete, Manifest, decode_manifest};
use piece_messages::{Piece, decode_feedback, decode_piece};
use proto_wire::{Bytes, List, Mem, Text};
use row_text::{Failure, bytes_of};
use std::alloc::Global;
use typed_values::Letter;

/// What a life writes.
#[derive(Drop)]
pub struct Plan {
    pub(crate) job: Text,
    pub(crate) checkpoints: List<Checkpoint>,
}

/// A checkpoint, and the limit of the legs of the run before it.
#[derive(Drop)]
pub struct Checkpoint {
    pub(crate) limit: u64,
    pub(crate) mark: Mark,
    pub(crate) parts: List<Part>,
}

/// A partition's part of a checkpoint, and its bytes.
#[derive(Drop)]
pub struct Part {
    pub(crate) piece: Piece,
    pub(crate) letters: List<Letter>,
    pub(crate) piece_bytes: Bytes,
    pub(crate) letters_bytes: Bytes,
}

/// The plan of a row.
pub(crate) fn plan_of(alloc: Global, words: &str) -> Result<Plan, Failure> {
    let (job, sections) = words.split_once(" / ").ok_or(Failure::Row)?;
    let job = Text::of(bytes_of(alloc, job)?).ok_or(Failure::Row)?;
    let mut checkpoints = List::new(alloc);
    for section in sections.split(" / ") {
        checkpoints.push(checkpoint_of(alloc, section)?)?;
    }
    Ok(Plan { job, checkpoints })
}

fn checkpoint_of(alloc: Global, section: &str) -> Result<Checkpoint, Failure> {
    let (limit, words) = section.split_once(' ').ok_or(Failure::Row)?;
    let (mark, words) = words.split_once(' ').ok_or(Failure::Row)?;
    let mut parts = List::new(alloc);
    for word in words.split(' ') {
        parts.push(part_of(alloc, word)?)?;
    }
    let mark = match decode_manifest(alloc, bytes_of(alloc, mark)?.as_slice())? {
        Manifest::Complete(complete) => mark_of(alloc, complete)?,
        Manifest::Job(_job) => return Err(Failure::Row),
        Manifest::Opening(_opening) => return Err(Failure::Row),
    };
    Ok(Checkpoint {
        limit: limit.parse::<u64>()?,
        mark,
        parts,
    })
}

fn mark_of(alloc: Global, complete: Complete) -> Mem<Mark> {
    let mut taken = List::new(alloc);
    for split in complete.taken.as_slice() {
        taken.push(split.count)?;
    }
    Ok(Mark {
        number: complete.number,
        leg: complete.leg,
        moment: complete.moment,
        taken,
        takes: complete.takes,
    })
}

fn part_of(alloc: Global, word: &str) -> Result<Part, Failure> {
    let (piece, letters) = word.split_once(':').ok_or(Failure::Row)?;
    let piece_bytes = bytes_of(alloc, piece)?;
    let letters_bytes = bytes_of(alloc, letters)?;
    Ok(Part {
        piece: decode_piece(alloc, piece_bytes.as_slice())?,
        letters: decode_feedback(alloc, letters_bytes.as_slice())?.letters,
        piece_bytes,
        letters_bytes,
    })
}
