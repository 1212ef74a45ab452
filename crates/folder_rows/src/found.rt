//! What is found in a folder.
use crate::life::opened;
use crate::plan::Checkpoint;
use crate::quiet::Quiet;
use crate::stop::Stop;
use folder_form::Loaded;
use piece_messages::{Feedback, encode_feedback, encode_piece};
use proto_wire::{Bytes, List, Mem, Text};
use run_record::Entry;
use std::alloc::Global;
use typed_values::EgressRecord;

/// What is found in a folder.
#[derive(Drop)]
pub struct Found {
    /// The number of the newest checkpoint.
    pub(crate) newest: u64,
    /// The stored leg.
    pub(crate) leg: u64,
    /// What is loaded, as bytes.
    pub(crate) loaded: Bytes,
    /// The entries of all checkpoints.
    pub(crate) entries: List<Entry>,
    /// What all checkpoints gave to egress.
    pub(crate) egress: List<EgressRecord>,
}

/// Opens the folder of a job, and reads it.
pub(crate) fn find(alloc: Global, disk: &mut Quiet, job: &Text) -> Result<Found, Stop> {
    let store = opened(alloc, disk, job)?;
    let loaded = store.load(disk)?;
    let entries = store.read_entries(disk)?;
    let mut egress = List::new(alloc);
    for number in 1..=store.newest() {
        for item in store.read_egress(disk, number)?.into_vec() {
            egress.push(item)?;
        }
    }
    Ok(Found {
        newest: store.newest(),
        leg: store.stored_leg(),
        loaded: loaded_bytes(alloc, loaded)?,
        entries,
        egress,
    })
}

fn loaded_bytes(alloc: Global, loaded: Loaded) -> Mem<Bytes> {
    let mut bytes = mark_bytes(
        alloc,
        loaded.number,
        loaded.leg,
        loaded.moment,
        loaded.taken.as_slice(),
    )?;
    for piece in loaded.pieces.as_slice() {
        add_part(&mut bytes, encode_piece(alloc, piece)?.as_slice())?;
    }
    for letters in loaded.feedback.into_vec() {
        add_part(
            &mut bytes,
            encode_feedback(alloc, &Feedback { letters })?.as_slice(),
        )?;
    }
    Ok(bytes)
}

/// What is loaded of a checkpoint as it was put, or where none was.
pub(crate) fn put_bytes(alloc: Global, checkpoint: Option<&Checkpoint>) -> Mem<Bytes> {
    let Some(checkpoint) = checkpoint else {
        return mark_bytes(alloc, 0, 0, 0, &[]);
    };
    let mark = &checkpoint.mark;
    let mut bytes = mark_bytes(
        alloc,
        mark.number,
        mark.leg,
        mark.moment,
        mark.taken.as_slice(),
    )?;
    for part in checkpoint.parts.as_slice() {
        add_part(&mut bytes, part.piece_bytes.as_slice())?;
    }
    for part in checkpoint.parts.as_slice() {
        add_part(&mut bytes, part.letters_bytes.as_slice())?;
    }
    Ok(bytes)
}

fn mark_bytes(alloc: Global, number: u64, leg: u64, moment: u64, taken: &[u64]) -> Mem<Bytes> {
    let mut bytes = Bytes::new(alloc);
    bytes.append(&number.to_be_bytes())?;
    bytes.append(&leg.to_be_bytes())?;
    bytes.append(&moment.to_be_bytes())?;
    for count in taken {
        bytes.append(&count.to_be_bytes())?;
    }
    Ok(bytes)
}

fn add_part(bytes: &mut Bytes, part: &[u8]) -> Mem<()> {
    bytes.append(&(part.len() as u64).to_be_bytes())?;
    bytes.append(part)
}
