//! Entries as rows write them.
use crate::job::function;
use proto_wire::{Bytes, List, Mem, Text};
use row_text::{Failure, bytes_of, text_of};
use run_record::{Entry, Reply, Step};
use sf_outside::{Call, IngressRecord};
use std::alloc::Global;
use typed_values::Sender;

/// The entries of a field: `LEG.STAMP.NODE=STEP`, with blanks between them.
pub(crate) fn entries_of(alloc: Global, field: &str) -> Result<List<Entry>, Failure> {
    let mut entries = List::new(alloc);
    for word in field.split_whitespace() {
        entries.push(entry_of(alloc, word)?)?;
    }
    Ok(entries)
}

fn entry_of(alloc: Global, word: &str) -> Result<Entry, Failure> {
    let (key, step) = word.split_once('=').ok_or(Failure::Row)?;
    let mut numbers = key.split('.');
    Ok(Entry {
        leg: numbers.next().unwrap_or("").parse::<u64>()?,
        stamp: numbers.next().unwrap_or("").parse::<u64>()?,
        node: numbers.next().unwrap_or("").parse::<u32>()?,
        step: step_of(alloc, step)?,
    })
}

/// The step of a word: `take:SPLIT`, `serve:ID:MOMENT:SENDERS:ANSWER`, a batch for `n/f` of ID, `register:..` likewise, or
/// `due:ID:MOMENT`.
pub(crate) fn step_of(alloc: Global, word: &str) -> Result<Step, Failure> {
    let (kind, fields) = word.split_once(':').ok_or(Failure::Row)?;
    match kind {
        "take" => Ok(Step::Take(fields.parse::<u32>()?)),
        "serve" => Ok(Step::Batch(reply_of(alloc, fields)?)),
        "register" => Ok(Step::Register(reply_of(alloc, fields)?)),
        "due" => due_of(alloc, fields),
        _ => Err(Failure::Row),
    }
}

fn due_of(alloc: Global, fields: &str) -> Result<Step, Failure> {
    let (id, moment) = fields.split_once(':').ok_or(Failure::Row)?;
    Ok(Step::Due {
        address: function(alloc, text_of(alloc, id)?)?,
        moment: moment.parse::<u64>()?,
    })
}

fn reply_of(alloc: Global, fields: &str) -> Result<Reply, Failure> {
    let mut parts = fields.split(':');
    let id = text_of(alloc, parts.next().unwrap_or(""))?;
    let moment = parts.next().unwrap_or("").parse::<u64>()?;
    let picks = senders_of(alloc, parts.next().unwrap_or(""))?;
    let answer = bytes_of(alloc, parts.next().unwrap_or(""))?;
    made(alloc, id, moment, picks, answer)
}

fn made(
    alloc: Global,
    id: Text,
    moment: u64,
    picks: List<Sender>,
    answer: Bytes,
) -> Result<Reply, Failure> {
    Ok(Reply {
        call: Call {
            leg: 1,
            partition: 0,
            turn: 0,
        },
        address: function(alloc, id)?,
        moment,
        picks,
        answer,
    })
}

/// The senders of a field, with `,` between them.
fn senders_of(alloc: Global, field: &str) -> Result<List<Sender>, Failure> {
    let mut senders = List::new(alloc);
    if field.is_empty() {
        return Ok(senders);
    }
    for word in field.split(',') {
        senders.push(sender_of(alloc, word)?)?;
    }
    Ok(senders)
}

/// The sender of a word: the number of a split, or `@ID` for `n/f` of ID.
pub(crate) fn sender_of(alloc: Global, word: &str) -> Result<Sender, Failure> {
    match word.strip_prefix('@') {
        Some(id) => Ok(Sender::Function(function(alloc, text_of(alloc, id)?)?)),
        None => Ok(Sender::Split(word.parse::<u32>()?)),
    }
}

/// A record whose value is the bytes of its key.
pub(crate) fn record(alloc: Global, key: &str) -> Mem<IngressRecord> {
    Ok(IngressRecord {
        key: Text::copy_of(alloc, key)?,
        value: Bytes::copy_of(alloc, key.as_bytes())?,
    })
}
