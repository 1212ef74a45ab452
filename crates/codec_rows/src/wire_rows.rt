//! Rows on the records of the wire format.
ghost use Rattle.std.specs.Prelude.{IfOk};
ghost use Rattle.proto_wire.specs.Record.{IsField};

use crate::told::{fault_text, owned};
use proto_wire::{
    Bytes, WireFault, WireRecord, next_record, put_bytes, put_varint, varint_in, varint_size,
    with_eight, with_four,
};
use row_text::{Failure, bytes_of};
use std::alloc::Global;

/// The records of a message from its begin to its end or first fault, each in a line.
pub(crate) fn records(alloc: Global, words: &str) -> Result<String, Failure> {
    let bytes = bytes_of(alloc, words)?;
    let mut text = String::new(alloc);
    let mut at = 0usize;
    for _ in 0..=bytes.len() {
        let next = next_in(bytes.as_slice(), at, bytes.len());
        text.push_str(next_text(alloc, next)?.as_str())?;
        match next {
            Ok(Some(record)) => at = record.next,
            _ => return Ok(text),
        }
        text.push_str("\n  ")?;
    }
    Err(Failure::Row)
}

/// One record of a part of a message: `FROM END BYTES`.
pub(crate) fn record_within(alloc: Global, words: &str) -> Result<String, Failure> {
    let (from, rest) = words.split_once(' ').ok_or(Failure::Row)?;
    let (end, rest) = rest.split_once(' ').unwrap_or((rest, ""));
    let bytes = bytes_of(alloc, rest)?;
    next_text(
        alloc,
        next_in(bytes.as_slice(), place_of(from)?, place_of(end)?),
    )
}

fn place_of(word: &str) -> Result<usize, Failure> {
    Ok(word.parse::<usize>()?)
}

/// The record at a place; no record where the places are none of the bytes.
fn next_in(bytes: &[u8], at: usize, end: usize) -> Result<Option<WireRecord>, WireFault> {
    if at > end || end > bytes.len() {
        return Ok(None);
    }
    next_record(bytes, at, end)
}

fn next_text(
    alloc: Global,
    next: Result<Option<WireRecord>, WireFault>,
) -> Result<String, Failure> {
    match next {
        Ok(Some(record)) => record_text(alloc, &record),
        Ok(None) => owned(alloc, "end"),
        Err(fault) => fault_text(alloc, fault),
    }
}

fn record_text(alloc: Global, record: &WireRecord) -> Result<String, Failure> {
    let WireRecord {
        field,
        wire,
        number,
        start,
        len,
        next,
    } = *record;
    Ok(format!(in alloc;
        "field {field} wire {wire} number {number} start {start} len {len} next {next}"
    )?)
}

/// The shortest varint of a number, and what is read of it again.
pub(crate) fn varint(alloc: Global, word: &str) -> Result<String, Failure> {
    let number = word.parse::<u64>()?;
    let mut bytes = Bytes::new(alloc);
    put_varint(&mut bytes, number)?;
    let size = varint_size(number);
    let digits = hex::encode(alloc, bytes.as_slice())?;
    Ok(format!(in alloc; "{digits} size {size}")?)
}

/// The varint that bytes begin with, and how many bytes follow it.
pub(crate) fn varint_of(alloc: Global, words: &str) -> Result<String, Failure> {
    let bytes = bytes_of(alloc, words)?;
    match varint_in(bytes.len(), bytes.as_slice()) {
        Ok((number, rest)) => varint_text(alloc, number, rest.len()),
        Err(fault) => fault_text(alloc, fault),
    }
}

fn varint_text(alloc: Global, number: u64, rest: usize) -> Result<String, Failure> {
    Ok(format!(in alloc; "number {number} rest {rest}")?)
}

/// The record of a field with bytes: `FIELD BYTES`.
pub(crate) fn field_with_bytes(alloc: Global, words: &str) -> Result<String, Failure> {
    let (field, rest) = words.split_once(' ').unwrap_or((words, ""));
    let payload = bytes_of(alloc, rest)?;
    let field = field_of(field)?;
    let mut bytes = Bytes::new(alloc);
    put_bytes(&mut bytes, field, payload.as_slice())?;
    Ok(hex::encode(alloc, bytes.as_slice())?)
}

/// The number of a field, from 1 to 536,870,911.
fn field_of(word: &str) -> Result<u32, Failure>
    ensures { IfOk result (λ field. IsField field) }
{
    match word.parse::<u32>() {
        Ok(field) if 1 <= field && field <= 536_870_911 => Ok(field),
        _ => Err(Failure::Row),
    }
}

/// A number in four bytes in a field, and the size of that: `FIELD NUMBER`.
pub(crate) fn four(alloc: Global, words: &str) -> Result<String, Failure> {
    let (field, number) = words.split_once(' ').ok_or(Failure::Row)?;
    let field = field_of(field)?;
    match number.parse::<i32>() {
        Ok(number) => fixed_text(alloc, with_four(Bytes::new(alloc), field, number)?),
        Err(_) => Err(Failure::Row),
    }
}

/// A number in eight bytes in a field, and the size of that: `FIELD NUMBER`.
pub(crate) fn eight(alloc: Global, words: &str) -> Result<String, Failure> {
    let (field, number) = words.split_once(' ').ok_or(Failure::Row)?;
    let field = field_of(field)?;
    match number.parse::<i64>() {
        Ok(number) => fixed_text(alloc, with_eight(Bytes::new(alloc), field, number)?),
        Err(_) => Err(Failure::Row),
    }
}

fn fixed_text(alloc: Global, bytes: Bytes) -> Result<String, Failure> {
    let size = bytes.len();
    let digits = hex::encode(alloc, bytes.as_slice())?;
    Ok(format!(in alloc; "'{digits}' size {size}")?)
}
