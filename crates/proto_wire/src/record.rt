//! Records (Protocol Buffers encoding guide, "Message Structure"): a tag and a payload.
ghost use Rattle.std.specs.Prelude.{◌≡◌, ◌+◌, ◌*◌, ◌-◌, ◌%◌, ◌/◌, ◌==◌, ◌^◌, ◌<◌, ◌≤◌, ◌&&◌, length, take, drop, IfOk};
ghost use Rattle.std.specs.Int.{w32, w64};
ghost use Rattle.proto_wire.specs.Reads.{Reads};
ghost use Rattle.proto_wire.specs.Record.{tag_in, fixed_in, delimited_in, number_in, payload_in, record_in, is_wire};
ghost use Rattle.proto_wire.specs.Places.{next_record, item_of, places, IsPlaced};

use crate::varint::{fault_at, place, varint_in};
use crate::{WireFault, WireKind};

/// One record, whose payload is lent.
#[derive(Clone, Copy, Drop)]
pub struct Record<'a> {
    pub field: u32,
    /// 0 a varint, 1 eight bytes, 2 a length and that many bytes, 5 four bytes.
    pub wire: u8,
    /// The varint or the fixed number; for wire 2 the length.
    pub number: u64,
    /// The bytes of the number, or those behind the length.
    pub payload: &'a [u8],
    /// The place behind the payload in the whole input.
    pub end: usize,
}

#[tactic(auto, unfolding(crate::specs::Record::tag_in))]
fn tag_in(end: usize, bytes: &[u8]) -> Result<(u32, &[u8]), WireFault>
    requires inside { length bytes.now ≤ end }
    ensures reads { Reads end (λ x. (x.0, x.1.now)) result (tag_in bytes.now) }
    ensures shorter { IfOk result (λ x. length x.1.now < length bytes.now) }
{
    let (tag, rest) = varint_in(end, bytes)?;
    let Ok(tag) = u32::try_from(tag) else {
        return Err(fault_at(WireKind::TagTooLarge, end, bytes));
    };
    if tag < 8 {
        return Err(fault_at(WireKind::FieldZero, end, bytes));
    }
    if !is_wire(tag % 8) {
        return Err(fault_at(WireKind::WireType, end, bytes));
    }
    Ok((tag, rest))
}

fn is_wire(wire: u32) -> bool
    ensures { result ≡ is_wire wire }
{
    wire == 0 || wire == 1 || wire == 2 || wire == 5
}

#[tactic(auto, unfolding(crate::specs::Record::number_in))]
fn number_in(end: usize, tag: u32, bytes: &[u8]) -> Result<(Record<'_>, &[u8]), WireFault>
    requires inside { length bytes.now ≤ end }
    ensures reads { Reads end (λ x. (item_of x.0, x.1.now)) result (number_in tag bytes.now) }
    ensures shorter { IfOk result (λ x. length x.1.now ≤ length bytes.now) }
    ensures placed { IfOk result (λ x. IsPlaced end x.0 x.1.now) }
{
    let (number, rest) = varint_in(end, bytes)?;
    let (payload, _) = bytes.split_at(bytes.len() - rest.len());
    Ok((made(end, tag, number, payload, rest), rest))
}

fn made<'a>(end: usize, tag: u32, number: u64, payload: &'a [u8], rest: &[u8]) -> Record<'a>
    requires inside { length payload.now + length rest.now ≤ end }
    ensures is { item_of result ≡ record { field = tag / 8; wire = tag % 8; number = number; payload = payload.entry.now } }
    ensures placed { IsPlaced end result rest.now }
{
    Record {
        field: tag / 8,
        wire: (tag % 8) as u8,
        number,
        payload,
        end: place(end, rest),
    }
}

#[tactic(auto, unfolding(crate::specs::Record::fixed_in))]
fn eight_in(end: usize, tag: u32, bytes: &[u8]) -> Result<(Record<'_>, &[u8]), WireFault>
    requires inside { length bytes.now ≤ end }
    ensures reads { Reads end (λ x. (item_of x.0, x.1.now)) result (fixed_in w64 tag bytes.now) }
    ensures shorter { IfOk result (λ x. length x.1.now ≤ length bytes.now) }
    ensures placed { IfOk result (λ x. IsPlaced end x.0 x.1.now) }
{
    if bytes.len() < 8 {
        return Err(fault_at(WireKind::Truncated, end, bytes));
    }
    let (front, rest) = bytes.split_at(8);
    let number = u64::from_le_bytes([
        front[0], front[1], front[2], front[3], front[4], front[5], front[6], front[7],
    ]);
    Ok((made(end, tag, number, front, rest), rest))
}

#[tactic(auto, unfolding(crate::specs::Record::fixed_in))]
fn four_in(end: usize, tag: u32, bytes: &[u8]) -> Result<(Record<'_>, &[u8]), WireFault>
    requires inside { length bytes.now ≤ end }
    ensures reads { Reads end (λ x. (item_of x.0, x.1.now)) result (fixed_in w32 tag bytes.now) }
    ensures shorter { IfOk result (λ x. length x.1.now ≤ length bytes.now) }
    ensures placed { IfOk result (λ x. IsPlaced end x.0 x.1.now) }
{
    if bytes.len() < 4 {
        return Err(fault_at(WireKind::Truncated, end, bytes));
    }
    let (front, rest) = bytes.split_at(4);
    let number = u32::from_le_bytes([front[0], front[1], front[2], front[3]]);
    Ok((made(end, tag, u64::from(number), front, rest), rest))
}

#[tactic(auto, unfolding(crate::specs::Record::delimited_in))]
fn delimited_in(end: usize, tag: u32, bytes: &[u8]) -> Result<(Record<'_>, &[u8]), WireFault>
    requires inside { length bytes.now ≤ end }
    ensures reads { Reads end (λ x. (item_of x.0, x.1.now)) result (delimited_in tag bytes.now) }
    ensures shorter { IfOk result (λ x. length x.1.now ≤ length bytes.now) }
    ensures placed { IfOk result (λ x. IsPlaced end x.0 x.1.now) }
{
    let (len, rest) = varint_in(end, bytes)?;
    if (rest.len() as u64) < len {
        return Err(fault_at(WireKind::Truncated, end, bytes));
    }
    let (payload, rest) = rest.split_at(len as usize);
    Ok((made(end, tag, len, payload, rest), rest))
}

#[tactic(auto, unfolding(crate::specs::Record::payload_in))]
fn payload_in(end: usize, tag: u32, bytes: &[u8]) -> Result<(Record<'_>, &[u8]), WireFault>
    requires inside { length bytes.now ≤ end }
    ensures reads { Reads end (λ x. (item_of x.0, x.1.now)) result (payload_in tag bytes.now) }
    ensures shorter { IfOk result (λ x. length x.1.now ≤ length bytes.now) }
    ensures placed { IfOk result (λ x. IsPlaced end x.0 x.1.now) }
{
    let wire = tag % 8;
    if wire == 0 {
        return number_in(end, tag, bytes);
    }
    if wire == 1 {
        return eight_in(end, tag, bytes);
    }
    if wire == 2 {
        return delimited_in(end, tag, bytes);
    }
    four_in(end, tag, bytes)
}

/// Reads the record at the front of bytes that end at the place `end`: the record, and the bytes behind it.
#[tactic(auto, unfolding(crate::specs::Record::record_in))]
pub fn record_in(end: usize, bytes: &[u8]) -> Result<(Record<'_>, &[u8]), WireFault>
    requires inside { length bytes.now ≤ end }
    ensures reads { Reads end (λ x. (item_of x.0, x.1.now)) result (record_in bytes.now) }
    ensures shorter { IfOk result (λ x. length x.1.now < length bytes.now) }
    ensures placed { IfOk result (λ x. IsPlaced end x.0 x.1.now) }
{
    let (tag, rest) = tag_in(end, bytes)?;
    payload_in(end, tag, rest)
}

/// One record by its places in the input.
#[derive(Clone, Copy, Debug, PartialEq, Eq)]
pub struct WireRecord {
    pub field: u32,
    /// 0 a varint, 1 eight bytes, 2 a length and that many bytes, 5 four bytes.
    pub wire: u8,
    /// The varint or the fixed number; for wire 2 the length.
    pub number: u64,
    /// The place of the payload's first byte; for wire 2 of the first byte behind the length.
    pub start: usize,
    /// The length of the payload.
    pub len: usize,
    /// The place behind the record.
    pub next: usize,
}

/// Reads the record at `at` of a message that ends at `end`. `None` exactly where `at` is `end`; else the record, or its first fault, whose kind is Truncated,
/// LongVarint, TagTooLarge, FieldZero or WireType.
#[tactic(auto, unfolding(crate::specs::Places::next_record))]
pub fn next_record(bytes: &[u8], at: usize, end: usize) -> Result<Option<WireRecord>, WireFault>
    requires ordered { at ≤ end }
    requires within { end ≤ length bytes.now }
    ensures { result ≡ next_record bytes.now at end }
{
    if at == end {
        return Ok(None);
    }
    let (record, rest) = record_in(end, &bytes[at..end])?;
    Ok(Some(placed(end, &record, rest)))
}

/// A record by its places, where the bytes behind it end at the place `end`.
fn placed(end: usize, record: &Record<'_>, rest: &[u8]) -> WireRecord
    requires { IsPlaced end record.now rest.now }
    ensures { result ≡ places end (item_of record.now, rest.now) }
{
    WireRecord {
        field: record.field,
        wire: record.wire,
        number: record.number,
        start: place(record.end, record.payload),
        len: record.payload.len(),
        next: record.end,
    }
}
