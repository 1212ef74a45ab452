//! Fields: how they are spelled. Each writer takes the buffer and gives it back; after want of memory it is gone.
ghost use Rattle.std.specs.Prelude.{◌≡◌, ◌+◌, ◌*◌, ◌++◌, ◌∷◌, ◌<◌, ◌≤◌, ◌^◌, [], List, Some, None, Bool, length, take, IfOk, OnOk, OnErr, nat_lt, true};
ghost use Rattle.proto_wire.specs.Varint.{varint};
ghost use Rattle.proto_wire.specs.Reads.{Keeps};
ghost use Rattle.proto_wire.specs.Record.{IsField, number_record, bytes_record};
ghost use Rattle.proto_wire.specs.Message.{capped, spelled_bytes, spelled_number, spelled_bool, spelled_signed, spelled_message, spelled_messages, spelled_choice, spelled_four, spelled_eight, fit_choice, fits_signed, fit_message, fit_messages};
ghost use Rattle.std.specs.Str.{is_utf8};

use crate::message::Encode;
use crate::size::record_size;
use crate::varint::put_varint;
use crate::{Bytes, Mem, OutOfMemory, Text};

/// Adds a record with bytes at the end: its tag, their length, the bytes. `field` is 1 to 536,870,911. An `Err` changes nothing.
pub fn put_bytes(into: &mut Bytes, field: u32, payload: &[u8]) -> Mem<()>
    requires { IsField field }
    ensures ok { OnOk result (into.new ≡ into.old ++ bytes_record field payload.now) }
    ensures err { OnErr result (into.new ≡ into.old) }
{
    let len = into.len();
    let put = put_whole(into, field, payload);
    if put.is_err() {
        into.truncate(len);
    }
    put
}

fn put_whole(into: &mut Bytes, field: u32, payload: &[u8]) -> Mem<()>
    requires { IsField field }
    ensures ok { OnOk result (into.new ≡ into.old ++ bytes_record field payload.now) }
    ensures err { OnErr result (Keeps into.old into.new) }
{
    put_head(into, field, payload.len() as u64)?;
    into.append(payload)
}

/// Adds the head of a record with that many bytes: its tag and their length.
fn put_head(into: &mut Bytes, field: u32, len: u64) -> Mem<()>
    requires { IsField field }
    ensures ok { OnOk result (into.new ≡ into.old ++ (varint (8 * field + 2) ++ varint len)) }
    ensures err { OnErr result (Keeps into.old into.new) }
{
    put_varint(into, 8 * u64::from(field) + 2)?;
    put_varint(into, len)
}

fn with_varint(mut into: Bytes, value: u64) -> Mem<Bytes>
    ensures { IfOk result (λ bytes. bytes ≡ into ++ varint value) }
{
    put_varint(&mut into, value)?;
    Ok(into)
}

/// Adds a record with a varint.
fn with_record(into: Bytes, field: u32, number: u64) -> Mem<Bytes>
    requires { IsField field }
    ensures { IfOk result (λ bytes. bytes ≡ into ++ number_record field number) }
{
    let into = with_varint(into, 8 * u64::from(field))?;
    with_varint(into, number)
}

/// Adds bytes, where there are any.
#[tactic(auto, unfolding(crate::specs::Message::spelled_bytes))]
pub fn with_bytes(mut into: Bytes, field: u32, payload: &[u8]) -> Mem<Bytes>
    requires { IsField field }
    ensures { IfOk result (λ bytes. bytes ≡ into ++ spelled_bytes field payload.now) }
{
    if payload.is_empty() {
        return Ok(into);
    }
    put_whole(&mut into, field, payload)?;
    Ok(into)
}

/// Adds a text, where it is not empty.
#[tactic(auto, using(crate::proofs::Fit::fit_steps))]
pub fn with_text(into: Bytes, field: u32, text: &Text) -> Mem<Bytes>
    requires { IsField field }
    ensures spelled { IfOk result (λ bytes. bytes ≡ into ++ spelled_bytes field text.now) }
    ensures fits { OnOk result (is_utf8 text.now ≡ true) }
{
    with_bytes(into, field, text.as_bytes())
}

/// Adds a number, where it is not 0.
#[tactic(auto, unfolding(crate::specs::Message::spelled_number))]
pub fn with_number(into: Bytes, field: u32, number: u64) -> Mem<Bytes>
    requires { IsField field }
    ensures spelled { IfOk result (λ bytes. bytes ≡ into ++ spelled_number field number) }
    ensures fits { OnOk result (nat_lt number (2 ^ 64) ≡ true) }
{
    if number == 0 {
        return Ok(into);
    }
    with_record(into, field, number)
}

/// Adds a bool, where it is true.
#[tactic(auto, unfolding(crate::specs::Message::spelled_bool))]
pub fn with_bool(into: Bytes, field: u32, value: bool) -> Mem<Bytes>
    requires { IsField field }
    ensures { IfOk result (λ bytes. bytes ≡ into ++ spelled_bool field value) }
{
    if value {
        return with_record(into, field, 1);
    }
    Ok(into)
}

/// Adds a signed number, where it is not 0.
#[tactic(auto, using(crate::proofs::Fit::fit_steps), unfolding(crate::specs::Message::spelled_signed))]
pub fn with_long(into: Bytes, field: u32, number: i64) -> Mem<Bytes>
    requires { IsField field }
    ensures spelled { IfOk result (λ bytes. bytes ≡ into ++ spelled_signed field number) }
    ensures fits { OnOk result (fits_signed 63 number ≡ true) }
{
    with_number(into, field, number.cast_unsigned())
}

/// Adds an enum, where it is not 0.
#[tactic(auto, using(crate::proofs::Fit::fit_steps))]
pub fn with_enum(into: Bytes, field: u32, number: i32) -> Mem<Bytes>
    requires { IsField field }
    ensures spelled { IfOk result (λ bytes. bytes ≡ into ++ spelled_signed field number) }
    ensures fits { OnOk result (fits_signed 31 number ≡ true) }
{
    with_long(into, field, i64::from(number))
}

/// Adds a number of 32 bits, also 0, where there is one.
#[tactic(auto, unfolding(crate::specs::Message::spelled_choice, crate::specs::Message::fit_choice))]
pub fn with_choice(into: Bytes, field: u32, number: Option<u32>) -> Mem<Bytes>
    requires { IsField field }
    ensures spelled { IfOk result (λ bytes. bytes ≡ into ++ spelled_choice field number) }
    ensures fits { OnOk result (fit_choice number ≡ true) }
{
    match number {
        Some(number) => with_record(into, field, u64::from(number)),
        None => Ok(into),
    }
}

/// Adds a signed number in four bytes, where it is not 0.
#[tactic(auto, using(crate::proofs::Fit::fit_steps), unfolding(crate::specs::Message::spelled_four))]
pub fn with_four(into: Bytes, field: u32, number: i32) -> Mem<Bytes>
    requires { IsField field }
    ensures spelled { IfOk result (λ bytes. bytes ≡ into ++ spelled_four field number) }
    ensures fits { OnOk result (fits_signed 31 number ≡ true) }
{
    let bits = number.cast_unsigned();
    if bits == 0 {
        return Ok(into);
    }
    let mut into = with_varint(into, 8 * u64::from(field) + 5)?;
    into.append(&bits.to_le_bytes())?;
    Ok(into)
}

/// Adds a signed number in eight bytes, where it is not 0.
#[tactic(auto, using(crate::proofs::Fit::fit_steps), unfolding(crate::specs::Message::spelled_eight))]
pub fn with_eight(into: Bytes, field: u32, number: i64) -> Mem<Bytes>
    requires { IsField field }
    ensures spelled { IfOk result (λ bytes. bytes ≡ into ++ spelled_eight field number) }
    ensures fits { OnOk result (fits_signed 63 number ≡ true) }
{
    let bits = number.cast_unsigned();
    if bits == 0 {
        return Ok(into);
    }
    let mut into = with_varint(into, 8 * u64::from(field) + 1)?;
    into.append(&bits.to_le_bytes())?;
    Ok(into)
}

/// Adds a message, also an empty one: its tag, its size, its fields.
pub fn with_member<M: Encode>(mut into: Bytes, field: u32, message: &M) -> Mem<Bytes>
    requires { IsField field }
    ensures spelled { IfOk result (λ bytes. bytes ≡ into ++ bytes_record field (M.spells message.now)) }
    ensures fits { OnOk result (M.fits message.now ≡ true) }
{
    let size = message.size();
    if size == u64::MAX {
        return Err(OutOfMemory);
    }
    put_head(&mut into, field, size)?;
    message.put(into)
}

/// Adds a message, where there is one.
#[tactic(auto, unfolding(crate::specs::Message::spelled_message, crate::specs::Message::fit_message))]
pub fn with_message<M: Encode>(into: Bytes, field: u32, message: &Option<M>) -> Mem<Bytes>
    requires { IsField field }
    ensures spelled { IfOk result (λ bytes. bytes ≡ into ++ spelled_message M.spells field message.now) }
    ensures fits { OnOk result (fit_message M.fits message.now ≡ true) }
{
    match message {
        Some(message) => with_member(into, field, message),
        None => Ok(into),
    }
}

/// Adds each message of a list, in order.
#[tactic(auto, unfolding(crate::specs::Message::spelled_messages, crate::specs::Message::fit_messages))]
pub fn with_messages<M: Encode>(into: Bytes, field: u32, messages: &[M]) -> Mem<Bytes>
    requires { IsField field }
    ensures spelled { IfOk result (λ bytes. bytes ≡ into ++ spelled_messages M.spells field messages.now) }
    ensures fits { OnOk result (fit_messages M.fits messages.now ≡ true) }
{
    let mut into = into;
    for message in messages {
        into = with_member(into, field, message)?;
    }
    Ok(into)
}
