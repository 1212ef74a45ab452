//! The link's script of a row.
ghost use Rattle.std.specs.Prelude.{◌≤◌, length};

use proto_wire::{Bytes, List, Mem};
use row_text::{Failure, bytes_of, text_of};
use sf_outside::Turn;
use std::alloc::Global;

/// The turns of a field, word by word: `say:C:TEXT` answers call C with an egress record for `com.example/greetings`, the
/// string TEXT, and `says:C:N` so answers the calls from C up to N; `answer:C:HEX` answers with these bytes; `lose:C:NOTE`
/// loses call C; and `wait:N` tells nothing N times.
pub(crate) fn turns_of(alloc: Global, field: &str) -> Result<List<Turn>, Failure> {
    let mut turns = List::new(alloc);
    if field.is_empty() {
        return Ok(turns);
    }
    for word in field.split(' ') {
        put_turns(alloc, &mut turns, word)?;
    }
    Ok(turns)
}

fn put_turns(alloc: Global, turns: &mut List<Turn>, word: &str) -> Result<(), Failure> {
    let mut parts = word.split(':');
    let kind = parts.next().unwrap_or("");
    let number = parts.next().unwrap_or("").parse::<u64>()?;
    let more = parts.next().unwrap_or("");
    match kind {
        "say" => put_said(alloc, turns, number, more),
        "says" => put_all_said(alloc, turns, number, more),
        "answer" => put_answer(alloc, turns, number, more),
        "lose" => put_loss(turns, number, more),
        "wait" => put_waits(turns, number),
        _ => Err(Failure::Row),
    }
}

fn put_said(alloc: Global, turns: &mut List<Turn>, call: u64, text: &str) -> Result<(), Failure> {
    let text = text_of(alloc, text)?;
    let answer = saying(alloc, text.as_str().as_bytes())?;
    turns.push(Turn::Reply(call, answer))?;
    Ok(())
}

/// Each call is answered with its own number.
fn put_all_said(
    alloc: Global,
    turns: &mut List<Turn>,
    first: u64,
    behind: &str,
) -> Result<(), Failure> {
    for call in first..behind.parse::<u64>()? {
        let text = format!(in alloc; "{call}")?;
        let answer = saying(alloc, text.as_str().as_bytes())?;
        turns.push(Turn::Reply(call, answer))?;
    }
    Ok(())
}

fn put_answer(alloc: Global, turns: &mut List<Turn>, call: u64, hex: &str) -> Result<(), Failure> {
    let answer = bytes_of(alloc, hex)?;
    turns.push(Turn::Reply(call, answer))?;
    Ok(())
}

fn put_loss(turns: &mut List<Turn>, call: u64, note: &str) -> Result<(), Failure> {
    turns.push(Turn::Lose(call, note.parse::<u32>()?))?;
    Ok(())
}

fn put_waits(turns: &mut List<Turn>, count: u64) -> Result<(), Failure> {
    for _ in 0..count {
        turns.push(Turn::Nothing)?;
    }
    Ok(())
}

/// An answer with one egress record, a string of at most 60 bytes.
fn saying(alloc: Global, text: &[u8]) -> Result<Bytes, Failure> {
    if text.len() > 60 {
        return Err(Failure::Row);
    }
    Ok(spelled(alloc, text, text.len() as u8)?)
}

/// The bytes of such an answer, by the length of its string.
fn spelled(alloc: Global, text: &[u8], length: u8) -> Mem<Bytes>
    requires { length ≤ 60 }
{
    let mut answer = Bytes::new(alloc);
    answer.append(&[0xa2, 0x06, 60 + length, 0x22, 58 + length, 0x0a, 11])?;
    answer.append(b"com.example\x12\x09greetings\x1a")?;
    answer.append(&[32 + length, 0x0a, 24])?;
    answer.append(b"io.statefun.types/string\x10\x01\x1a")?;
    answer.append(&[2 + length, 0x0a, length])?;
    answer.append(text)?;
    Ok(answer)
}
