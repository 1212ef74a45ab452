//! Requests and steps of a run in full.
use message_text::put_decimal;
use proto_wire::{Bytes, List, Mem};
use row_text::Failure;
use run_record::{Entry, Reply, Step};
use sf_outside::{Call, LinkEvent};
use std::alloc::Global;
use std::str;
use typed_values::{Address, Sender, put_address_text, put_hex};

/// Adds a line for each start of a journal: its call, URL and request.
pub(crate) fn put_starts(
    alloc: Global,
    text: &mut String,
    journal: &[LinkEvent],
) -> Result<(), Failure> {
    for event in journal {
        if let LinkEvent::Started { call, url, request } = event {
            let mut line = Bytes::new(alloc);
            put_start(&mut line, call, url.as_bytes(), request.as_slice())?;
            put_line(text, line.as_slice())?;
        }
    }
    Ok(())
}

fn put_start(into: &mut Bytes, call: &Call, url: &[u8], request: &[u8]) -> Mem<()> {
    into.append(b"  start ")?;
    put_call(into, call)?;
    into.push(b' ')?;
    into.append(url)?;
    into.push(b' ')?;
    put_hex(into, request)
}

fn put_call(into: &mut Bytes, call: &Call) -> Mem<()> {
    put_decimal(into, call.leg)?;
    into.push(b'.')?;
    put_decimal(into, u64::from(call.partition))?;
    into.push(b'.')?;
    put_decimal(into, u64::from(call.turn))
}

/// Adds a line for each answer that was accepted, with its call, address, senders, moment and bytes, and for each delayed
/// letter that was sent.
pub(crate) fn put_steps(
    alloc: Global,
    text: &mut String,
    entries: &[Entry],
) -> Result<(), Failure> {
    for entry in entries {
        let mut line = Bytes::new(alloc);
        match &entry.step {
            Step::Take(_) => continue,
            Step::Batch(reply) => put_reply(&mut line, b"  batch ", reply)?,
            Step::Register(reply) => put_reply(&mut line, b"  register ", reply)?,
            Step::Due { address, moment } => put_due(&mut line, address, *moment)?,
        }
        put_line(text, line.as_slice())?;
    }
    Ok(())
}

fn put_due(into: &mut Bytes, address: &Address, moment: u64) -> Mem<()> {
    into.append(b"  due ")?;
    put_address_text(into, address)?;
    into.append(b" at ")?;
    put_decimal(into, moment)
}

fn put_reply(into: &mut Bytes, kind: &[u8], reply: &Reply) -> Mem<()> {
    into.append(kind)?;
    put_call(into, &reply.call)?;
    into.push(b' ')?;
    put_address_text(into, &reply.address)?;
    put_senders(into, &reply.picks)?;
    into.append(b" at ")?;
    put_decimal(into, reply.moment)?;
    into.push(b' ')?;
    put_hex(into, reply.answer.as_slice())
}

fn put_senders(into: &mut Bytes, picks: &List<Sender>) -> Mem<()> {
    for sender in picks.as_slice() {
        match sender {
            Sender::Split(split) => {
                into.append(b" split ")?;
                put_decimal(into, u64::from(*split))?;
            }
            Sender::Function(address) => {
                into.push(b' ')?;
                put_address_text(into, address)?;
            }
        }
    }
    Ok(())
}

/// Adds bytes that are a text, and a line feed.
fn put_line(text: &mut String, line: &[u8]) -> Result<(), Failure> {
    text.push_str(str::from_utf8(line)?)?;
    text.push_str("\n")?;
    Ok(())
}

/// Adds the checksum FNV-1a of 64 bits of a text.
pub(crate) fn put_sum(alloc: Global, text: &mut String, detail: &str) -> Result<(), Failure> {
    let mut sum = 0xcbf2_9ce4_8422_2325u64;
    for byte in detail.as_bytes() {
        sum = (sum ^ u64::from(*byte)).wrapping_mul(0x100_0000_01b3);
    }
    text.push_str(format!(in alloc; "  sum {sum}\n")?.as_str())?;
    Ok(())
}
