//! The calls of the link, and what it tells of them.
use http_link::{Caller, HttpLink};
use message_text::put_decimal;
use proto_wire::{Bytes, Mem, OutOfMemory, Text};
use sf_outside::{Answered, Call, Fault, Link, Outcome};
use std::alloc::Global;
use typed_values::put_hex;

/// A batch for `com.example/greeter/a` with the cell `n`, which has no value, and one letter, the string `a`.
const REQUEST: &[u8; 72] =
    b"\xa2\x06\x45\x0a\x19\x0a\x0bcom.example\x12\x07greeter\x1a\x01a\x12\x03\x0a\x01n\x1a\x23\x12\x21\x0a\x18io.statefun.types/string\x10\x01\x1a\x03\x0a\x01a";

/// The URL of the served function on a port.
pub(crate) fn url_of(alloc: Global, port: u16) -> Mem<String> {
    Ok(format!(in alloc; "http://127.0.0.1:{port}/greeter")?)
}

/// A line for each call: to the served function, to a URL of another scheme, and to a port where nobody listens.
pub(crate) fn calls(alloc: Global, caller: &Caller, served: &str) -> Mem<Bytes> {
    let mut link = HttpLink::new(alloc, caller);
    let mut told = Bytes::new(alloc);
    tell(alloc, &mut link, &mut told, served)?;
    tell(alloc, &mut link, &mut told, "ftp://127.0.0.1/greeter")?;
    tell(alloc, &mut link, &mut told, "http://127.0.0.1:1/greeter")?;
    Ok(told)
}

/// Adds a line of what a link tells of a call to this URL.
fn tell<L: Link>(alloc: Global, link: &mut L, told: &mut Bytes, url: &str) -> Mem<()> {
    match ask(alloc, link, url) {
        Ok(outcome) => put_outcome(told, &outcome),
        Err(_) => Err(OutOfMemory),
    }
}

fn ask<L: Link>(alloc: Global, link: &mut L, url: &str) -> Result<Option<Outcome>, Fault> {
    let call = Call {
        leg: 1,
        partition: 0,
        turn: 0,
    };
    let url = Text::copy_of(alloc, url)?;
    link.start(call, &url, REQUEST)?;
    link.poll(10)
}

fn put_outcome(into: &mut Bytes, outcome: &Option<Outcome>) -> Mem<()> {
    match outcome {
        Some(Outcome { what, .. }) => put_answered(into, what)?,
        None => into.append(b"nothing")?,
    }
    into.push(b'\n')
}

fn put_answered(into: &mut Bytes, what: &Answered) -> Mem<()> {
    match what {
        Answered::Answer(answer) => {
            into.append(b"answer ")?;
            put_hex(into, answer.as_slice())
        }
        Answered::Lost(note) => {
            into.append(b"lost ")?;
            put_decimal(into, u64::from(*note))
        }
    }
}
