//! What a message answers.
use crate::byte_source::ByteSource;
use crate::written::put_escaped;
use endpoint_http::{HttpFault, read_request, read_response};
use proto_wire::Bytes;
use row_text::Failure;
use sf_outside::{MemorySource, Source};
use std::alloc::Global;

/// A message of so many bytes is cut at each of its places, and a longer one at some.
const CUT_EVERYWHERE: usize = 512;

/// A longer message is cut at the multiples of this, and at its last places.
const STEP: usize = 1021;

/// How many last places those are.
const LAST: usize = 8;

/// A body of so many bytes is shown itself, and of a longer one a sum of its bytes.
const SHOWN: usize = 64;

/// What a row is read as.
#[derive(Clone, Copy)]
pub(crate) enum Message {
    Response,
    Request,
}

/// Adds a line with the answer to the whole bytes; another where they answer otherwise byte by byte; and one for each run of
/// places at which the cut bytes have one answer.
pub(crate) fn put_answers(
    alloc: Global,
    text: &mut String,
    message: Message,
    limit: u64,
    bytes: &[u8],
) -> Result<(), Failure> {
    let whole = answer_to(alloc, message, limit, bytes)?;
    put_line(alloc, text, "", &whole)?;
    let by_bytes = answer_by_bytes(alloc, message, limit, bytes)?;
    if by_bytes.as_str() != whole.as_str() {
        put_line(alloc, text, "by bytes: ", &by_bytes)?;
    }
    put_cuts(alloc, text, message, limit, bytes)
}

fn put_cuts(
    alloc: Global,
    text: &mut String,
    message: Message,
    limit: u64,
    bytes: &[u8],
) -> Result<(), Failure> {
    let mut run = Run {
        first: 0,
        last: 0,
        answer: String::new(alloc),
    };
    for place in 0..bytes.len() {
        if is_cut(place, bytes.len()) {
            let answer = answer_to(alloc, message, limit, bytes.split_at(place).0)?;
            if place > 0 && answer.as_str() != run.answer.as_str() {
                put_run(alloc, text, &run)?;
                run.first = place;
            }
            run.last = place;
            run.answer = answer;
        }
    }
    if !bytes.is_empty() {
        put_run(alloc, text, &run)?;
    }
    Ok(())
}

/// Places from the first to the last, at which a message that is cut has this answer.
#[derive(Drop)]
struct Run {
    first: usize,
    last: usize,
    answer: String,
}

fn put_run(alloc: Global, text: &mut String, run: &Run) -> Result<(), Failure> {
    let first = run.first;
    let last = run.last;
    let title = format!(in alloc; "cut at {first} to {last}: ")?;
    put_line(alloc, text, title.as_str(), &run.answer)
}

fn put_line(
    _alloc: Global,
    text: &mut String,
    title: &str,
    answer: &String,
) -> Result<(), Failure> {
    text.push_str("  ")?;
    text.push_str(title)?;
    text.push_str(answer.as_str())?;
    text.push_str("\n")?;
    Ok(())
}

fn is_cut(place: usize, len: usize) -> bool {
    len <= CUT_EVERYWHERE || place % STEP == 0 || len.saturating_sub(place) <= LAST
}

fn answer_to(alloc: Global, message: Message, limit: u64, bytes: &[u8]) -> Result<String, Failure> {
    let mut source = MemorySource::steady(alloc, Bytes::copy_of(alloc, bytes)?)?;
    answer_of(alloc, message, limit, &mut source)
}

fn answer_by_bytes(
    alloc: Global,
    message: Message,
    limit: u64,
    bytes: &[u8],
) -> Result<String, Failure> {
    let mut source = ByteSource::new(Vec::from_slice(alloc, bytes)?);
    answer_of(alloc, message, limit, &mut source)
}

fn answer_of<S: Source>(
    alloc: Global,
    message: Message,
    limit: u64,
    source: &mut S,
) -> Result<String, Failure> {
    let answer = match message {
        Message::Response => read_response(alloc, source, limit),
        Message::Request => read_request(alloc, source, limit),
    };
    match answer {
        Ok(body) => body_shown(alloc, body.as_slice()),
        Err(HttpFault::OutOfMemory) => Err(Failure::OutOfMemory),
        Err(fault) => Ok(format!(in alloc; "{fault}")?),
    }
}

fn body_shown(alloc: Global, body: &[u8]) -> Result<String, Failure> {
    let len = body.len();
    if len == 0 {
        return Ok(String::from_str(alloc, "empty body")?);
    }
    if len > SHOWN {
        let sum = sum_of(body);
        return Ok(format!(in alloc; "body of {len}, sum {sum}")?);
    }
    let mut text = format!(in alloc; "body of {len}: ")?;
    put_escaped(alloc, &mut text, body)?;
    Ok(text)
}

/// A number that tells most bodies apart.
fn sum_of(body: &[u8]) -> u32 {
    let mut sum = 0u32;
    for byte in body {
        sum = sum.wrapping_mul(31).wrapping_add(u32::from(*byte));
    }
    sum
}
