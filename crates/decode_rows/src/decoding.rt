//! What a row asks for.
use crate::row::Row;
use proto_wire::Bytes;
use row_text::{Failure, bytes_of, calls_of, words_of};
use sf_outside::{Fault, MemorySink, MemorySource, Source};
use statefun_cli::{statefun_check, statefun_decode};
use std::alloc::Global;

/// What came of a decoding.
#[derive(Drop)]
pub(crate) struct Decoded {
    /// The status of its end.
    pub(crate) status: u8,
    /// How many bytes there were to read.
    pub(crate) given: usize,
    pub(crate) input: MemorySource,
    pub(crate) out: MemorySink,
}

/// Decodes as a row asks for.
pub(crate) fn decode(alloc: Global, row: &Row) -> Result<Decoded, Failure> {
    let words = words_of(alloc, row.words)?;
    let message = bytes_of(alloc, row.message)?;
    let reads = calls_of(alloc, row.failing, "read:")?;
    let writes = calls_of(alloc, row.failing, "write:")?;
    let given = message.len();
    let mut input = MemorySource::new(alloc, message, reads)?;
    let mut out = MemorySink::new(alloc, Bytes::new(alloc), writes)?;
    let status = called(alloc, words.as_slice(), &mut input, &mut out);
    Ok(Decoded {
        status,
        given,
        input,
        out,
    })
}

/// The call of the command that the first word names: `check`, or else `decode`.
fn called(alloc: Global, words: &[String], input: &mut MemorySource, out: &mut MemorySink) -> u8 {
    match words.first() {
        Some(word) if word.as_str() == "check" => run_check(alloc, words, input, out),
        _ => run_decode(alloc, words, input, out),
    }
}

/// The one call of `statefun_check`.
fn run_check(alloc: Global, words: &[String], file: &mut MemorySource, out: &mut MemorySink) -> u8 {
    statefun_check(alloc, words, file, out)
}

/// The one call of `statefun_decode`.
fn run_decode(
    alloc: Global,
    words: &[String],
    input: &mut MemorySource,
    out: &mut MemorySink,
) -> u8 {
    statefun_decode(alloc, words, input, out)
}

/// How many bytes are left of a source, whose calls may fail.
pub(crate) fn left_in(input: &mut MemorySource) -> Result<usize, Failure> {
    let mut left = 0usize;
    let mut room = [0; 4096];
    for _ in 0..u64::MAX {
        match input.read(&mut room) {
            Ok(0) => return Ok(left),
            Ok(count) => left = left.saturating_add(count),
            Err(Fault::Failed) => {}
            Err(Fault::OutOfMemory) => return Err(Failure::OutOfMemory),
        }
    }
    Ok(left)
}
