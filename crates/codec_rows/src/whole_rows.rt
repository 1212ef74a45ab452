//! Rows on requests and answers.
use crate::pieces::{singles, ways};
use crate::told::{fault_text, owned};
use crate::whole::{Whole, whole_text};
use proto_wire::{DecodeFault, WireFault};
use request_reply::{Feeder, size_letter};
use row_text::{Failure, bytes_of};
use std::alloc::Global;
use typed_values::decode_letter;

/// What bytes spell as a request or an answer, and whether they spell it in pieces as well.
pub(crate) fn whole_row(alloc: Global, kind: &str, words: &str) -> Result<String, Failure> {
    let whole = Whole::of(kind)?;
    let bytes = bytes_of(alloc, words)?;
    let text = whole_text(alloc, whole.whole(alloc, bytes.as_slice()))?;
    let ways = ways(alloc, whole, bytes.as_slice(), text.as_str())?;
    Ok(format!(in alloc; "{text}\n  {ways}")?)
}

/// The length of a letter's record in a request.
pub(crate) fn letter_size(alloc: Global, words: &str) -> Result<String, Failure> {
    let bytes = bytes_of(alloc, words)?;
    let letter = decode_letter(alloc, bytes.as_slice())?;
    let size = size_letter(&letter);
    Ok(format!(in alloc; "{size}")?)
}

/// Bytes fed one by one up to a limit: `LIMIT to|from BYTES`.
pub(crate) fn limited(alloc: Global, words: &str) -> Result<String, Failure> {
    let (limit, rest) = words.split_once(' ').ok_or(Failure::Row)?;
    let (kind, rest) = rest.split_once(' ').unwrap_or((rest, ""));
    let bytes = bytes_of(alloc, rest)?;
    limited_text(
        alloc,
        limit.parse::<u64>()?,
        Whole::of(kind)?,
        bytes.as_slice(),
    )
}

fn limited_text(alloc: Global, limit: u64, whole: Whole, bytes: &[u8]) -> Result<String, Failure> {
    let mut feeder = Feeder::new(alloc, limit);
    let fed = fed_text(alloc, fed_up_to(&mut feeder, bytes)?)?;
    let held = whole_text(alloc, whole.fed(alloc, feeder))?;
    let pieces = singles(alloc, bytes)?;
    let pieced = whole_text(alloc, whole.pieced(alloc, limit, pieces.as_slice()))?;
    Ok(format!(in alloc; "{fed}\n  held {held}\n  pieces {pieced}")?)
}

/// How far the feeding came.
#[derive(Clone, Copy, Debug, PartialEq, Eq)]
struct Fed {
    /// How many bytes were taken.
    taken: usize,
    /// The fault of the byte that was not.
    refused: Option<WireFault>,
}

fn fed_up_to(feeder: &mut Feeder, bytes: &[u8]) -> Result<Fed, Failure> {
    for (taken, byte) in bytes.iter().enumerate() {
        match feeder.feed(&[*byte]) {
            Ok(()) => {}
            Err(DecodeFault::Wire(fault)) => {
                return Ok(Fed {
                    taken,
                    refused: Some(fault),
                });
            }
            Err(DecodeFault::OutOfMemory) => return Err(Failure::OutOfMemory),
        }
    }
    Ok(Fed {
        taken: bytes.len(),
        refused: None,
    })
}

fn fed_text(alloc: Global, fed: Fed) -> Result<String, Failure> {
    let taken = fed.taken;
    let rest = match fed.refused {
        Some(fault) => fault_text(alloc, fault)?,
        None => owned(alloc, "all")?,
    };
    Ok(format!(in alloc; "taken {taken} {rest}")?)
}
