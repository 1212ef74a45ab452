//! Requests and answers that come in pieces.
use crate::whole::{Spelled, Whole, whole_text};
use proto_wire::{Bytes, DecodeFault, Mem};
use request_reply::Feeder;
use row_text::Failure;
use std::alloc::Global;

/// Reads bytes one by one and in two pieces at every cut, from a feeder and as pieces, and tells whether the text was always this one.
pub(crate) fn ways(
    alloc: Global,
    whole: Whole,
    bytes: &[u8],
    want: &str,
) -> Result<String, Failure> {
    if !is_same_by_bytes(alloc, whole, bytes, want)? {
        return Ok(format!(in alloc; "differs byte by byte")?);
    }
    for (at, _) in bytes.iter().enumerate() {
        if !is_same_cut(alloc, whole, bytes, at, want)? {
            return Ok(format!(in alloc; "differs cut at {at}")?);
        }
    }
    if !is_same_cut(alloc, whole, bytes, bytes.len(), want)? {
        return Ok(format!(in alloc; "differs with an empty piece behind")?);
    }
    let ways = bytes.len().saturating_mul(2).saturating_add(4);
    Ok(format!(in alloc; "same in {ways} ways")?)
}

fn is_same_by_bytes(
    alloc: Global,
    whole: Whole,
    bytes: &[u8],
    want: &str,
) -> Result<bool, Failure> {
    let fed = whole_text(alloc, fed_by_bytes(alloc, whole, bytes))?;
    let pieces = singles(alloc, bytes)?;
    let pieced = whole.pieced(alloc, bytes.len() as u64, pieces.as_slice());
    let pieced = whole_text(alloc, pieced)?;
    Ok(fed.as_str() == want && pieced.as_str() == want)
}

fn fed_by_bytes(alloc: Global, whole: Whole, bytes: &[u8]) -> Result<Spelled, DecodeFault> {
    let mut feeder = Feeder::new(alloc, bytes.len() as u64);
    for byte in bytes {
        feeder.feed(&[*byte])?;
    }
    whole.fed(alloc, feeder)
}

/// A piece for each byte.
pub(crate) fn singles(alloc: Global, bytes: &[u8]) -> Mem<Vec<Bytes>> {
    let mut pieces = Vec::new(alloc);
    for byte in bytes {
        pieces.push(Bytes::copy_of(alloc, &[*byte])?)?;
    }
    Ok(pieces)
}

fn is_same_cut(
    alloc: Global,
    whole: Whole,
    bytes: &[u8],
    at: usize,
    want: &str,
) -> Result<bool, Failure> {
    let (front, back) = bytes.split_at(at.min(bytes.len()));
    let fed = whole_text(alloc, fed_in_two(alloc, whole, front, back))?;
    let pieces = two(alloc, front, back)?;
    let pieced = whole.pieced(alloc, bytes.len() as u64, pieces.as_slice());
    let pieced = whole_text(alloc, pieced)?;
    Ok(fed.as_str() == want && pieced.as_str() == want)
}

fn fed_in_two(
    alloc: Global,
    whole: Whole,
    front: &[u8],
    back: &[u8],
) -> Result<Spelled, DecodeFault> {
    let mut feeder = Feeder::new(alloc, u64::MAX);
    feeder.feed(front)?;
    feeder.feed(back)?;
    whole.fed(alloc, feeder)
}

fn two(alloc: Global, front: &[u8], back: &[u8]) -> Mem<Vec<Bytes>> {
    let mut pieces = Vec::new(alloc);
    pieces.push(Bytes::copy_of(alloc, front)?)?;
    pieces.push(Bytes::copy_of(alloc, back)?)?;
    Ok(pieces)
}
