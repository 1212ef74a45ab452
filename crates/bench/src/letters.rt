//! Letters, decoded and encoded one by one.
use crate::failure::Failure;
use crate::parts::{address, value};
use crate::tally::Tally;
use proto_wire::{Bytes, Mem};
use std::alloc::Global;
use typed_values::{Letter, Sender, decode_letter, encode_letter};

/// Makes letters, and decodes and encodes each of them in each round.
pub(crate) fn work(alloc: Global, count: u32, rounds: u32) -> Result<Tally, Failure> {
    let spelled = spelled(alloc, count)?;
    let mut same = true;
    for _ in 0..rounds {
        let kept = round(alloc, spelled.as_slice())?;
        same = same && kept;
    }
    Ok(Tally {
        bytes: length(spelled.as_slice()),
        same,
    })
}

/// The letters of a work, encoded.
fn spelled(alloc: Global, count: u32) -> Mem<Vec<Bytes>> {
    let mut spelled = Vec::new(alloc);
    for number in 0..count {
        let letter = letter(alloc, number)?;
        spelled.push(encode_letter(alloc, &letter)?)?;
    }
    Ok(spelled)
}

fn letter(alloc: Global, number: u32) -> Mem<Letter> {
    Ok(Letter {
        sender: Sender::Function(address(alloc, "sender", number)?),
        target: address(alloc, "greeter", number)?,
        argument: value(alloc)?,
    })
}

/// Decodes and encodes each letter. Whether each has its bytes again.
fn round(alloc: Global, spelled: &[Bytes]) -> Result<bool, Failure> {
    let mut same = true;
    for bytes in spelled {
        let kept = again(alloc, bytes.as_slice())?;
        same = same && kept;
    }
    Ok(same)
}

fn again(alloc: Global, bytes: &[u8]) -> Result<bool, Failure> {
    let letter = decode_letter(alloc, bytes)?;
    let again = encode_letter(alloc, &letter)?;
    Ok(again.as_slice() == bytes)
}

/// How many bytes the letters have.
fn length(spelled: &[Bytes]) -> usize {
    let mut length = 0usize;
    for bytes in spelled {
        length = length.saturating_add(bytes.len());
    }
    length
}
