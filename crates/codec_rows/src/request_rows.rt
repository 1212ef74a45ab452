//! Rows on requests and their sizes.
use crate::answer_job::{cells, greeter, number};
use crate::told::spelled;
use invocation::{Request, RequestSize, head_bytes};
use proto_wire::{DecodeFault, List, Mem};
use request_reply::{Batch, encode_to, size_to};
use row_text::{Failure, bytes_of};
use std::alloc::Global;
use typed_values::{Letter, decode_letter};

/// The request to `com.example/greeter/a`, its size in three ways, and its head's: `MOMENT | CELLS | BYTES | BYTES ..`, the
/// bytes of a letter each.
pub(crate) fn requested(alloc: Global, words: &str) -> Result<String, Failure> {
    let (moment, rest) = words.split_once(" | ").ok_or(Failure::Row)?;
    let (named, letters) = rest.split_once(" | ").ok_or(Failure::Row)?;
    let moment = number(moment)?;
    let cells = cells(alloc, named)?;
    let address = greeter(alloc)?;
    let letters = letters_of(alloc, letters)?;
    let mut size = RequestSize::of(&address, &cells, moment);
    for letter in letters.as_slice() {
        size.add(&letter.sender, &letter.argument);
    }
    let head = head_bytes(&address, &cells, moment);
    let batch = Batch { address, letters };
    let request = Request::of(alloc, &batch.address, &cells, &batch, moment)?;
    let told = size_to(&request);
    let counted = size.bytes();
    let within = size.is_within(told);
    let beyond = told > 0 && size.is_within(told - 1);
    let bytes = spelled(alloc, encoded(alloc, &request))?;
    Ok(format!(in alloc; "{bytes} size {told} {counted} {within} {beyond} head {head}")?)
}

fn encoded(
    alloc: Global,
    request: &request_reply::ToFunction,
) -> Result<proto_wire::Bytes, DecodeFault> {
    Ok(encode_to(alloc, request)?)
}

fn letters_of(alloc: Global, words: &str) -> Result<List<Letter>, Failure> {
    let mut letters = List::new(alloc);
    for bytes in words.split(" | ") {
        letters.push(letter_of(alloc, bytes)?)?;
    }
    Ok(letters)
}

fn letter_of(alloc: Global, bytes: &str) -> Result<Letter, Failure> {
    let bytes = bytes_of(alloc, bytes)?;
    decode_letter(alloc, bytes.as_slice()).map_err(|_| Failure::Row)
}
