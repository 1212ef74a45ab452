//! The words of the command line.
use proto_wire::{Mem, OutOfMemory};
use std::alloc::Global;
use std::env::FillError;
use std::rt::Env;

/// The bytes with which the reading of a word begins; each further try has twice as many.
const FIRST_SIZE: usize = 256;

/// The program's arguments but for its own name. One that is not UTF-8 is given as an empty word.
pub(crate) fn words<E: Env>(env: &E, alloc: Global) -> Mem<Vec<String>> {
    let mut words = Vec::new(alloc);
    for place in 1..usize::MAX {
        match word(env, alloc, place)? {
            Some(word) => words.push(word)?,
            None => return Ok(words),
        }
    }
    Ok(words)
}

/// The argument at a place, or `None` where there is none.
fn word<E: Env>(env: &E, alloc: Global, place: usize) -> Mem<Option<String>> {
    let mut size = FIRST_SIZE;
    for _ in 0..32 {
        let mut buffer = vec![in alloc; 0u8; size]?;
        match env.arg(place, buffer.as_mut_slice()) {
            Ok(length) => {
                buffer.truncate(length);
                return Ok(Some(text_of(alloc, buffer)));
            }
            Err(FillError::NotPresent) => return Ok(None),
            Err(FillError::TooLong) => size *= 2,
        }
    }
    Err(OutOfMemory)
}

/// The text that bytes are, or an empty one.
fn text_of(alloc: Global, bytes: Vec<u8>) -> String {
    match String::from_utf8(bytes) {
        Ok(text) => text,
        Err(_) => String::new(alloc),
    }
}
