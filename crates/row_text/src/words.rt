//! Words, bytes and numbers as rows write them.
ghost use Rattle.std.specs.Prelude.{◌≡◌, ◌≢◌, [], codes, IfOk, IfErr, IsUtf8, ◌⊎◌};
ghost use Rattle.percent_encoding.specs.Percent.{percent_decode};
ghost use Rattle.row_text.specs.declared.failure.Failure.TheVariants.{OutOfMemory, Row};

use crate::Failure;
use percent_encoding::percent_decode_str;
use proto_wire::{Bytes, List, Text};
use std::alloc::Global;

/// The bytes of words with blanks between them: each word is hexadecimal digits, or such digits with `*N` behind them
/// for N times, or a text between two `'`.
pub fn bytes_of(alloc: Global, words: &str) -> Result<Bytes, Failure> {
    let mut bytes = Bytes::new(alloc);
    for word in words.split_whitespace() {
        put_word(alloc, &mut bytes, word)?;
    }
    Ok(bytes)
}

fn put_word(alloc: Global, into: &mut Bytes, word: &str) -> Result<(), Failure> {
    match quoted(word) {
        Some(text) => Ok(into.append(text.as_bytes())?),
        None => put_digits(alloc, into, word),
    }
}

fn quoted(word: &str) -> Option<&str> {
    word.strip_prefix('\'')?.strip_suffix('\'')
}

fn put_digits(alloc: Global, into: &mut Bytes, word: &str) -> Result<(), Failure> {
    let (digits, times) = word.split_once('*').unwrap_or((word, "1"));
    let unit = hex::decode(alloc, digits)?;
    for _ in 0..times.parse::<u64>()? {
        into.append(unit.as_slice())?;
    }
    Ok(())
}

/// A text in which `%` and two hexadecimal digits stand for that byte (RFC 3986, section 2.1). `%` alone is the empty text.
/// `Row` where the bytes are no UTF-8.
pub fn text_of(alloc: Global, escaped: &str) -> Result<Text, Failure>
    ensures empty { escaped.now ≡ codes "%" → IfOk result (λ text. text ≡ []) }
    ensures text { escaped.now ≢ codes "%" → IfOk result (λ text. text ≡ percent_decode escaped.now) }
    ensures err { IfErr result (λ failure. (failure ≡ OutOfMemory) ⊎ ((failure ≡ Row) × ¬ (IsUtf8 (percent_decode escaped.now)))) }
{
    let mut bytes = Vec::new(alloc);
    if escaped != "%" {
        percent_decode_str(escaped).append_to(&mut bytes)?;
    }
    Text::of(Bytes::of(bytes)).ok_or(Failure::Row)
}

/// The words of a field: texts with escapes, with a blank between them.
pub fn words_of(alloc: Global, field: &str) -> Result<Vec<String>, Failure> {
    let mut words = Vec::new(alloc);
    if field.is_empty() {
        return Ok(words);
    }
    for word in field.split(' ') {
        let text = text_of(alloc, word)?;
        words.push(String::from_str(alloc, text.as_str())?)?;
    }
    Ok(words)
}

/// The numbers behind one prefix, as `read:`, among the words of a field: an object's calls that fail, counted from 0.
pub fn calls_of(alloc: Global, field: &str, prefix: &str) -> Result<List<u64>, Failure> {
    let mut calls = List::new(alloc);
    for word in field.split_whitespace() {
        if let Some(number) = word.strip_prefix(prefix) {
            calls.push(number.parse::<u64>()?)?;
        }
    }
    Ok(calls)
}
