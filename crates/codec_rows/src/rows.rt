//! The kinds of rows. A row is its kind and, behind a blank, its words. BYTES are words that `bytes_of` reads.
//!
//! | Row | What is printed |
//! |---|---|
//! | `records BYTES`, `record FROM END BYTES` | the records of a message, or the one at a place of a part of it; or the fault |
//! | `varint NUMBER`, `varint-of BYTES` | the shortest varint and its size; the number that is read, and how many bytes follow |
//! | `bytes FIELD BYTES`, `four FIELD NUMBER`, `eight FIELD NUMBER` | the field spelled, and the size of a number's |
//! | `utf8 BYTES`, `append TEXT\|TEXT`, `first NUMBER BYTES`, `list \| BYTES \| BYTES ..` | what a text, a byte string or a list holds |
//! | `name TEXT` | the two parts of a name |
//! | `address`, `value`, `sender`, `letter`, `delay`, `egress BYTES` | the canonical spelling, or the fault |
//! | `copy BYTES`, `same BYTES \| BYTES`, `order BYTES \| BYTES` | a letter's copy spelled; whether two letters are one; the order of two senders |
//! | `bool`, `int`, `long`, `text BYTES`, `held BYTES` | what a wrapper's bytes hold; what a spelled value holds, asked for each type |
//! | `bool-value`, `int-value`, `long-value`, `text-value WORD` | the value spelled |
//! | `to BYTES`, `from BYTES` | the canonical spelling and its size, or the fault; whether all ways to cut the bytes say the same |
//! | `limit NUMBER to\|from BYTES` | how many bytes a feeder takes one by one, what it then holds, and what the bytes are as pieces |
//! | `size BYTES` | the size of a letter in a request |
//! | `judge BYTES`, `judge CELLS \| BYTES` | what the answer of an address with such cells does, or its flaw |
//! | `request MOMENT \| CELLS \| BYTES \| BYTES ..` | the request with such letters, and its sizes |
use crate::container_rows::{appended, first_bytes, listed, utf8};
use crate::judge_rows::judged;
use crate::request_rows::requested;
use crate::stored_rows::{copied, name, order, same, stored};
use crate::whole_rows::{letter_size, limited, whole_row};
use crate::wire_rows::{eight, field_with_bytes, four, record_within, records, varint, varint_of};
use crate::wrapped_rows::{held, made, wrapped};
use row_text::Failure;
use std::alloc::Global;

/// What a row, `KIND WORDS`, comes to.
pub(crate) fn outcome(alloc: Global, row: &str) -> Result<String, Failure> {
    let (kind, words) = row.split_once(' ').unwrap_or((row, ""));
    match kind {
        "records" => records(alloc, words),
        "record" => record_within(alloc, words),
        "varint" => varint(alloc, words),
        "varint-of" => varint_of(alloc, words),
        "bytes" => field_with_bytes(alloc, words),
        "four" => four(alloc, words),
        "eight" => eight(alloc, words),
        _ => container_outcome(alloc, kind, words),
    }
}

fn container_outcome(alloc: Global, kind: &str, words: &str) -> Result<String, Failure> {
    match kind {
        "utf8" => utf8(alloc, words),
        "append" => appended(alloc, words),
        "first" => first_bytes(alloc, words),
        "list" => listed(alloc, words),
        _ => value_outcome(alloc, kind, words),
    }
}

fn value_outcome(alloc: Global, kind: &str, words: &str) -> Result<String, Failure> {
    match kind {
        "name" => name(alloc, words),
        "copy" => copied(alloc, words),
        "same" => same(alloc, words),
        "order" => order(alloc, words),
        "held" => held(alloc, words),
        "bool" | "int" | "long" | "text" => wrapped(alloc, kind, words),
        "bool-value" | "int-value" | "long-value" | "text-value" => made(alloc, kind, words),
        _ => message_outcome(alloc, kind, words),
    }
}

fn message_outcome(alloc: Global, kind: &str, words: &str) -> Result<String, Failure> {
    match kind {
        "to" | "from" => whole_row(alloc, kind, words),
        "limit" => limited(alloc, words),
        "size" => letter_size(alloc, words),
        "judge" => judged(alloc, words),
        "request" => requested(alloc, words),
        _ => stored(alloc, kind, words),
    }
}
