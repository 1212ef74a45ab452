//! The records of a row.
use proto_wire::{Bytes, List, Mem, Text};
use row_text::{Failure, bytes_of, text_of};
use sf_outside::IngressRecord;
use std::alloc::Global;

/// What each of many records holds: the string `a`.
const VALUE: &[u8; 3] = b"\x0a\x01a";

/// The splits of a field, with `;` between them: the records `KEY=HEX` of each, or `many:N` for N records with the keys `k0`,
/// `k1` and so on.
pub(crate) fn splits_of(alloc: Global, field: &str) -> Result<List<List<IngressRecord>>, Failure> {
    let mut splits = List::new(alloc);
    for records in field.split(';') {
        splits.push(records_of(alloc, records)?)?;
    }
    Ok(splits)
}

fn records_of(alloc: Global, field: &str) -> Result<List<IngressRecord>, Failure> {
    let mut records = List::new(alloc);
    for word in field.split_whitespace() {
        match word.strip_prefix("many:") {
            Some(number) => put_many(alloc, &mut records, number)?,
            None => records.push(record_of(alloc, word)?)?,
        }
    }
    Ok(records)
}

fn record_of(alloc: Global, word: &str) -> Result<IngressRecord, Failure> {
    match word.split_once('=') {
        Some((key, value)) => Ok(IngressRecord {
            key: text_of(alloc, key)?,
            value: bytes_of(alloc, value)?,
        }),
        None => Err(Failure::Row),
    }
}

fn put_many(alloc: Global, records: &mut List<IngressRecord>, number: &str) -> Result<(), Failure> {
    for place in 0..number.parse::<u32>()? {
        records.push(numbered(alloc, place)?)?;
    }
    Ok(())
}

fn numbered(alloc: Global, place: u32) -> Mem<IngressRecord> {
    let key = format!(in alloc; "k{place}")?;
    Ok(IngressRecord {
        key: Text::copy_of(alloc, key.as_str())?,
        value: Bytes::copy_of(alloc, VALUE)?,
    })
}
