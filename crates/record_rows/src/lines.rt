//! Rows of egress lines and of URLs.
use crate::job::{function, name, routes};
use proto_wire::{Bytes, Text};
use row_text::{Failure, bytes_of, text_of};
use run_record::put_egress_text;
use std::alloc::Global;
use std::str;
use typed_values::{EgressRecord, NameFault, TypeName, TypedValue, parse_type_name};

/// The line of an egress record of `n/f` to `n/e`: `ID TYPENAME` and `none` or the value's bytes.
pub(crate) fn line(alloc: Global, words: &str) -> Result<String, Failure> {
    let mut parts = words.split(' ');
    let record = EgressRecord {
        sender: function(alloc, text_of(alloc, parts.next().unwrap_or(""))?)?,
        egress: name(alloc, "e")?,
        argument: value(
            alloc,
            parts.next().unwrap_or(""),
            parts.next().unwrap_or(""),
        )?,
    };
    let mut line = Bytes::new(alloc);
    put_egress_text(&mut line, [record].as_slice())?;
    let line = str::from_utf8(line.as_slice())?;
    Ok(format!(in alloc; "  {line}")?)
}

fn value(alloc: Global, kind: &str, bytes: &str) -> Result<TypedValue, Failure> {
    let has_value = bytes != "none";
    Ok(TypedValue {
        typename: text_of(alloc, kind)?,
        has_value,
        value: if has_value {
            bytes_of(alloc, bytes)?
        } else {
            Bytes::new(alloc)
        },
    })
}

/// The URL of a type, or `none`.
pub(crate) fn url(alloc: Global, word: &str) -> Result<String, Failure> {
    let kind = kind_of(alloc, word)?;
    match routes(alloc)?.url_of(alloc, &kind)? {
        Some(url) => shown_url(alloc, &url),
        None => Ok(String::from_str(alloc, "  none\n")?),
    }
}

fn kind_of(alloc: Global, word: &str) -> Result<TypeName, Failure> {
    match parse_type_name(alloc, &text_of(alloc, word)?) {
        Ok(kind) => Ok(kind),
        Err(NameFault::BadName) => Err(Failure::Row),
        Err(NameFault::OutOfMemory) => Err(Failure::OutOfMemory),
    }
}

fn shown_url(alloc: Global, url: &Text) -> Result<String, Failure> {
    let url = url.as_str();
    Ok(format!(in alloc; "  {url}\n")?)
}
