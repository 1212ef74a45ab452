//! The bytes of a row.
use percent_encoding::percent_decode_str;
use row_text::Failure;
use std::alloc::Global;

/// The bytes of parts with `|` between them, one after the other. In a part `%` and two hexadecimal digits stand for that
/// byte, and `*N` behind it is N times the part.
pub(crate) fn bytes_of_parts(alloc: Global, parts: &str) -> Result<Vec<u8>, Failure> {
    let mut bytes = Vec::new(alloc);
    for part in parts.split('|') {
        let (text, times) = part.split_once('*').unwrap_or((part, "1"));
        let times = times.parse::<u64>()?;
        put_times(alloc, &mut bytes, text, times)?;
    }
    Ok(bytes)
}

fn put_times(alloc: Global, into: &mut Vec<u8>, text: &str, times: u64) -> Result<(), Failure> {
    let mut unit = Vec::new(alloc);
    percent_decode_str(text).append_to(&mut unit)?;
    for _ in 0..times {
        into.extend_from_slice(unit.as_slice())?;
    }
    Ok(())
}
