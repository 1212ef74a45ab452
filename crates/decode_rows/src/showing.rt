//! What is printed of a row.
use crate::decoding::{Decoded, decode, left_in};
use crate::row::row_of;
use row_text::{Failure, put_written};
use std::alloc::Global;
use std::str;

/// What came of a row, line by line, each with two blanks before it.
pub(crate) fn shown(alloc: Global, line: &str) -> Result<String, Failure> {
    let Decoded {
        status,
        given,
        mut input,
        out,
    } = decode(alloc, &row_of(line))?;
    let mut text = String::new(alloc);
    put_written(&mut text, str::from_utf8(out.bytes().as_slice())?)?;
    put_end(
        alloc,
        &mut text,
        status,
        part_left(given, left_in(&mut input)?),
    )?;
    Ok(text)
}

/// Which part of so many bytes is left.
fn part_left(given: usize, left: usize) -> &'static str {
    if left == 0 {
        "none"
    } else if left == given {
        "all"
    } else {
        "some"
    }
}

fn put_end(alloc: Global, text: &mut String, status: u8, left: &str) -> Result<(), Failure> {
    text.push_str(format!(in alloc; "  status {status}; left {left}\n")?.as_str())?;
    Ok(())
}
