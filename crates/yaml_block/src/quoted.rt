//! Quoted scalars.
ghost use Rattle.std.specs.Prelude.{◌≡◌, option_map, IfOk};
ghost use Rattle.yaml_block.specs.Scalars as spec;

use crate::scalars::first_of;
use proto_wire::{Bytes, Mem};
use std::alloc::Global;

pub(crate) fn is_quote(byte: u8) -> bool
    ensures { result ≡ spec.is_quote byte }
{
    byte == b'\'' || byte == b'"'
}

/// The content of a scalar between these quotes, and what follows its last quote. `text` follows the first.
pub(crate) fn quoted(alloc: Global, quote: u8, text: &[u8]) -> Mem<Option<(Bytes, &[u8])>>
    ensures { IfOk result (λ found. option_map (λ x. (x.0, x.1.now)) found ≡ spec.quoted quote text.now) }
{
    if quote == b'\'' {
        single(alloc, text)
    } else {
        double(alloc, text)
    }
}

fn single(alloc: Global, text: &[u8]) -> Mem<Option<(Bytes, &[u8])>>
    ensures { IfOk result (λ found. option_map (λ x. (x.0, x.1.now)) found ≡ spec.single text.now) }
{
    let mut content = Bytes::new(alloc);
    let mut rest = text;
    loop {
        match rest {
            [] => return Ok(None),
            [b'\'', b'\'', after @ ..] => {
                content.push(b'\'')?;
                rest = after;
            }
            [b'\'', after @ ..] => return Ok(Some((content, after))),
            [byte, after @ ..] => {
                content.push(*byte)?;
                rest = after;
            }
        }
    }
}

fn double(alloc: Global, text: &[u8]) -> Mem<Option<(Bytes, &[u8])>>
    ensures { IfOk result (λ found. option_map (λ x. (x.0, x.1.now)) found ≡ spec.double text.now) }
{
    let mut content = Bytes::new(alloc);
    let mut rest = text;
    while let Some((byte, after)) = first_of(rest) {
        if byte == b'"' {
            return Ok(Some((content, after)));
        }
        if byte == b'\\' {
            let Some((code, after)) = first_of(after) else {
                return Ok(None);
            };
            let Some(byte) = escaped(code) else {
                return Ok(None);
            };
            content.push(byte)?;
            rest = after;
        } else {
            content.push(byte)?;
            rest = after;
        }
    }
    Ok(None)
}

/// What a backslash and this character stand for.
fn escaped(code: u8) -> Option<u8>
    ensures { result ≡ spec.escape code }
{
    match code {
        b'\\' | b'"' | b'/' => Some(code),
        b'n' => Some(b'\n'),
        b't' => Some(b'\t'),
        b'r' => Some(b'\r'),
        _ => None,
    }
}
