//! What header lines say of a body.
ghost use Rattle.std.specs.Prelude.{◌≡◌, ◌↔◌, ◌<◌, ◌≤◌, IsTrue, All, length, map, slice_index};
ghost use Rattle.httparse.specs.Spans.{IsHeaderWithin, header_bytes};
ghost use Rattle.endpoint_http.specs.Fields.{is_like, has, each_is, length_of, below, agreed, stated_length, framed_by, framing_of};
ghost use Rattle.std.specs.Prelude.{None as NoLength};

use crate::HttpFault;
use httparse::spans::HeaderSpan;
use std::str;

/// How a body is framed.
#[derive(Clone, Copy, Debug, PartialEq, Eq)]
pub enum Framing {
    /// In chunks.
    Chunks,
    /// By its number of bytes.
    Length(u64),
    /// Nothing says how.
    Unstated,
}

/// How the header lines say that the body is framed.
pub(crate) fn framing_of(buffer: &[u8], headers: &[HeaderSpan]) -> Result<Framing, HttpFault>
    requires { All (IsHeaderWithin (length buffer.now)) headers.now }
    ensures { result ≡ framing_of (map (header_bytes buffer.now) headers.now) }
{
    if !each_is(buffer, headers, b"transfer-encoding", b"chunked") {
        return Err(HttpFault::Head);
    }
    let stated = stated_length(buffer, headers)?;
    if !each_is(buffer, headers, b"content-encoding", b"identity") {
        return Err(HttpFault::Compressed);
    }
    Ok(framed_by(has(buffer, headers, b"transfer-encoding"), stated))
}

fn framed_by(chunked: bool, stated: Option<u64>) -> Framing
    ensures { result ≡ framed_by chunked stated }
{
    match stated {
        _ if chunked => Framing::Chunks,
        Some(count) => Framing::Length(count),
        None => Framing::Unstated,
    }
}

/// Whether there is a header of this name.
fn has(buffer: &[u8], headers: &[HeaderSpan], name: &[u8]) -> bool
    requires { All (IsHeaderWithin (length buffer.now)) headers.now }
    ensures { result ≡ has name.now (map (header_bytes buffer.now) headers.now) }
{
    for header in headers {
        if is_like(header.name.of(buffer), name) {
            return true;
        }
    }
    false
}

/// Whether each header of this name has this value.
fn each_is(buffer: &[u8], headers: &[HeaderSpan], name: &[u8], value: &[u8]) -> bool
    requires { All (IsHeaderWithin (length buffer.now)) headers.now }
    ensures { result ≡ each_is name.now value.now (map (header_bytes buffer.now) headers.now) }
{
    for header in headers {
        if is_like(header.name.of(buffer), name) && !is_like(header.value.of(buffer), value) {
            return false;
        }
    }
    true
}

fn is_like(a: &[u8], b: &[u8]) -> bool
    ensures { result ≡ is_like a.now b.now }
{
    a.eq_ignore_ascii_case(b)
}

/// The length that the header lines state.
fn stated_length(buffer: &[u8], headers: &[HeaderSpan]) -> Result<Option<u64>, HttpFault>
    requires { All (IsHeaderWithin (length buffer.now)) headers.now }
    ensures { result ≡ stated_length NoLength (map (header_bytes buffer.now) headers.now) }
{
    let mut stated = None;
    for header in headers {
        if is_like(header.name.of(buffer), b"content-length") {
            stated = agreed(length_of(header.value.of(buffer)), stated)?;
        }
    }
    Ok(stated)
}

fn agreed(length: Option<u64>, stated: Option<u64>) -> Result<Option<u64>, HttpFault>
    ensures { result ≡ agreed length stated }
{
    match (length, stated) {
        (Some(count), None) => Ok(Some(count)),
        (Some(count), Some(other)) if count == other => Ok(Some(other)),
        (Some(_), Some(_)) => Err(HttpFault::Head),
        (None, _) => Err(HttpFault::Head),
    }
}

/// The number that decimal digits give, below 2^63.
fn length_of(value: &[u8]) -> Option<u64>
    ensures { result ≡ length_of value.now }
{
    if !begins_with_digit(value) {
        return None;
    }
    match str::from_utf8(value) {
        Ok(digits) => length_in(digits),
        Err(_) => None,
    }
}

fn length_in(digits: &str) -> Option<u64>
    requires { (48 ≤ slice_index digits.now 0) × (slice_index digits.now 0 ≤ 57) }
    ensures { result ≡ length_of digits.now }
{
    match digits.parse::<u64>() {
        Ok(count) => below(count),
        Err(_) => None,
    }
}

fn begins_with_digit(value: &[u8]) -> bool
    ensures { IsTrue result ↔ ((0 < length value.now) × (48 ≤ slice_index value.now 0) × (slice_index value.now 0 ≤ 57)) }
{
    match value {
        [first, ..] => b'0' <= *first && *first <= b'9',
        [] => false,
    }
}

fn below(count: u64) -> Option<u64>
    ensures { result ≡ below count }
{
    if count < 1 << 63 { Some(count) } else { None }
}
