//! Messages whose bodies are read.
ghost use Rattle.std.specs.Prelude.{◌≡◌, ◌↔◌, ◌≤◌, ◌<◌, ℕ, length, IsTrue};
ghost use Rattle.sf_outside.specs.Left.{ahead};
ghost use Rattle.endpoint_http.specs.Answers.{Told, Gives, ReadCause};
ghost use Rattle.endpoint_http.specs.Framed.{IsResponse, IsRequest};

use crate::HttpFault;
use crate::body::read_body;
use crate::fields::framing_of;
use crate::held::Held;
use crate::part::{Found, LINES, Part};
use crate::reading::read_part;
use httparse::spans::{EMPTY_HEADER_SPAN, HeaderSpan};
use proto_wire::Bytes;
use sf_outside::Source;
use std::alloc::Global;

/// How many interim responses (RFC 9110 section 15.2) are passed over.
const INTERIMS: u32 = 8;

/// Reads a response, and answers its body, of at most `limit` bytes. Any status from 200 to 299 is an answer, whatever its
/// content type. Behind the body nothing is looked at.
pub fn read_response<S: Source>(
    alloc: Global,
    source: &mut S,
    limit: u64,
) -> Result<Bytes, HttpFault>
    ensures body { Told (S.left source.old) (λ bytes. Gives (IsResponse limit 8 bytes) result) }
    ensures cause { ReadCause (S.faults source.old) (S.faults source.new) result }
{
    read_response_on(alloc, &mut Held::new(alloc), source, limit, INTERIMS)
}

/// Reads a `POST` request, and answers its body, of at most `limit` bytes.
pub fn read_request<S: Source>(
    alloc: Global,
    source: &mut S,
    limit: u64,
) -> Result<Bytes, HttpFault>
    ensures body { Told (S.left source.old) (λ bytes. Gives (IsRequest limit bytes) result) }
    ensures cause { ReadCause (S.faults source.old) (S.faults source.new) result }
{
    read_request_on(alloc, &mut Held::new(alloc), source, limit)
}

fn read_request_on<S: Source>(
    alloc: Global,
    held: &mut Held,
    source: &mut S,
    limit: u64,
) -> Result<Bytes, HttpFault>
    ensures body { Told (ahead held.old (S.left source.old)) (λ bytes. Gives (IsRequest limit bytes) result) }
    ensures cause { ReadCause (S.faults source.old) (S.faults source.new) result }
{
    let mut headers = [EMPTY_HEADER_SPAN; LINES];
    let head = read_part(Part::Request, held, source, &mut headers)?;
    if !head.start.is_post() {
        return Err(HttpFault::Method);
    }
    let framing = framing_of(held.as_slice(), headers.split_at(head.headers).0)?;
    held.take(head.len);
    read_body(
        alloc,
        Part::Request,
        framing,
        held,
        source,
        &mut headers,
        limit,
    )
}

fn read_response_on<S: Source>(
    alloc: Global,
    held: &mut Held,
    source: &mut S,
    limit: u64,
    interims: u32,
) -> Result<Bytes, HttpFault>
    ensures body { Told (ahead held.old (S.left source.old)) (λ bytes. Gives (IsResponse limit interims bytes) result) }
    ensures cause { ReadCause (S.faults source.old) (S.faults source.new) result }
{
    let mut headers = [EMPTY_HEADER_SPAN; LINES];
    let head = read_part(Part::Response, held, source, &mut headers)?;
    let status = head.start.status();
    if is_interim(status) {
        if interims == 0 {
            return Err(HttpFault::Head);
        }
        held.take(head.len);
        return read_response_on(alloc, held, source, limit, interims - 1);
    }
    if !is_success(status) {
        return Err(HttpFault::Status(status));
    }
    let framing = framing_of(held.as_slice(), headers.split_at(head.headers).0)?;
    if status == 204 {
        return Ok(Bytes::new(alloc));
    }
    held.take(head.len);
    read_body(
        alloc,
        Part::Response,
        framing,
        held,
        source,
        &mut headers,
        limit,
    )
}

fn is_interim(status: u16) -> bool
    ensures { IsTrue result ↔ ((100 ≤ status) × (status < 200)) }
{
    100 <= status && status < 200
}

fn is_success(status: u16) -> bool
    ensures { IsTrue result ↔ ((200 ≤ status) × (status < 300)) }
{
    200 <= status && status < 300
}
