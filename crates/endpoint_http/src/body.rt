//! Bodies that are read from a source.
ghost use Rattle.std.specs.Prelude.{◌≡◌, ◌↔◌, ◌⊎◌, ◌≤◌, ◌<◌, ◌+◌, ◌++◌, [], List, ℕ, Some, Ok, Err, take, drop, length, slice_index, IsTrue, OnOk, IfErr};
ghost use Rattle.sf_outside.specs.Left.{ahead};
ghost use Rattle.endpoint_http.specs.Answers.{Told, Blames, Gives, ReadCause};
ghost use Rattle.endpoint_http.specs.Chunks.{IsChunked, Announces};
ghost use Rattle.endpoint_http.specs.Framed.{counted, to_the_end, IsBody};
ghost use Rattle.endpoint_http.specs.Taking.{Takes, LineEndFault, LineEnds};
ghost use Rattle.endpoint_http.specs.declared.fault.HttpFault.TheVariants.{Cut as HasCut};

use crate::HttpFault;
use crate::fields::Framing;
use crate::held::Held;
use crate::part::Part;
use crate::reading::read_part;
use httparse::spans::HeaderSpan;
use proto_wire::Bytes;
use sf_outside::Source;
use std::alloc::Global;

/// The body behind the head of such a message.
pub(crate) fn read_body<S: Source>(
    alloc: Global,
    part: Part,
    framing: Framing,
    held: &mut Held,
    source: &mut S,
    headers: &mut [HeaderSpan],
    limit: u64,
) -> Result<Bytes, HttpFault>
    requires room { length headers.old ≡ 64 }
    ensures body { Told (ahead held.old (S.left source.old)) (λ bytes. Gives (IsBody part limit (Ok framing) bytes) result) }
    ensures cause { ReadCause (S.faults source.old) (S.faults source.new) result }
{
    match framing {
        Framing::Chunks => chunked(alloc, held, source, headers, limit),
        Framing::Length(count) => counted(alloc, held, source, limit, count),
        Framing::Unstated if part == Part::Response => to_the_end(alloc, held, source, limit),
        Framing::Unstated => Ok(Bytes::new(alloc)),
    }
}

fn counted<S: Source>(
    alloc: Global,
    held: &mut Held,
    source: &mut S,
    limit: u64,
    count: u64,
) -> Result<Bytes, HttpFault>
    ensures body { Told (ahead held.old (S.left source.old)) (λ bytes. Gives (λ answer. answer ≡ counted limit count bytes) result) }
    ensures cause { ReadCause (S.faults source.old) (S.faults source.new) result }
{
    if count > limit {
        return Err(HttpFault::OverLimit);
    }
    let mut body = Bytes::new(alloc);
    take_exact(held, source, &mut body, count)?;
    Ok(body)
}

fn to_the_end<S: Source>(
    alloc: Global,
    held: &mut Held,
    source: &mut S,
    limit: u64,
) -> Result<Bytes, HttpFault>
    ensures body { Told (ahead held.old (S.left source.old)) (λ bytes. Gives (λ answer. answer ≡ to_the_end limit bytes) result) }
    ensures cause { ReadCause (S.faults source.old) (S.faults source.new) result }
{
    let mut body = Bytes::new(alloc);
    loop {
        if held.len() as u64 > limit - body.len() as u64 {
            return Err(HttpFault::OverLimit);
        }
        held.move_to(&mut body, limit)?;
        if held.fill(source)? == 0 {
            return Ok(body);
        }
    }
}

/// Moves so many of the bytes to come behind those of `into`. The memory that it asks for is in proportion to the bytes
/// that come.
fn take_exact<S: Source>(
    held: &mut Held,
    source: &mut S,
    into: &mut Bytes,
    count: u64,
) -> Result<(), HttpFault>
    ensures took { Told (ahead held.old (S.left source.old)) (λ bytes. OnOk result (Takes count into.old bytes into.new (ahead held.new (S.left source.new)))) }
    ensures cut { Told (ahead held.old (S.left source.old)) (λ bytes. IfErr result (Blames (λ e. (e ≡ HasCut) × (length bytes < count)))) }
    ensures counted { OnOk result (length into.new ≡ length into.old + count) }
    ensures cause { ReadCause (S.faults source.old) (S.faults source.new) result }
{
    let mut missing = count;
    while missing > 0 {
        if held.len() == 0 && held.fill(source)? == 0 {
            return Err(HttpFault::Cut);
        }
        missing -= held.move_to(into, missing)? as u64;
    }
    Ok(())
}

fn chunked<S: Source>(
    alloc: Global,
    held: &mut Held,
    source: &mut S,
    headers: &mut [HeaderSpan],
    limit: u64,
) -> Result<Bytes, HttpFault>
    requires room { length headers.old ≡ 64 }
    ensures body { Told (ahead held.old (S.left source.old)) (λ bytes. Gives (IsChunked limit [] bytes) result) }
    ensures cause { ReadCause (S.faults source.old) (S.faults source.new) result }
{
    let mut body = Bytes::new(alloc);
    loop {
        let line = read_part(Part::ChunkLine, held, source, headers)?;
        held.take(line.len);
        let size = line.start.size();
        if size == 0 {
            read_part(Part::Trailer, held, source, headers)?;
            return Ok(body);
        }
        if size > limit - body.len() as u64 {
            return Err(HttpFault::OverLimit);
        }
        take_exact(held, source, &mut body, size)?;
        take_line_end(held, source)?;
    }
}

/// Takes CR LF.
fn take_line_end<S: Source>(held: &mut Held, source: &mut S) -> Result<(), HttpFault>
    ensures took { Told (ahead held.old (S.left source.old)) (λ bytes. OnOk result (LineEnds bytes (ahead held.new (S.left source.new)))) }
    ensures fault { Told (ahead held.old (S.left source.old)) (λ bytes. IfErr result (Blames (LineEndFault bytes))) }
    ensures cause { ReadCause (S.faults source.old) (S.faults source.new) result }
{
    loop {
        if has_line_end(held.as_slice()) {
            held.take(2);
            return Ok(());
        }
        if !is_in_line_end(held.as_slice()) {
            return Err(HttpFault::Chunk);
        }
        if held.fill(source)? == 0 {
            return Err(HttpFault::Cut);
        }
    }
}

/// Whether these bytes begin with CR LF.
fn has_line_end(bytes: &[u8]) -> bool
    ensures { IsTrue result ↔ ((2 ≤ length bytes.now) × (slice_index bytes.now 0 ≡ 13) × (slice_index bytes.now 1 ≡ 10)) }
{
    bytes.len() >= 2 && bytes[0] == b'\r' && bytes[1] == b'\n'
}

/// Whether these bytes end before a CR LF would.
fn is_in_line_end(bytes: &[u8]) -> bool
    ensures { IsTrue result ↔ ((length bytes.now ≡ 0) ⊎ ((length bytes.now ≡ 1) × (slice_index bytes.now 0 ≡ 13))) }
{
    bytes.is_empty() || bytes.len() == 1 && bytes[0] == b'\r'
}
