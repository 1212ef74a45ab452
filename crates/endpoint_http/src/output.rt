//! Messages that are written.
ghost use Rattle.std.specs.Prelude.{◌≡◌, ◌≤◌, ◌<◌, ◌++◌, ℕ, length, take, OnOk, OnErr, IfOk};
ghost use Rattle.sf_outside.specs.Told.{HasCause, more};
ghost use Rattle.endpoint_http.specs.Written.{request_head, request_text, response_text, full_text, empty_text, status_line, content_lines, length_line, closing, IsPartWritten, WriteCause};

use crate::HttpFault;
use crate::text::{
    put_closing, put_content_lines, put_host_line, put_length_line, put_request_line,
    put_status_line,
};
use address_routing::HttpTarget;
use proto_wire::{Bytes, Mem};
use sf_outside::{Fault, Sink};
use std::alloc::Global;

/// Writes a `POST` request of these bytes. An `Err` leaves a part of it written, from the front.
pub fn write_request<O: Sink>(
    alloc: Global,
    sink: &mut O,
    target: &HttpTarget,
    body: &[u8],
) -> Result<(), HttpFault>
    ensures whole { OnOk result (O.written sink.new ≡ more (O.written sink.old) (request_text target.now body.now)) }
    ensures part { OnErr result (IsPartWritten (O.written sink.old) (O.written sink.new) (request_text target.now body.now)) }
    ensures cause { WriteCause (O.faults sink.old) (O.faults sink.new) result }
{
    let head = request_head(alloc, target, body.len() as u64)?;
    write_message(sink, head.as_slice(), body)
}

/// Writes a response: with status 200 that of these bytes, and with any other one of no bytes. An `Err` leaves a part of it
/// written, from the front.
pub fn write_response<O: Sink>(
    alloc: Global,
    sink: &mut O,
    status: u16,
    body: &[u8],
) -> Result<(), HttpFault>
    // As RFC 9112 section 4 has it.
    requires three_digits { (100 ≤ status) × (status < 1000) }
    ensures whole { OnOk result (O.written sink.new ≡ more (O.written sink.old) (response_text status body.now)) }
    ensures part { OnErr result (IsPartWritten (O.written sink.old) (O.written sink.new) (response_text status body.now)) }
    ensures cause { WriteCause (O.faults sink.old) (O.faults sink.new) result }
{
    if status == 200 {
        return write_full(alloc, sink, body);
    }
    write_empty(alloc, sink, status)
}

fn write_full<O: Sink>(alloc: Global, sink: &mut O, body: &[u8]) -> Result<(), HttpFault>
    ensures whole { OnOk result (O.written sink.new ≡ more (O.written sink.old) (full_text body.now)) }
    ensures part { OnErr result (IsPartWritten (O.written sink.old) (O.written sink.new) (full_text body.now)) }
    ensures cause { WriteCause (O.faults sink.old) (O.faults sink.new) result }
{
    let head = full_head(alloc, body.len() as u64)?;
    write_message(sink, head.as_slice(), body)
}

fn write_empty<O: Sink>(alloc: Global, sink: &mut O, status: u16) -> Result<(), HttpFault>
    ensures whole { OnOk result (O.written sink.new ≡ more (O.written sink.old) (empty_text status)) }
    ensures part { OnErr result (IsPartWritten (O.written sink.old) (O.written sink.new) (empty_text status)) }
    ensures cause { WriteCause (O.faults sink.old) (O.faults sink.new) result }
{
    let head = empty_head(alloc, status)?;
    write_message(sink, head.as_slice(), &[])
}

fn request_head(alloc: Global, target: &HttpTarget, count: u64) -> Mem<Bytes>
    ensures { IfOk result (λ head. head ≡ request_head target.now count) }
{
    let mut head = Bytes::new(alloc);
    put_request_line(&mut head, target)?;
    put_host_line(&mut head, target)?;
    put_content_lines(&mut head, count)?;
    Ok(head)
}

fn full_head(alloc: Global, count: u64) -> Mem<Bytes>
    ensures { IfOk result (λ head. head ≡ status_line 200 ++ content_lines count) }
{
    let mut head = Bytes::new(alloc);
    put_status_line(&mut head, 200)?;
    put_content_lines(&mut head, count)?;
    Ok(head)
}

fn empty_head(alloc: Global, status: u16) -> Mem<Bytes>
    ensures { IfOk result (λ head. head ≡ empty_text status) }
{
    let mut head = Bytes::new(alloc);
    put_status_line(&mut head, status)?;
    put_length_line(&mut head, 0)?;
    put_closing(&mut head)?;
    Ok(head)
}

fn write_message<O: Sink>(sink: &mut O, head: &[u8], body: &[u8]) -> Result<(), HttpFault>
    ensures whole { OnOk result (O.written sink.new ≡ more (O.written sink.old) (head.now ++ body.now)) }
    ensures part { OnErr result (IsPartWritten (O.written sink.old) (O.written sink.new) (head.now ++ body.now)) }
    ensures cause { WriteCause (O.faults sink.old) (O.faults sink.new) result }
{
    match write_both(sink, head, body) {
        Ok(()) => Ok(()),
        Err(Fault::Failed) => Err(HttpFault::WriteFault),
        Err(Fault::OutOfMemory) => Err(HttpFault::OutOfMemory),
    }
}

fn write_both<O: Sink>(sink: &mut O, head: &[u8], body: &[u8]) -> Result<(), Fault>
    ensures whole { OnOk result (O.written sink.new ≡ more (O.written sink.old) (head.now ++ body.now)) }
    ensures part { OnErr result (IsPartWritten (O.written sink.old) (O.written sink.new) (head.now ++ body.now)) }
    ensures cause { HasCause (O.faults sink.old) (O.faults sink.new) result }
{
    write_whole(sink, head)?;
    write_whole(sink, body)?;
    Ok(())
}

/// Writes bytes whole. An `Err` leaves a part of them written, from the front.
fn write_whole<O: Sink>(sink: &mut O, bytes: &[u8]) -> Result<(), Fault>
    ensures whole { OnOk result (O.written sink.new ≡ more (O.written sink.old) bytes.now) }
    ensures part { OnErr result (IsPartWritten (O.written sink.old) (O.written sink.new) bytes.now) }
    ensures cause { HasCause (O.faults sink.old) (O.faults sink.new) result }
{
    let mut done = 0;
    while done < bytes.len() {
        let (_, rest) = bytes.split_at(done);
        let n = sink.write(rest)?;
        done += n;
    }
    Ok(())
}
