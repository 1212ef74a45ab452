//! The texts of heads that are written.
ghost use Rattle.std.specs.Prelude.{◌≡◌, ◌++◌, OnOk};
ghost use Rattle.std.specs.Fmt.{decimal};
ghost use Rattle.endpoint_http.specs.Chunks.{crlf};
ghost use Rattle.endpoint_http.specs.Written.{line, port_part, request_line, host_line, type_line, length_line, closing, content_lines, reason_of, status_line};

use address_routing::HttpTarget;
use itoa::Buffer;
use proto_wire::{Bytes, Mem};

/// The port that a URL need not name (RFC 9110 section 4.2.1).
const HTTP_PORT: u16 = 80;

/// Adds the first line of a request.
pub(crate) fn put_request_line(into: &mut Bytes, target: &HttpTarget) -> Mem<()>
    ensures { OnOk result (into.new ≡ into.old ++ request_line target.now) }
{
    put_line(into, b"POST ", target.path.as_bytes(), b" HTTP/1.1")
}

/// Adds the host, with its port where it is not the one of the scheme.
pub(crate) fn put_host_line(into: &mut Bytes, target: &HttpTarget) -> Mem<()>
    ensures { OnOk result (into.new ≡ into.old ++ host_line target.now) }
{
    into.append(b"Host: ")?;
    into.append(target.host.as_bytes())?;
    put_port(into, target.port)?;
    put_end(into)?;
    Ok(())
}

/// Adds the type and the number of bytes of a body, and the empty line before it.
pub(crate) fn put_content_lines(into: &mut Bytes, count: u64) -> Mem<()>
    ensures { OnOk result (into.new ≡ into.old ++ content_lines count) }
{
    put_type_line(into)?;
    put_length_line(into, count)?;
    put_closing(into)?;
    Ok(())
}

/// Adds the first line of a response.
pub(crate) fn put_status_line(into: &mut Bytes, status: u16) -> Mem<()>
    ensures { OnOk result (into.new ≡ into.old ++ status_line status) }
{
    into.append(b"HTTP/1.1 ")?;
    put_decimal(into, u64::from(status))?;
    into.push(b' ')?;
    put_reason(into, status)?;
    put_end(into)?;
    Ok(())
}

/// Adds a number of bytes.
pub(crate) fn put_length_line(into: &mut Bytes, count: u64) -> Mem<()>
    ensures { OnOk result (into.new ≡ into.old ++ length_line count) }
{
    into.append(b"Content-Length: ")?;
    put_decimal(into, count)?;
    put_end(into)?;
    Ok(())
}

/// Adds that the connection is closed, and the empty line.
pub(crate) fn put_closing(into: &mut Bytes) -> Mem<()>
    ensures { OnOk result (into.new ≡ into.old ++ closing) }
{
    into.append(b"Connection: close\r\n\r\n")
}

fn put_type_line(into: &mut Bytes) -> Mem<()>
    ensures { OnOk result (into.new ≡ into.old ++ type_line) }
{
    into.append(b"Content-Type: application/octet-stream\r\n")
}

fn put_line(into: &mut Bytes, first: &[u8], middle: &[u8], last: &[u8]) -> Mem<()>
    ensures { OnOk result (into.new ≡ into.old ++ line (first.now ++ (middle.now ++ last.now))) }
{
    into.append(first)?;
    into.append(middle)?;
    into.append(last)?;
    put_end(into)?;
    Ok(())
}

fn put_end(into: &mut Bytes) -> Mem<()>
    ensures { OnOk result (into.new ≡ into.old ++ crlf) }
{
    into.append(b"\r\n")
}

fn put_port(into: &mut Bytes, port: u16) -> Mem<()>
    ensures { OnOk result (into.new ≡ into.old ++ port_part port) }
{
    if port == HTTP_PORT {
        return Ok(());
    }
    into.push(b':')?;
    put_decimal(into, u64::from(port))?;
    Ok(())
}

fn put_decimal(into: &mut Bytes, number: u64) -> Mem<()>
    ensures { OnOk result (into.new ≡ into.old ++ decimal number) }
{
    let mut buffer = Buffer::new();
    into.append(buffer.format(number).as_bytes())
}

#[tactic(auto, unfolding(crate::specs::Written::reason_of))]
fn put_reason(into: &mut Bytes, status: u16) -> Mem<()>
    ensures { OnOk result (into.new ≡ into.old ++ reason_of status) }
{
    match status {
        200 => into.append(b"OK"),
        400 => into.append(b"Bad Request"),
        404 => into.append(b"Not Found"),
        405 => into.append(b"Method Not Allowed"),
        413 => into.append(b"Content Too Large"),
        415 => into.append(b"Unsupported Media Type"),
        _ => Ok(()),
    }
}
