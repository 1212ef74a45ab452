//! What is written.
use address_routing::split_url;
use endpoint_http::{write_request, write_response};
use proto_wire::{Bytes, Text};
use row_text::Failure;
use sf_outside::MemorySink;
use std::alloc::Global;

/// A line with the request to this URL.
pub(crate) fn request_shown(alloc: Global, url: &str, body: &[u8]) -> Result<String, Failure> {
    let Ok(target) = split_url(alloc, &Text::copy_of(alloc, url)?) else {
        return Err(Failure::Row);
    };
    let mut sink = MemorySink::steady(alloc, Bytes::new(alloc))?;
    match write_request(alloc, &mut sink, &target, body) {
        Ok(()) => sink_shown(alloc, &sink),
        Err(_) => Err(Failure::OutOfMemory),
    }
}

/// A line with the response of this status.
pub(crate) fn response_shown(alloc: Global, status: &str, body: &[u8]) -> Result<String, Failure> {
    let status = status.parse::<u16>()?;
    if status < 100 || status >= 1000 {
        return Err(Failure::Row);
    }
    let mut sink = MemorySink::steady(alloc, Bytes::new(alloc))?;
    match write_response(alloc, &mut sink, status, body) {
        Ok(()) => sink_shown(alloc, &sink),
        Err(_) => Err(Failure::OutOfMemory),
    }
}

fn sink_shown(alloc: Global, sink: &MemorySink) -> Result<String, Failure> {
    let mut text = String::from_str(alloc, "  ")?;
    put_escaped(alloc, &mut text, sink.bytes().as_slice())?;
    text.push_str("\n")?;
    Ok(text)
}

/// Adds bytes as they stand in rows: `%` and two hexadecimal digits for each that is no visible character of ASCII.
pub(crate) fn put_escaped(alloc: Global, text: &mut String, bytes: &[u8]) -> Result<(), Failure> {
    for byte in bytes {
        let byte = *byte;
        if (b' '..=b'~').contains(&byte) && byte != b'%' && byte != b'|' && byte != b'*' {
            text.push(char::from(byte))?;
        } else {
            text.push_str(format!(in alloc; "%{byte:02X}")?.as_str())?;
        }
    }
    Ok(())
}
