use crate::{HttpFault, read_request, read_response, write_request, write_response};
use address_routing::HttpTarget;
use proto_wire::{Bytes, List, Text};
use sf_outside::{MemorySink, MemorySource};
use std::test::*;

#[test]
fn a_response_in_chunks(rt: HostRuntime) -> Result<(), Fail> {
    let alloc = rt.alloc();
    let text = b"HTTP/1.1 200 OK\r\nTransfer-Encoding: chunked\r\n\r\n3\r\nabc\r\n0\r\n\r\n";
    let mut source = MemorySource::steady(alloc, Bytes::copy_of(alloc, text)?)?;
    let body = read_response(alloc, &mut source, 3)?;
    assert_eq!(rt; body.as_slice(), b"abc".as_slice());
    Ok(())
}

#[test]
fn a_request_of_a_length(rt: HostRuntime) -> Result<(), Fail> {
    let alloc = rt.alloc();
    let text = b"POST / HTTP/1.1\r\nContent-Length: 3\r\n\r\nabc";
    let mut source = MemorySource::steady(alloc, Bytes::copy_of(alloc, text)?)?;
    let body = read_request(alloc, &mut source, 3)?;
    assert_eq!(rt; body.as_slice(), b"abc".as_slice());
    Ok(())
}

#[test]
fn a_read_that_fails_in_the_body(rt: HostRuntime) -> Result<(), Fail> {
    let alloc = rt.alloc();
    let text = b"HTTP/1.1 200 OK\r\n\r\nabc";
    let failing = List::of(Vec::from_slice(alloc, &[1])?);
    let mut source = MemorySource::new(alloc, Bytes::copy_of(alloc, text)?, failing)?;
    match read_response(alloc, &mut source, 100) {
        Ok(_) => panic!(rt; "a body"),
        Err(fault) => assert_eq!(rt; fault, HttpFault::ReadFault),
    }
    Ok(())
}

#[test]
fn a_request_to_a_port(rt: HostRuntime) -> Result<(), Fail> {
    let alloc = rt.alloc();
    let target = HttpTarget {
        host: Text::copy_of(alloc, "localhost")?,
        port: 8000,
        path: Text::copy_of(alloc, "/greeter")?,
    };
    let mut sink = MemorySink::steady(alloc, Bytes::new(alloc))?;
    write_request(alloc, &mut sink, &target, b"abc")?;
    let text =
        b"POST /greeter HTTP/1.1\r\nHost: localhost:8000\r\nContent-Type: application/octet-stream\r\nContent-Length: 3\r\nConnection: close\r\n\r\nabc";
    assert_eq!(rt; sink.bytes().as_slice(), text.as_slice());
    Ok(())
}

#[test]
fn a_write_that_fails_in_the_body(rt: HostRuntime) -> Result<(), Fail> {
    let alloc = rt.alloc();
    let failing = List::of(Vec::from_slice(alloc, &[1])?);
    let mut sink = MemorySink::new(alloc, Bytes::new(alloc), failing)?;
    let answer = write_response(alloc, &mut sink, 200, b"abc");
    assert_eq!(rt; answer, Err(HttpFault::WriteFault));
    Ok(())
}
