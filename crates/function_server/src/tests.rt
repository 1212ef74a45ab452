//! Worked requests of the demonstration functions.
use crate::messages::name_of;
use crate::network::serve_stream;
use crate::{
    Entry, FunctionTable, Greeter, OwnedFunction, ServeFault, ServerLink, Total, answer_request,
    serve_connection,
};
use endpoint_http::HttpFault;
use proto_wire::{Bytes, Mem, Text, WireFault, WireKind};
use sf_outside::{Answered, Call, Link, MemorySink, MemorySource};
use std::alloc::Global;
use std::io::{Read, Write};
use std::net::{TcpListener, TcpStream};
use std::process::Abort;
use std::test::*;

/// A letter with the text `a` to `com.example/greeter/a`, and the cell `n`.
const WITHOUT_SEEN: &[u8] =
    b"\xa2\x06\x45\x0a\x19\x0a\x0bcom.example\x12\x07greeter\x1a\x01a\x12\x03\x0a\x01n\x1a\x23\x12\x21\x0a\x18io.statefun.types/string\x10\x01\x1a\x03\x0a\x01a";

/// The same with the cell `seen`, which has no value.
const WITH_SEEN: &[u8] =
    b"\xa2\x06\x48\x0a\x19\x0a\x0bcom.example\x12\x07greeter\x1a\x01a\x12\x06\x0a\x04seen\x1a\x23\x12\x21\x0a\x18io.statefun.types/string\x10\x01\x1a\x03\x0a\x01a";

/// That the cell `seen` is missing.
const SEEN_IS_MISSING: &[u8] = b"\xaa\x06\x1f\x0a\x1d\x0a\x04seen\x1a\x15io.statefun.types/int";

/// The first greeting: `seen` is 1, one more for the total, and `hello a 1`.
const HELLO: &[u8] =
    b"\xa2\x06\xb0\x01\x0a\x2a\x08\x01\x12\x04seen\x1a\x20\x0a\x15io.statefun.types/int\x10\x01\x1a\x05\x0d\x01\x00\x00\x00\x12\x3d\x0a\x19\x0a\x0bcom.example\x12\x05total\x1a\x03all\x12\x20\x0a\x15io.statefun.types/int\x10\x01\x1a\x05\x0d\x01\x00\x00\x00\x22\x43\x0a\x0bcom.example\x12\x09greetings\x1a\x29\x0a\x18io.statefun.types/string\x10\x01\x1a\x0b\x0a\x09hello a 1";

/// A letter with the int 2 to `com.example/total/b`, and the cell `sum`, which has no value.
const WITH_SUM: &[u8] =
    b"\xa2\x06\x44\x0a\x17\x0a\x0bcom.example\x12\x05total\x1a\x01b\x12\x05\x0a\x03sum\x1a\x22\x12\x20\x0a\x15io.statefun.types/int\x10\x01\x1a\x05\x0d\x02\x00\x00\x00";

/// `sum` is 2.
const SUM: &[u8] =
    b"\xa2\x06\x30\x0a\x2e\x08\x01\x12\x03sum\x1a\x25\x0a\x16io.statefun.types/long\x10\x01\x1a\x09\x09\x02\x00\x00\x00\x00\x00\x00\x00";

/// A batch without letters for `com.example/nobody/a`.
const TO_NOBODY: &[u8] = b"\xa2\x06\x1a\x0a\x18\x0a\x0bcom.example\x12\x06nobody\x1a\x01a";

const METHOD_NOT_ALLOWED: &[u8] =
    b"HTTP/1.1 405 Method Not Allowed\r\nContent-Length: 0\r\nConnection: close\r\n\r\n";

const NOT_FOUND: &[u8] =
    b"HTTP/1.1 404 Not Found\r\nContent-Length: 0\r\nConnection: close\r\n\r\n";

const OK: &[u8] =
    b"HTTP/1.1 200 OK\r\nContent-Type: application/octet-stream\r\nContent-Length: 180\r\nConnection: close\r\n\r\n";

/// Two functions under their names.
fn entries(alloc: Global, greeter: OwnedFunction, total: OwnedFunction) -> Mem<Vec<Entry>> {
    let mut entries = Vec::new(alloc);
    entries.push((name_of(alloc, "greeter")?, greeter))?;
    entries.push((name_of(alloc, "total")?, total))?;
    Ok(entries)
}

#[test]
fn answers_to_requests(rt: HostRuntime) -> Result<(), Fail> {
    let alloc = rt.alloc();
    let greeter: OwnedFunction = Box::new(alloc, Greeter)?;
    let total: OwnedFunction = Box::new(alloc, Total)?;
    let table = FunctionTable::new(entries(alloc, greeter, total)?);
    let rows = [
        (WITHOUT_SEEN, SEEN_IS_MISSING),
        (WITH_SEEN, HELLO),
        (WITH_SUM, SUM),
    ];
    for (request, want) in rows {
        let answer = answer_request(alloc, &table, request)?;
        assert_eq!(rt; answer.as_slice(), want);
    }
    let cut = WireFault {
        kind: WireKind::Truncated,
        at: 0,
    };
    let refusals: [(&[u8], ServeFault); 2] = [
        (TO_NOBODY, ServeFault::NotServed),
        (b"\xa2", ServeFault::Wire(cut)),
    ];
    for (request, want) in refusals {
        match answer_request(alloc, &table, request) {
            Ok(_) => panic!(rt; "an answer"),
            Err(fault) => assert_eq!(rt; fault, want),
        }
    }
    Ok(())
}

/// The status and the response of a connection on which these bytes come.
fn served(
    alloc: Global,
    table: &FunctionTable,
    bytes: &[u8],
) -> Result<(u16, MemorySink), HttpFault> {
    let mut source = MemorySource::steady(alloc, Bytes::copy_of(alloc, bytes)?)?;
    let mut sink = MemorySink::steady(alloc, Bytes::new(alloc))?;
    let status = serve_connection(alloc, table, &mut source, &mut sink)?;
    Ok((status, sink))
}

/// Two parts, one behind the other.
fn joined(alloc: Global, head: &[u8], body: &[u8]) -> Mem<Bytes> {
    let mut bytes = Bytes::copy_of(alloc, head)?;
    bytes.append(body)?;
    Ok(bytes)
}

#[test]
fn connections_are_served(rt: HostRuntime) -> Result<(), Fail> {
    let alloc = rt.alloc();
    let greeter: OwnedFunction = Box::new(alloc, Greeter)?;
    let total: OwnedFunction = Box::new(alloc, Total)?;
    let table = FunctionTable::new(entries(alloc, greeter, total)?);
    let rows: [(&[u8], &[u8], u16, &[u8], &[u8]); 3] = [
        (b"GET / HTTP/1.1\r\n\r\n", b"", 405, METHOD_NOT_ALLOWED, b""),
        (
            b"POST / HTTP/1.1\r\nContent-Length: 29\r\n\r\n",
            TO_NOBODY,
            404,
            NOT_FOUND,
            b"",
        ),
        (
            b"POST / HTTP/1.1\r\nContent-Length: 75\r\n\r\n",
            WITH_SEEN,
            200,
            OK,
            HELLO,
        ),
    ];
    for (head, body, want, response, answer) in rows {
        let request = joined(alloc, head, body)?;
        let (status, sink) = served(alloc, &table, request.as_slice())?;
        assert_eq!(rt; status, want);
        let written = joined(alloc, response, answer)?;
        assert_eq!(rt; sink.bytes().as_slice(), written.as_slice());
    }
    Ok(())
}

#[test]
fn a_connection_over_loopback(rt: HostRuntime) -> Result<(), Fail> {
    let alloc = rt.alloc();
    let table = FunctionTable::new(Vec::new(alloc));
    let listener = TcpListener::bind(&rt, "127.0.0.1:0")?;
    let mut peer = TcpStream::connect(&rt, listener.local_addr()?)?;
    peer.write_all(b"GET / HTTP/1.1\r\n\r\n")?;
    let (stream, _) = listener.accept()?;
    serve_stream(alloc, &table, &stream);
    drop(stream);
    let mut response = Vec::new(alloc);
    peer.read_to_end(&mut response)?;
    assert_eq!(rt; response.as_slice(), METHOD_NOT_ALLOWED);
    Ok(())
}

fn call(turn: u32) -> Call {
    Call {
        leg: 1,
        partition: 0,
        turn,
    }
}

/// Polls, and compares what became of a call: its answer, or the note on its loss.
fn check_poll(rt: &impl Abort, link: &mut ServerLink, turn: u32, want: Result<&[u8], u32>) {
    match link.poll(0) {
        Ok(Some(outcome)) => {
            assert_eq!(rt; outcome.call, call(turn));
            match (outcome.what, want) {
                (Answered::Answer(answer), Ok(bytes)) => assert_eq!(rt; answer.as_slice(), bytes),
                (Answered::Lost(note), Err(number)) => assert_eq!(rt; note, number),
                _ => panic!(rt; "another outcome of call {turn}"),
            }
        }
        _ => panic!(rt; "no outcome of call {turn}"),
    }
}

#[test]
fn a_link_answers_each_call_once(rt: HostRuntime) -> Result<(), Fail> {
    let alloc = rt.alloc();
    let greeter: OwnedFunction = Box::new(alloc, Greeter)?;
    let total: OwnedFunction = Box::new(alloc, Total)?;
    let table = FunctionTable::new(entries(alloc, greeter, total)?);
    let mut link = ServerLink::new(alloc, table)?;
    let url = Text::copy_of(alloc, "http://localhost/")?;
    link.start(call(0), &url, WITHOUT_SEEN)?;
    link.start(call(1), &url, b"\x08")?;
    check_poll(&rt, &mut link, 0, Ok(SEEN_IS_MISSING));
    link.start(call(2), &url, TO_NOBODY)?;
    check_poll(&rt, &mut link, 1, Err(31));
    check_poll(&rt, &mut link, 2, Err(32));
    assert!(rt; link.poll(0)?.is_none());
    Ok(())
}
