//! Serving over the network.
use crate::{FunctionTable, serve_connection};
use sf_outside::{ReaderSource, WriterSink};
use std::alloc::Global;
use std::io::Read;
use std::net::{Shutdown, TcpListener, TcpStream};
use std::sync::Wait;
use std::thread;
use std::thread::{Scope, Threads};
use std::time::Duration;

/// Serves the connections of a listener, for ever: each on a thread of its own, or on this one where none can be started. A
/// connection that cannot be accepted is passed over. It waits for peers, and nothing says that it returns.
pub fn serve<R: Threads + Wait>(
    rt: &R,
    alloc: Global,
    listener: &TcpListener,
    table: &FunctionTable,
) {
    thread::scope(thread::scope_env(), rt, |scope| {
        for stream in listener.incoming() {
            if let Ok(stream) = stream {
                serve_beside(scope, alloc, table, stream);
            }
        }
    })
}

/// Serves a connection on a thread of its own, or on this one where none can be started.
fn serve_beside<'s, E>(
    scope: &Scope<'s, E>,
    alloc: Global,
    table: &'s FunctionTable,
    stream: TcpStream,
) {
    if let Err(refused) = scope.spawn(move || serve_stream(alloc, table, &stream)) {
        (refused.value)();
    }
}

/// How long a connection waits for its peer, in seconds.
const PATIENCE: u64 = 10;

/// Serves one connection, whose reads and writes wait 10 seconds at most. What it could not read or write is passed over: the peer
/// finds the connection closed.
pub(crate) fn serve_stream(alloc: Global, table: &FunctionTable, stream: &TcpStream) {
    let patience = Some(Duration::from_secs(PATIENCE));
    if stream.set_read_timeout(patience).is_err() || stream.set_write_timeout(patience).is_err() {
        return;
    }
    let mut source = ReaderSource::new(stream);
    let mut sink = WriterSink::new(stream);
    let _ = serve_connection(alloc, table, &mut source, &mut sink);
    let_go(stream);
}

/// Closes a connection in stages, so that a peer that still sends can read its response (RFC 9112, section 9.6): what it sends is read
/// until it closes its side, up to 4 MiB.
fn let_go(stream: &TcpStream) {
    if stream.shutdown(Shutdown::Write).is_err() {
        return;
    }
    let mut passed = [0u8; 4096];
    let mut peer = stream;
    for _ in 0..1024 {
        match peer.read(&mut passed) {
            Ok(0) => return,
            Ok(_) => {}
            Err(_) => return,
        }
    }
}
