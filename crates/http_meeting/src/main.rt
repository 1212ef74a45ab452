//! The program `http_meeting`: a link over HTTP calls a served function over loopback, on two threads. It prints the status that was
//! served and what the link tells of its calls.
#![tactic(auto)]

mod calling;
mod serving;

use calling::{calls, url_of};
use function_server::{Entry, FunctionTable, Greeter};
use http_link::{Caller, make_all};
use proto_wire::OutOfMemory;
use serving::{greeter_name, serve_one};
use std::net::TcpListener;
use std::process::ExitCode;
use std::{str, thread};

fn main(rt: HostRuntime) -> ExitCode {
    let alloc = rt.alloc();
    let Ok(make) = Box::new(alloc, move |calls| make_all(&rt, alloc, calls)) else {
        return ExitCode::FAILURE;
    };
    let mut entries = Vec::new(alloc);
    let Ok(greeter) = Box::new(alloc, Greeter) else {
        return ExitCode::FAILURE;
    };
    let Ok(name) = greeter_name(alloc) else {
        return ExitCode::FAILURE;
    };
    let entry: Entry = (name, greeter);
    if entries.push(entry).is_err() {
        return ExitCode::FAILURE;
    }
    let table = FunctionTable::new(entries);
    let Ok(listener) = TcpListener::bind(&rt, ("127.0.0.1", 0)) else {
        return ExitCode::FAILURE;
    };
    let port = match listener.local_addr() {
        Ok(address) => address.port(),
        Err(_) => 0,
    };
    let Ok(url) = url_of(alloc, port) else {
        return ExitCode::FAILURE;
    };
    let caller = Caller::new(make);
    let (served, told) = thread::join(
        &rt,
        || serve_one(alloc, &table, &listener),
        || calls(alloc, &caller, url.as_str()),
    );
    match told {
        Ok(told) => shown(&rt, served, told.as_slice()),
        Err(OutOfMemory) => ExitCode::FAILURE,
    }
}

/// Prints the status that was served, and what was told.
fn shown(rt: &HostRuntime, served: u16, told: &[u8]) -> ExitCode {
    let text = str::from_utf8(told).unwrap_or("");
    match print!(rt; "served {served}\n{text}") {
        Ok(()) => ExitCode::SUCCESS,
        Err(_) => ExitCode::FAILURE,
    }
}
