//! The command `serve`: the demonstration functions, on loopback.
use function_server::{FunctionTable, Greeter, OwnedFunction, Total, serve};
use proto_wire::{Mem, Text};
use serve_words::{ServeAsk, read_serve_words};
use std::alloc::Global;
use std::io;
use std::net::{Net, TcpListener, TcpStream};
use std::sync::Wait;
use std::thread::Threads;
use typed_values::TypeName;

/// The status of wrong words.
const USAGE: u8 = 2;

/// The status where standard output failed.
const WRITE_FAULT: u8 = 11;

/// The status where no listener could be made.
const NO_LISTENER: u8 = 17;

/// What is written where help is asked for.
const HELP: &str = "Serves the functions com.example/greeter and com.example/total on 127.0.0.1

Usage: statefun serve <PORT>

Arguments:
  <PORT>  The port, from 1 to 65535

Options:
  -h, --help  Print help
";

/// Serves the demonstration functions on the port that the words name, for ever. Gives a status where it does not come to that.
pub(crate) fn serve_command<R>(rt: &R, alloc: Global, words: &[String]) -> Mem<u8>
where
    R: Net<Listener = TcpListener, Stream = TcpStream> + Print + Threads + Wait,
{
    match read_serve_words(alloc, words)? {
        ServeAsk::Port(port) => serve_port(rt, alloc, port),
        ServeAsk::Help => Ok(told(print!(rt; "{HELP}"), 0)),
        ServeAsk::Usage => Ok(told(print!(rt; "usage\n"), USAGE)),
    }
}

/// The status of an end whose line was written so.
fn told(written: io::Result<()>, status: u8) -> u8 {
    match written {
        Ok(()) => status,
        Err(_) => WRITE_FAULT,
    }
}

fn serve_port<R>(rt: &R, alloc: Global, port: u16) -> Mem<u8>
where
    R: Net<Listener = TcpListener, Stream = TcpStream> + Print + Threads + Wait,
{
    let mut entries = Vec::new(alloc);
    let greeter: OwnedFunction = Box::new(alloc, Greeter)?;
    entries.push((name(alloc, "greeter")?, greeter))?;
    let total: OwnedFunction = Box::new(alloc, Total)?;
    entries.push((name(alloc, "total")?, total))?;
    let table = FunctionTable::new(entries);
    let Ok(listener) = TcpListener::bind(rt, ("127.0.0.1", port)) else {
        return Ok(told(print!(rt; "no listener\n"), NO_LISTENER));
    };
    if print!(rt; "serving {port}\n").is_err() {
        return Ok(WRITE_FAULT);
    }
    serve(rt, alloc, &listener, &table);
    Ok(0)
}

fn name(alloc: Global, name: &str) -> Mem<TypeName> {
    Ok(TypeName {
        namespace: Text::copy_of(alloc, "com.example")?,
        name: Text::copy_of(alloc, name)?,
    })
}
