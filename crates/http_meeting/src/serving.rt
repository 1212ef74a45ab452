//! The functions, and one connection to them.
use function_server::{FunctionTable, serve_connection};
use proto_wire::{Mem, Text};
use sf_outside::{ReaderSource, WriterSink};
use std::alloc::Global;
use std::net::TcpListener;
use typed_values::TypeName;

/// Serves the next connection, and gives the status of its response; 0 where there is none.
pub(crate) fn serve_one(alloc: Global, table: &FunctionTable, listener: &TcpListener) -> u16 {
    let Ok((stream, _)) = listener.accept() else {
        return 0;
    };
    let mut source = ReaderSource::new(&stream);
    let mut sink = WriterSink::new(&stream);
    serve_connection(alloc, table, &mut source, &mut sink).unwrap_or(0)
}

/// The greeter's name.
pub(crate) fn greeter_name(alloc: Global) -> Mem<TypeName> {
    Ok(TypeName {
        namespace: Text::copy_of(alloc, "com.example")?,
        name: Text::copy_of(alloc, "greeter")?,
    })
}
