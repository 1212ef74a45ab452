//! Connections that are served.
ghost use Rattle.std.specs.Prelude.{◌≡◌, ◌≤◌, ◌<◌, IfOk, IfErr};
ghost use Rattle.endpoint_http.specs.Answers.{ReadCause};
ghost use Rattle.endpoint_http.specs.declared.fault.HttpFault.TheVariants.{OutOfMemory as WantsMemory};
ghost use Rattle.function_server.specs.Answering.{bytes_for};
ghost use Rattle.function_server.specs.Serving.{bare, reply_with, IsReply, IsServed, HasEnded, SinkCause, IsRefusal, NoReply};

use crate::table::Services;
use crate::{FunctionTable, ServeFault, answer_request};
use endpoint_http::{HttpFault, read_request, write_response};
use proto_wire::Bytes;
use sf_outside::{Sink, Source};
use std::alloc::Global;

/// The most bytes of a request's body.
const LIMIT: u64 = 8_388_608;

/// What is written to a request: a status and a body.
#[derive(Drop)]
pub struct Reply {
    pub status: u16,
    pub body: Bytes,
}

/// Serves one request of a connection, and answers the status of the response that was written: 200 with the answer of the
/// table; 400 where the request is no message or spells no request; 404 where its target is not served; 405 where its method is
/// not `POST`; 413 where its body is longer than 8,388,608 bytes; 415 where its body is in a content coding (RFC 9110 section
/// 15). The response closes the connection (RFC 9112 section 9.6).
///
/// `ReadFault` only where the source's count of faults rose: then nothing is written. `WriteFault` only where the sink's rose:
/// then a part of the response is written, from the front. No other fault comes but `OutOfMemory`.
pub fn serve_connection<S: Source, O: Sink>(
    alloc: Global,
    table: &FunctionTable,
    source: &mut S,
    sink: &mut O,
) -> Result<u16, HttpFault>
    ensures served { IfOk result (IsServed (⟦<FunctionTable as Services>⟧.services table.now) (S.left source.old) (O.written sink.old) (O.written sink.new)) }
    ensures ended { IfErr result (HasEnded (⟦<FunctionTable as Services>⟧.services table.now) (S.left source.old) (O.written sink.old) (O.written sink.new)) }
    ensures read_cause { ReadCause (S.faults source.old) (S.faults source.new) result }
    ensures write_cause { SinkCause (O.faults sink.old) (O.faults sink.new) result }
{
    let reply = reply_from(alloc, table, source)?;
    write_response(alloc, sink, reply.status, reply.body.as_slice())?;
    Ok(reply.status)
}

/// The reply to the request that stands in a source.
fn reply_from<S: Source>(
    alloc: Global,
    table: &FunctionTable,
    source: &mut S,
) -> Result<Reply, HttpFault>
    ensures reply { IfOk result (IsReply (⟦<FunctionTable as Services>⟧.services table.now) (S.left source.old)) }
    ensures digits { IfOk result (λ reply. (100 ≤ reply.status) × (reply.status < 1000)) }
    ensures fault { IfErr result NoReply }
    ensures cause { ReadCause (S.faults source.old) (S.faults source.new) result }
{
    match read_request(alloc, source, LIMIT) {
        Ok(body) => reply_with(alloc, table, body.as_slice()),
        Err(fault) => reply_without(alloc, fault),
    }
}

/// The reply to a request with a body.
fn reply_with(alloc: Global, table: &FunctionTable, body: &[u8]) -> Result<Reply, HttpFault>
    ensures reply { IfOk result (λ reply. reply ≡ reply_with (bytes_for (⟦<FunctionTable as Services>⟧.services table.now) body.now)) }
    ensures digits { IfOk result (λ reply. (100 ≤ reply.status) × (reply.status < 1000)) }
    ensures fault { IfErr result (λ fault. fault ≡ WantsMemory) }
{
    match answer_request(alloc, table, body) {
        Ok(answer) => Ok(Reply {
            status: 200,
            body: answer,
        }),
        Err(ServeFault::Wire(_)) => Ok(bare(alloc, 400)),
        Err(ServeFault::NotServed) => Ok(bare(alloc, 404)),
        Err(ServeFault::OutOfMemory) => Err(HttpFault::OutOfMemory),
    }
}

/// The reply to a request that has no body, where there is one. A request has no status, and its reader writes nothing: these
/// two are among the bad requests.
fn reply_without(alloc: Global, fault: HttpFault) -> Result<Reply, HttpFault>
    ensures reply { IsRefusal fault result }
    ensures digits { IfOk result (λ reply. (100 ≤ reply.status) × (reply.status < 1000)) }
{
    match fault {
        HttpFault::Head => Ok(bare(alloc, 400)),
        HttpFault::Status(_) => Ok(bare(alloc, 400)),
        HttpFault::Compressed => Ok(bare(alloc, 415)),
        HttpFault::Chunk => Ok(bare(alloc, 400)),
        HttpFault::OverLimit => Ok(bare(alloc, 413)),
        HttpFault::Cut => Ok(bare(alloc, 400)),
        HttpFault::ReadFault => Err(HttpFault::ReadFault),
        HttpFault::WriteFault => Ok(bare(alloc, 400)),
        HttpFault::Method => Ok(bare(alloc, 405)),
        HttpFault::OutOfMemory => Err(HttpFault::OutOfMemory),
    }
}

/// A reply that says only that there is no answer.
fn bare(alloc: Global, status: u16) -> Reply
    ensures { result ≡ bare status }
{
    Reply {
        status,
        body: Bytes::new(alloc),
    }
}
