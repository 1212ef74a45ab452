//! One exchange with an endpoint.
use crate::Connect;
use address_routing::{HttpTarget, UrlFault, split_url};
use endpoint_http::{HttpFault, read_response, write_request};
use proto_wire::{Bytes, Text};
use sf_outside::{Answered, Call, ReaderSource, WriterSink};
use std::alloc::Global;
use std::io;

/// The most bytes of an answer.
const LIMIT: u64 = 4_194_304;

/// The note of a call whose endpoint could not be connected to.
const NOT_CONNECTED: u32 = 20;

/// The note of a call whose URL names no target.
const BAD_URL: u32 = 21;

/// A call that was started and is not made yet.
#[derive(Drop)]
pub struct Started {
    pub(crate) call: Call,
    pub(crate) url: Text,
    pub(crate) request: Bytes,
}

/// What became of a call; nothing where memory ran out.
#[derive(Drop)]
pub struct Made {
    pub(crate) call: Call,
    pub(crate) what: Option<Answered>,
}

/// Why a call has no answer.
#[derive(Clone, Copy, Debug)]
enum Failed {
    /// It is lost, with this note.
    Lost(u32),
    OutOfMemory,
}

impl From<UrlFault> for Failed {
    fn from(fault: UrlFault) -> Failed {
        match fault {
            UrlFault::BadUrl => Failed::Lost(BAD_URL),
            UrlFault::OutOfMemory => Failed::OutOfMemory,
        }
    }
}

impl From<io::Error> for Failed {
    fn from(_: io::Error) -> Failed {
        Failed::Lost(NOT_CONNECTED)
    }
}

impl From<HttpFault> for Failed {
    fn from(fault: HttpFault) -> Failed {
        match fault {
            HttpFault::OutOfMemory => Failed::OutOfMemory,
            other => Failed::Lost(other.number()),
        }
    }
}

/// Makes a call: connects to its endpoint, writes the request and reads the answer. A call without an answer is lost, with the
/// number of the HTTP fault as its note, 20 where no connection came about, and 21 where its URL is refused.
pub(crate) fn make<R: Connect>(net: &R, alloc: Global, started: Started) -> Made {
    let what = match answer(net, alloc, &started) {
        Ok(answer) => Some(Answered::Answer(answer)),
        Err(Failed::Lost(note)) => Some(Answered::Lost(note)),
        Err(Failed::OutOfMemory) => None,
    };
    Made {
        call: started.call,
        what,
    }
}

fn answer<R: Connect>(net: &R, alloc: Global, started: &Started) -> Result<Bytes, Failed> {
    let target = split_url(alloc, &started.url)?;
    let stream = net.connect(host_of(&target), target.port)?;
    let mut sink = WriterSink::new(&stream);
    write_request(alloc, &mut sink, &target, started.request.as_slice())?;
    let mut source = ReaderSource::new(&stream);
    Ok(read_response(alloc, &mut source, LIMIT)?)
}

/// The host of a target; an IPv6 address stands in brackets there, and without them here.
fn host_of(target: &HttpTarget) -> &str {
    let host = target.host.as_str();
    match host.strip_prefix('[') {
        Some(rest) => rest.strip_suffix(']').unwrap_or(host),
        None => host,
    }
}
