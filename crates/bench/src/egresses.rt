//! An answer with many egress messages, decoded, or judged by a job of 256 endpoints and 256 egresses.
use crate::failure::Failure;
use crate::parts::text_value;
use crate::tally::Tally;
use address_routing::Routes;
use invocation::Job;
use module_yaml::{ModuleFault, read_module};
use proto_wire::{Bytes, List, Mem, Text};
use request_reply::{
    EgressMessage, FromFunction, InvocationResponse, Judgement, decode_from, encode_from, judge,
};
use state_cells::Cells;
use std::alloc::{AllocError, Global};

/// How many endpoints and egresses the job has.
const NAMES: u32 = 256;

/// Makes an answer with so many egress messages, and decodes it in each round.
pub(crate) fn decode(alloc: Global, count: u32, rounds: u32) -> Result<Tally, Failure> {
    let spelled = answer(alloc, count)?;
    let mut same = true;
    for _ in 0..rounds {
        let whole = is_decoded(alloc, spelled.as_slice(), count)?;
        same = same && whole;
    }
    Ok(Tally {
        bytes: spelled.len(),
        same,
    })
}

/// Makes the same answer and a job, and judges the answer in each round.
pub(crate) fn judge_all(alloc: Global, count: u32, rounds: u32) -> Result<Tally, Failure> {
    let spelled = answer(alloc, count)?;
    let routes = routes(alloc)?;
    let cells = Cells::new(alloc)?;
    let job = Job {
        routes: &routes,
        cells: &cells,
    };
    let mut same = true;
    for _ in 0..rounds {
        let whole = is_accepted(alloc, spelled.as_slice(), &job, count)?;
        same = same && whole;
    }
    Ok(Tally {
        bytes: spelled.len(),
        same,
    })
}

/// Whether the bytes decode to a result with so many egress messages.
fn is_decoded(alloc: Global, bytes: &[u8], count: u32) -> Result<bool, Failure> {
    match decode_from(alloc, bytes)? {
        FromFunction::Result(response) => Ok(response.outgoing_egresses.len() == count as usize),
        FromFunction::Incomplete(_context) => Ok(false),
    }
}

/// Whether the bytes are accepted, with so many egress messages.
fn is_accepted(alloc: Global, bytes: &[u8], job: &Job, count: u32) -> Mem<bool> {
    match judge(alloc, bytes, job)? {
        Judgement::Accept(response) => Ok(response.outgoing_egresses.len() == count as usize),
        Judgement::Register(_specs) => Ok(false),
        Judgement::Flaw(_flaw) => Ok(false),
    }
}

/// The bytes of an answer with egress messages for all the job's egresses, one after the other.
fn answer(alloc: Global, count: u32) -> Mem<Bytes> {
    let mut egresses = List::new(alloc);
    for number in 0..count {
        egresses.push(message(alloc, number % NAMES)?)?;
    }
    encode_from(
        alloc,
        &FromFunction::Result(InvocationResponse {
            state_mutations: List::new(alloc),
            outgoing_messages: List::new(alloc),
            delayed_invocations: List::new(alloc),
            outgoing_egresses: egresses,
        }),
    )
}

fn message(alloc: Global, number: u32) -> Mem<EgressMessage> {
    Ok(EgressMessage {
        egress_namespace: Text::copy_of(alloc, "com.example")?,
        egress_type: Text::copy_of(alloc, format!(in alloc; "e{number}")?.as_str())?,
        argument: Some(text_value(alloc, "1")?),
    })
}

/// The routes of the job.
fn routes(alloc: Global) -> Result<Routes, Failure> {
    match read_module(alloc, file(alloc)?.as_bytes()) {
        Ok(job) => Ok(Routes::new(alloc, job)?),
        Err(ModuleFault::Refused { .. }) => Err(Failure::Fault),
        Err(ModuleFault::OutOfMemory) => Err(Failure::OutOfMemory),
    }
}

/// The job's module file.
fn file(alloc: Global) -> Result<String, AllocError> {
    let mut text = String::new(alloc);
    for number in 0..NAMES {
        text.push_str(endpoint(alloc, number)?.as_str())?;
        text.push_str(egress(alloc, number)?.as_str())?;
    }
    text.push_str("kind: local.log.v1/ingress\nspec:\n  id: com.example/in\n")?;
    text.push_str("  valueType: io.statefun.types/string\n  targets:\n  - com.example/f0\n")?;
    Ok(text)
}

fn endpoint(alloc: Global, number: u32) -> Result<String, AllocError> {
    format!(in alloc;
        "kind: io.statefun.endpoints.v2/http\nspec:\n  functions: com.example/f{number}\n  urlPathTemplate: http://localhost/f\n---\n"
    )
}

fn egress(alloc: Global, number: u32) -> Result<String, AllocError> {
    format!(in alloc; "kind: local.log.v1/egress\nspec:\n  id: com.example/e{number}\n---\n")
}
