//! A request, decoded and encoded again.
use crate::failure::Failure;
use crate::parts::{address, value};
use crate::tally::Tally;
use proto_wire::{List, Mem};
use request_reply::{BatchInvocation, InvocationBatchRequest, ToFunction, decode_to, encode_to};
use std::alloc::Global;

/// Makes a request with so many letters, and decodes and encodes it in each round.
pub(crate) fn work(alloc: Global, count: u32, rounds: u32) -> Result<Tally, Failure> {
    let request = request(alloc, count)?;
    let spelled = encode_to(alloc, &request)?;
    let mut same = true;
    for _ in 0..rounds {
        let kept = again(alloc, spelled.as_slice())?;
        same = same && kept;
    }
    Ok(Tally {
        bytes: spelled.len(),
        same,
    })
}

fn request(alloc: Global, count: u32) -> Mem<ToFunction> {
    Ok(ToFunction::Invocation(InvocationBatchRequest {
        target: Some(address(alloc, "greeter", 0)?),
        state: List::new(alloc),
        invocations: invocations(alloc, count)?,
    }))
}

fn invocations(alloc: Global, count: u32) -> Mem<List<BatchInvocation>> {
    let mut invocations = List::new(alloc);
    for number in 0..count {
        invocations.push(invocation(alloc, number)?)?;
    }
    Ok(invocations)
}

fn invocation(alloc: Global, number: u32) -> Mem<BatchInvocation> {
    Ok(BatchInvocation {
        caller: Some(address(alloc, "sender", number)?),
        argument: Some(value(alloc)?),
    })
}

/// Decodes and encodes a request. Whether it has its bytes again.
fn again(alloc: Global, bytes: &[u8]) -> Result<bool, Failure> {
    let request = decode_to(alloc, bytes)?;
    let again = encode_to(alloc, &request)?;
    Ok(again.as_slice() == bytes)
}
