//! An answer, decoded and encoded again.
use crate::failure::Failure;
use crate::parts::{address, value};
use crate::tally::Tally;
use proto_wire::{List, Mem};
use request_reply::{
    FromFunction, InvocationResponse, OutgoingInvocation, decode_from, encode_from,
};
use std::alloc::Global;

/// Makes an answer with so many messages for functions, and decodes and encodes it in each round.
pub(crate) fn work(alloc: Global, count: u32, rounds: u32) -> Result<Tally, Failure> {
    let answer = answer(alloc, count)?;
    let spelled = encode_from(alloc, &answer)?;
    let mut same = true;
    for _ in 0..rounds {
        let kept = again(alloc, spelled.as_slice())?;
        same = same && kept;
    }
    Ok(Tally {
        bytes: spelled.len(),
        same,
    })
}

fn answer(alloc: Global, count: u32) -> Mem<FromFunction> {
    Ok(FromFunction::Result(InvocationResponse {
        state_mutations: List::new(alloc),
        outgoing_messages: outgoing(alloc, count)?,
        delayed_invocations: List::new(alloc),
        outgoing_egresses: List::new(alloc),
    }))
}

fn outgoing(alloc: Global, count: u32) -> Mem<List<OutgoingInvocation>> {
    let mut outgoing = List::new(alloc);
    for number in 0..count {
        outgoing.push(message(alloc, number)?)?;
    }
    Ok(outgoing)
}

fn message(alloc: Global, number: u32) -> Mem<OutgoingInvocation> {
    Ok(OutgoingInvocation {
        target: Some(address(alloc, "greeter", number)?),
        argument: Some(value(alloc)?),
    })
}

/// Decodes and encodes an answer. Whether it has its bytes again.
fn again(alloc: Global, bytes: &[u8]) -> Result<bool, Failure> {
    let answer = decode_from(alloc, bytes)?;
    let again = encode_from(alloc, &answer)?;
    Ok(again.as_slice() == bytes)
}
