//! The steps of the record: each address takes a letter and registers a cell, and from then on one address after the other takes
//! a letter, serves it, sends a delayed letter, and has the next address serve the two that it sent.
use crate::parts::{text_value, value};
use crate::records::{ADDRESSES, function};
use proto_wire::{Bytes, List, Mem, Text};
use request_reply::{
    DelayedInvocation, EgressMessage, FromFunction, IncompleteInvocationContext,
    InvocationResponse, OutgoingInvocation, PersistedValueMutation, PersistedValueSpec,
    encode_from,
};
use run_record::{Reply, Step};
use sf_outside::Call;
use std::alloc::Global;
use typed_values::Sender;

/// The entry of a number; its moment is its number.
pub(crate) fn step_at(alloc: Global, number: u32) -> Mem<Step> {
    let begun = ADDRESSES * 2;
    if number < begun {
        return first_step(alloc, number);
    }
    let later = number - begun;
    let place = later / 4;
    match later % 4 {
        0 => Ok(Step::Take(0)),
        1 => Ok(Step::Batch(served(alloc, number, place)?)),
        2 => Ok(Step::Due {
            address: function(alloc, place)?,
            moment: u64::from(number),
        }),
        _ => Ok(Step::Batch(passed_on(alloc, number, place)?)),
    }
}

/// A take, and behind it the registration of the same address.
fn first_step(alloc: Global, number: u32) -> Mem<Step> {
    if number % 2 == 0 {
        return Ok(Step::Take(0));
    }
    let picks = List::of(vec![in alloc; Sender::Split(0)]?);
    let spec = PersistedValueSpec {
        state_name: Text::copy_of(alloc, "count")?,
        expiration_spec: None,
        type_typename: Text::copy_of(alloc, "io.statefun.types/string")?,
    };
    let answer = encode_from(
        alloc,
        &FromFunction::Incomplete(IncompleteInvocationContext {
            missing_values: List::of(vec![in alloc; spec]?),
        }),
    )?;
    Ok(Step::Register(reply(alloc, number, number / 2, picks, answer)?))
}

/// The batch of one letter of the split.
fn served(alloc: Global, number: u32, place: u32) -> Mem<Reply> {
    let picks = List::of(vec![in alloc; Sender::Split(0)]?);
    let answer = encode_from(alloc, &FromFunction::Result(response(alloc, place)?))?;
    reply(alloc, number, place, picks, answer)
}

/// The batch of the two letters that an address sent to the next.
fn passed_on(alloc: Global, number: u32, place: u32) -> Mem<Reply> {
    let first = Sender::Function(function(alloc, place)?);
    let second = Sender::Function(function(alloc, place)?);
    let picks = List::of(vec![in alloc; first, second]?);
    let answer = encode_from(
        alloc,
        &FromFunction::Result(InvocationResponse {
            state_mutations: List::new(alloc),
            outgoing_messages: List::new(alloc),
            delayed_invocations: List::new(alloc),
            outgoing_egresses: List::new(alloc),
        }),
    )?;
    reply(alloc, number, place.wrapping_add(1), picks, answer)
}

/// An answer that writes the cell, sends a letter and a delayed one to the next address, and gives to the egress.
fn response(alloc: Global, place: u32) -> Mem<InvocationResponse> {
    let mutation = PersistedValueMutation {
        mutation_type: 1,
        state_name: Text::copy_of(alloc, "count")?,
        state_value: Some(value(alloc)?),
    };
    let message = OutgoingInvocation {
        target: Some(function(alloc, place.wrapping_add(1))?),
        argument: Some(text_value(alloc, "a letter")?),
    };
    let egress = EgressMessage {
        egress_namespace: Text::copy_of(alloc, "com.example")?,
        egress_type: Text::copy_of(alloc, "greetings")?,
        argument: Some(text_value(alloc, "a greeting")?),
    };
    Ok(InvocationResponse {
        state_mutations: List::of(vec![in alloc; mutation]?),
        outgoing_messages: List::of(vec![in alloc; message]?),
        delayed_invocations: List::of(vec![in alloc; delayed(alloc, place)?]?),
        outgoing_egresses: List::of(vec![in alloc; egress]?),
    })
}

/// A letter to the next address that is due at once.
fn delayed(alloc: Global, place: u32) -> Mem<DelayedInvocation> {
    Ok(DelayedInvocation {
        delay_in_ms: 0,
        target: Some(function(alloc, place.wrapping_add(1))?),
        argument: Some(text_value(alloc, "a reminder")?),
        is_cancellation_request: false,
        cancellation_token: Text::copy_of(alloc, "token")?,
    })
}

fn reply(alloc: Global, number: u32, place: u32, picks: List<Sender>, answer: Bytes) -> Mem<Reply> {
    Ok(Reply {
        call: Call {
            leg: 1,
            partition: 0,
            turn: number,
        },
        address: function(alloc, place)?,
        moment: u64::from(number),
        picks,
        answer,
    })
}
