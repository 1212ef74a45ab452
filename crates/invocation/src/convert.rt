//! A valid result, as what it does. Its parts are moved.
ghost use Rattle.std.specs.Prelude.{◌≡◌, ◌++◌, map, IfOk, OnOk};
ghost use Rattle.std.specs.List.{flat_map};
ghost use Rattle.request_reply.specs.Flaws.{natural};
ghost use Rattle.invocation.specs.Effects.{argument_of, change_of, letters_to, letters_from, later, delays_of, egress_record, effects_of};

use crate::{Change, DelayChange, Effects};
use proto_wire::{Bytes, List, Mem, Text, TryClone};
use request_reply::{
    DelayedInvocation, EgressMessage, InvocationResponse, OutgoingInvocation,
    PersistedValueMutation,
};
use std::alloc::Global;
use typed_values::{Address, Delay, EgressRecord, Letter, Sender, TypeName, TypedValue};

/// The argument, or the value that stands for an absent one. Takes no memory.
fn argument_of(alloc: Global, argument: Option<TypedValue>) -> TypedValue
    ensures { result ≡ argument_of argument }
{
    match argument {
        Some(argument) => argument,
        None => TypedValue {
            typename: Text::new(alloc),
            has_value: false,
            value: Bytes::new(alloc),
        },
    }
}

/// What a mutation does.
fn change_of(mutation: PersistedValueMutation) -> Change
    ensures { result ≡ change_of mutation }
{
    let name = mutation.state_name;
    if mutation.mutation_type <= 0 {
        return Change::Clear { name };
    }
    match mutation.state_value {
        Some(value) => {
            if value.has_value {
                Change::Set { name, value }
            } else {
                Change::Clear { name }
            }
        }
        None => Change::Clear { name },
    }
}

fn changes_of(alloc: Global, mutations: List<PersistedValueMutation>) -> Mem<List<Change>>
    ensures { IfOk result (λ changes. changes ≡ map change_of mutations) }
{
    let mut changes = List::new(alloc);
    for mutation in mutations.into_vec() {
        changes.push(change_of(mutation))?;
    }
    Ok(changes)
}

fn letters_from(
    alloc: Global,
    address: &Address,
    messages: List<OutgoingInvocation>,
) -> Mem<List<Letter>>
    ensures { IfOk result (λ letters. letters ≡ letters_from address.now messages) }
{
    let mut letters = List::new(alloc);
    for message in messages.into_vec() {
        add_letter(alloc, &mut letters, address, message)?;
    }
    Ok(letters)
}

/// Adds a message as a letter.
fn add_letter(
    alloc: Global,
    letters: &mut List<Letter>,
    address: &Address,
    message: OutgoingInvocation,
) -> Mem<()>
    ensures { OnOk result (letters.new ≡ letters.old ++ letters_to address.now message.target (argument_of message.argument)) }
{
    let OutgoingInvocation { target, argument } = message;
    match target {
        Some(target) => letters.push(Letter {
            sender: Sender::Function(address.try_clone(alloc)?),
            target,
            argument: argument_of(alloc, argument),
        }),
        None => Ok(()),
    }
}

/// The moment so much later, or the last one. A number below 0 counts as 0.
fn later(moment: u64, millis: i64) -> u64
    ensures { result ≡ later moment (natural millis) }
{
    if millis < 0 {
        moment
    } else {
        moment.saturating_add(millis as u64)
    }
}

/// Adds what a delayed invocation does.
fn add_delay(
    alloc: Global,
    changes: &mut List<DelayChange>,
    address: &Address,
    moment: u64,
    delayed: DelayedInvocation,
) -> Mem<()>
    ensures { OnOk result (changes.new ≡ changes.old ++ delays_of address.now moment delayed) }
{
    let DelayedInvocation {
        delay_in_ms,
        target,
        argument,
        is_cancellation_request,
        cancellation_token: token,
    } = delayed;
    if is_cancellation_request {
        return changes.push(DelayChange::Cancel(token));
    }
    match target {
        Some(target) => changes.push(DelayChange::Add(Delay {
            sender: address.try_clone(alloc)?,
            due: later(moment, delay_in_ms),
            target,
            token,
            argument: argument_of(alloc, argument),
        })),
        None => Ok(()),
    }
}

fn delays_from(
    alloc: Global,
    address: &Address,
    moment: u64,
    delayed: List<DelayedInvocation>,
) -> Mem<List<DelayChange>>
    ensures { IfOk result (λ changes. changes ≡ flat_map (delays_of address.now moment) delayed) }
{
    let mut changes = List::new(alloc);
    for one in delayed.into_vec() {
        add_delay(alloc, &mut changes, address, moment, one)?;
    }
    Ok(changes)
}

fn egress_record(alloc: Global, address: &Address, message: EgressMessage) -> Mem<EgressRecord>
    ensures { IfOk result (λ made. made ≡ egress_record address.now message) }
{
    Ok(EgressRecord {
        sender: address.try_clone(alloc)?,
        egress: TypeName {
            namespace: message.egress_namespace,
            name: message.egress_type,
        },
        argument: argument_of(alloc, message.argument),
    })
}

fn egress_from(
    alloc: Global,
    address: &Address,
    messages: List<EgressMessage>,
) -> Mem<List<EgressRecord>>
    ensures { IfOk result (λ records. records ≡ map (egress_record address.now) messages) }
{
    let mut records = List::new(alloc);
    for message in messages.into_vec() {
        records.push(egress_record(alloc, address, message)?)?;
    }
    Ok(records)
}

/// What a result of an address does.
#[tactic(auto, unfolding(crate::specs::Effects::effects_of))]
pub(crate) fn effects_of(
    alloc: Global,
    address: &Address,
    moment: u64,
    response: InvocationResponse,
) -> Mem<Effects>
    ensures { IfOk result (λ effects. effects ≡ effects_of address.now moment response) }
{
    Ok(Effects {
        mutations: changes_of(alloc, response.state_mutations)?,
        letters: letters_from(alloc, address, response.outgoing_messages)?,
        delays: delays_from(alloc, address, moment, response.delayed_invocations)?,
        egress: egress_from(alloc, address, response.outgoing_egresses)?,
    })
}
