//! The lines of answers.
ghost use Rattle.std.specs.Prelude.{◌≡◌, ◌++◌, OnOk, OnErr};
ghost use Rattle.typed_values.specs.Escape.{StartsAs};
ghost use Rattle.message_text.specs.Lines.{mutation_line, message_line, cancel_line, delayed_call_part, delay_line, delayed_line, egress_message_line, missing_line, mutation_lines, message_lines, delayed_lines, egress_lines, missing_lines, result_lines, answer_lines};

use crate::parts::{put_expiry, put_optional_address, put_signed, put_token, put_value};
use proto_wire::{Bytes, Mem};
use request_reply::{
    DelayedInvocation, EgressMessage, FromFunction, InvocationResponse, OutgoingInvocation,
    PersistedValueMutation, PersistedValueSpec,
};
use typed_values::{put_escaped, put_name_parts};

/// Adds the lines of an answer: what a served batch does, or which values are missing. An `Err` leaves what stood there
/// with a part of the lines behind it.
#[tactic(auto, unfolding(crate::specs::Lines::answer_lines))]
pub fn put_answer_lines(into: &mut Bytes, answer: &FromFunction) -> Mem<()>
    ensures ok { OnOk result (into.new ≡ into.old ++ answer_lines answer.now) }
    ensures err { OnErr result (StartsAs into.old into.new) }
{
    match answer {
        FromFunction::Result(response) => {
            put_result(into, response)?;
        }
        FromFunction::Incomplete(context) => {
            into.append(b"incomplete\n")?;
            put_missing_values(into, context.missing_values.as_slice())?;
        }
    }
    Ok(())
}

fn put_result(into: &mut Bytes, response: &InvocationResponse) -> Mem<()>
    ensures ok { OnOk result (into.new ≡ into.old ++ result_lines response.now) }
    ensures err { OnErr result (StartsAs into.old into.new) }
{
    into.append(b"result\n")?;
    put_mutations(into, response.state_mutations.as_slice())?;
    put_messages(into, response.outgoing_messages.as_slice())?;
    put_delayed_messages(into, response.delayed_invocations.as_slice())?;
    put_egresses(into, response.outgoing_egresses.as_slice())?;
    Ok(())
}

fn put_mutations(into: &mut Bytes, mutations: &[PersistedValueMutation]) -> Mem<()>
    ensures ok { OnOk result (into.new ≡ into.old ++ mutation_lines mutations.now) }
    ensures err { OnErr result (StartsAs into.old into.new) }
{
    for mutation in mutations {
        put_mutation(into, mutation)?;
    }
    Ok(())
}

fn put_mutation(into: &mut Bytes, mutation: &PersistedValueMutation) -> Mem<()>
    ensures ok { OnOk result (into.new ≡ into.old ++ mutation_line mutation.now) }
    ensures err { OnErr result (StartsAs into.old into.new) }
{
    into.append(b"mutation ")?;
    put_signed(into, i64::from(mutation.mutation_type))?;
    into.push(b' ')?;
    put_escaped(into, mutation.state_name.as_bytes())?;
    into.push(b' ')?;
    put_value(into, &mutation.state_value)?;
    into.push(b'\n')?;
    Ok(())
}

fn put_messages(into: &mut Bytes, messages: &[OutgoingInvocation]) -> Mem<()>
    ensures ok { OnOk result (into.new ≡ into.old ++ message_lines messages.now) }
    ensures err { OnErr result (StartsAs into.old into.new) }
{
    for message in messages {
        put_message(into, message)?;
    }
    Ok(())
}

fn put_message(into: &mut Bytes, message: &OutgoingInvocation) -> Mem<()>
    ensures ok { OnOk result (into.new ≡ into.old ++ message_line message.now) }
    ensures err { OnErr result (StartsAs into.old into.new) }
{
    into.append(b"message ")?;
    put_optional_address(into, &message.target)?;
    into.push(b' ')?;
    put_value(into, &message.argument)?;
    into.push(b'\n')?;
    Ok(())
}

fn put_delayed_messages(into: &mut Bytes, messages: &[DelayedInvocation]) -> Mem<()>
    ensures ok { OnOk result (into.new ≡ into.old ++ delayed_lines messages.now) }
    ensures err { OnErr result (StartsAs into.old into.new) }
{
    for message in messages {
        put_delayed_message(into, message)?;
    }
    Ok(())
}

fn put_delayed_message(into: &mut Bytes, message: &DelayedInvocation) -> Mem<()>
    ensures ok { OnOk result (into.new ≡ into.old ++ delayed_line message.now) }
    ensures err { OnErr result (StartsAs into.old into.new) }
{
    if message.is_cancellation_request {
        put_cancel(into, message)
    } else {
        put_delay(into, message)
    }
}

fn put_cancel(into: &mut Bytes, message: &DelayedInvocation) -> Mem<()>
    ensures ok { OnOk result (into.new ≡ into.old ++ cancel_line message.now) }
    ensures err { OnErr result (StartsAs into.old into.new) }
{
    into.append(b"cancel ")?;
    put_token(into, &message.cancellation_token)?;
    into.push(b'\n')?;
    Ok(())
}

fn put_delay(into: &mut Bytes, message: &DelayedInvocation) -> Mem<()>
    ensures ok { OnOk result (into.new ≡ into.old ++ delay_line message.now) }
    ensures err { OnErr result (StartsAs into.old into.new) }
{
    into.append(b"delay ")?;
    put_signed(into, message.delay_in_ms)?;
    into.push(b' ')?;
    put_delayed_call(into, message)?;
    into.push(b'\n')?;
    Ok(())
}

/// Adds what is sent later: its target, its token and its value.
fn put_delayed_call(into: &mut Bytes, message: &DelayedInvocation) -> Mem<()>
    ensures ok { OnOk result (into.new ≡ into.old ++ delayed_call_part message.now) }
    ensures err { OnErr result (StartsAs into.old into.new) }
{
    put_optional_address(into, &message.target)?;
    into.push(b' ')?;
    put_token(into, &message.cancellation_token)?;
    into.push(b' ')?;
    put_value(into, &message.argument)?;
    Ok(())
}

fn put_egresses(into: &mut Bytes, messages: &[EgressMessage]) -> Mem<()>
    ensures ok { OnOk result (into.new ≡ into.old ++ egress_lines messages.now) }
    ensures err { OnErr result (StartsAs into.old into.new) }
{
    for message in messages {
        put_egress(into, message)?;
    }
    Ok(())
}

fn put_egress(into: &mut Bytes, message: &EgressMessage) -> Mem<()>
    ensures ok { OnOk result (into.new ≡ into.old ++ egress_message_line message.now) }
    ensures err { OnErr result (StartsAs into.old into.new) }
{
    into.append(b"egress ")?;
    put_name_parts(into, &message.egress_namespace, &message.egress_type)?;
    into.push(b' ')?;
    put_value(into, &message.argument)?;
    into.push(b'\n')?;
    Ok(())
}

fn put_missing_values(into: &mut Bytes, values: &[PersistedValueSpec]) -> Mem<()>
    ensures ok { OnOk result (into.new ≡ into.old ++ missing_lines values.now) }
    ensures err { OnErr result (StartsAs into.old into.new) }
{
    for value in values {
        put_missing_value(into, value)?;
    }
    Ok(())
}

fn put_missing_value(into: &mut Bytes, value: &PersistedValueSpec) -> Mem<()>
    ensures ok { OnOk result (into.new ≡ into.old ++ missing_line value.now) }
    ensures err { OnErr result (StartsAs into.old into.new) }
{
    into.append(b"missing ")?;
    put_escaped(into, value.state_name.as_bytes())?;
    into.push(b' ')?;
    put_escaped(into, value.type_typename.as_bytes())?;
    into.push(b' ')?;
    put_expiry(into, &value.expiration_spec)?;
    into.push(b'\n')?;
    Ok(())
}
