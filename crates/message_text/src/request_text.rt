//! The lines of requests.
ghost use Rattle.std.specs.Prelude.{◌≡◌, ◌++◌, OnOk, OnErr};
ghost use Rattle.typed_values.specs.Escape.{StartsAs};
ghost use Rattle.message_text.specs.Lines.{target_line, state_line, letter_line, state_lines, letter_lines, batch_lines, request_lines};

use crate::parts::{put_optional_address, put_value};
use proto_wire::{Bytes, Mem};
use request_reply::{BatchInvocation, InvocationBatchRequest, PersistedValue, ToFunction};
use typed_values::{Address, put_escaped};

/// Adds the lines of a request: its target, its states and its letters. An `Err` leaves what stood there with a part of
/// the lines behind it.
#[tactic(auto, unfolding(crate::specs::Lines::request_lines))]
pub fn put_request_lines(into: &mut Bytes, request: &ToFunction) -> Mem<()>
    ensures ok { OnOk result (into.new ≡ into.old ++ request_lines request.now) }
    ensures err { OnErr result (StartsAs into.old into.new) }
{
    match request {
        ToFunction::Invocation(batch) => put_batch(into, batch),
    }
}

fn put_batch(into: &mut Bytes, batch: &InvocationBatchRequest) -> Mem<()>
    ensures ok { OnOk result (into.new ≡ into.old ++ batch_lines batch.now) }
    ensures err { OnErr result (StartsAs into.old into.new) }
{
    put_target(into, &batch.target)?;
    put_states(into, batch.state.as_slice())?;
    put_letters(into, batch.invocations.as_slice())?;
    Ok(())
}

fn put_target(into: &mut Bytes, target: &Option<Address>) -> Mem<()>
    ensures ok { OnOk result (into.new ≡ into.old ++ target_line target.now) }
    ensures err { OnErr result (StartsAs into.old into.new) }
{
    into.append(b"invocation ")?;
    put_optional_address(into, target)?;
    into.push(b'\n')?;
    Ok(())
}

fn put_states(into: &mut Bytes, states: &[PersistedValue]) -> Mem<()>
    ensures ok { OnOk result (into.new ≡ into.old ++ state_lines states.now) }
    ensures err { OnErr result (StartsAs into.old into.new) }
{
    for state in states {
        put_state(into, state)?;
    }
    Ok(())
}

fn put_state(into: &mut Bytes, state: &PersistedValue) -> Mem<()>
    ensures ok { OnOk result (into.new ≡ into.old ++ state_line state.now) }
    ensures err { OnErr result (StartsAs into.old into.new) }
{
    into.append(b"state ")?;
    put_escaped(into, state.state_name.as_bytes())?;
    into.push(b' ')?;
    put_value(into, &state.state_value)?;
    into.push(b'\n')?;
    Ok(())
}

fn put_letters(into: &mut Bytes, letters: &[BatchInvocation]) -> Mem<()>
    ensures ok { OnOk result (into.new ≡ into.old ++ letter_lines letters.now) }
    ensures err { OnErr result (StartsAs into.old into.new) }
{
    for letter in letters {
        put_letter(into, letter)?;
    }
    Ok(())
}

fn put_letter(into: &mut Bytes, letter: &BatchInvocation) -> Mem<()>
    ensures ok { OnOk result (into.new ≡ into.old ++ letter_line letter.now) }
    ensures err { OnErr result (StartsAs into.old into.new) }
{
    into.append(b"letter ")?;
    put_optional_address(into, &letter.caller)?;
    into.push(b' ')?;
    put_value(into, &letter.argument)?;
    into.push(b'\n')?;
    Ok(())
}
