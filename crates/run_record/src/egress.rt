//! The text of egress records.
ghost use Rattle.std.specs.Prelude.{◌≡◌, ◌∷◌, ◌++◌, map, OnOk, OnErr};
ghost use Rattle.typed_values.specs.Escape.{StartsAs, escaped, value_text};
ghost use Rattle.run_record.specs.Egress.{egress_line, egress_text};
ghost use Rattle.invocation.specs.Effects.{argument_of, egress_record};

use proto_wire::{Bytes, Mem};
use request_reply::EgressMessage;
use typed_values::{
    Address, EgressRecord, TypedValue, put_address_text, put_escaped, put_name_parts,
    put_name_text, put_value_text,
};

/// Adds the line of an egress record: its sender, egress, typename and value, as words with one blank between them,
/// and a line feed. An `Err` leaves what stood there with a part of the line behind it.
pub fn put_egress_line(into: &mut Bytes, record: &EgressRecord) -> Mem<()>
    ensures ok { OnOk result (into.new ≡ into.old ++ egress_line «record».now) }
    ensures err { OnErr result (StartsAs into.old into.new) }
{
    put_address_text(into, &record.sender)?;
    into.push(b' ')?;
    put_name_text(into, &record.egress)?;
    into.push(b' ')?;
    put_escaped(into, record.argument.typename.as_bytes())?;
    into.push(b' ')?;
    put_value_text(into, &record.argument)?;
    into.push(b'\n')?;
    Ok(())
}

/// Adds the lines of egress records, in order. An `Err` leaves what stood there with a part of them behind it.
#[tactic(auto, unfolding(crate::specs::Egress::egress_text))]
pub fn put_egress_text(into: &mut Bytes, records: &[EgressRecord]) -> Mem<()>
    ensures ok { OnOk result (into.new ≡ into.old ++ egress_text records.now) }
    ensures err { OnErr result (StartsAs into.old into.new) }
{
    for record in records {
        put_egress_line(into, record)?;
    }
    Ok(())
}

/// Adds the lines of what an answer gave to the egresses: those of its records, in order. An `Err` leaves what stood
/// there with a part of them behind it.
#[tactic(auto, unfolding(crate::specs::Egress::egress_text))]
pub fn put_answer_text(into: &mut Bytes, sender: &Address, messages: &[EgressMessage]) -> Mem<()>
    ensures ok { OnOk result (into.new ≡ into.old ++ egress_text (map (egress_record sender.now) messages.now)) }
    ensures err { OnErr result (StartsAs into.old into.new) }
{
    for message in messages {
        put_message_line(into, sender, message)?;
    }
    Ok(())
}

/// Adds the line of one egress message of an answer.
fn put_message_line(into: &mut Bytes, sender: &Address, message: &EgressMessage) -> Mem<()>
    ensures ok { OnOk result (into.new ≡ into.old ++ egress_line (egress_record sender.now message.now)) }
    ensures err { OnErr result (StartsAs into.old into.new) }
{
    put_address_text(into, sender)?;
    into.push(b' ')?;
    put_name_parts(into, &message.egress_namespace, &message.egress_type)?;
    into.push(b' ')?;
    put_argument(into, &message.argument)?;
    into.push(b'\n')?;
    Ok(())
}

/// Adds an argument: its typename, a blank, and its value.
fn put_argument(into: &mut Bytes, argument: &Option<TypedValue>) -> Mem<()>
    ensures ok { OnOk result (into.new ≡ into.old ++ escaped (argument_of argument.now).typename ++ 32 ∷ value_text (argument_of argument.now)) }
    ensures err { OnErr result (StartsAs into.old into.new) }
{
    match argument {
        None => {
            into.append(b" none")?;
        }
        Some(argument) => {
            put_escaped(into, argument.typename.as_bytes())?;
            into.push(b' ')?;
            put_value_text(into, argument)?;
        }
    }
    Ok(())
}
