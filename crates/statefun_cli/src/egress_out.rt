//! The egress text of a record, made from its answers.
ghost use Rattle.std.specs.Prelude.{◌≡◌, ◌++◌, ℕ, List, OnOk, OnErr};
ghost use Rattle.sf_outside.specs.Told.{HasCause, more};
ghost use Rattle.run_record.specs.Egress.{egress_of, egress_text, records_of_reply};
ghost use Rattle.statefun_cli.specs.Egress.{entry_text};
ghost use Rattle.statefun_cli.specs.Running.{IsPart};

use crate::output::write_whole;
use proto_wire::{Bytes, DecodeFault, Mem, OutOfMemory};
use request_reply::{FromFunction, decode_from};
use run_record::{Entry, Reply, Step, put_answer_text};
use sf_outside::{Fault, Sink};
use std::alloc::Global;

/// How many bytes are gathered before they are written.
const PIECE: usize = 1 << 16;

/// Writes the egress lines of a record, entry by entry. An `Err` leaves a part of them written, from the front.
pub(crate) fn write_egress<O: Sink>(
    alloc: Global,
    out: &mut O,
    entries: &[Entry],
) -> Result<(), Fault>
    ensures whole { OnOk result (O.written out.new ≡ more (O.written out.old) (egress_text (egress_of entries.now))) }
    ensures part { OnErr result (IsPart (O.written out.old) (O.written out.new) (egress_text (egress_of entries.now))) }
    ensures cause { HasCause (O.faults out.old) (O.faults out.new) result }
{
    let mut text = Bytes::new(alloc);
    for entry in entries {
        put_entry_text(alloc, &mut text, entry)?;
        pass_on(out, &mut text)?;
    }
    write_whole(out, text.as_slice())
}

/// Writes a text that has grown long, and empties it. An `Err` leaves a part of it written, from the front.
fn pass_on<O: Sink>(out: &mut O, text: &mut Bytes) -> Result<(), Fault>
    ensures whole { OnOk result ((front : List ℕ) × (O.written out.new ≡ more (O.written out.old) front) × (text.old ≡ front ++ text.new)) }
    ensures part { OnErr result (IsPart (O.written out.old) (O.written out.new) text.old) }
    ensures cause { HasCause (O.faults out.old) (O.faults out.new) result }
{
    if text.len() < PIECE {
        return Ok(());
    }
    write_whole(out, text.as_slice())?;
    text.truncate(0);
    Ok(())
}

/// Adds the lines of what a step gave to egresses.
fn put_entry_text(alloc: Global, into: &mut Bytes, entry: &Entry) -> Mem<()>
    ensures { OnOk result (into.new ≡ into.old ++ entry_text entry.now) }
{
    match &entry.step {
        Step::Take(_) => Ok(()),
        Step::Batch(reply) => put_reply_text(alloc, into, reply),
        Step::Register(reply) => put_reply_text(alloc, into, reply),
        Step::Due { .. } => Ok(()),
    }
}

/// Adds the lines of what an answer gave to egresses.
fn put_reply_text(alloc: Global, into: &mut Bytes, reply: &Reply) -> Mem<()>
    ensures { OnOk result (into.new ≡ into.old ++ egress_text (records_of_reply reply.now)) }
{
    match decode_from(alloc, reply.answer.as_slice()) {
        Ok(FromFunction::Result(response)) => put_answer_text(
            into,
            &reply.address,
            response.outgoing_egresses.as_slice(),
        ),
        Ok(FromFunction::Incomplete(_)) => Ok(()),
        Err(DecodeFault::Wire(_)) => Ok(()),
        Err(DecodeFault::OutOfMemory) => Err(OutOfMemory),
    }
}
