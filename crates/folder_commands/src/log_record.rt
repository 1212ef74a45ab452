//! Records as bytes of a log.
ghost use Rattle.std.specs.Prelude.{◌≡◌, ◌++◌, true, IfOk, OnOk};
ghost use Rattle.proto_wire.specs.Message.{fit, spelling};
ghost use Rattle.sf_outside.specs.Log.{record_rows};
ghost use Rattle.folder_commands.specs.LogText.{record_text};

use proto_wire::{Bytes, Mem, put_varint, with_bytes, with_text};
use sf_outside::IngressRecord;
use std::alloc::Global;

/// Adds a record to the bytes of a log: the length of its message as a varint, and the message.
#[tactic(auto, unfolding(crate::specs::LogText::record_text))]
pub(crate) fn put_record(alloc: Global, log: &mut Bytes, record: &IngressRecord) -> Mem<()>
    ensures { OnOk result (log.new ≡ log.old ++ record_text «record».now) }
{
    let message = message_of(alloc, record)?;
    put_varint(log, message.len() as u64)?;
    log.append(message.as_slice())?;
    Ok(())
}

/// The message of a record.
#[tactic(auto, unfolding(sf_outside::specs::Log::record_rows))]
fn message_of(alloc: Global, record: &IngressRecord) -> Mem<Bytes>
    ensures { IfOk result (λ message. message ≡ spelling record_rows «record».now) }
{
    let message = with_text(Bytes::new(alloc), 1, &record.key)?;
    let message = with_bytes(message, 2, record.value.as_slice())?;
    Ok(message)
}
