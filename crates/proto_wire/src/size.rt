//! Fields: how long their spellings are. No call takes memory.
ghost use Rattle.std.specs.Prelude.{◌≡◌, ◌+◌, ◌*◌, ◌≤◌, ◌<◌, length, Some, None};
ghost use Rattle.proto_wire.specs.Varint.{varint};
ghost use Rattle.proto_wire.specs.Record.{IsField, bytes_record};
ghost use Rattle.proto_wire.specs.Message.{capped, spelled_bytes, spelled_number, spelled_bool, spelled_signed, spelled_message, spelled_messages, spelled_choice};

use crate::message::Encode;
use crate::varint::varint_size;

fn tag_size(field: u32, wire: u64) -> u64
    requires { wire < 8 }
    ensures size { result ≡ length (varint (8 * field + wire)) }
    ensures most { result ≤ 10 }
{
    varint_size(8 * u64::from(field) + wire)
}

/// The length of a record with that many bytes, or `u64::MAX` where it is greater.
pub fn record_size(field: u32, len: u64) -> u64
    requires { IsField field }
    ensures { result ≡ capped (length (varint (8 * field + 2)) + length (varint len) + len) }
{
    (tag_size(field, 2) + varint_size(len)).saturating_add(len)
}

/// The length of what `with_bytes` adds, or `u64::MAX` where it is greater.
#[tactic(auto, unfolding(crate::specs::Message::spelled_bytes))]
pub fn bytes_size(field: u32, payload: &[u8]) -> u64
    requires { IsField field }
    ensures { result ≡ capped (length (spelled_bytes field payload.now)) }
{
    if payload.is_empty() {
        return 0;
    }
    record_size(field, payload.len() as u64)
}

/// The length of what `with_number` adds.
#[tactic(auto, unfolding(crate::specs::Message::spelled_number))]
pub fn number_size(field: u32, number: u64) -> u64
    requires { IsField field }
    ensures size { result ≡ length (spelled_number field number) }
    ensures most { result ≤ 20 }
{
    if number == 0 {
        return 0;
    }
    tag_size(field, 0) + varint_size(number)
}

/// The length of what `with_bool` adds.
#[tactic(auto, unfolding(crate::specs::Message::spelled_bool))]
pub fn bool_size(field: u32, value: bool) -> u64
    requires { IsField field }
    ensures size { result ≡ length (spelled_bool field value) }
    ensures most { result ≤ 20 }
{
    if value {
        return tag_size(field, 0) + varint_size(1);
    }
    0
}

/// The length of what `with_long` adds, and `with_enum`.
#[tactic(auto, unfolding(crate::specs::Message::spelled_signed))]
pub fn signed_size(field: u32, number: i64) -> u64
    requires { IsField field }
    ensures size { result ≡ length (spelled_signed field number) }
    ensures most { result ≤ 20 }
{
    number_size(field, number.cast_unsigned())
}

/// The length of what `with_choice` adds.
#[tactic(auto, unfolding(crate::specs::Message::spelled_choice))]
pub fn choice_size(field: u32, number: Option<u32>) -> u64
    requires { IsField field }
    ensures size { result ≡ length (spelled_choice field number) }
    ensures most { result ≤ 20 }
{
    match number {
        Some(number) => tag_size(field, 0) + varint_size(u64::from(number)),
        None => 0,
    }
}

/// The length of what `with_member` adds, or `u64::MAX` where it is greater.
pub fn member_size<M: Encode>(field: u32, message: &M) -> u64
    requires { IsField field }
    ensures { result ≡ capped (length (bytes_record field (M.spells message.now))) }
{
    record_size(field, message.size())
}

/// The length of what `with_message` adds, or `u64::MAX` where it is greater.
#[tactic(auto, unfolding(crate::specs::Message::spelled_message))]
pub fn message_size<M: Encode>(field: u32, message: &Option<M>) -> u64
    requires { IsField field }
    ensures { result ≡ capped (length (spelled_message M.spells field message.now)) }
{
    match message {
        Some(message) => member_size(field, message),
        None => 0,
    }
}

/// The length of what `with_messages` adds, or `u64::MAX` where it is greater.
#[tactic(auto, unfolding(crate::specs::Message::spelled_messages))]
pub fn messages_size<M: Encode>(field: u32, messages: &[M]) -> u64
    requires { IsField field }
    ensures { result ≡ capped (length (spelled_messages M.spells field messages.now)) }
{
    let mut size: u64 = 0;
    for message in messages {
        size = size.saturating_add(member_size(field, message));
    }
    size
}
