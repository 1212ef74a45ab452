//! The bytes of the wire: byte strings, texts and lists, and the records of the Protocol Buffers encoding.
#![tactic(auto)]

mod bytes;
mod compared;
mod fault;
mod field;
mod laws;
mod list;
mod memory;
mod message;
mod module_kind;
mod put;
mod record;
mod size;
mod text;
mod varint;

pub use bytes::Bytes;
pub use fault::{DecodeFault, WireFault, WireKind, no_member};
pub use laws::{
    a_member_is_its_joined_payloads, a_singular_message_is_its_joined_payloads,
    an_unknown_record_changes_nothing, joined_bytes_are_read_on, records_are_read,
    records_are_unique, the_first_fault_counts, the_first_fault_of_a_payload_counts,
    the_first_fault_of_a_record_counts, the_first_fault_of_a_tag_counts, the_last_scalar_counts,
    varints_are_read,
};
pub use list::List;
pub use memory::{Mem, OutOfMemory, TryClone};
pub use message::{Decode, Encode, decoded, encoded, last_record};
pub use module_kind::ModuleKind;
pub use put::{
    put_bytes, with_bool, with_bytes, with_choice, with_eight, with_enum, with_four, with_long,
    with_member, with_message, with_messages, with_number, with_text,
};
pub use record::{Record, WireRecord, next_record};
pub use size::{
    bool_size, bytes_size, choice_size, member_size, message_size, messages_size, number_size,
    record_size, signed_size,
};
pub use text::Text;
pub use varint::{put_varint, varint_in, varint_size};
