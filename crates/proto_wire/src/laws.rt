//! Laws of the wire format (Protocol Buffers encoding guide): what its definitions come to over whole bytes. Each function does
//! nothing, and its contract is the law.
ghost use Rattle.proto_wire.specs.Laws.{
  FirstFaultCounts,
  JoinedBytesAreReadOn,
  LastScalarCounts,
  MemberIsJoined,
  PayloadFaultIsFirst,
  RecordFaultIsFirst,
  RecordsAreRead,
  RecordsAreUnique,
  SingularIsJoined,
  TagFaultIsFirst,
  UnknownChangesNothing,
  VarintsAreRead,
};

use crate::message::Decode;

/// A varint is read exactly where the bytes begin with one: one to ten bytes of which all but the last have the high bit. Its
/// number is the sum of their low seven bits, lowest first, modulo 2^64 ("Base 128 Varints").
pub fn varints_are_read()
    ensures { VarintsAreRead }
{}

/// Records are read exactly where the bytes are made of them: each a tag and a payload of its wire type, one behind the other, and nothing else.
pub fn records_are_read()
    ensures { RecordsAreRead }
{}

/// Bytes are made of one list of records at most.
pub fn records_are_unique()
    ensures { RecordsAreUnique }
{}

/// Bytes that are joined to others are read on from the value that the first make.
pub fn joined_bytes_are_read_on<M: Decode>()
    ensures { JoinedBytesAreReadOn M.rows }
{}

/// A scalar field is what the last record of it says, or what stood before where there is none.
pub fn the_last_scalar_counts<M: Decode, A>()
    ensures { LastScalarCounts A M.rows }
{}

/// A singular message is what the joined payloads of its records make of the blank one.
pub fn a_singular_message_is_its_joined_payloads<M: Decode, N: Decode>()
    ensures { SingularIsJoined M.rows N.rows N.empty }
{}

/// A member of a oneof is what the joined payloads of its records behind the last record of another member make of the blank one.
pub fn a_member_is_its_joined_payloads<M: Decode, N: Decode>()
    ensures { MemberIsJoined M.rows N.rows N.empty }
{}

/// A record of an unknown field, or of a known field with another wire type, changes nothing, wherever it stands.
pub fn an_unknown_record_changes_nothing<M: Decode>()
    ensures { UnknownChangesNothing M.rows }
{}

/// Bytes have the fault of the first record which is not whole, or which the value of the records in front of it refuses.
pub fn the_first_fault_counts<M: Decode>()
    ensures { FirstFaultCounts M.rows }
{}

/// A tag has a fault exactly where something is wrong with it, placed at its first byte, and of several kinds the first:
/// Truncated, LongVarint, TagTooLarge, FieldZero, WireType.
pub fn the_first_fault_of_a_tag_counts()
    ensures { TagFaultIsFirst }
{}

/// A payload has a fault exactly where it is Truncated or a LongVarint, placed at its first byte, which for bytes is the first byte of their length.
pub fn the_first_fault_of_a_payload_counts()
    ensures { PayloadFaultIsFirst }
{}

/// A record has the fault of its tag, or, behind a whole tag, that of its payload.
pub fn the_first_fault_of_a_record_counts()
    ensures { RecordFaultIsFirst }
{}
