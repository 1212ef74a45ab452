//! Messages: how their records are read, one loop for all, and how they are written.
ghost use Rattle.std.specs.Prelude.{◌≡◌, ◌≤◌, ◌<◌, ◌^◌, ◌++◌, ◌∷◌, [], ℕ, List, Bool, Some, None, length, IfOk, OnOk, true};
ghost use Rattle.proto_wire.specs.Reads.{ChangesAt, Gives, Reads};
ghost use Rattle.proto_wire.specs.Places.{item_of, IsInside};
ghost use Rattle.proto_wire.specs.Message.{Row, accepted, value_in, value_of, capped, last_record};
ghost use Rattle.std.specs.Option.{option_map};

use crate::record::record_in;
use crate::{Bytes, DecodeFault, Mem, Record, WireFault};
use std::alloc::Global;

/// A message that is read by the table of its fields.
pub trait Decode: Drop {
    /// Its fields, by number.
    ghost rows: { List (Row Self) };

    /// The message that no bytes spell.
    ghost empty: { Self };

    /// The message with every field at its default. Takes no memory.
    fn blank(alloc: Global) -> Self
        ensures { result ≡ empty };

    /// Takes a record in: by its field, or passed over where the message has no field of its number and wire type. After an `Err` the message is of no
    /// further use.
    fn accept(&mut self, alloc: Global, item: &Record<'_>) -> Result<(), DecodeFault>
        requires inside { IsInside item.now }
        ensures changes { ChangesAt item.now.end result self.new (accepted rows self.old (item_of item.now)) };
}

/// A message that is written in its canonical spelling.
pub trait Encode {
    /// The canonical spelling.
    ghost spells: { Self → List ℕ };

    /// Whether each part has a spelling: texts are UTF-8, numbers of their types.
    ghost fits: { Self → Bool };

    /// The length of the spelling, or `u64::MAX` where it is greater. Takes no memory.
    fn size(&self) -> u64
        ensures { result ≡ capped (length (spells self.now)) };

    /// Adds the spelling at the end.
    fn put(&self, into: Bytes) -> Mem<Bytes>
        ensures spelled { IfOk result (λ bytes. bytes ≡ into ++ spells self.now) }
        ensures fits { OnOk result (fits self.now ≡ true) };
}

/// Reads bytes, which end at the place `end` of the whole input, into the message that stands: each record from left to right, down to the first fault.
/// After an `Err` the message is of no further use.
pub fn merge<M: Decode>(
    alloc: Global,
    message: &mut M,
    end: usize,
    bytes: &[u8],
) -> Result<(), DecodeFault>
    requires inside { length bytes.now ≤ end }
    ensures { ChangesAt end result message.new (value_in M.rows message.old bytes.now) }
{
    let mut rest = bytes;
    while !rest.is_empty() {
        let (record, after) = match record_in(end, rest) {
            Ok(read) => read,
            Err(fault) => return Err(DecodeFault::Wire(fault)),
        };
        message.accept(alloc, &record)?;
        rest = after;
    }
    Ok(())
}

/// The message that the bytes spell: `Ok` exactly where they spell one, else their first fault.
pub fn decoded<M: Decode>(alloc: Global, bytes: &[u8]) -> Result<M, DecodeFault>
    ensures { Gives (λ message. message) result (value_of M.rows M.empty bytes.now) }
{
    let mut message = M::blank(alloc);
    merge(alloc, &mut message, bytes.len(), bytes)?;
    Ok(message)
}

/// The canonical spelling of a message. Its room is asked for once.
pub fn encoded<M: Encode>(alloc: Global, message: &M) -> Mem<Bytes>
    ensures spelled { IfOk result (λ bytes. bytes ≡ M.spells message.now) }
    ensures fits { OnOk result (M.fits message.now ≡ true) }
    ensures short { IfOk result (λ bytes. length bytes < 2 ^ 64) }
{
    let bytes = message.put(Bytes::with_capacity(alloc, message.size() as usize)?)?;
    let _len = bytes.len();
    Ok(bytes)
}

/// The last record of the field with this number and wire type, if any; else the bytes' first fault. Takes no memory.
#[tactic(auto, unfolding(crate::specs::Message::last_record))]
pub fn last_record(field: u32, wire: u8, bytes: &[u8]) -> Result<Option<Record<'_>>, WireFault>
    ensures { Reads (length bytes.now) (λ found. option_map item_of found) result (last_record field wire bytes.now) }
{
    let mut found = None;
    let mut rest = bytes;
    while !rest.is_empty() {
        let (record, behind) = match record_in(bytes.len(), rest) {
            Ok(read) => read,
            Err(fault) => return Err(fault),
        };
        if record.is(field, wire) {
            found = Some(record);
        }
        rest = behind;
    }
    Ok(found)
}
