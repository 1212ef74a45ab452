//! Fields: how a record enters a value, by the kind of its field.
ghost use Rattle.std.specs.Prelude.{◌≡◌, ◌++◌, ◌∷◌, [], List, Some, None, Bool, IfOk, IfSome, IsSome, ◌↔◌, IsTrue, is_some};
ghost use Rattle.std.specs.Str.{is_utf8};
ghost use Rattle.proto_wire.specs.Reads.{ReadsOrAt, ChangesAt};
ghost use Rattle.proto_wire.specs.Places.{item_of, IsInside};
ghost use Rattle.proto_wire.specs.Message.{belongs, text_of, int_of, long_of, bool_of, short_of, joined, entered, appended};

use crate::message::{Decode, merge};
use crate::varint::fault_at;
use crate::{Bytes, DecodeFault, List, Mem, Record, Text, WireKind};
use std::alloc::Global;

impl Record<'_> {
    /// Whether the record is of the field with this number and wire type.
    #[tactic(auto, unfolding(crate::specs::Message::belongs))]
    pub fn is(&self, field: u32, wire: u8) -> bool
        ensures { result ≡ belongs field wire (item_of self.now) }
    {
        self.field == field && self.wire == wire
    }

    /// The payload as a text. The fault is NotUtf8, at the first byte of the payload.
    #[tactic(auto, unfolding(crate::specs::Message::text_of))]
    pub fn text(&self, alloc: Global) -> Result<Text, DecodeFault>
        requires inside { IsInside self.now }
        ensures { ReadsOrAt self.now.end (λ text. text) result (text_of (item_of self.now)) }
    {
        match utf8(self.payload) {
            Some(text) => Ok(Text::copy_of(alloc, text)?),
            None => Err(DecodeFault::Wire(fault_at(WireKind::NotUtf8, self.end, self.payload))),
        }
    }

    /// A copy of the payload.
    pub fn bytes(&self, alloc: Global) -> Mem<Bytes>
        ensures { IfOk result (λ bytes. bytes ≡ (item_of self.now).payload) }
    {
        Bytes::copy_of(alloc, self.payload)
    }

    /// The number as a bool: true where it is not 0.
    #[tactic(auto, unfolding(crate::specs::Message::bool_of))]
    pub fn bool(&self) -> bool
        ensures { result ≡ bool_of (item_of self.now) }
    {
        self.number != 0
    }

    /// The number as 32 bits, signed: its low ones. So an enum is read, and a signed number of four bytes.
    #[tactic(auto, unfolding(crate::specs::Message::int_of))]
    pub fn int(&self) -> i32
        ensures { result ≡ int_of (item_of self.now) }
    {
        ((self.number % 0x1_0000_0000) as u32).cast_signed()
    }

    /// The number as 64 bits, signed.
    #[tactic(auto, unfolding(crate::specs::Message::long_of))]
    pub fn long(&self) -> i64
        ensures { result ≡ long_of (item_of self.now) }
    {
        self.number.cast_signed()
    }

    /// The number as 32 bits. The fault is OverLimit, at the first byte of the number.
    #[tactic(auto, unfolding(crate::specs::Message::short_of))]
    pub fn short(&self) -> Result<u32, DecodeFault>
        requires inside { IsInside self.now }
        ensures { ReadsOrAt self.now.end (λ number. number) result (short_of (item_of self.now)) }
    {
        match u32::try_from(self.number) {
            Ok(number) => Ok(number),
            Err(_) => Err(DecodeFault::Wire(fault_at(WireKind::OverLimit, self.end, self.payload))),
        }
    }

    /// The message that stands, or the blank one, with the payload in it.
    #[tactic(auto, unfolding(crate::specs::Message::joined))]
    pub fn message<M: Decode>(&self, alloc: Global, held: Option<M>) -> Result<M, DecodeFault>
        requires inside { IsInside self.now }
        ensures { ReadsOrAt self.now.end (λ message. message) result (joined M.empty M.rows held (item_of self.now)) }
    {
        let mut message = match held {
            Some(message) => message,
            None => M::blank(alloc),
        };
        merge(alloc, &mut message, self.end, self.payload)?;
        Ok(message)
    }

    /// Takes the payload into the message that stands, or into the blank one. After an `Err` the slot is of no further use.
    #[tactic(auto, unfolding(crate::specs::Message::entered, crate::specs::Message::joined))]
    pub fn enter<M: Decode>(&self, alloc: Global, slot: &mut Option<M>) -> Result<(), DecodeFault>
        requires inside { IsInside self.now }
        ensures { ChangesAt self.now.end result slot.new (entered M.empty M.rows slot.old (item_of self.now)) }
    {
        match slot {
            Some(message) => merge(alloc, message, self.end, self.payload),
            None => {
                *slot = Some(self.message(alloc, None)?);
                Ok(())
            }
        }
    }

    /// Adds the message of the payload to the list. An `Err` changes nothing.
    #[tactic(auto, unfolding(crate::specs::Message::appended))]
    pub fn append_to<M: Decode>(&self, alloc: Global, list: &mut List<M>) -> Result<(), DecodeFault>
        requires inside { IsInside self.now }
        ensures { ChangesAt self.now.end result list.new (appended M.empty M.rows list.old (item_of self.now)) }
    {
        let mut next = M::blank(alloc);
        merge(alloc, &mut next, self.end, self.payload)?;
        list.push(next)?;
        Ok(())
    }
}

fn utf8(bytes: &[u8]) -> Option<&str>
    ensures found { is_some result ≡ is_utf8 bytes.now }
    ensures value { IfSome result (λ text. text.now ≡ bytes.now) }
{
    match std::str::from_utf8(bytes) {
        Ok(text) => Some(text),
        Err(_) => None,
    }
}
