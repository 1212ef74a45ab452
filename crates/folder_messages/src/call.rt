//! The number of a call as a message.
ghost use Rattle.std.specs.Prelude.{◌≡◌, ◌++◌, length, IfOk, Some, Ok};
ghost use Rattle.proto_wire.specs.Reads.{Gives};
ghost use Rattle.proto_wire.specs.Message.{spelling, fit};
ghost use Rattle.folder_messages.specs.Entries.{empty_call, call_rows, call_read, call_of};
ghost use Rattle.folder_messages.specs.Spelling.{call_spelling, call_value};

use crate::parts::{Parts, decoded_whole};
use crate::shorts::with_short;
use proto_wire::{
    Bytes, Decode, DecodeFault, Encode, Mem, Record, encoded, number_size, with_number,
};
use sf_outside::Call;
use std::alloc::Global;

/// The number of a call, as it is read and written.
#[derive(Clone, Copy)]
pub struct CallRead {
    pub leg: u64,
    pub partition: u32,
    pub turn: u32,
}

/// The number of a call, to be written.
pub fn call_read(call: &Call) -> CallRead
    ensures { result ≡ call_read call.now }
{
    CallRead {
        leg: call.leg,
        partition: call.partition,
        turn: call.turn,
    }
}

/// The number of a call that was read.
pub fn call_of(read: CallRead) -> Call
    ensures { result ≡ call_of read }
{
    Call {
        leg: read.leg,
        partition: read.partition,
        turn: read.turn,
    }
}

impl Decode for CallRead {
    ghost rows = { call_rows };

    ghost empty = { empty_call };

    #[tactic(auto, unfolding(crate::specs::Entries::empty_call))]
    fn blank(_alloc: Global) -> CallRead {
        CallRead {
            leg: 0,
            partition: 0,
            turn: 0,
        }
    }

    #[tactic(auto, unfolding(crate::specs::Entries::call_rows))]
    fn accept(&mut self, _alloc: Global, item: &Record<'_>) -> Result<(), DecodeFault> {
        if item.is(1, 0) {
            self.leg = item.number;
        } else if item.is(2, 0) {
            self.partition = item.short()?;
        } else if item.is(3, 0) {
            self.turn = item.short()?;
        }
        Ok(())
    }
}

impl Parts for CallRead {
    type Whole = Call;

    ghost whole = { λ it. Some (call_of it) };

    fn whole(self, _alloc: Global) -> Mem<Option<Call>> {
        Ok(Some(call_of(self)))
    }
}

impl Encode for CallRead {
    ghost spells = { spelling call_rows };

    ghost fits = { fit call_rows };

    #[tactic(auto, unfolding(crate::specs::Entries::call_rows))]
    fn size(&self) -> u64 {
        number_size(1, self.leg)
            .saturating_add(number_size(2, u64::from(self.partition)))
            .saturating_add(number_size(3, u64::from(self.turn)))
    }

    #[tactic(auto, unfolding(crate::specs::Entries::call_rows))]
    fn put(&self, into: Bytes) -> Mem<Bytes> {
        let into = with_number(into, 1, self.leg)?;
        let into = with_short(into, 2, self.partition)?;
        with_short(into, 3, self.turn)
    }
}

/// The canonical spelling of a call's number. Decoding it gives the number again.
#[tactic(auto, unfolding(crate::specs::Spelling::call_spelling))]
pub fn encode_call(alloc: Global, call: &Call) -> Mem<Bytes>
    ensures spelled { IfOk result (λ b. b ≡ call_spelling call.now) }
    ensures again { IfOk result (λ b. call_value b ≡ Ok call.now) }
{
    let bytes = encoded(alloc, &call_read(call))?;
    Ok(bytes)
}

/// The number of a call that the bytes spell.
#[tactic(auto, unfolding(crate::specs::Spelling::call_value))]
pub fn decode_call(alloc: Global, bytes: &[u8]) -> Result<Call, DecodeFault>
    ensures { Gives (λ call. call) result (call_value bytes.now) }
{
    decoded_whole::<CallRead>(alloc, bytes)
}
