//! Delayed letters that were sent, as messages.
ghost use Rattle.std.specs.Prelude.{◌≡◌, ◌++◌, length, IfOk, Ok};
ghost use Rattle.proto_wire.specs.Reads.{Gives};
ghost use Rattle.proto_wire.specs.Message.{fit};
ghost use Rattle.folder_messages.specs.Entries.{empty_due, due_rows, due_read, due_of};
ghost use Rattle.folder_messages.specs.Spelling.{due_spelling, due_value};

use crate::parts::{Parts, decoded_whole};
use proto_wire::{
    Bytes, Decode, DecodeFault, Encode, Mem, Record, encoded, member_size, number_size,
    with_member, with_number,
};
use std::alloc::Global;
use typed_values::Address;

/// The delayed letter of an address that comes due first was sent.
#[derive(Drop)]
pub struct DueStep {
    pub address: Address,
    /// When it was sent, in milliseconds.
    pub moment: u64,
}

/// The same while it is read.
#[derive(Drop)]
pub struct DueRead {
    pub address: Option<Address>,
    pub moment: u64,
}

impl Decode for DueRead {
    ghost rows = { due_rows };

    ghost empty = { empty_due };

    #[tactic(auto, unfolding(crate::specs::Entries::empty_due))]
    fn blank(_alloc: Global) -> DueRead {
        DueRead {
            address: None,
            moment: 0,
        }
    }

    #[tactic(auto, unfolding(crate::specs::Entries::due_rows))]
    fn accept(&mut self, alloc: Global, item: &Record<'_>) -> Result<(), DecodeFault> {
        if item.is(1, 2) {
            item.enter(alloc, &mut self.address)?;
        } else if item.is(2, 0) {
            self.moment = item.number;
        }
        Ok(())
    }
}

impl Parts for DueRead {
    type Whole = DueStep;

    ghost whole = { due_of };

    fn whole(self, _alloc: Global) -> Mem<Option<DueStep>> {
        Ok(due_of(self))
    }
}

/// The step that was read. `None` exactly where its address is absent.
#[tactic(auto, unfolding(crate::specs::Entries::due_of))]
pub fn due_of(read: DueRead) -> Option<DueStep>
    ensures { result ≡ due_of read }
{
    Some(DueStep {
        address: read.address?,
        moment: read.moment,
    })
}

/// The same while it is written.
#[derive(Drop)]
pub struct DueWritten<'a> {
    pub address: &'a Address,
    pub moment: u64,
}

impl Encode for DueWritten<'_> {
    ghost spells = { λ it. due_spelling (record { address = it.address.now; moment = it.moment }) };

    ghost fits = { λ it. fit due_rows (due_read (record { address = it.address.now; moment = it.moment })) };

    #[tactic(auto, unfolding(crate::specs::Spelling::due_spelling, crate::specs::Entries::due_rows, proto_wire::specs::Message::spelled_message))]
    fn size(&self) -> u64 {
        member_size(1, self.address).saturating_add(number_size(2, self.moment))
    }

    #[tactic(auto, unfolding(crate::specs::Spelling::due_spelling, crate::specs::Entries::due_rows, proto_wire::specs::Message::spelled_message, proto_wire::specs::Message::fit_message))]
    fn put(&self, into: Bytes) -> Mem<Bytes> {
        let into = with_member(into, 1, self.address)?;
        with_number(into, 2, self.moment)
    }
}

/// The canonical spelling of such a step. Decoding it gives the step again.
pub fn encode_due_step(alloc: Global, due: &DueStep) -> Mem<Bytes>
    ensures spelled { IfOk result (λ b. b ≡ due_spelling due.now) }
    ensures again { IfOk result (λ b. due_value b ≡ Ok due.now) }
{
    let written = DueWritten {
        address: &due.address,
        moment: due.moment,
    };
    let bytes = encoded(alloc, &written)?;
    Ok(bytes)
}

/// The step that the bytes spell. It needs its address.
#[tactic(auto, unfolding(crate::specs::Spelling::due_value))]
pub fn decode_due_step(alloc: Global, bytes: &[u8]) -> Result<DueStep, DecodeFault>
    ensures { Gives (λ due. due) result (due_value bytes.now) }
{
    decoded_whole::<DueRead>(alloc, bytes)
}
