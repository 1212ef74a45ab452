//! The state of an address as a message.
ghost use Rattle.std.specs.Prelude.{◌≡◌, ◌++◌, length, IfOk, Ok};
ghost use Rattle.proto_wire.specs.Reads.{Gives};
ghost use Rattle.proto_wire.specs.Message.{fit};
ghost use Rattle.piece_messages.specs.States.{empty_state, state_rows, state_read, state_of};
ghost use Rattle.piece_messages.specs.Spelling.{state_spelling, state_value};

use crate::cell_state::CellState;
use folder_messages::{Parts, decoded_whole};
use proto_wire::{
    Bytes, Decode, DecodeFault, Encode, List, Mem, Record, encoded, member_size, messages_size,
    number_size, with_member, with_messages, with_number,
};
use std::alloc::Global;
use typed_values::Address;

/// The cells of an address, and when it was last served.
#[derive(Drop)]
pub struct AddressState {
    /// Field 1.
    pub address: Address,
    /// Field 2: the moment of its last batch or registration, in milliseconds.
    pub seen: u64,
    /// Field 3: its cells, in order of registration.
    pub cells: List<CellState>,
}

/// The state of an address while it is read.
#[derive(Drop)]
pub struct AddressRead {
    pub address: Option<Address>,
    pub seen: u64,
    pub cells: List<CellState>,
}

impl Decode for AddressRead {
    ghost rows = { state_rows };

    ghost empty = { empty_state };

    #[tactic(auto, unfolding(crate::specs::States::empty_state))]
    fn blank(alloc: Global) -> AddressRead {
        AddressRead {
            address: None,
            seen: 0,
            cells: List::new(alloc),
        }
    }

    #[tactic(auto, unfolding(crate::specs::States::state_rows))]
    fn accept(&mut self, alloc: Global, item: &Record<'_>) -> Result<(), DecodeFault> {
        if item.is(1, 2) {
            item.enter(alloc, &mut self.address)?;
        } else if item.is(2, 0) {
            self.seen = item.number;
        } else if item.is(3, 2) {
            item.append_to(alloc, &mut self.cells)?;
        }
        Ok(())
    }
}

/// The state that was read. `None` exactly where its address is absent.
#[tactic(auto, unfolding(crate::specs::States::state_of))]
fn state_of(read: AddressRead) -> Option<AddressState>
    ensures { result ≡ state_of read }
{
    let AddressRead {
        address,
        seen,
        cells,
    } = read;
    Some(AddressState {
        address: address?,
        seen,
        cells,
    })
}

impl Parts for AddressRead {
    type Whole = AddressState;

    ghost whole = { state_of };

    fn whole(self, _alloc: Global) -> Mem<Option<AddressState>> {
        Ok(state_of(self))
    }
}

impl Encode for AddressState {
    ghost spells = { state_spelling };

    ghost fits = { λ it. fit state_rows (state_read it) };

    #[tactic(auto, unfolding(crate::specs::Spelling::state_spelling, crate::specs::States::state_rows, proto_wire::specs::Message::spelled_message))]
    fn size(&self) -> u64 {
        member_size(1, &self.address)
            .saturating_add(number_size(2, self.seen))
            .saturating_add(messages_size(3, self.cells.as_slice()))
    }

    #[tactic(auto, unfolding(crate::specs::Spelling::state_spelling, crate::specs::States::state_rows, proto_wire::specs::Message::spelled_message, proto_wire::specs::Message::fit_message))]
    fn put(&self, into: Bytes) -> Mem<Bytes> {
        let into = with_member(into, 1, &self.address)?;
        let into = with_number(into, 2, self.seen)?;
        with_messages(into, 3, self.cells.as_slice())
    }
}

/// The canonical spelling of an address's state. Decoding it gives the state again.
pub fn encode_address_state(alloc: Global, state: &AddressState) -> Mem<Bytes>
    ensures spelled { IfOk result (λ b. b ≡ state_spelling state.now) }
    ensures again { IfOk result (λ b. state_value b ≡ Ok state.now) }
{
    let bytes = encoded(alloc, state)?;
    Ok(bytes)
}

/// The state of an address that the bytes spell. It needs its address.
#[tactic(auto, unfolding(crate::specs::Spelling::state_value))]
pub fn decode_address_state(alloc: Global, bytes: &[u8]) -> Result<AddressState, DecodeFault>
    ensures { Gives (λ state. state) result (state_value bytes.now) }
{
    decoded_whole::<AddressRead>(alloc, bytes)
}
