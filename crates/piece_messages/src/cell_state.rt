//! Cells of an address as messages.
ghost use Rattle.std.specs.Prelude.{◌≡◌, ◌++◌, length, IfOk, Ok};
ghost use Rattle.proto_wire.specs.Reads.{Gives};
ghost use Rattle.proto_wire.specs.Message.{spelling, fit};
ghost use Rattle.piece_messages.specs.States.{empty_cell, cell_rows};
ghost use Rattle.piece_messages.specs.Spelling.{cell_spelling, cell_value};

use proto_wire::{
    Bytes, Decode, DecodeFault, Encode, Mem, Record, Text, bool_size, bytes_size, decoded, encoded,
    number_size, signed_size, with_bool, with_bytes, with_enum, with_number, with_text,
};
use std::alloc::Global;

/// A registered cell.
#[derive(Drop)]
pub struct CellState {
    /// Field 1.
    pub name: Text,
    /// Field 2: the type of its values.
    pub typename: Text,
    /// Field 3, an enum: 0 never expires, 1 after a write, 2 after an invocation.
    pub mode: i32,
    /// Field 4: how long a value lasts, in milliseconds.
    pub millis: u64,
    /// Field 5: whether there is a value.
    pub has_value: bool,
    /// Field 6: the moment from which the value's time counts, in milliseconds.
    pub stamp: u64,
    /// Field 7: the value's bytes.
    pub value: Bytes,
}

impl Decode for CellState {
    ghost rows = { cell_rows };

    ghost empty = { empty_cell };

    #[tactic(auto, unfolding(crate::specs::States::empty_cell))]
    fn blank(alloc: Global) -> CellState {
        CellState {
            name: Text::new(alloc),
            typename: Text::new(alloc),
            mode: 0,
            millis: 0,
            has_value: false,
            stamp: 0,
            value: Bytes::new(alloc),
        }
    }

    #[tactic(auto, unfolding(crate::specs::States::cell_rows))]
    fn accept(&mut self, alloc: Global, item: &Record<'_>) -> Result<(), DecodeFault> {
        if item.is(1, 2) {
            self.name = item.text(alloc)?;
        } else if item.is(2, 2) {
            self.typename = item.text(alloc)?;
        } else if item.is(3, 0) {
            self.mode = item.int();
        } else if item.is(4, 0) {
            self.millis = item.number;
        } else if item.is(5, 0) {
            self.has_value = item.bool();
        } else if item.is(6, 0) {
            self.stamp = item.number;
        } else if item.is(7, 2) {
            self.value = item.bytes(alloc)?;
        }
        Ok(())
    }
}

impl Encode for CellState {
    ghost spells = { spelling cell_rows };

    ghost fits = { fit cell_rows };

    #[tactic(auto, unfolding(crate::specs::States::cell_rows))]
    fn size(&self) -> u64 {
        bytes_size(1, self.name.as_bytes())
            .saturating_add(bytes_size(2, self.typename.as_bytes()))
            .saturating_add(signed_size(3, i64::from(self.mode)))
            .saturating_add(number_size(4, self.millis))
            .saturating_add(bool_size(5, self.has_value))
            .saturating_add(number_size(6, self.stamp))
            .saturating_add(bytes_size(7, self.value.as_slice()))
    }

    #[tactic(auto, unfolding(crate::specs::States::cell_rows))]
    fn put(&self, into: Bytes) -> Mem<Bytes> {
        let into = with_text(into, 1, &self.name)?;
        let into = with_text(into, 2, &self.typename)?;
        let into = with_enum(into, 3, self.mode)?;
        let into = with_number(into, 4, self.millis)?;
        let into = with_bool(into, 5, self.has_value)?;
        let into = with_number(into, 6, self.stamp)?;
        with_bytes(into, 7, self.value.as_slice())
    }
}

/// The canonical spelling of a cell. Decoding it gives the cell again.
#[tactic(auto, unfolding(crate::specs::Spelling::cell_spelling))]
pub fn encode_cell_state(alloc: Global, cell: &CellState) -> Mem<Bytes>
    ensures spelled { IfOk result (λ b. b ≡ cell_spelling cell.now) }
    ensures again { IfOk result (λ b. cell_value b ≡ Ok cell.now) }
{
    let bytes = encoded(alloc, cell)?;
    Ok(bytes)
}

/// The cell that the bytes spell.
#[tactic(auto, unfolding(crate::specs::Spelling::cell_value))]
pub fn decode_cell_state(alloc: Global, bytes: &[u8]) -> Result<CellState, DecodeFault>
    ensures { Gives (λ cell. cell) result (cell_value bytes.now) }
{
    decoded(alloc, bytes)
}
