//! Pieces as messages.
ghost use Rattle.std.specs.Prelude.{◌≡◌, ◌++◌, length, IfOk, Ok};
ghost use Rattle.proto_wire.specs.Reads.{Gives};
ghost use Rattle.proto_wire.specs.Message.{fit};
ghost use Rattle.piece_messages.specs.States.{empty_piece, piece_rows, piece_read, piece_of};
ghost use Rattle.piece_messages.specs.Spelling.{piece_spelling, piece_value};

use crate::address_state::{AddressRead, AddressState};
use crate::lists::{
    delays_size, entries_size, letters_size, records_size, states_size, with_delays, with_entries,
    with_letters, with_records, with_states,
};
use crate::stored::{DelayRead, EgressRead, LetterRead};
use folder_messages::{EntryRead, Parts, all_whole, decoded_whole, with_short};
use proto_wire::{Bytes, Decode, DecodeFault, Encode, List, Mem, Record, encoded, number_size};
use run_record::Entry;
use std::alloc::Global;
use typed_values::{Delay, EgressRecord, Letter};

/// What one partition keeps of a checkpoint.
#[derive(Drop)]
pub struct Piece {
    /// Field 1: the partition's number.
    pub partition: u32,
    /// Field 2: its entries since the checkpoint before.
    pub entries: List<Entry>,
    /// Field 3: what these gave to egress.
    pub egress: List<EgressRecord>,
    /// Field 4: the letters that wait.
    pub letters: List<Letter>,
    /// Field 5: the states of its addresses.
    pub states: List<AddressState>,
    /// Field 6: the delayed letters that wait.
    pub delays: List<Delay>,
}

/// A piece while it is read.
#[derive(Drop)]
pub struct PieceRead {
    pub partition: u32,
    pub entries: List<EntryRead>,
    pub egress: List<EgressRead>,
    pub letters: List<LetterRead>,
    pub states: List<AddressRead>,
    pub delays: List<DelayRead>,
}

impl Decode for PieceRead {
    ghost rows = { piece_rows };

    ghost empty = { empty_piece };

    #[tactic(auto, unfolding(crate::specs::States::empty_piece))]
    fn blank(alloc: Global) -> PieceRead {
        PieceRead {
            partition: 0,
            entries: List::new(alloc),
            egress: List::new(alloc),
            letters: List::new(alloc),
            states: List::new(alloc),
            delays: List::new(alloc),
        }
    }

    #[tactic(auto, unfolding(crate::specs::States::piece_rows))]
    fn accept(&mut self, alloc: Global, item: &Record<'_>) -> Result<(), DecodeFault> {
        if item.is(1, 0) {
            self.partition = item.short()?;
        } else if item.is(2, 2) {
            item.append_to(alloc, &mut self.entries)?;
        } else if item.is(3, 2) {
            item.append_to(alloc, &mut self.egress)?;
        } else if item.is(4, 2) {
            item.append_to(alloc, &mut self.letters)?;
        } else if item.is(5, 2) {
            item.append_to(alloc, &mut self.states)?;
        } else if item.is(6, 2) {
            item.append_to(alloc, &mut self.delays)?;
        }
        Ok(())
    }
}

impl Parts for PieceRead {
    type Whole = Piece;

    ghost whole = { piece_of };

    #[tactic(auto, unfolding(crate::specs::States::piece_of))]
    fn whole(self, alloc: Global) -> Mem<Option<Piece>> {
        let PieceRead {
            partition,
            entries,
            egress,
            letters,
            states,
            delays,
        } = self;
        let Some(entries) = all_whole(alloc, entries)? else {
            return Ok(None);
        };
        let Some(egress) = all_whole(alloc, egress)? else {
            return Ok(None);
        };
        let Some(letters) = all_whole(alloc, letters)? else {
            return Ok(None);
        };
        let Some(states) = all_whole(alloc, states)? else {
            return Ok(None);
        };
        let Some(delays) = all_whole(alloc, delays)? else {
            return Ok(None);
        };
        Ok(Some(Piece {
            partition,
            entries,
            egress,
            letters,
            states,
            delays,
        }))
    }
}

impl Encode for Piece {
    ghost spells = { piece_spelling };

    ghost fits = { λ it. fit piece_rows (piece_read it) };

    #[tactic(auto, unfolding(crate::specs::Spelling::piece_spelling, crate::specs::States::piece_rows))]
    fn size(&self) -> u64 {
        number_size(1, u64::from(self.partition))
            .saturating_add(entries_size(2, &self.entries))
            .saturating_add(records_size(3, &self.egress))
            .saturating_add(letters_size(4, &self.letters))
            .saturating_add(states_size(5, &self.states))
            .saturating_add(delays_size(6, &self.delays))
    }

    #[tactic(auto, unfolding(crate::specs::Spelling::piece_spelling, crate::specs::States::piece_rows))]
    fn put(&self, into: Bytes) -> Mem<Bytes> {
        let into = with_short(into, 1, self.partition)?;
        let into = with_entries(into, 2, &self.entries)?;
        let into = with_records(into, 3, &self.egress)?;
        let into = with_letters(into, 4, &self.letters)?;
        let into = with_states(into, 5, &self.states)?;
        with_delays(into, 6, &self.delays)
    }
}

/// The canonical spelling of a piece. Decoding it gives the piece again.
pub fn encode_piece(alloc: Global, piece: &Piece) -> Mem<Bytes>
    ensures spelled { IfOk result (λ b. b ≡ piece_spelling piece.now) }
    ensures again { IfOk result (λ b. piece_value b ≡ Ok piece.now) }
{
    let bytes = encoded(alloc, piece)?;
    Ok(bytes)
}

/// The piece that the bytes spell. It needs what each of its messages needs.
#[tactic(auto, unfolding(crate::specs::Spelling::piece_value))]
pub fn decode_piece(alloc: Global, bytes: &[u8]) -> Result<Piece, DecodeFault>
    ensures { Gives (λ piece. piece) result (piece_value bytes.now) }
{
    decoded_whole::<PieceRead>(alloc, bytes)
}
