//! What belongs to a partition.
ghost use Rattle.std.specs.Prelude.{◌≡◌, ◌≤◌, IfOk};
ghost use Rattle.std.specs.List.{list_all};
ghost use Rattle.folder_form.specs.Pieces.{latest_in, owns, owns_delay, owns_entry, owns_letter, owns_letters, owns_piece, owns_record, owns_state, owns_step};

use crate::states::{are_in_order, latest_of, owns_state};
use address_routing::partition_of;
use piece_messages::{AddressState, Piece};
use proto_wire::Mem;
use run_record::{Entry, Step};
use std::alloc::Global;
use typed_values::{Address, Delay, EgressRecord, Letter};

/// One partition of so many.
#[derive(Clone, Copy, Debug, PartialEq, Eq)]
pub struct Home {
    /// 1 to 16.
    pub partitions: u32,
    pub partition: u32,
}

/// Whether an address belongs to a partition.
pub(crate) fn owns(home: Home, address: &Address) -> bool
    requires some { 1 ≤ home.partitions }
    requires most { home.partitions ≤ 16 }
    ensures { result ≡ owns home address.now }
{
    partition_of(address, home.partitions) == home.partition
}

/// Whether a step is one of the partition's addresses.
fn owns_step(home: Home, step: &Step) -> bool
    requires some { 1 ≤ home.partitions }
    requires most { home.partitions ≤ 16 }
    ensures { result ≡ owns_step home step.now }
{
    match step {
        Step::Take(_split) => false,
        Step::Batch(reply) => owns(home, &reply.address),
        Step::Register(reply) => owns(home, &reply.address),
        Step::Due { address, .. } => owns(home, address),
    }
}

/// Whether all entries are of the partition's addresses.
fn owns_entries(home: Home, entries: &[Entry]) -> bool
    requires some { 1 ≤ home.partitions }
    requires most { home.partitions ≤ 16 }
    ensures { result ≡ list_all (owns_entry home) entries.now }
{
    entries.iter().all(|entry| owns_step(home, &entry.step))
}

/// Whether all that was given to egress comes from addresses of the partition.
fn owns_records(home: Home, egress: &[EgressRecord]) -> bool
    requires some { 1 ≤ home.partitions }
    requires most { home.partitions ≤ 16 }
    ensures { result ≡ list_all (owns_record home) egress.now }
{
    egress.iter().all(|given| owns(home, &given.sender))
}

/// Whether all letters go to addresses of the partition.
#[tactic(auto, unfolding(crate::specs::Pieces::owns_letters))]
pub fn owns_letters(home: Home, letters: &[Letter]) -> bool
    requires some { 1 ≤ home.partitions }
    requires most { home.partitions ≤ 16 }
    ensures { result ≡ owns_letters home letters.now }
{
    letters.iter().all(|letter| owns(home, &letter.target))
}

/// Whether all states are of the partition's addresses, with cells that an address may have.
fn owns_states(home: Home, states: &[AddressState]) -> bool
    requires some { 1 ≤ home.partitions }
    requires most { home.partitions ≤ 16 }
    ensures { result ≡ list_all (owns_state home) states.now }
{
    states.iter().all(|state| owns_state(home, state))
}

/// Whether all delayed letters were sent by addresses of the partition.
fn owns_delays(home: Home, delays: &[Delay]) -> bool
    requires some { 1 ≤ home.partitions }
    requires most { home.partitions ≤ 16 }
    ensures { result ≡ list_all (owns_delay home) delays.now }
{
    delays.iter().all(|delay| owns(home, &delay.sender))
}

/// Whether all of a piece belongs to the partition: the piece has its number; its entries, what they gave to egress, its
/// letters, states and delayed letters are of its addresses; and its states stand once each, in byte order of their
/// encoded addresses, with at most 64 cells each, whose names differ, modes are known and values have at most 1,048,576 bytes.
#[tactic(auto, unfolding(crate::specs::Pieces::owns_piece))]
pub fn owns_piece(alloc: Global, home: Home, piece: &Piece) -> Mem<bool>
    requires some { 1 ≤ home.partitions }
    requires most { home.partitions ≤ 16 }
    ensures { IfOk result (λ owned. owned ≡ owns_piece home piece.now) }
{
    let is_owned = piece.partition == home.partition
        && owns_entries(home, piece.entries.as_slice())
        && owns_records(home, piece.egress.as_slice())
        && owns_letters(home, piece.letters.as_slice())
        && owns_states(home, piece.states.as_slice())
        && owns_delays(home, piece.delays.as_slice());
    if is_owned {
        are_in_order(alloc, piece.states.as_slice())
    } else {
        Ok(false)
    }
}

/// The greatest moment in a piece, in milliseconds: when one of its addresses was served last, or a cell stamped.
#[tactic(auto, unfolding(crate::specs::Pieces::latest_in))]
pub fn latest_in(piece: &Piece) -> u64
    ensures { result ≡ latest_in piece.now }
{
    latest_of(piece.states.as_slice())
}
