//! The states of a piece.
ghost use Rattle.std.specs.Prelude.{◌≡◌, ◌≤◌, IfOk, map, max, true};
ghost use Rattle.std.specs.List.{list_all, list_any};
ghost use Rattle.std.specs.Option.{option_map_or};
ghost use Rattle.std.specs.Ordering.{nat_cmp, is_lt};
ghost use Rattle.std.specs.Cmp.Lexicographic.{slice_cmp};
ghost use Rattle.typed_values.specs.Sameness.{same_bytes};
ghost use Rattle.address_routing.specs.Routing.{all_apart};
ghost use Rattle.folder_form.specs.Pieces.{are_cells, are_in_order, cell_name, is_cell, latest_cell, latest_state, owns_state};

use crate::pieces::{Home, owns};
use piece_messages::{AddressState, CellState};
use proto_wire::{Bytes, Mem};
use std::alloc::Global;
use typed_values::encode_address;

/// The most cells of an address.
const MOST_CELLS: usize = 64;

/// The most bytes of a cell's value.
const MOST_BYTES: usize = 1_048_576;

/// Whether a cell's mode is known, and its value no longer than a value may be.
fn is_cell(cell: &CellState) -> bool
    ensures { result ≡ is_cell cell.now }
{
    0 <= cell.mode && cell.mode <= 2 && cell.value.len() <= MOST_BYTES
}

/// Whether two cells have one name.
fn is_same_name(a: &CellState, b: &CellState) -> bool
    ensures { result ≡ same_bytes (cell_name a.now) (cell_name b.now) }
{
    a.name.as_bytes() == b.name.as_bytes()
}

/// Whether one of some cells has the name of another.
fn has_name_of(cell: &CellState, others: &[CellState]) -> bool
    ensures { result ≡ list_any (λ other. same_bytes (cell_name cell.now) (cell_name other)) others.now }
{
    others.iter().any(|other| is_same_name(cell, other))
}

/// Whether each name stands once.
fn are_apart(cells: &[CellState]) -> bool
    ensures { result ≡ all_apart same_bytes (map cell_name cells.now) }
{
    let mut rest = cells;
    while let Some((cell, others)) = rest.split_first() {
        if has_name_of(cell, others) {
            return false;
        }
        rest = others;
    }
    true
}

/// Whether all cells are such as an address may have.
fn are_all_cells(cells: &[CellState]) -> bool
    ensures { result ≡ list_all is_cell cells.now }
{
    cells.iter().all(|cell| is_cell(cell))
}

/// Whether an address may have these cells.
fn are_cells(cells: &[CellState]) -> bool
    ensures { result ≡ are_cells cells.now }
{
    cells.len() <= MOST_CELLS && are_apart(cells) && are_all_cells(cells)
}

/// Whether a state is of the partition, with cells that an address may have.
pub(crate) fn owns_state(home: Home, state: &AddressState) -> bool
    requires some { 1 ≤ home.partitions }
    requires most { home.partitions ≤ 16 }
    ensures { result ≡ owns_state home state.now }
{
    owns(home, &state.address) && are_cells(state.cells.as_slice())
}

/// Whether a spelling stands behind the one before, where there is one.
fn follows(before: &Option<Bytes>, spelled: &[u8]) -> bool
    ensures { result ≡ option_map_or (λ bytes. is_lt (slice_cmp nat_cmp bytes spelled.now)) before.now true }
{
    match before {
        Some(before) => before.as_slice().cmp(spelled).is_lt(),
        None => true,
    }
}

/// Whether states stand once each, in byte order of their encoded addresses.
pub(crate) fn are_in_order(alloc: Global, states: &[AddressState]) -> Mem<bool>
    ensures { IfOk result (λ ordered. ordered ≡ are_in_order states.now) }
{
    let mut before: Option<Bytes> = None;
    for state in states {
        let spelled = encode_address(alloc, &state.address)?;
        if !follows(&before, spelled.as_slice()) {
            return Ok(false);
        }
        before = Some(spelled);
    }
    Ok(true)
}

/// The greatest stamp of cells.
fn latest_cell(cells: &[CellState]) -> u64
    ensures { result ≡ latest_cell cells.now }
{
    let mut latest = 0;
    for cell in cells {
        latest = cell.stamp.max(latest);
    }
    latest
}

/// The greatest moment of a state.
fn latest_in_state(state: &AddressState) -> u64
    ensures { result ≡ max state.now.seen (latest_cell state.now.cells) }
{
    state.seen.max(latest_cell(state.cells.as_slice()))
}

/// The greatest moment of states.
pub(crate) fn latest_of(states: &[AddressState]) -> u64
    ensures { result ≡ latest_state states.now }
{
    let mut latest = 0;
    for state in states {
        latest = latest_in_state(state).max(latest);
    }
    latest
}
