//! Machines that stand at what checkpoints hold.
ghost use Rattle.std.specs.Prelude.{◌≡◌, ◌↔◌, true, [], ◌∷◌, IsTrue, IfOk, OnOk};
ghost use Rattle.run_record.specs.StateOf.{state_of};
ghost use Rattle.folder_form.specs.Pieces.{are_cells};
ghost use Rattle.checkpoint_state.specs.Stored.{delays_in, letters_in, on_the_way, states_in};
ghost use Rattle.checkpoint_state.specs.Matching.{HaveCells, StandsAt, with_delays, with_letters, with_states};

use folder_form::Loaded;
use partition_core::restored_cells;
use piece_messages::{AddressState, CellState, Piece};
use proto_wire::{List, Mem, TryClone};
use run_record::Machine;
use std::alloc::Global;
use typed_values::{Delay, Letter};

/// Whether a machine stands at what a checkpoint holds: of each split as many records taken, of each address the same cells,
/// moment and delayed letters, and for each pair of sender and target the same letters in the same order. What was given to
/// egresses is not compared. An address may have the cells of its state: at most 64, each of another name and of a known mode,
/// with a value of at most 1,048,576 bytes.
pub fn matches(alloc: Global, machine: &Machine, loaded: &Loaded) -> Mem<bool>
    requires { HaveCells (states_in loaded.now.pieces) }
    ensures { IfOk result (λ same. IsTrue same ↔ StandsAt (state_of machine.now) loaded.now) }
{
    let stored = machine_of(alloc, loaded)?;
    machine.matches(&stored)
}

/// A machine that stands at what a checkpoint holds, and gave nothing to egresses. Of two states of one address the first
/// counts. An address may have the cells of its state: at most 64, each of another name and of a known mode, with a value of
/// at most 1,048,576 bytes.
pub fn machine_of(alloc: Global, loaded: &Loaded) -> Mem<Machine>
    requires { HaveCells (states_in loaded.now.pieces) }
    ensures { IfOk result (λ machine. StandsAt (state_of machine) loaded.now) }
{
    let pieces = loaded.pieces.as_slice();
    let mut machine = Machine::with_counts(alloc, loaded.taken.as_slice())?;
    put_letters_in(alloc, &mut machine, pieces)?;
    put_on_the_way(alloc, &mut machine, loaded.feedback.as_slice())?;
    put_delays_in(alloc, &mut machine, pieces)?;
    put_states_in(alloc, &mut machine, pieces)?;
    Ok(machine)
}

/// The letters of pieces go last in the mail of their pairs, in order.
fn put_letters_in(alloc: Global, machine: &mut Machine, pieces: &[Piece]) -> Mem<()>
    ensures { OnOk result (state_of machine.new ≡ with_letters (letters_in pieces.now) (state_of machine.old)) }
{
    for piece in pieces {
        put_letters(alloc, machine, piece.letters.as_slice())?;
    }
    Ok(())
}

/// The letters that were on the way go last in the mail of their pairs, in order.
fn put_on_the_way(alloc: Global, machine: &mut Machine, feedback: &[List<Letter>]) -> Mem<()>
    ensures { OnOk result (state_of machine.new ≡ with_letters (on_the_way feedback.now) (state_of machine.old)) }
{
    for letters in feedback {
        put_letters(alloc, machine, letters.as_slice())?;
    }
    Ok(())
}

/// Letters go last in the mail of their pairs, in order.
fn put_letters(alloc: Global, machine: &mut Machine, letters: &[Letter]) -> Mem<()>
    ensures { OnOk result (state_of machine.new ≡ with_letters letters.now (state_of machine.old)) }
{
    for letter in letters {
        machine.put_letter(alloc, letter)?;
    }
    Ok(())
}

/// The delayed letters of pieces wait behind those of their senders, in order.
fn put_delays_in(alloc: Global, machine: &mut Machine, pieces: &[Piece]) -> Mem<()>
    ensures { OnOk result (state_of machine.new ≡ with_delays (delays_in pieces.now) (state_of machine.old)) }
{
    for piece in pieces {
        put_delays(alloc, machine, piece.delays.as_slice())?;
    }
    Ok(())
}

/// Delayed letters wait behind those of their senders, in order.
fn put_delays(alloc: Global, machine: &mut Machine, delays: &[Delay]) -> Mem<()>
    ensures { OnOk result (state_of machine.new ≡ with_delays delays.now (state_of machine.old)) }
{
    for delay in delays {
        machine.put_delay(alloc, delay)?;
    }
    Ok(())
}

/// Addresses have what their states in pieces say. Of two states of one address the first counts.
fn put_states_in(alloc: Global, machine: &mut Machine, pieces: &[Piece]) -> Mem<()>
    requires { HaveCells (states_in pieces.now) }
    ensures { OnOk result (state_of machine.new ≡ with_states (states_in pieces.now) (state_of machine.old)) }
{
    let mut rest = pieces;
    while let Some((piece, others)) = rest.split_last() {
        put_states(alloc, machine, piece.states.as_slice())?;
        rest = others;
    }
    Ok(())
}

/// Addresses have what their states say. Of two states of one address the first counts.
fn put_states(alloc: Global, machine: &mut Machine, states: &[AddressState]) -> Mem<()>
    requires { HaveCells states.now }
    ensures { OnOk result (state_of machine.new ≡ with_states states.now (state_of machine.old)) }
{
    let mut rest = states;
    while let Some((state, others)) = rest.split_last() {
        put_state(alloc, machine, state)?;
        rest = others;
    }
    Ok(())
}

/// An address has what its state says.
fn put_state(alloc: Global, machine: &mut Machine, state: &AddressState) -> Mem<()>
    requires { are_cells state.now.cells ≡ true }
    ensures { OnOk result (state_of machine.new ≡ with_states (state.now ∷ []) (state_of machine.old)) }
{
    let cells = restored_cells(alloc, copied_cells(alloc, state.cells.as_slice())?)?;
    machine.put_cells(alloc, &state.address, cells, state.seen)
}

/// A copy of cells.
fn copied_cells(alloc: Global, cells: &[CellState]) -> Mem<List<CellState>>
    ensures { IfOk result (λ copy. copy ≡ cells.now) }
{
    let mut copy = List::new(alloc);
    for cell in cells {
        copy.push(copied_cell(alloc, cell)?)?;
    }
    Ok(copy)
}

/// A copy of a cell.
fn copied_cell(alloc: Global, cell: &CellState) -> Mem<CellState>
    ensures { IfOk result (λ copy. copy ≡ cell.now) }
{
    Ok(CellState {
        name: cell.name.try_clone(alloc)?,
        typename: cell.typename.try_clone(alloc)?,
        mode: cell.mode,
        millis: cell.millis,
        has_value: cell.has_value,
        stamp: cell.stamp,
        value: cell.value.try_clone(alloc)?,
    })
}
