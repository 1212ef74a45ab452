//! A partition from what was kept of one.
ghost use Rattle.std.specs.Prelude.{◌≡◌, ◌<◌, ◌≤◌, ◌∷◌, [], ◌++◌, length, map, true, None, Ok, IsTrue, IfOk, OnOk};
ghost use Rattle.std.specs.List.{list_all};
ghost use Rattle.typed_values.specs.Cells.{found, registered, changed, written};
ghost use Rattle.request_reply.specs.Flaws.{mode_of};
ghost use Rattle.state_cells.specs.Answers.{registering, modifying};
ghost use Rattle.piece_messages.specs.Stands.{cell_of, cells_at, seen_at};
ghost use Rattle.folder_form.specs.Pieces.{are_cells, most_cells, most_bytes};
ghost use Rattle.partition_core.specs.Kept.{work_of, cells_in, seen_in};
ghost use Rattle.partition_core.specs.KeptWork.{kept_work};
ghost use Rattle.partition_core.specs.States.{IsRestored};

use crate::actor::Actor;
use crate::actors::Actors;
use crate::{KeptWork, Partition};
use batch_queue::Mail;
use delayed_messages::Delays;
use piece_messages::{AddressState, CellState};
use proto_wire::{List, Mem, OutOfMemory, Text, TryClone};
use state_cells::{CellFault, Cells};
use std::alloc::Global;
use typed_values::{CellSpec, Delay, Expiry, TypedValue};

impl Partition {
    /// The partition that has to do what was kept of one. None of its letters is in flight. An address may have the cells of its
    /// state: at most 64, each of another name and of a known mode, with a value of at most 1,048,576 bytes.
    #[tactic(auto, unfolding(crate::specs::Kept::work_of))]
    pub fn restore(alloc: Global, kept: KeptWork) -> Mem<Partition>
        requires { list_all (λ state. are_cells state.cells) kept.states ≡ true }
        ensures { IfOk result (λ partition. work_of partition ≡ kept_work kept.letters kept.states kept.delays) }
    {
        let KeptWork {
            letters,
            states,
            delays,
        } = kept;
        let mut partition = Partition {
            alloc,
            mail: Mail::new(alloc)?,
            actors: Actors::of_states(alloc, states)?,
            delays: waiting_again(alloc, delays)?,
            none: Cells::new(alloc)?,
        };
        partition.post(letters)?;
        Ok(partition)
    }
}

impl Actors {
    /// What the states of addresses stand for. Of two states of one address the first counts.
    fn of_states(alloc: Global, states: List<AddressState>) -> Mem<Actors>
        requires { list_all (λ state. are_cells state.cells) states ≡ true }
        ensures cells { IfOk result (λ actors. cells_in actors ≡ cells_at states) }
        ensures seen { IfOk result (λ actors. seen_in actors ≡ seen_at states) }
    {
        let mut actors = Actors::new(alloc);
        let mut rest = states.into_vec();
        while let Some(state) = rest.pop() {
            actors.put(alloc, state)?;
        }
        Ok(actors)
    }

    /// Makes an address have what its state stands for, whatever it had before.
    fn put(&mut self, alloc: Global, state: AddressState) -> Mem<()>
        requires { are_cells state.cells ≡ true }
        ensures { OnOk result (IsRestored state self.old self.new) }
    {
        let AddressState {
            address,
            seen,
            cells,
        } = state;
        let actor = Actor {
            cells: restored_cells(alloc, cells)?,
            seen,
        };
        self.actors.insert(address, actor)?;
        Ok(())
    }
}

/// The cells that were kept: at most 64, each of another name and of a known mode, with a value of at most 1,048,576 bytes.
pub fn restored_cells(alloc: Global, kept: List<CellState>) -> Mem<Cells>
    requires { are_cells kept ≡ true }
    ensures { IfOk result (λ cells. cells ≡ map cell_of kept) }
{
    let mut cells = Cells::new(alloc)?;
    for cell in kept.into_vec() {
        restore_cell(alloc, &mut cells, cell)?;
    }
    Ok(cells)
}

/// Puts a cell that was kept behind the others.
fn restore_cell(alloc: Global, cells: &mut Cells, kept: CellState) -> Mem<()>
    requires name { found kept.name cells.old ≡ None }
    requires count { length cells.old < most_cells }
    requires size { length kept.value ≤ most_bytes }
    ensures { OnOk result (cells.new ≡ cells.old ++ cell_of kept ∷ []) }
{
    add(cells, spec_of(alloc, &kept)?)?;
    if kept.has_value {
        let value = TypedValue {
            typename: kept.typename,
            has_value: true,
            value: kept.value,
        };
        write(cells, &kept.name, value, kept.stamp);
    }
    Ok(())
}

/// A copy of what was declared of a cell.
fn spec_of(alloc: Global, kept: &CellState) -> Mem<CellSpec>
    ensures { IfOk result (λ spec. spec ≡ (cell_of kept.now).spec) }
{
    Ok(CellSpec {
        name: kept.name.try_clone(alloc)?,
        typename: kept.typename.try_clone(alloc)?,
        mode: mode_of(kept.mode),
        millis: kept.millis,
    })
}

/// Adds a cell of a new name, where there are not too many.
fn add(cells: &mut Cells, spec: CellSpec) -> Mem<()>
    requires { registering spec cells.old ≡ Ok true }
    ensures { OnOk result (cells.new ≡ registered spec cells.old) }
{
    match cells.register(spec) {
        Ok(_is_new) => Ok(()),
        Err(CellFault::OutOfMemory) => Err(OutOfMemory),
        Err(CellFault::UnknownName)
        | Err(CellFault::TypeDiffers)
        | Err(CellFault::TooMany)
        | Err(CellFault::TooLarge) => unreachable!(),
    }
}

/// Writes a value into the cell of a name, which takes it.
fn write(cells: &mut Cells, name: &Text, value: TypedValue, moment: u64)
    requires some { IsTrue value.has_value }
    requires takes { modifying name.now value cells.old ≡ Ok tt }
    ensures { cells.new ≡ changed (written value moment) name.now cells.old }
{
    let _written = cells.modify(name, value, moment);
}

/// The expiry of a number: 0 never, 1 after the last write, 2 after the last write or invocation.
fn mode_of(mode: i32) -> Expiry
    ensures { result ≡ mode_of mode }
{
    if mode > 1 {
        Expiry::AfterInvoke
    } else if mode > 0 {
        Expiry::AfterWrite
    } else {
        Expiry::Never
    }
}

/// Delays that wait, in order of put.
fn waiting_again(alloc: Global, list: List<Delay>) -> Mem<Delays>
    ensures { IfOk result (λ delays. delays.delays ≡ list) }
{
    let mut delays = Delays::new(alloc)?;
    delays.reserve(list.len())?;
    for delay in list.into_vec() {
        delays.put(delay);
    }
    Ok(delays)
}
