//! What is kept of a partition.
ghost use Rattle.std.specs.Prelude.{◌≡◌, map, IfOk, OnOk};
ghost use Rattle.std.specs.Ordering.{nat_cmp};
ghost use Rattle.std.specs.Cmp.Lexicographic.{slice_cmp};
ghost use Rattle.std.specs.List.{AllByRecursion};
ghost use Rattle.std.specs.BTreeMap.{IsOrdered};
ghost use Rattle.state_cells.specs.Kept.{AreCells};
ghost use Rattle.keyed_queues.specs.Keys.{address_order};
ghost use Rattle.typed_values.specs.Spelling.{address_spelling};
ghost use Rattle.partition_core.specs.Kept.{work_of, cells_in, seen_in};
ghost use Rattle.partition_core.specs.KeptWork.{IsKeptOf, StandFor};
ghost use Rattle.partition_core.specs.States.{mode_number, kept_cell, kept_state, IsSound};

use crate::actor::Actor;
use crate::actors::Actors;
use crate::{KeptWork, Partition};
use piece_messages::{AddressState, CellState};
use proto_wire::{Bytes, List, Mem, TryClone};
use state_cells::Cells;
use std::alloc::Global;
use std::cmp::Ordering;
use std::collections::BTreeMap;
use typed_values::{Address, Cell, Expiry, encode_address};

impl Partition {
    /// Copies of all that a checkpoint keeps of the partition's work. Letters in flight are among the letters.
    #[tactic(auto, unfolding(crate::specs::Kept::work_of))]
    pub fn keep(&self) -> Mem<KeptWork>
        ensures { IfOk result (IsKeptOf (work_of self.now)) }
    {
        Ok(KeptWork {
            letters: self.mail.letters()?,
            states: self.actors.states(self.alloc)?,
            delays: self.delays.waiting()?,
        })
    }
}

impl Actors {
    /// Copies of what each address has, in byte order of the encoded addresses.
    fn states(&self, alloc: Global) -> Mem<List<AddressState>>
        ensures { IfOk result (StandFor (cells_in self.now) (seen_in self.now)) }
    {
        let mut all = gather(alloc, &self.actors)?;
        all.sort_by(by_key)?;
        states_of(alloc, all)
    }
}

/// The state of an address, and its encoded address.
#[derive(Drop)]
struct Encoded {
    key: Bytes,
    state: AddressState,
}

/// Copies of what each address has, in the order of the map.
fn gather(alloc: Global, actors: &BTreeMap<Address, Actor>) -> Mem<Vec<Encoded>>
    ensures all { IfOk result (λ all. all.items ≡ map
        (λ entry. record { key = address_spelling entry.0; state = kept_state entry.0 entry.1 })
        actors.now.entries) }
    ensures sound { OnOk result (AllByRecursion IsSound actors.now.entries) }
    ensures ordered { IsOrdered address_order actors.now }
{
    let mut all = Vec::with_capacity(alloc, actors.len())?;
    for (address, actor) in actors {
        all.push(Encoded {
            key: encode_address(alloc, address)?,
            state: kept_state(alloc, address, actor)?,
        })?;
    }
    Ok(all)
}

/// The order of the encoded addresses, by bytes.
fn by_key(one: &Encoded, other: &Encoded) -> Ordering
    ensures { result ≡ slice_cmp nat_cmp one.now.key other.now.key }
{
    one.key.cmp(&other.key)
}

/// The states without their encoded addresses.
fn states_of(alloc: Global, encoded: Vec<Encoded>) -> Mem<List<AddressState>>
    ensures { IfOk result (λ states. states ≡ map (λ one. one.state) encoded.items) }
{
    let mut states = List::new(alloc);
    for one in encoded {
        states.push(one.state)?;
    }
    Ok(states)
}

/// What is kept of an address.
fn kept_state(alloc: Global, address: &Address, actor: &Actor) -> Mem<AddressState>
    ensures state { IfOk result (λ state. state ≡ kept_state address.now actor.now) }
    ensures cells { OnOk result (AreCells actor.now.cells) }
{
    Ok(AddressState {
        address: address.try_clone(alloc)?,
        seen: actor.seen,
        cells: kept_cells(alloc, &actor.cells)?,
    })
}

/// What is kept of cells, in order of registration.
fn kept_cells(alloc: Global, cells: &Cells) -> Mem<List<CellState>>
    ensures kept { IfOk result (λ kept. kept ≡ map kept_cell cells.now) }
    ensures cells { AreCells cells.now }
{
    let mut kept = List::new(alloc);
    for place in 0..cells.len() {
        kept.push(kept_cell(alloc, cells.at(place))?)?;
    }
    Ok(kept)
}

/// What is kept of a cell.
fn kept_cell(alloc: Global, cell: &Cell) -> Mem<CellState>
    ensures { IfOk result (λ kept. kept ≡ kept_cell cell.now) }
{
    let value = match &cell.value {
        Some(value) => value.value.try_clone(alloc)?,
        None => Bytes::new(alloc),
    };
    Ok(CellState {
        name: cell.spec.name.try_clone(alloc)?,
        typename: cell.spec.typename.try_clone(alloc)?,
        mode: mode_number(cell.spec.mode),
        millis: cell.spec.millis,
        has_value: cell.value.is_some(),
        stamp: cell.stamp,
        value,
    })
}

/// The number of an expiry: 0 never, 1 after the last write, 2 after the last write or invocation.
fn mode_number(mode: Expiry) -> i32
    ensures { result ≡ mode_number mode }
{
    match mode {
        Expiry::Never => 0,
        Expiry::AfterWrite => 1,
        Expiry::AfterInvoke => 2,
    }
}
