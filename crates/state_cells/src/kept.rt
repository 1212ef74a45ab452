//! The cells under their names.
ghost use Rattle.std.specs.Prelude.{◌≡◌, ◌++◌, [], ◌∷◌, IsTrue, None, Some, IfOk, OnOk, OnErr, map, length, option_copied};
ghost use Rattle.std.specs.Cmp.Lexicographic.{pointwise};
ghost use Rattle.std.specs.Prelude.{nat_eq};
ghost use Rattle.std.specs.List.{IsDistinct};
ghost use Rattle.typed_values.specs.Sameness.{same_bytes};
ghost use Rattle.indexmap.specs.IndexMap.{get, IsUnique};
ghost use Rattle.typed_values.specs.Cells.{empty, emptied, written, invoked, shipped};
ghost use Rattle.state_cells.specs.Answers.{Answers, declared, taking, clearing};
ghost use Rattle.state_cells.specs.Kept.{IsSet, IsAdded, after_each, name_of, under_name};

use crate::CellFault;
use indexmap::IndexMap;
use proto_wire::{List, Mem, Text, TryClone};
use std::alloc::Global;
use typed_values::{Cell, CellSpec, Shipped, TypedValue};

/// The most cells of an address.
pub const MOST_CELLS: usize = 64;

/// The most bytes of a cell's value.
pub const MOST_BYTES: usize = 1_048_576;

/// Adds a cell without a value under its name, which must be new. An `Err` changes nothing.
fn add(cells: &mut IndexMap<Text, Cell>, alloc: Global, spec: CellSpec) -> Mem<()>
    requires { get (pointwise nat_eq) cells.old spec.name ≡ None }
    ensures ok { OnOk result (cells.new.entries ≡ cells.old.entries ++ (spec.name, empty spec) ∷ []) }
    ensures err { OnErr result (cells.new.entries ≡ cells.old.entries) }
    ensures unique { OnOk result (IsUnique (pointwise nat_eq) cells.new) }
{
    let name = spec.name.try_clone(alloc)?;
    let cell = Cell {
        spec,
        value: None,
        stamp: 0,
    };
    cells.insert(name, cell)?;
    Ok(())
}

/// Whether a declaration is of a new name, where it may be registered beside so many cells; a cell of the name is handed in.
fn is_new(spec: &CellSpec, cell: Option<&Cell>, count: usize) -> Result<bool, CellFault>
    ensures { result ≡ declared spec.now (option_copied cell.entry) count }
{
    match cell {
        Some(cell) => {
            if spec.typename == cell.spec.typename {
                Ok(false)
            } else {
                Err(CellFault::TypeDiffers)
            }
        }
        None => {
            if count >= MOST_CELLS {
                Err(CellFault::TooMany)
            } else {
                Ok(true)
            }
        }
    }
}

/// Adds a cell where its name is new and it may be registered.
pub fn register_named(
    cells: &mut IndexMap<Text, Cell>,
    alloc: Global,
    spec: CellSpec,
) -> Result<bool, CellFault>
    ensures answer { Answers (declared spec (get (pointwise nat_eq) cells.old spec.name) (length cells.old.entries)) result }
    ensures cells { IfOk result (λ is_new. IsAdded spec is_new cells.old.entries cells.new.entries) }
    ensures unique { OnOk result (IsUnique (pointwise nat_eq) cells.new) }
    ensures refused { OnErr result (cells.new.entries ≡ cells.old.entries) }
{
    let is_new = is_new(&spec, cells.get(&spec.name), cells.len())?;
    if is_new {
        add(cells, alloc, spec)?;
    }
    Ok(is_new)
}

/// Writes a value into a cell, where it takes it.
fn write(cell: &mut Cell, value: TypedValue, moment: u64) -> Result<(), CellFault>
    ensures answer { result ≡ taking value (Some cell.old) }
    ensures cell { OnOk result (cell.new ≡ written value moment cell.old) }
    ensures refused { OnErr result (cell.new ≡ cell.old) }
{
    if cell.spec.typename != value.typename {
        return Err(CellFault::TypeDiffers);
    }
    if value.value.len() > MOST_BYTES {
        return Err(CellFault::TooLarge);
    }
    cell.write(value, moment);
    Ok(())
}

/// Writes a value into the cell of a name.
pub fn write_named(
    cells: &mut IndexMap<Text, Cell>,
    name: &Text,
    value: TypedValue,
    moment: u64,
) -> Result<(), CellFault>
    ensures answer { result ≡ taking value (get (pointwise nat_eq) cells.old name.now) }
    ensures cells { OnOk result (IsSet (written value moment) name.now cells.old.entries cells.new.entries) }
    ensures refused { OnErr result (cells.new.entries ≡ cells.old.entries) }
{
    match cells.get_mut(name) {
        Some(cell) => write(cell, value, moment),
        None => Err(CellFault::UnknownName),
    }
}

/// Drops the value of the cell of a name.
pub fn clear_named(cells: &mut IndexMap<Text, Cell>, name: &Text) -> Result<(), CellFault>
    ensures answer { result ≡ clearing (get (pointwise nat_eq) cells.old name.now) }
    ensures cells { OnOk result (IsSet emptied name.now cells.old.entries cells.new.entries) }
    ensures refused { OnErr result (cells.new.entries ≡ cells.old.entries) }
{
    match cells.get_mut(name) {
        Some(cell) => {
            cell.clear();
            Ok(())
        }
        None => Err(CellFault::UnknownName),
    }
}

/// Each cell is invoked.
pub fn invoke_all(cells: &mut IndexMap<Text, Cell>, moment: u64)
    ensures { cells.new.entries ≡ map (after_each (invoked moment)) cells.old.entries }
{
    for place in 0..cells.len() {
        cells[place].invoke(moment);
    }
}

/// Copies of cells, each under its name.
pub fn copy_named(alloc: Global, cells: &[Cell]) -> Mem<IndexMap<Text, Cell>>
    requires { IsDistinct same_bytes (map name_of cells.now) }
    ensures { IfOk result (λ copy. copy.entries ≡ map under_name cells.now) }
{
    let mut copy = IndexMap::with_capacity(alloc, cells.len())?;
    for cell in cells {
        copy.insert(cell.spec.name.try_clone(alloc)?, cell.try_clone(alloc)?)?;
    }
    Ok(copy)
}

/// Cells as a request at a moment carries them, in order.
pub fn ship_all(alloc: Global, cells: &[Cell], moment: u64) -> Mem<List<Shipped>>
    ensures { IfOk result (λ list. list ≡ map (shipped moment) cells.now) }
{
    let mut list = List::new(alloc);
    for cell in cells {
        list.push(cell.ship(alloc, moment)?)?;
    }
    Ok(list)
}
