//! The cells of an address.
ghost use Rattle.std.specs.Prelude.{◌≡◌, ◌<◌, [], length, map, slice_get, take, Some, IsTrue, IfOk, OnOk, OnErr, option_copied};
ghost use Rattle.typed_values.specs.Cells.{found, registered, changed, written, emptied, invoked, shipped};
ghost use Rattle.state_cells.specs.Answers.{Answers, registering, modifying, deleting};
ghost use Rattle.state_cells.specs.Kept.{AreCells};

use crate::CellFault;
use crate::kept::{clear_named, copy_named, invoke_all, register_named, ship_all, write_named};
use indexmap::IndexMap;
use proto_wire::{List, Mem, Text, TryClone};
use std::alloc::Global;
use std::marker::Model;
use typed_values::{Cell, CellSpec, Shipped, TypedValue};

/// The cells of an address. Contracts see the list of them, in order of registration.
#[derive(Drop)]
pub struct Cells {
    cells: IndexMap<Text, Cell>,
    alloc: Global,
}

impl Model for Cells {
    ghost use Rattle.std.specs.Prelude.{List};
    ghost use Rattle.indexmap.specs.IndexMap.{values};
    ghost use Rattle.typed_values.specs.declared.cells.Cell.{Cell as OneCell};
    ghost use Rattle.state_cells.specs.Kept.{AreCells, AreNamed};

    ghost Value = { List OneCell };

    ghost view = { λ c. values c.cells };

    ghost invariant = { λ c. AreNamed c.cells.entries × AreCells (values c.cells) };
}

impl Cells {
    /// No cells. `OutOfMemory` is free.
    pub fn new(alloc: Global) -> Mem<Cells>
        ensures { IfOk result (λ cells. cells ≡ []) }
    {
        Ok(Cells {
            cells: IndexMap::new(alloc),
            alloc,
        })
    }

    /// How many cells there are: at most 64, each of another name, and a value is one of its cell's type and size.
    pub fn len(&self) -> usize
        ensures count { result ≡ length self.now }
        ensures kept { AreCells self.now }
    {
        self.cells.len()
    }

    /// The cell at a place, in order of registration.
    pub fn at(&self, place: usize) -> &Cell
        requires { place < length self.now }
        ensures { slice_get self.now place ≡ Some result.now }
    {
        &self.cells[place]
    }

    /// The cell of a name; `None` exactly where no cell has it.
    pub fn find(&self, name: &Text) -> Option<&Cell>
        ensures { option_copied result ≡ found name.now self.now }
    {
        self.cells.get(name)
    }

    /// Adds a cell without a value, last, where the name is new, and is true there. False where a cell of that name holds
    /// the same type; it stays as it is. `TypeDiffers` exactly where it holds another, `TooMany` exactly where the name is
    /// new and there are 64 cells, `OutOfMemory` only where the cell would be added. A refusal changes nothing.
    pub fn register(&mut self, spec: CellSpec) -> Result<bool, CellFault>
        ensures answer { Answers (registering spec self.old) result }
        ensures cells { OnOk result (self.new ≡ registered spec self.old) }
        ensures refused { OnErr result (self.new ≡ self.old) }
    {
        register_named(&mut self.cells, self.alloc, spec)
    }

    /// Writes a value into the cell of a name, at a moment in milliseconds. In this order: `UnknownName` where no cell has
    /// the name, `TypeDiffers` where it holds another type, `TooLarge` where the value has more than 1,048,576 bytes. A
    /// refusal changes nothing. Takes no memory.
    pub fn modify(&mut self, name: &Text, value: TypedValue, moment: u64) -> Result<(), CellFault>
        requires { IsTrue value.has_value }
        ensures answer { result ≡ modifying name.now value self.old }
        ensures cells { OnOk result (self.new ≡ changed (written value moment) name.now self.old) }
        ensures refused { OnErr result (self.new ≡ self.old) }
    {
        write_named(&mut self.cells, name, value, moment)
    }

    /// Drops the value of the cell of a name; `UnknownName` exactly where no cell has it. Takes no memory.
    pub fn delete(&mut self, name: &Text) -> Result<(), CellFault>
        ensures answer { result ≡ deleting name.now self.old }
        ensures cells { self.new ≡ changed emptied name.now self.old }
    {
        clear_named(&mut self.cells, name)
    }

    /// What an invocation at a moment does to the cells: values that have expired are dropped, and then the time of each
    /// value that counts from the last invocation begins. Takes no memory.
    pub fn invoked(&mut self, moment: u64)
        ensures { self.new ≡ map (invoked moment) self.old }
    {
        invoke_all(&mut self.cells, moment);
    }

    /// Drops all cells but the first so many, in order of registration. Takes no memory.
    pub fn truncate(&mut self, len: usize)
        ensures { self.new ≡ take len self.old }
    {
        self.cells.truncate(len);
    }

    /// All cells as a request at a moment carries them, in order.
    pub fn shipped(&self, moment: u64) -> Mem<List<Shipped>>
        ensures { IfOk result (λ list. list ≡ map (shipped moment) self.now) }
    {
        ship_all(self.alloc, self.cells.values().as_slice(), moment)
    }
}

impl TryClone for Cells {
    fn try_clone(&self, alloc: Global) -> Mem<Cells> {
        let cells = copy_named(alloc, self.cells.values().as_slice())?;
        Ok(Cells { cells, alloc })
    }
}
