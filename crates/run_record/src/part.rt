//! What an address has of its own.
ghost use Rattle.std.specs.Prelude.{◌≡◌, ◌<◌, ◌≤◌, ◌+◌, map, length, IsTrue, ◌↔◌, IfOk, Ok, true, OnOk, OnErr, option_copied, slice_get};
ghost use Rattle.typed_values.specs.Cells.{registered};
ghost use Rattle.state_cells.specs.Answers.{registering};
ghost use Rattle.state_cells.specs.Lifetimes.{Registers, after as cell_after, after_all as cells_after};
ghost use Rattle.delayed_messages.specs.Laws.{after as delay_after, after_all as delays_after};
ghost use Rattle.invocation.specs.Laws.{Takes, TakesAll, AreNew};
ghost use Rattle.run_record.specs.Machine.{cell_call, delay_call, nothing};
ghost use Rattle.run_record.specs.StateOf.{own_of, after_batch, after_registration, after_due};

use delayed_messages::Delays;
use invocation::{Change, DelayChange};
use keyed_queues::{Exact, same_all};
use proto_wire::{List, Mem, OutOfMemory};
use state_cells::{CellFault, Cells};
use std::alloc::Global;
use typed_values::{Address, Cell, CellSpec};

/// The cells of an address, the moment of its last batch or registration, and its delayed letters that wait.
#[derive(Drop)]
pub(crate) struct Part {
    pub(crate) cells: Cells,
    pub(crate) seen: u64,
    pub(crate) delays: Delays,
}

impl Part {
    /// Nothing.
    pub(crate) fn new(alloc: Global) -> Mem<Part>
        ensures { IfOk result (λ part. own_of part ≡ nothing) }
    {
        Ok(Part {
            cells: Cells::new(alloc)?,
            seen: 0,
            delays: Delays::new(alloc)?,
        })
    }

    /// The cell at a place, in order of registration.
    pub(crate) fn cell(&self, place: usize) -> Option<&Cell>
        ensures { option_copied result ≡ slice_get self.now.cells place }
    {
        if place < self.cells.len() {
            Some(self.cells.at(place))
        } else {
            None
        }
    }

    /// Whether it is nothing.
    #[tactic(auto, using(crate::proofs::Changes::is_nothing))]
    pub(crate) fn is_nothing(&self) -> bool
        ensures { IsTrue result ↔ (own_of self.now ≡ nothing) }
    {
        if self.cells.len() > 0 || self.seen > 0 {
            return false;
        }
        match self.delays.first() {
            Some(_delay) => false,
            None => true,
        }
    }

    /// Whether another part is the same.
    pub(crate) fn same(&self, other: &Part) -> Mem<bool>
        ensures { IfOk result (λ same. IsTrue same ↔ (own_of self.now ≡ own_of other.now)) }
    {
        if self.seen != other.seen || !same_cells(&self.cells, &other.cells) {
            return Ok(false);
        }
        let own = self.delays.waiting()?;
        let others = other.delays.waiting()?;
        Ok(same_all(own.as_slice(), others.as_slice()))
    }

    /// Makes room for so many delays.
    pub(crate) fn reserve(&mut self, delays: usize) -> Mem<()>
        ensures room { OnOk result (delays ≤ self.new.delays.spare) }
        ensures same { own_of self.new ≡ own_of self.old }
    {
        self.delays.reserve(delays)
    }

    /// What a batch of the address does at a moment. There is room for the delays. Takes no memory.
    pub(crate) fn serve(
        &mut self,
        address: &Address,
        moment: u64,
        mutations: List<Change>,
        delays: List<DelayChange>,
    )
        requires fits { TakesAll self.old.cells mutations }
        requires room { length delays ≤ self.old.delays.spare }
        ensures { own_of self.new ≡ after_batch address.now moment mutations delays (own_of self.old) }
    {
        self.cells.invoked(moment);
        change_cells(&mut self.cells, moment, mutations);
        self.seen = moment;
        change_delays(&mut self.delays, address, delays);
    }

    /// What a registration of new cells does at a moment. An `Err` leaves all.
    pub(crate) fn register(&mut self, specs: List<CellSpec>, moment: u64) -> Mem<()>
        requires { AreNew self.old.cells specs }
        ensures ok { OnOk result (own_of self.new ≡ after_registration moment specs (own_of self.old)) }
        ensures err { OnErr result (own_of self.new ≡ own_of self.old) }
    {
        register_all(&mut self.cells, specs)?;
        self.seen = moment;
        Ok(())
    }

    /// Drops the delay that is due at a moment, if one is.
    #[tactic(auto, using(crate::proofs::Changes::left_due))]
    pub(crate) fn drop_due(&mut self, moment: u64)
        ensures { own_of self.new ≡ after_due moment (own_of self.old) }
    {
        let _sent = self.delays.next_due(moment);
    }
}

/// Makes changes of cells that take them, in order.
pub fn change_cells(cells: &mut Cells, moment: u64, changes: List<Change>)
    requires { TakesAll cells.old changes }
    ensures { cells.new ≡ cells_after (map (cell_call moment) changes) cells.old }
{
    for change in changes.into_vec() {
        change_cell(cells, moment, change);
    }
}

/// Makes a change of a cell that takes it.
fn change_cell(cells: &mut Cells, moment: u64, change: Change)
    requires { Takes cells.old change }
    ensures { cells.new ≡ cell_after (cell_call moment change) cells.old }
{
    match change {
        Change::Set { name, value } => {
            let _written = cells.modify(&name, value, moment);
        }
        Change::Clear { name } => {
            let _cleared = cells.delete(&name);
        }
    }
}

/// Puts and cancels delays of an address, in order. There is room for them.
pub fn change_delays(delays: &mut Delays, address: &Address, changes: List<DelayChange>)
    requires { length changes ≤ delays.old.spare }
    ensures { delays.new.delays ≡ delays_after (map (delay_call address.now) changes) delays.old.delays }
{
    for change in changes.into_vec() {
        change_delay(delays, address, change);
    }
}

/// Puts a delay of an address, or cancels some. There is room for it.
fn change_delay(delays: &mut Delays, address: &Address, change: DelayChange)
    requires { 0 < delays.old.spare }
    ensures delays { delays.new.delays ≡ delay_after (delay_call address.now change) delays.old.delays }
    ensures spare { delays.old.spare ≤ delays.new.spare + 1 }
{
    match change {
        DelayChange::Add(delay) => delays.put(delay),
        DelayChange::Cancel(token) => {
            let _count = delays.cancel(address, &token);
        }
    }
}

/// Registers new cells in order. An `Err` leaves the cells as they were.
pub fn register_all(cells: &mut Cells, specs: List<CellSpec>) -> Mem<()>
    requires { AreNew cells.old specs }
    ensures ok { OnOk result (cells.new ≡ cells_after (map Registers specs) cells.old) }
    ensures err { OnErr result (cells.new ≡ cells.old) }
{
    let before = cells.len();
    for spec in specs.into_vec() {
        if let Err(refused) = register_new(cells, spec) {
            cells.truncate(before);
            return Err(refused);
        }
    }
    Ok(())
}

/// Registers a new cell. An `Err` leaves the cells as they were.
fn register_new(cells: &mut Cells, spec: CellSpec) -> Mem<()>
    requires { registering spec cells.old ≡ Ok true }
    ensures ok { OnOk result (cells.new ≡ registered spec cells.old) }
    ensures err { OnErr result (cells.new ≡ cells.old) }
{
    match cells.register(spec) {
        Ok(_is_new) => Ok(()),
        Err(CellFault::OutOfMemory) => Err(OutOfMemory),
        Err(CellFault::UnknownName)
        | Err(CellFault::TypeDiffers)
        | Err(CellFault::TooMany)
        | Err(CellFault::TooLarge) => unreachable!(),
    }
}

/// Whether two addresses have the same cells in the same order.
fn same_cells(one: &Cells, other: &Cells) -> bool
    ensures { IsTrue result ↔ (one.now ≡ other.now) }
{
    if one.len() != other.len() {
        return false;
    }
    for place in 0..one.len() {
        if !one.at(place).same(other.at(place)) {
            return false;
        }
    }
    true
}
