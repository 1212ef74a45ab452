//! What each address has of its own.
ghost use Rattle.std.specs.Prelude.{◌≡◌, ◌≤◌, ◌∷◌, [], ℕ, map, length, IsSome, IsTrue, ◌↔◌, IfOk, Some, OnOk, OnErr, option_copied};
ghost use Rattle.std.specs.BTreeMap.{get, IsOrdered};
ghost use Rattle.typed_values.specs.declared.address.Address.{Address};
ghost use Rattle.keyed_queues.specs.Keys.{address_order};
ghost use Rattle.keyed_queues.specs.Queues.{AreReadIn, SetsAt};
ghost use Rattle.invocation.specs.Laws.{TakesAll, AreNew};
ghost use Rattle.run_record.specs.Machine.{nothing};
ghost use Rattle.run_record.specs.StateOf.{own_of, own_in, HasPart, after_batch, after_registration, after_due};
ghost use Rattle.run_record.specs.Filled.{keeps, own_read, waits_too};

use crate::part::Part;
use invocation::{Change, DelayChange};
use proto_wire::{List, Mem, TryClone};
use state_cells::Cells;
use std::alloc::Global;
use std::collections::BTreeMap;
use typed_values::{Address, CellSpec, Delay};

/// The parts of the addresses; most have nothing.
#[derive(Drop)]
pub(crate) struct Parts {
    pub(crate) parts: BTreeMap<Address, Part>,
}

impl Parts {
    /// No address has anything. Takes no memory.
    pub(crate) fn new(alloc: Global) -> Parts
        ensures { result.parts.entries ≡ [] }
    {
        Parts {
            parts: BTreeMap::new(alloc),
        }
    }

    /// The part of an address, if it has one.
    pub(crate) fn get(&self, address: &Address) -> Option<&Part>
        ensures { option_copied result ≡ get address_order self.now.parts address.now }
    {
        self.parts.get(address)
    }

    /// The part of an address, or the one that stands for nothing.
    pub(crate) fn get_or<'a>(&'a self, address: &Address, none: &'a Part) -> &'a Part
        requires { own_of none.now ≡ nothing }
        ensures { own_of result.now ≡ own_in self.now address.now }
    {
        match self.parts.get(address) {
            Some(part) => part,
            None => none,
        }
    }

    /// Makes an address have a part with room for so many delays. Changes nothing of what any has.
    pub(crate) fn reserve(&mut self, alloc: Global, address: &Address, delays: usize) -> Mem<()>
        ensures room { OnOk result (HasPart (λ part. delays ≤ part.delays.spare) (get address_order self.new.parts address.now)) }
        ensures same { SetsAt (own_in self.old) (own_in self.new) address.now (own_in self.old address.now) }
    {
        if let Some(part) = self.parts.get_mut(address) {
            return part.reserve(delays);
        }
        let mut part = Part::new(alloc)?;
        part.reserve(delays)?;
        self.parts.insert(address.try_clone(alloc)?, part)?;
        Ok(())
    }

    /// What a batch of an address does at a moment, to a part that has room for the delays. Takes no memory.
    pub(crate) fn serve(
        &mut self,
        address: &Address,
        moment: u64,
        mutations: List<Change>,
        delays: List<DelayChange>,
    )
        requires room { HasPart (λ part. length delays ≤ part.delays.spare) (get address_order self.old.parts address.now) }
        requires fits { TakesAll (own_in self.old address.now).cells mutations }
        ensures { SetsAt (own_in self.old) (own_in self.new) address.now
            (after_batch address.now moment mutations delays (own_in self.old address.now)) }
    {
        if let Some(part) = self.parts.get_mut(address) {
            part.serve(address, moment, mutations, delays);
        }
    }

    /// What a registration of an address that has a part does at a moment. An `Err` changes nothing of what any has.
    pub(crate) fn register(
        &mut self,
        address: &Address,
        specs: List<CellSpec>,
        moment: u64,
    ) -> Mem<()>
        requires there { IsSome (get address_order self.old.parts address.now) }
        requires new { AreNew (own_in self.old address.now).cells specs }
        ensures ok { OnOk result (SetsAt (own_in self.old) (own_in self.new) address.now
            (after_registration moment specs (own_in self.old address.now))) }
        ensures err { OnErr result (SetsAt (own_in self.old) (own_in self.new) address.now (own_in self.old address.now)) }
    {
        match self.parts.get_mut(address) {
            Some(part) => part.register(specs, moment),
            None => unreachable!(),
        }
    }

    /// Drops the delay of an address that is due at a moment, if one is.
    pub(crate) fn drop_due(&mut self, address: &Address, moment: u64)
        ensures { SetsAt (own_in self.old) (own_in self.new) address.now (after_due moment (own_in self.old address.now)) }
    {
        if let Some(part) = self.parts.get_mut(address) {
            part.drop_due(moment);
        }
    }

    /// A delayed letter waits behind the others of an address. An `Err` changes nothing of what any has.
    pub(crate) fn put_delay(&mut self, alloc: Global, address: &Address, delay: Delay) -> Mem<()>
        ensures ok { OnOk result (SetsAt (own_in self.old) (own_in self.new) address.now (waits_too delay (own_in self.old address.now))) }
        ensures err { OnErr result (SetsAt (own_in self.old) (own_in self.new) address.now (own_in self.old address.now)) }
    {
        self.reserve(alloc, address, 1)?;
        if let Some(part) = self.parts.get_mut(address) {
            part.delays.put(delay);
        }
        Ok(())
    }

    /// An address has these cells in place of its own, and was last served at this moment. An `Err` changes nothing of what
    /// any has.
    pub(crate) fn put_cells(
        &mut self,
        alloc: Global,
        address: &Address,
        cells: Cells,
        seen: u64,
    ) -> Mem<()>
        ensures ok { OnOk result (SetsAt (own_in self.old) (own_in self.new) address.now (keeps cells seen (own_in self.old address.now))) }
        ensures err { OnErr result (SetsAt (own_in self.old) (own_in self.new) address.now (own_in self.old address.now)) }
    {
        self.reserve(alloc, address, 0)?;
        if let Some(part) = self.parts.get_mut(address) {
            part.cells = cells;
            part.seen = seen;
        }
        Ok(())
    }

    /// Forgets the part of an address that has nothing. Changes nothing of what any has.
    pub(crate) fn forget_nothing(&mut self, address: &Address)
        ensures { (other : Address) → own_in self.new other ≡ own_in self.old other }
    {
        if self.has_nothing(address) {
            self.parts.remove(address);
        }
    }

    // Whether an address has nothing.
    fn has_nothing(&self, address: &Address) -> bool
        ensures { IsTrue result → own_in self.now address.now ≡ nothing }
    {
        match self.parts.get(address) {
            Some(part) => part.is_nothing(),
            None => true,
        }
    }

    /// Whether each address has the same in other parts.
    pub(crate) fn same(&self, other: &Parts) -> Mem<bool>
        ensures { IfOk result (λ same. IsTrue same ↔ ((address : Address) → own_in self.now address ≡ own_in other.now address)) }
    {
        if !self.are_in(other)? {
            return Ok(false);
        }
        other.are_in(self)
    }

    // Whether each address that has a part has the same in other parts.
    fn are_in(&self, other: &Parts) -> Mem<bool>
        ensures alike { IfOk result (λ alike. IsTrue alike ↔ AreReadIn address_order own_read other.now.parts self.now.parts.entries) }
        ensures ordered { IsOrdered address_order self.now.parts }
    {
        for (address, part) in &self.parts {
            if !other.has(address, part)? {
                return Ok(false);
            }
        }
        Ok(true)
    }

    // Whether an address has what a part stands for.
    fn has(&self, address: &Address, part: &Part) -> Mem<bool>
        ensures { IfOk result (λ same. IsTrue same ↔ (own_read (Some part.now) ≡ own_read (get address_order self.now.parts address.now))) }
    {
        match self.parts.get(address) {
            Some(own) => part.same(own),
            None => Ok(part.is_nothing()),
        }
    }
}
