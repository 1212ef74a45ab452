//! What each address has beside its letters.
ghost use Rattle.std.specs.Prelude.{◌≡◌, [], ◌∷◌, map, OnOk, IsSome, Option};
ghost use Rattle.typed_values.specs.declared.address.Address.{Address};
ghost use Rattle.typed_values.specs.declared.letter.Sender.TheVariants.{Function};
ghost use Rattle.state_cells.specs.Lifetimes.{Registers, Invokes, after_all as cells_after};
ghost use Rattle.invocation.specs.Laws.{TakesAll, AreNew};
ghost use Rattle.run_record.specs.Machine.{cell_call};
ghost use Rattle.partition_core.specs.Work.{set_for};
ghost use Rattle.partition_core.specs.Kept.{actor_in, cells_in, seen_in};

use crate::actor::Actor;
use invocation::Change;
use proto_wire::{List, Mem, TryClone};
use state_cells::Cells;
use std::alloc::Global;
use std::collections::BTreeMap;
use typed_values::{Address, CellSpec};

/// What each address has beside its letters. One that is not here has no cells, and nothing seen.
#[derive(Drop)]
pub(crate) struct Actors {
    pub(crate) actors: BTreeMap<Address, Actor>,
}

impl Actors {
    /// No address has anything. Takes no memory.
    pub(crate) fn new(alloc: Global) -> Actors
        ensures { result.actors.entries ≡ [] }
    {
        Actors {
            actors: BTreeMap::new(alloc),
        }
    }

    /// The cells of an address, or those that stand for none.
    pub(crate) fn cells_or<'a>(&'a self, address: &Address, none: &'a Cells) -> &'a Cells
        requires { none.now ≡ [] }
        ensures { result.now ≡ cells_in self.now address.now }
    {
        match self.actors.get(address) {
            Some(actor) => &actor.cells,
            None => none,
        }
    }

    /// Makes an address have an actor. Changes nothing of what any has.
    fn reserve(&mut self, alloc: Global, address: &Address) -> Mem<()>
        ensures there { OnOk result (IsSome (actor_in self.new address.now)) }
        ensures cells { cells_in self.new ≡ cells_in self.old }
        ensures seen { seen_in self.new ≡ seen_in self.old }
    {
        if let Some(_actor) = self.actors.get(address) {
            return Ok(());
        }
        let actor = Actor::new(alloc)?;
        self.actors.insert(address.try_clone(alloc)?, actor)?;
        Ok(())
    }

    /// What a batch of an address does at a moment.
    pub(crate) fn serve(
        &mut self,
        alloc: Global,
        address: &Address,
        moment: u64,
        mutations: List<Change>,
    ) -> Mem<()>
        requires { TakesAll (cells_in self.old address.now) mutations }
        ensures cells { OnOk result (cells_in self.new ≡ set_for (Function address.now)
            (cells_after (Invokes moment ∷ map (cell_call moment) mutations) (cells_in self.old address.now)) (cells_in self.old)) }
        ensures seen { OnOk result (seen_in self.new ≡ set_for (Function address.now) moment (seen_in self.old)) }
    {
        self.reserve(alloc, address)?;
        match self.actors.get_mut(address) {
            Some(actor) => actor.serve(moment, mutations),
            None => unreachable!(),
        }
        Ok(())
    }

    /// Registers cells of an address that are new, at a moment.
    pub(crate) fn register(
        &mut self,
        alloc: Global,
        address: &Address,
        moment: u64,
        specs: List<CellSpec>,
    ) -> Mem<()>
        requires { AreNew (cells_in self.old address.now) specs }
        ensures cells { OnOk result (cells_in self.new ≡ set_for (Function address.now)
            (cells_after (map Registers specs) (cells_in self.old address.now)) (cells_in self.old)) }
        ensures seen { OnOk result (seen_in self.new ≡ set_for (Function address.now) moment (seen_in self.old)) }
    {
        self.reserve(alloc, address)?;
        match self.actors.get_mut(address) {
            Some(actor) => actor.register(moment, specs),
            None => unreachable!(),
        }
    }
}
