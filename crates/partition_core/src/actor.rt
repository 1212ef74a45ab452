//! What an address has beside its letters.
ghost use Rattle.std.specs.Prelude.{◌≡◌, [], ◌∷◌, map, IfOk, OnOk};
ghost use Rattle.state_cells.specs.Lifetimes.{Registers, Invokes, after_all as cells_after};
ghost use Rattle.invocation.specs.Laws.{TakesAll, AreNew};
ghost use Rattle.run_record.specs.Machine.{cell_call};

use invocation::Change;
use proto_wire::{List, Mem};
use run_record::{change_cells, register_all};
use state_cells::Cells;
use std::alloc::Global;
use typed_values::CellSpec;

/// The cells of an address, and the moment of its last batch or registration.
#[derive(Drop)]
pub(crate) struct Actor {
    pub(crate) cells: Cells,
    pub(crate) seen: u64,
}

impl Actor {
    /// No cells, and nothing seen.
    pub(crate) fn new(alloc: Global) -> Mem<Actor>
        ensures cells { IfOk result (λ actor. actor.cells ≡ []) }
        ensures seen { IfOk result (λ actor. actor.seen ≡ 0) }
    {
        Ok(Actor {
            cells: Cells::new(alloc)?,
            seen: 0,
        })
    }

    /// What a batch of a moment does to its cells. Takes no memory.
    pub(crate) fn serve(&mut self, moment: u64, mutations: List<Change>)
        requires { TakesAll self.old.cells mutations }
        ensures cells { self.new.cells ≡ cells_after (Invokes moment ∷ map (cell_call moment) mutations) self.old.cells }
        ensures seen { self.new.seen ≡ moment }
    {
        self.cells.invoked(moment);
        change_cells(&mut self.cells, moment, mutations);
        self.seen = moment;
    }

    /// Registers cells that are new.
    pub(crate) fn register(&mut self, moment: u64, specs: List<CellSpec>) -> Mem<()>
        requires { AreNew self.old.cells specs }
        ensures cells { OnOk result (self.new.cells ≡ cells_after (map Registers specs) self.old.cells) }
        ensures seen { OnOk result (self.new.seen ≡ moment) }
    {
        register_all(&mut self.cells, specs)?;
        self.seen = moment;
        Ok(())
    }
}
