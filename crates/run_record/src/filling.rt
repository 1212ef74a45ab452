//! A machine that is filled with what was kept.
ghost use Rattle.std.specs.Prelude.{◌≡◌, IfOk, OnOk, OnErr};
ghost use Rattle.run_record.specs.Filled.{counted_state, with_letter, with_delay, with_cells};
ghost use Rattle.run_record.specs.StateOf.{state_of};

use crate::machine::Machine;
use crate::parts::Parts;
use keyed_queues::Shelves;
use proto_wire::{Mem, TryClone};
use state_cells::Cells;
use std::alloc::Global;
use typed_values::{Address, Delay, Letter};

impl Machine {
    /// A machine for which so many records of each split were taken, in order of the splits, and nothing else has happened.
    #[tactic(auto, unfolding(crate::specs::StateOf::state_of))]
    pub fn with_counts(alloc: Global, taken: &[u64]) -> Mem<Machine>
        ensures { IfOk result (λ machine. state_of machine ≡ counted_state taken.now) }
    {
        let mut counts = Vec::with_capacity(alloc, taken.len())?;
        counts.extend_from_slice(taken)?;
        Ok(Machine {
            taken: counts,
            parts: Parts::new(alloc),
            mail: Shelves::new(alloc),
            egress: Shelves::new(alloc),
        })
    }

    /// A copy of a letter goes last in the mail of its pair. An `Err` leaves the state.
    #[tactic(auto, unfolding(crate::specs::StateOf::state_of))]
    pub fn put_letter(&mut self, alloc: Global, letter: &Letter) -> Mem<()>
        ensures ok { OnOk result (state_of self.new ≡ with_letter letter.now (state_of self.old)) }
        ensures err { OnErr result (state_of self.new ≡ state_of self.old) }
    {
        let argument = letter.argument.try_clone(alloc)?;
        self.mail
            .push(alloc, &letter.target, &letter.sender, argument)
    }

    /// A copy of a delayed letter waits behind the others of its sender. An `Err` leaves the state.
    #[tactic(auto, unfolding(crate::specs::StateOf::state_of))]
    pub fn put_delay(&mut self, alloc: Global, delay: &Delay) -> Mem<()>
        ensures ok { OnOk result (state_of self.new ≡ with_delay delay.now (state_of self.old)) }
        ensures err { OnErr result (state_of self.new ≡ state_of self.old) }
    {
        let copy = delay.try_clone(alloc)?;
        self.parts.put_delay(alloc, &delay.sender, copy)
    }

    /// An address has these cells from now on in place of its own, and was last served at this moment, in milliseconds. Its
    /// delayed letters stay. An `Err` leaves the state.
    #[tactic(auto, unfolding(crate::specs::StateOf::state_of))]
    pub fn put_cells(
        &mut self,
        alloc: Global,
        address: &Address,
        cells: Cells,
        seen: u64,
    ) -> Mem<()>
        ensures ok { OnOk result (state_of self.new ≡ with_cells address.now cells seen (state_of self.old)) }
        ensures err { OnErr result (state_of self.new ≡ state_of self.old) }
    {
        self.parts.put_cells(alloc, address, cells, seen)
    }
}
