//! The sequential machine: one state, and one step after the other.
ghost use Rattle.std.specs.Prelude.{◌≡◌, IfOk, get_or, option_copied, slice_get};
ghost use Rattle.typed_values.specs.declared.letter.Sender.TheVariants.{Split, Function};
ghost use Rattle.run_record.specs.Machine.{first_state};
ghost use Rattle.run_record.specs.StateOf.{state_of};

use crate::parts::Parts;
use keyed_queues::Shelves;
use proto_wire::{List, Mem};
use std::alloc::Global;
use typed_values::{Address, Cell, Delay, Sender, TypeName, TypedValue};

/// The plain program of the machine. What a step costs grows with the logarithm of what is kept, with what the step itself
/// brings, and a step of an address with the delays of that address that it cancels among.
#[derive(Drop)]
pub struct Machine {
    pub(crate) taken: Vec<u64>,
    pub(crate) parts: Parts,
    pub(crate) mail: Shelves<Address, Sender, TypedValue>,
    pub(crate) egress: Shelves<Address, TypeName, TypedValue>,
}

impl Machine {
    /// The machine at first: nothing has happened. It has room for so many splits.
    #[tactic(auto, unfolding(crate::specs::StateOf::state_of))]
    pub fn new(alloc: Global, splits: u32) -> Mem<Machine>
        ensures { IfOk result (λ machine. state_of machine ≡ first_state) }
    {
        Ok(Machine {
            taken: vec![in alloc; 0u64; splits as usize]?,
            parts: Parts::new(alloc),
            mail: Shelves::new(alloc),
            egress: Shelves::new(alloc),
        })
    }

    /// How many records of a split were taken.
    #[tactic(auto, unfolding(crate::specs::StateOf::state_of))]
    pub fn taken(&self, split: u32) -> u64
        ensures { result ≡ ((state_of self.now).own (Split split)).taken }
    {
        match self.taken.get(split as usize) {
            Some(count) => *count,
            None => 0,
        }
    }

    /// The cell of an address at a place, in order of registration.
    #[tactic(auto, unfolding(crate::specs::StateOf::state_of))]
    pub fn cell(&self, address: &Address, place: usize) -> Option<&Cell>
        ensures { option_copied result ≡ slice_get ((state_of self.now).own (Function address.now)).cells place }
    {
        match self.parts.get(address) {
            Some(part) => part.cell(place),
            None => None,
        }
    }

    /// The moment of an address' last batch or registration, in milliseconds.
    #[tactic(auto, unfolding(crate::specs::StateOf::state_of))]
    pub fn seen(&self, address: &Address) -> u64
        ensures { result ≡ ((state_of self.now).own (Function address.now)).seen }
    {
        match self.parts.get(address) {
            Some(part) => part.seen,
            None => 0,
        }
    }

    /// Copies of the delayed letters of an address that wait, in order of sending.
    #[tactic(auto, unfolding(crate::specs::StateOf::state_of))]
    pub fn delays(&self, alloc: Global, address: &Address) -> Mem<List<Delay>>
        ensures { IfOk result (λ delays. delays ≡ ((state_of self.now).own (Function address.now)).delays) }
    {
        match self.parts.get(address) {
            Some(part) => part.delays.waiting(),
            None => Ok(List::new(alloc)),
        }
    }

    /// The argument of a letter that waits from a sender for a target, by its place from 0, the oldest first.
    #[tactic(auto, unfolding(crate::specs::StateOf::state_of))]
    pub fn letter(&self, sender: &Sender, target: &Address, place: usize) -> Option<&TypedValue>
        ensures { option_copied result ≡ slice_get ((state_of self.now).mail sender.now target.now) place }
    {
        self.mail.get(target, sender, place)
    }

    /// The argument of a record that an address gave to an egress, by its place from 0, the oldest first.
    #[tactic(auto, unfolding(crate::specs::StateOf::state_of))]
    pub fn egress(&self, address: &Address, name: &TypeName, place: usize) -> Option<&TypedValue>
        ensures { option_copied result ≡ slice_get ((state_of self.now).egress address.now name.now) place }
    {
        self.egress.get(address, name, place)
    }
}
