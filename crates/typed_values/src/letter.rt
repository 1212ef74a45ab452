//! Letters between functions.
ghost use Rattle.std.specs.Prelude.{◌≡◌, IfOk};

use crate::{Address, TypedValue};
use proto_wire::{Mem, TryClone};
use std::alloc::Global;

/// Who sent a letter: a split of an ingress, by its number, or a function.
#[derive(PartialEq, Eq, PartialOrd, Ord, Drop)]
pub enum Sender {
    Split(u32),
    Function(Address),
}

impl TryClone for Sender {
    fn try_clone(&self, alloc: Global) -> Mem<Sender> {
        match self {
            Sender::Split(split) => Ok(Sender::Split(*split)),
            Sender::Function(address) => Ok(Sender::Function(address.try_clone(alloc)?)),
        }
    }
}

/// One message for a function.
#[derive(PartialEq, Eq, Drop)]
pub struct Letter {
    pub sender: Sender,
    pub target: Address,
    pub argument: TypedValue,
}

impl TryClone for Letter {
    fn try_clone(&self, alloc: Global) -> Mem<Letter> {
        Ok(Letter {
            sender: self.sender.try_clone(alloc)?,
            target: self.target.try_clone(alloc)?,
            argument: self.argument.try_clone(alloc)?,
        })
    }
}
