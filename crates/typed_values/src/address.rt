//! Addresses of functions.
ghost use Rattle.std.specs.Prelude.{◌≡◌, IfOk};

use crate::TypeName;
use proto_wire::{Mem, Text, TryClone};
use std::alloc::Global;

/// One function: its type, and its id among those of the type.
#[derive(PartialEq, Eq, PartialOrd, Ord, Drop)]
pub struct Address {
    pub kind: TypeName,
    pub id: Text,
}

impl TryClone for Address {
    fn try_clone(&self, alloc: Global) -> Mem<Address> {
        Ok(Address {
            kind: self.kind.try_clone(alloc)?,
            id: self.id.try_clone(alloc)?,
        })
    }
}
