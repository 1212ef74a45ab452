//! Names of types: of functions, ingresses, egresses and values.
ghost use Rattle.std.specs.Prelude.{◌≡◌, IfOk};

use proto_wire::{Mem, Text, TryClone};
use std::alloc::Global;

/// A name in a namespace, written `namespace/name`.
#[derive(PartialEq, Eq, PartialOrd, Ord, Drop)]
pub struct TypeName {
    pub namespace: Text,
    pub name: Text,
}

impl TryClone for TypeName {
    fn try_clone(&self, alloc: Global) -> Mem<TypeName> {
        Ok(TypeName {
            namespace: self.namespace.try_clone(alloc)?,
            name: self.name.try_clone(alloc)?,
        })
    }
}
