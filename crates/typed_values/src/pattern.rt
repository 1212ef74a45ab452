//! Patterns of type names.
use proto_wire::{Mem, Text, TryClone};
use std::alloc::Global;

/// One type, or all types of a namespace.
#[derive(Drop)]
pub struct TypePattern {
    pub namespace: Text,
    /// `None` stands for every name.
    pub name: Option<Text>,
}

impl TryClone for TypePattern {
    fn try_clone(&self, alloc: Global) -> Mem<TypePattern> {
        Ok(TypePattern {
            namespace: self.namespace.try_clone(alloc)?,
            name: self.name.try_clone(alloc)?,
        })
    }
}
