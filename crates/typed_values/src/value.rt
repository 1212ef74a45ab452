//! Values that carry the name of their type.
ghost use Rattle.std.specs.Prelude.{◌≡◌, IfOk};

use proto_wire::{Bytes, Mem, Text, TryClone};
use std::alloc::Global;

/// Bytes with the name of their type. A value with `has_value` false is none, whatever its bytes are.
#[derive(PartialEq, Eq, Drop)]
pub struct TypedValue {
    pub typename: Text,
    pub has_value: bool,
    pub value: Bytes,
}

impl TryClone for TypedValue {
    fn try_clone(&self, alloc: Global) -> Mem<TypedValue> {
        Ok(TypedValue {
            typename: self.typename.try_clone(alloc)?,
            has_value: self.has_value,
            value: self.value.try_clone(alloc)?,
        })
    }
}
