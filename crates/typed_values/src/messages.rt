//! Addresses and values as messages.
ghost use Rattle.std.specs.Prelude.{◌≡◌, ◌++◌, length, IfOk};
ghost use Rattle.proto_wire.specs.Message.{spelling, fit};
ghost use Rattle.typed_values.specs.Tables.{empty_address, address_rows, empty_value, value_rows};

use crate::{Address, TypeName, TypedValue};
use proto_wire::{
    Bytes, Decode, DecodeFault, Encode, Mem, Record, Text, bool_size, bytes_size, with_bool,
    with_bytes, with_text,
};
use std::alloc::Global;

impl Decode for Address {
    ghost rows = { address_rows };

    ghost empty = { empty_address };

    #[tactic(auto, unfolding(crate::specs::Tables::empty_address))]
    fn blank(alloc: Global) -> Address {
        Address {
            kind: TypeName {
                namespace: Text::new(alloc),
                name: Text::new(alloc),
            },
            id: Text::new(alloc),
        }
    }

    #[tactic(auto, unfolding(crate::specs::Tables::address_rows))]
    fn accept(&mut self, alloc: Global, item: &Record<'_>) -> Result<(), DecodeFault> {
        if item.is(1, 2) {
            self.kind.namespace = item.text(alloc)?;
        } else if item.is(2, 2) {
            self.kind.name = item.text(alloc)?;
        } else if item.is(3, 2) {
            self.id = item.text(alloc)?;
        }
        Ok(())
    }
}

impl Encode for Address {
    ghost spells = { spelling address_rows };

    ghost fits = { fit address_rows };

    #[tactic(auto, unfolding(crate::specs::Tables::address_rows))]
    fn size(&self) -> u64 {
        bytes_size(1, self.kind.namespace.as_bytes())
            .saturating_add(bytes_size(2, self.kind.name.as_bytes()))
            .saturating_add(bytes_size(3, self.id.as_bytes()))
    }

    #[tactic(auto, unfolding(crate::specs::Tables::address_rows))]
    fn put(&self, into: Bytes) -> Mem<Bytes> {
        let into = with_text(into, 1, &self.kind.namespace)?;
        let into = with_text(into, 2, &self.kind.name)?;
        with_text(into, 3, &self.id)
    }
}

impl Decode for TypedValue {
    ghost rows = { value_rows };

    ghost empty = { empty_value };

    #[tactic(auto, unfolding(crate::specs::Tables::empty_value))]
    fn blank(alloc: Global) -> TypedValue {
        TypedValue {
            typename: Text::new(alloc),
            has_value: false,
            value: Bytes::new(alloc),
        }
    }

    #[tactic(auto, unfolding(crate::specs::Tables::value_rows))]
    fn accept(&mut self, alloc: Global, item: &Record<'_>) -> Result<(), DecodeFault> {
        if item.is(1, 2) {
            self.typename = item.text(alloc)?;
        } else if item.is(2, 0) {
            self.has_value = item.bool();
        } else if item.is(3, 2) {
            self.value = item.bytes(alloc)?;
        }
        Ok(())
    }
}

impl Encode for TypedValue {
    ghost spells = { spelling value_rows };

    ghost fits = { fit value_rows };

    #[tactic(auto, unfolding(crate::specs::Tables::value_rows))]
    fn size(&self) -> u64 {
        bytes_size(1, self.typename.as_bytes())
            .saturating_add(bool_size(2, self.has_value))
            .saturating_add(bytes_size(3, self.value.as_slice()))
    }

    #[tactic(auto, unfolding(crate::specs::Tables::value_rows))]
    fn put(&self, into: Bytes) -> Mem<Bytes> {
        let into = with_text(into, 1, &self.typename)?;
        let into = with_bool(into, 2, self.has_value)?;
        with_bytes(into, 3, self.value.as_slice())
    }
}
