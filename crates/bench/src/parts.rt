//! The parts that all messages are made of.
use proto_wire::{Bytes, Mem, Text};
use std::alloc::Global;
use typed_values::{Address, TypeName, TypedValue};

/// What each value holds: with its head it is about a hundred bytes long.
const PAYLOAD: &str =
    "A letter that is long enough to be like the letters of a shop: an order, its lines and its price.";

/// The address of one function of a type, by a number.
pub(crate) fn address(alloc: Global, name: &str, number: u32) -> Mem<Address> {
    Ok(Address {
        kind: kind(alloc, name)?,
        id: id(alloc, number)?,
    })
}

fn kind(alloc: Global, name: &str) -> Mem<TypeName> {
    Ok(TypeName {
        namespace: Text::copy_of(alloc, "com.example")?,
        name: Text::copy_of(alloc, name)?,
    })
}

/// The id of a number.
pub(crate) fn id(alloc: Global, number: u32) -> Mem<Text> {
    let id = format!(in alloc; "key-{number}")?;
    Text::copy_of(alloc, id.as_str())
}

/// A value with the payload.
pub(crate) fn value(alloc: Global) -> Mem<TypedValue> {
    text_value(alloc, PAYLOAD)
}

/// A value with a text.
pub(crate) fn text_value(alloc: Global, text: &str) -> Mem<TypedValue> {
    Ok(TypedValue {
        typename: Text::copy_of(alloc, "io.statefun.types/string")?,
        has_value: true,
        value: Bytes::copy_of(alloc, text.as_bytes())?,
    })
}
