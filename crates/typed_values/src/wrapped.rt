//! Values of the four shipped types: a bool, an int, a long, a string.
ghost use Rattle.std.specs.Prelude.{◌≡◌, ◌++◌, length, IfOk, OnOk, Ok, Some, true, Bool, Option, codes, ◌&&◌, ◌<◌, ◌^◌, false};
ghost use Rattle.std.specs.Str.{bytes_eq};
ghost use Rattle.typed_values.specs.Wrappers.{bool_rows, int_rows, long_rows, text_rows, bool_name, int_name, long_name, text_name, bool_of, int_of, long_of, text_of, wrapping, empty_text};

use crate::TypedValue;
use proto_wire::{
    Bytes, Decode, DecodeFault, Mem, OutOfMemory, Record, Text, decoded, last_record, with_bool,
    with_eight, with_four, with_text,
};
use std::alloc::Global;

const BOOL_NAME: &str = "io.statefun.types/bool";

const INT_NAME: &str = "io.statefun.types/int";

const LONG_NAME: &str = "io.statefun.types/long";

const TEXT_NAME: &str = "io.statefun.types/string";

/// The message that a string is wrapped in, while it is read.
#[derive(Drop)]
pub struct TextWrapper {
    pub text: Text,
}

impl Decode for TextWrapper {
    ghost rows = { text_rows };

    ghost empty = { empty_text };

    #[tactic(auto, unfolding(crate::specs::Wrappers::empty_text))]
    fn blank(alloc: Global) -> TextWrapper {
        TextWrapper {
            text: Text::new(alloc),
        }
    }

    #[tactic(auto, unfolding(crate::specs::Wrappers::text_rows))]
    fn accept(&mut self, alloc: Global, item: &Record<'_>) -> Result<(), DecodeFault> {
        if item.is(1, 2) {
            self.text = item.text(alloc)?;
        }
        Ok(())
    }
}

/// Whether a value is there and has this type.
fn is_of(value: &TypedValue, name: &str) -> bool
    ensures { result ≡ (value.now.has_value && bytes_eq value.now.typename name.now) }
{
    value.has_value && value.typename.as_str() == name
}

/// The bool that a value holds. `None` exactly where the value has another type, holds nothing, or its bytes do not spell the wrapper. Takes no memory.
#[tactic(auto, unfolding(crate::specs::Wrappers::bool_of, crate::specs::Wrappers::wrapped))]
pub fn bool_of(value: &TypedValue) -> Option<bool>
    ensures { result ≡ bool_of value.now }
{
    if !is_of(value, BOOL_NAME) {
        return None;
    }
    match last_record(1, 0, value.value.as_slice()) {
        Ok(Some(last)) => Some(last.bool()),
        Ok(None) => Some(false),
        Err(_) => None,
    }
}

/// The int that a value holds. `None` exactly where the value has another type, holds nothing, or its bytes do not spell the wrapper. Takes no memory.
#[tactic(auto, unfolding(crate::specs::Wrappers::int_of, crate::specs::Wrappers::wrapped))]
pub fn int_of(value: &TypedValue) -> Option<i32>
    ensures { result ≡ int_of value.now }
{
    if !is_of(value, INT_NAME) {
        return None;
    }
    match last_record(1, 5, value.value.as_slice()) {
        Ok(Some(last)) => Some(last.int()),
        Ok(None) => Some(0),
        Err(_) => None,
    }
}

/// The long that a value holds. `None` exactly where the value has another type, holds nothing, or its bytes do not spell the wrapper. Takes no memory.
#[tactic(auto, unfolding(crate::specs::Wrappers::long_of, crate::specs::Wrappers::wrapped))]
pub fn long_of(value: &TypedValue) -> Option<i64>
    ensures { result ≡ long_of value.now }
{
    if !is_of(value, LONG_NAME) {
        return None;
    }
    match last_record(1, 1, value.value.as_slice()) {
        Ok(Some(last)) => Some(last.long()),
        Ok(None) => Some(0),
        Err(_) => None,
    }
}

/// The text that a value holds. `None` exactly where the value has another type, holds nothing, or its bytes do not spell the wrapper.
#[tactic(auto, unfolding(crate::specs::Wrappers::text_of, crate::specs::Wrappers::wrapped))]
pub fn text_of(alloc: Global, value: &TypedValue) -> Mem<Option<Text>>
    ensures { IfOk result (λ text. text ≡ text_of value.now) }
{
    if !is_of(value, TEXT_NAME) {
        return Ok(None);
    }
    let read: Result<TextWrapper, DecodeFault> = decoded(alloc, value.value.as_slice());
    match read {
        Ok(it) => Ok(Some(it.text)),
        Err(DecodeFault::Wire(_)) => Ok(None),
        Err(DecodeFault::OutOfMemory) => Err(OutOfMemory),
    }
}

/// A value of the type with these bytes.
fn wrapped(alloc: Global, name: &str, value: Bytes) -> Mem<TypedValue>
    ensures is { IfOk result (λ made. made ≡ record { typename = name.now; has_value = true; value = value }) }
    ensures short { IfOk result (λ made. length made.value < 2 ^ 64) }
{
    let _len = value.len();
    Ok(TypedValue {
        typename: Text::copy_of(alloc, name)?,
        has_value: true,
        value,
    })
}

/// The value of the type `io.statefun.types/bool` with this bool, in canonical spelling. Reading it gives the bool again.
#[tactic(auto, unfolding(crate::specs::Wrappers::bool_rows))]
pub fn bool_value(alloc: Global, flag: bool) -> Mem<TypedValue>
    ensures spelled { IfOk result (λ value. value ≡ wrapping bool_name bool_rows flag) }
    ensures again { IfOk result (λ value. bool_of value ≡ Some flag) }
{
    let bytes = with_bool(Bytes::new(alloc), 1, flag)?;
    let value = wrapped(alloc, BOOL_NAME, bytes)?;
    Ok(value)
}

/// The value of the type `io.statefun.types/int` with this int, in canonical spelling. Reading it gives the int again.
#[tactic(auto, unfolding(crate::specs::Wrappers::int_rows))]
pub fn int_value(alloc: Global, number: i32) -> Mem<TypedValue>
    ensures spelled { IfOk result (λ value. value ≡ wrapping int_name int_rows number) }
    ensures again { IfOk result (λ value. int_of value ≡ Some number) }
{
    let bytes = with_four(Bytes::new(alloc), 1, number)?;
    let value = wrapped(alloc, INT_NAME, bytes)?;
    Ok(value)
}

/// The value of the type `io.statefun.types/long` with this long, in canonical spelling. Reading it gives the long again.
#[tactic(auto, unfolding(crate::specs::Wrappers::long_rows))]
pub fn long_value(alloc: Global, number: i64) -> Mem<TypedValue>
    ensures spelled { IfOk result (λ value. value ≡ wrapping long_name long_rows number) }
    ensures again { IfOk result (λ value. long_of value ≡ Some number) }
{
    let bytes = with_eight(Bytes::new(alloc), 1, number)?;
    let value = wrapped(alloc, LONG_NAME, bytes)?;
    Ok(value)
}

/// The value of the type `io.statefun.types/string` with this text, in canonical spelling. Reading it gives the text again.
#[tactic(auto, unfolding(crate::specs::Wrappers::text_rows))]
pub fn text_value(alloc: Global, text: &Text) -> Mem<TypedValue>
    ensures spelled { IfOk result (λ value. value ≡ wrapping text_name text_rows (record { text = text.now })) }
    ensures again { IfOk result (λ value. text_of value ≡ Some text.now) }
{
    let bytes = with_text(Bytes::new(alloc), 1, text)?;
    let value = wrapped(alloc, TEXT_NAME, bytes)?;
    Ok(value)
}
