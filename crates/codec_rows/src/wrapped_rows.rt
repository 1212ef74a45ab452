//! Rows on values of the shipped types.
use crate::told::owned;
use proto_wire::{Bytes, Text};
use row_text::{Failure, bytes_of};
use std::alloc::Global;
use typed_values::{
    TypedValue, bool_of, bool_value, decode_value, encode_value, int_of, int_value, long_of,
    long_value, text_of, text_value,
};

/// What a value's bytes hold under a type's name.
pub(crate) fn wrapped(alloc: Global, kind: &str, words: &str) -> Result<String, Failure> {
    let bytes = bytes_of(alloc, words)?;
    match kind {
        "bool" => bool_text(alloc, &value_with(alloc, "io.statefun.types/bool", bytes)?),
        "int" => int_text(alloc, &value_with(alloc, "io.statefun.types/int", bytes)?),
        "long" => long_text(alloc, &value_with(alloc, "io.statefun.types/long", bytes)?),
        "text" => text_text(
            alloc,
            &value_with(alloc, "io.statefun.types/string", bytes)?,
        ),
        _ => Err(Failure::Row),
    }
}

fn value_with(alloc: Global, typename: &str, value: Bytes) -> Result<TypedValue, Failure> {
    Ok(TypedValue {
        typename: Text::copy_of(alloc, typename)?,
        has_value: true,
        value,
    })
}

fn bool_text(alloc: Global, value: &TypedValue) -> Result<String, Failure> {
    match bool_of(value) {
        Some(flag) => Ok(format!(in alloc; "{flag}")?),
        None => owned(alloc, "none"),
    }
}

fn int_text(alloc: Global, value: &TypedValue) -> Result<String, Failure> {
    match int_of(value) {
        Some(number) => Ok(format!(in alloc; "{number}")?),
        None => owned(alloc, "none"),
    }
}

fn long_text(alloc: Global, value: &TypedValue) -> Result<String, Failure> {
    match long_of(value) {
        Some(number) => Ok(format!(in alloc; "{number}")?),
        None => owned(alloc, "none"),
    }
}

fn text_text(alloc: Global, value: &TypedValue) -> Result<String, Failure> {
    match text_of(alloc, value)? {
        Some(text) => quoted(alloc, text.as_str()),
        None => owned(alloc, "none"),
    }
}

fn quoted(alloc: Global, text: &str) -> Result<String, Failure> {
    Ok(format!(in alloc; "'{text}'")?)
}

/// What a spelled value holds, asked for each of the shipped types.
pub(crate) fn held(alloc: Global, words: &str) -> Result<String, Failure> {
    let bytes = bytes_of(alloc, words)?;
    let value = decode_value(alloc, bytes.as_slice())?;
    let flag = bool_text(alloc, &value)?;
    let int = int_text(alloc, &value)?;
    let long = long_text(alloc, &value)?;
    let text = text_text(alloc, &value)?;
    Ok(format!(in alloc; "bool {flag} int {int} long {long} text {text}")?)
}

/// The value of a shipped type, spelled.
pub(crate) fn made(alloc: Global, kind: &str, word: &str) -> Result<String, Failure> {
    match kind {
        "bool-value" => bool_made(alloc, word),
        "int-value" => int_made(alloc, word),
        "long-value" => long_made(alloc, word),
        "text-value" => text_made(alloc, word),
        _ => Err(Failure::Row),
    }
}

fn value_text(alloc: Global, value: &TypedValue) -> Result<String, Failure> {
    let bytes = encode_value(alloc, value)?;
    Ok(hex::encode(alloc, bytes.as_slice())?)
}

fn bool_made(alloc: Global, word: &str) -> Result<String, Failure> {
    match word.parse::<bool>() {
        Ok(flag) => value_text(alloc, &bool_value(alloc, flag)?),
        Err(_) => Err(Failure::Row),
    }
}

fn int_made(alloc: Global, word: &str) -> Result<String, Failure> {
    match word.parse::<i32>() {
        Ok(number) => value_text(alloc, &int_value(alloc, number)?),
        Err(_) => Err(Failure::Row),
    }
}

fn long_made(alloc: Global, word: &str) -> Result<String, Failure> {
    match word.parse::<i64>() {
        Ok(number) => value_text(alloc, &long_value(alloc, number)?),
        Err(_) => Err(Failure::Row),
    }
}

fn text_made(alloc: Global, word: &str) -> Result<String, Failure> {
    let text = Text::copy_of(alloc, word)?;
    value_text(alloc, &text_value(alloc, &text)?)
}
