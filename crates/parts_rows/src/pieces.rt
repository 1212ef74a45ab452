//! The pieces of a call's word, and of an answer.
use proto_wire::Text;
use row_text::{Failure, bytes_of, text_of};
use std::alloc::Global;
use std::str::Split;
use typed_values::{Address, TypeName, TypedValue};

/// The next piece of a word.
pub(crate) fn piece<'a>(pieces: &mut Split<'a, char>) -> Result<&'a str, Failure> {
    pieces.next().ok_or(Failure::Row)
}

/// The next piece as a text.
pub(crate) fn text(alloc: Global, pieces: &mut Split<'_, char>) -> Result<Text, Failure> {
    text_of(alloc, piece(pieces)?)
}

/// The next piece as a number.
pub(crate) fn number(pieces: &mut Split<'_, char>) -> Result<u64, Failure> {
    Ok(piece(pieces)?.parse::<u64>()?)
}

/// The next two pieces as a value: its type, and its bytes.
pub(crate) fn value(alloc: Global, pieces: &mut Split<'_, char>) -> Result<TypedValue, Failure> {
    Ok(TypedValue {
        typename: text(alloc, pieces)?,
        has_value: true,
        value: bytes_of(alloc, piece(pieces)?)?,
    })
}

/// The next piece as a function of `n/f`, by its id.
pub(crate) fn address(alloc: Global, pieces: &mut Split<'_, char>) -> Result<Address, Failure> {
    Ok(Address {
        kind: TypeName {
            namespace: Text::copy_of(alloc, "n")?,
            name: Text::copy_of(alloc, "f")?,
        },
        id: text(alloc, pieces)?,
    })
}

/// A value's bytes; many are told by their number.
pub(crate) fn shown_bytes(alloc: Global, bytes: &[u8]) -> Result<String, Failure> {
    if bytes.len() > 16 {
        let count = bytes.len();
        return Ok(format!(in alloc; "{count}-bytes")?);
    }
    Ok(hex::encode(alloc, bytes)?)
}
