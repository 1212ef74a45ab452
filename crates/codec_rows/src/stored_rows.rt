//! Rows on names, addresses, values, senders, letters, delayed letters and egress records.
use crate::told::{owned, spelled};
use proto_wire::{Bytes, DecodeFault, Text, TryClone};
use row_text::{Failure, bytes_of};
use std::alloc::Global;
use std::cmp::Ordering;
use typed_values::{
    NameFault, Sender, TypeName, decode_address, decode_delay, decode_egress, decode_letter,
    decode_sender, decode_value, encode_address, encode_delay, encode_egress, encode_letter,
    encode_sender, encode_value, parse_name, parse_type_name,
};

/// The two parts of a name.
pub(crate) fn name(alloc: Global, text: &str) -> Result<String, Failure> {
    let text = Text::copy_of(alloc, text)?;
    let found = parsed(alloc, parse_type_name(alloc, &text))?;
    if parsed(alloc, parse_name(alloc, text.as_str()))? == found {
        return Ok(found);
    }
    owned(alloc, "two answers")
}

fn parsed(alloc: Global, read: Result<TypeName, NameFault>) -> Result<String, Failure> {
    match read {
        Ok(name) => name_text(alloc, &name),
        Err(NameFault::BadName) => owned(alloc, "BadName"),
        Err(NameFault::OutOfMemory) => Err(Failure::OutOfMemory),
    }
}

fn name_text(alloc: Global, name: &TypeName) -> Result<String, Failure> {
    let namespace = name.namespace.as_str();
    let name = name.name.as_str();
    Ok(format!(in alloc; "namespace {namespace} name {name}")?)
}

/// What bytes of one of these types spell, in its canonical spelling, or their fault.
pub(crate) fn stored(alloc: Global, kind: &str, words: &str) -> Result<String, Failure> {
    let bytes = bytes_of(alloc, words)?;
    spelled(alloc, again(alloc, kind, bytes.as_slice())?)
}

fn again(alloc: Global, kind: &str, bytes: &[u8]) -> Result<Result<Bytes, DecodeFault>, Failure> {
    match kind {
        "address" => Ok(address_again(alloc, bytes)),
        "value" => Ok(value_again(alloc, bytes)),
        "sender" => Ok(sender_again(alloc, bytes)),
        "letter" => Ok(letter_again(alloc, bytes)),
        "delay" => Ok(delay_again(alloc, bytes)),
        "egress" => Ok(egress_again(alloc, bytes)),
        _ => Err(Failure::Row),
    }
}

fn address_again(alloc: Global, bytes: &[u8]) -> Result<Bytes, DecodeFault> {
    let address = decode_address(alloc, bytes)?;
    Ok(encode_address(alloc, &address)?)
}

fn value_again(alloc: Global, bytes: &[u8]) -> Result<Bytes, DecodeFault> {
    let value = decode_value(alloc, bytes)?;
    Ok(encode_value(alloc, &value)?)
}

fn sender_again(alloc: Global, bytes: &[u8]) -> Result<Bytes, DecodeFault> {
    let sender = decode_sender(alloc, bytes)?;
    Ok(encode_sender(alloc, &sender)?)
}

fn letter_again(alloc: Global, bytes: &[u8]) -> Result<Bytes, DecodeFault> {
    let letter = decode_letter(alloc, bytes)?;
    Ok(encode_letter(alloc, &letter)?)
}

fn delay_again(alloc: Global, bytes: &[u8]) -> Result<Bytes, DecodeFault> {
    let delay = decode_delay(alloc, bytes)?;
    Ok(encode_delay(alloc, &delay)?)
}

fn egress_again(alloc: Global, bytes: &[u8]) -> Result<Bytes, DecodeFault> {
    let egress = decode_egress(alloc, bytes)?;
    Ok(encode_egress(alloc, &egress)?)
}

/// What a copy of the letter that bytes spell spells.
pub(crate) fn copied(alloc: Global, words: &str) -> Result<String, Failure> {
    let bytes = bytes_of(alloc, words)?;
    spelled(alloc, copy_spelled(alloc, bytes.as_slice()))
}

fn copy_spelled(alloc: Global, bytes: &[u8]) -> Result<Bytes, DecodeFault> {
    let letter = decode_letter(alloc, bytes)?;
    let copy = letter.try_clone(alloc)?;
    Ok(encode_letter(alloc, &copy)?)
}

/// Whether two spellings of letters, with `|` between them, are of one letter.
pub(crate) fn same(alloc: Global, words: &str) -> Result<String, Failure> {
    let (first, second) = words.split_once('|').ok_or(Failure::Row)?;
    let first = bytes_of(alloc, first)?;
    let second = bytes_of(alloc, second)?;
    if is_same(alloc, first.as_slice(), second.as_slice())? {
        return owned(alloc, "same");
    }
    owned(alloc, "different")
}

fn is_same(alloc: Global, first: &[u8], second: &[u8]) -> Result<bool, Failure> {
    let first = decode_letter(alloc, first)?;
    let second = decode_letter(alloc, second)?;
    Ok(first == second)
}

/// How two senders, with `|` between them, are ordered, and whether they are equal.
pub(crate) fn order(alloc: Global, words: &str) -> Result<String, Failure> {
    let (first, second) = words.split_once('|').ok_or(Failure::Row)?;
    let first = bytes_of(alloc, first)?;
    let second = bytes_of(alloc, second)?;
    let first = decode_sender(alloc, first.as_slice())?;
    let second = decode_sender(alloc, second.as_slice())?;
    let order = order_word(&first, &second);
    let equality = equality_word(&first, &second);
    Ok(format!(in alloc; "{order} {equality}")?)
}

fn order_word(first: &Sender, second: &Sender) -> &'static str {
    match first.cmp(second) {
        Ordering::Less => "less",
        Ordering::Equal => "same place",
        Ordering::Greater => "greater",
    }
}

fn equality_word(first: &Sender, second: &Sender) -> &'static str {
    if first == second { "equal" } else { "unequal" }
}
