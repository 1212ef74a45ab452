//! Rows on byte strings, texts and lists.
use crate::told::owned;
use proto_wire::{Bytes, List, Text, TryClone};
use row_text::{Failure, bytes_of};
use std::alloc::Global;

/// The text that bytes are, its length, and its bytes again.
pub(crate) fn utf8(alloc: Global, words: &str) -> Result<String, Failure> {
    match Text::of(bytes_of(alloc, words)?) {
        Some(text) => text_again(alloc, text),
        None => owned(alloc, "none"),
    }
}

fn text_again(alloc: Global, text: Text) -> Result<String, Failure> {
    let len = text.len();
    let emptiness = emptiness(text.is_empty());
    let bytes = text.into_bytes().into_vec();
    let digits = hex::encode(alloc, bytes.as_slice())?;
    Ok(format!(in alloc; "{emptiness} len {len} bytes '{digits}'")?)
}

fn emptiness(is_empty: bool) -> &'static str {
    if is_empty { "empty" } else { "filled" }
}

/// Two texts, with `|` between them, as one.
pub(crate) fn appended(alloc: Global, words: &str) -> Result<String, Failure> {
    let (front, back) = words.split_once('|').ok_or(Failure::Row)?;
    let mut text = Text::new(alloc);
    text.append(front)?;
    text.append(back)?;
    let text = text.as_str();
    Ok(format!(in alloc; "'{text}'")?)
}

/// The first bytes of some: `NUMBER BYTES`.
pub(crate) fn first_bytes(alloc: Global, words: &str) -> Result<String, Failure> {
    let (count, rest) = words.split_once(' ').unwrap_or((words, ""));
    let mut bytes = Bytes::of(bytes_of(alloc, rest)?.into_vec());
    bytes.truncate(count.parse::<usize>()?);
    let emptiness = emptiness(bytes.is_empty());
    let digits = hex::encode(alloc, bytes.as_slice())?;
    Ok(format!(in alloc; "{emptiness} '{digits}'")?)
}

/// A list of byte strings, with `|` before each: its length, the items of a copy of it, and whether it is the same as this
/// copy and as a list with one more item (by `==`).
pub(crate) fn listed(alloc: Global, words: &str) -> Result<String, Failure> {
    let list = list_of(alloc, words)?;
    let copy = list.try_clone(alloc)?;
    let copied = is_same_word(list == copy);
    let mut longer = List::of(copy.into_vec());
    longer.push(Bytes::new(alloc))?;
    let lengthened = is_same_word(list == longer);
    let items = items_text(alloc, list.as_slice())?;
    let len = list.len();
    let emptiness = emptiness(list.is_empty());
    Ok(format!(in alloc; "{emptiness} len {len} items{items} copy {copied} longer {lengthened}")?)
}

fn list_of(alloc: Global, words: &str) -> Result<List<Bytes>, Failure> {
    let mut list = List::new(alloc);
    for item in words.split('|').skip(1) {
        list.push(bytes_of(alloc, item)?)?;
    }
    Ok(list)
}

fn is_same_word(is_same: bool) -> &'static str {
    if is_same { "same" } else { "different" }
}

fn items_text(alloc: Global, items: &[Bytes]) -> Result<String, Failure> {
    let mut text = String::new(alloc);
    for item in items {
        let digits = hex::encode(alloc, item.as_slice())?;
        write!(text, " '{digits}'")?;
    }
    Ok(text)
}
