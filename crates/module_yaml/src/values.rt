//! What stands under a key.
ghost use Rattle.std.specs.Prelude.{◌≡◌, ◌↔◌, ◌≤◌, ◌<◌, ◌^◌, slice_index, IfOk, IfSome, IsTrue};
ghost use Rattle.std.specs.List.{list_any};
ghost use Rattle.typed_values.specs.Names.{name_in};
ghost use Rattle.module_yaml.specs.Values.{or_bad, scalar, no_star, type_in, id_in, pattern_of, pattern_in, some_text_in, braced_host, is_template, template_in, number_within, number_in, target_of, targets_of, some_targets, targets_at, is_star, is_white};
ghost use Rattle.module_yaml.specs.Told.{Reads};

use crate::fault::{Fault, bad};
use crate::nodes::{items_of, text_of};
use address_routing::{UrlFault, filled, split_url};
use proto_wire::{List, Mem, OutOfMemory, Text, TryClone};
use std::alloc::Global;
use typed_values::{NameFault, TypeName, TypePattern, parse_type_name};
use yaml_block::{Node, Pair};

/// A value, or a bad value on this line.
fn or_bad<T>(line: u32, found: Option<T>) -> Result<T, Fault>
    ensures { Reads (or_bad line found) result }
{
    match found {
        Some(value) => Ok(value),
        None => Err(bad(line)),
    }
}

/// The name that a text spells, if any.
fn name_in(alloc: Global, text: &Text) -> Mem<Option<TypeName>>
    ensures { IfOk result (λ found. found ≡ name_in text.now) }
{
    match parse_type_name(alloc, text) {
        Ok(name) => Ok(Some(name)),
        Err(NameFault::BadName) => Ok(None),
        Err(NameFault::OutOfMemory) => Err(OutOfMemory),
    }
}

fn is_star(name: &Text) -> bool
    ensures { result ≡ is_star name.now }
{
    name.as_str() == "*"
}

/// The name of a type, which is not `*`.
fn type_in(alloc: Global, text: &Text) -> Mem<Option<TypeName>>
    ensures { IfOk result (λ found. found ≡ type_in text.now) }
{
    match name_in(alloc, text)? {
        Some(name) => Ok(no_star(name)),
        None => Ok(None),
    }
}

fn no_star(name: TypeName) -> Option<TypeName>
    ensures { result ≡ no_star name }
{
    if is_star(&name.name) {
        None
    } else {
        Some(name)
    }
}

/// A name without white space.
fn id_in(alloc: Global, text: &Text) -> Mem<Option<TypeName>>
    ensures { IfOk result (λ found. found ≡ id_in text.now) }
{
    if has_white(text.as_bytes()) {
        return Ok(None);
    }
    type_in(alloc, text)
}

/// Whether there is a space or a tab.
fn has_white(bytes: &[u8]) -> bool
    ensures { result ≡ list_any is_white bytes.now }
{
    bytes.iter().any(|byte| is_white(*byte))
}

fn is_white(byte: u8) -> bool
    ensures { result ≡ is_white byte }
{
    byte == b' ' || byte == b'\t'
}

fn pattern_in(alloc: Global, text: &Text) -> Mem<Option<TypePattern>>
    ensures { IfOk result (λ found. found ≡ pattern_in text.now) }
{
    match name_in(alloc, text)? {
        Some(name) => Ok(Some(pattern_of(name))),
        None => Ok(None),
    }
}

fn pattern_of(name: TypeName) -> TypePattern
    ensures { result ≡ pattern_of name }
{
    let TypeName { namespace, name } = name;
    if is_star(&name) {
        TypePattern {
            namespace,
            name: None,
        }
    } else {
        TypePattern {
            namespace,
            name: Some(name),
        }
    }
}

/// Whether a brace stands before the first slash.
fn braced_host(bytes: &[u8]) -> bool
    ensures { result ≡ braced_host bytes.now }
{
    for byte in bytes {
        if *byte == b'/' {
            return false;
        }
        if *byte == b'{' {
            return true;
        }
    }
    false
}

/// Whether a text is a URL for each function's name, with a host that does not depend on it.
fn is_template(alloc: Global, text: &Text) -> Mem<bool>
    ensures { IfOk result (λ is. is ≡ is_template text.now) }
{
    let Some(rest) = text.as_str().strip_prefix("http://") else {
        return Ok(false);
    };
    if braced_host(rest.as_bytes()) {
        return Ok(false);
    }
    let url = filled(alloc, text.as_str(), "x")?;
    match split_url(alloc, &url) {
        Ok(_) => Ok(true),
        Err(UrlFault::BadUrl) => Ok(false),
        Err(UrlFault::OutOfMemory) => Err(OutOfMemory),
    }
}

fn template_in(alloc: Global, text: &Text) -> Mem<Option<Text>>
    ensures { IfOk result (λ found. found ≡ template_in text.now) }
{
    if is_template(alloc, text)? {
        Ok(Some(text.try_clone(alloc)?))
    } else {
        Ok(None)
    }
}

fn some_text_in(alloc: Global, text: &Text) -> Mem<Option<Text>>
    ensures { IfOk result (λ found. found ≡ some_text_in text.now) }
{
    if text.is_empty() {
        return Ok(None);
    }
    Ok(Some(text.try_clone(alloc)?))
}

/// The number that decimal digits without a leading zero write, where it is within these bounds.
fn number_in(least: u64, most: u64, text: &str) -> Option<u64>
    requires least { 1 ≤ least }
    requires most { most < 2 ^ 64 }
    ensures value { result ≡ number_in least most text.now }
    ensures bound { IfSome result (λ number. number ≤ most) }
{
    if !is_led(text) {
        return None;
    }
    match text.parse::<u64>() {
        Ok(number) => number_within(least, most, number),
        Err(_) => None,
    }
}

/// Whether the first byte is a digit and not 0.
fn is_led(text: &str) -> bool
    ensures { IsTrue result ↔ (49 ≤ slice_index text.now 0) × (slice_index text.now 0 ≤ 57) }
{
    match text.as_bytes() {
        [first, ..] => b'1' <= *first && *first <= b'9',
        [] => false,
    }
}

fn number_within(least: u64, most: u64, number: u64) -> Option<u64>
    ensures value { result ≡ number_within least most number }
    ensures bound { IfSome result (λ number. number ≤ most) }
{
    if least <= number && number <= most {
        Some(number)
    } else {
        None
    }
}

/// The pattern under a key.
pub(crate) fn pattern_at(alloc: Global, pair: &Pair) -> Result<TypePattern, Fault>
    ensures { Reads (scalar pattern_in pair.now) result }
{
    match text_of(&pair.value) {
        Some(text) => or_bad(pair.line, pattern_in(alloc, text)?),
        None => Err(bad(pair.line)),
    }
}

/// The template of URLs under a key.
pub(crate) fn template_at(alloc: Global, pair: &Pair) -> Result<Text, Fault>
    ensures { Reads (scalar template_in pair.now) result }
{
    match text_of(&pair.value) {
        Some(text) => or_bad(pair.line, template_in(alloc, text)?),
        None => Err(bad(pair.line)),
    }
}

/// The id under a key.
pub(crate) fn id_at(alloc: Global, pair: &Pair) -> Result<TypeName, Fault>
    ensures { Reads (scalar id_in pair.now) result }
{
    match text_of(&pair.value) {
        Some(text) => or_bad(pair.line, id_in(alloc, text)?),
        None => Err(bad(pair.line)),
    }
}

/// The text, which says something, under a key.
pub(crate) fn some_text_at(alloc: Global, pair: &Pair) -> Result<Text, Fault>
    ensures { Reads (scalar some_text_in pair.now) result }
{
    match text_of(&pair.value) {
        Some(text) => or_bad(pair.line, some_text_in(alloc, text)?),
        None => Err(bad(pair.line)),
    }
}

/// The number under a key.
pub(crate) fn number_at(least: u64, most: u64, pair: &Pair) -> Result<u64, Fault>
    requires { 1 ≤ least }
    ensures value { Reads (scalar (number_in least most) pair.now) result }
    ensures bound { IfOk result (λ number. number ≤ most) }
{
    let Some(text) = text_of(&pair.value) else {
        return Err(bad(pair.line));
    };
    match number_in(least, most, text.as_str()) {
        Some(number) => Ok(number),
        None => Err(bad(pair.line)),
    }
}

/// The name of a target.
pub(crate) fn target_of(alloc: Global, item: &Node) -> Result<TypeName, Fault>
    ensures { Reads (target_of item.now) result }
{
    match text_of(item) {
        Some(text) => or_bad(item.line, type_in(alloc, text)?),
        None => Err(bad(item.line)),
    }
}

fn targets_of(alloc: Global, items: &[Node]) -> Result<List<TypeName>, Fault>
    ensures { Reads (targets_of items.now) result }
{
    let mut names = List::new(alloc);
    for item in items {
        names.push(target_of(alloc, item)?)?;
    }
    Ok(names)
}

/// The targets, at least one, under a key.
pub(crate) fn targets_at(alloc: Global, pair: &Pair) -> Result<List<TypeName>, Fault>
    ensures { Reads (targets_at pair.now) result }
{
    match items_of(&pair.value) {
        Some([]) => Err(bad(pair.line)),
        Some(items) => targets_of(alloc, items),
        None => Err(bad(pair.line)),
    }
}
