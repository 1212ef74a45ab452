//! Plain scalars, and what stands around scalars on a line.
ghost use Rattle.std.specs.Prelude.{◌≡◌, ◌≤◌, ◌+◌, ◌<◌, ◌∷◌, [], length, take, drop, option_map, MatchOption, IfSome, IfOk, IsUtf8};
ghost use Rattle.yaml_block.specs.Scalars as spec;
ghost use Rattle.yaml_block.specs.Steps.{is_colon_at};

use proto_wire::{Bytes, Mem, ModuleKind, Text};
use std::alloc::Global;

/// The first byte of a text and what follows.
pub(crate) fn first_of(text: &[u8]) -> Option<(u8, &[u8])>
    ensures { MatchOption result (text.now ≡ []) (λ x. text.now ≡ x.0 ∷ x.1.now) }
{
    let (first, rest) = text.split_first()?;
    Some((*first, rest))
}

/// The space or the tab.
pub(crate) fn is_white(byte: u8) -> bool
    ensures { result ≡ spec.is_white byte }
{
    byte == b' ' || byte == b'\t'
}

/// The text behind its leading white space.
pub(crate) fn past_white(text: &[u8]) -> &[u8]
    ensures { result.now ≡ spec.past_white text.now }
{
    let mut rest = text;
    while let [first, after @ ..] = rest {
        if !is_white(*first) {
            return rest;
        }
        rest = after;
    }
    rest
}

/// Whether nothing but a comment can follow.
fn is_end(text: &[u8]) -> bool
    ensures { result ≡ spec.is_end text.now }
{
    match text {
        [] => true,
        [first, ..] => *first == b'#',
    }
}

/// Whether there is nothing more here than white space and perhaps a comment.
pub(crate) fn is_over(text: &[u8]) -> bool
    ensures { result ≡ spec.is_over text.now }
{
    match text {
        [] => true,
        [first, after @ ..] => is_white(*first) && is_end(past_white(after)),
    }
}

/// Whether a `-` or a colon that this follows stands alone.
pub(crate) fn is_gap(text: &[u8]) -> bool
    ensures { result ≡ spec.is_gap text.now }
{
    match text {
        [] => true,
        [first, ..] => *first == b' ' || is_over(text),
    }
}

/// Whether this is the `-` of an item.
pub(crate) fn is_item(first: u8, rest: &[u8]) -> bool
    ensures { result ≡ spec.is_item first rest.now }
{
    first == b'-' && is_gap(rest)
}

/// What follows the first bytes of a text.
fn from_place(text: &[u8], at: usize) -> &[u8]
    requires { at ≤ length text.now }
    ensures { result.now ≡ drop at text.now }
{
    let (_, rest) = text.split_at(at);
    rest
}

fn is_colon_at(text: &[u8], at: usize) -> bool
    requires { at < length text.now }
    ensures { result ≡ is_colon_at text.now at }
{
    text[at] == b':' && is_gap(from_place(text, at + 1))
}

/// How many bytes the plain scalar has that a text begins with.
fn plain_len(text: &[u8]) -> usize
    ensures bound { result ≤ length text.now }
    ensures value { take result text.now ≡ spec.plain text.now }
{
    let mut len = 0;
    while len < text.len() {
        if is_white(text[len]) {
            let rest = past_white(from_place(text, len));
            if is_end(rest) {
                return len;
            }
            len = text.len() - rest.len();
        } else {
            len += 1;
        }
    }
    len
}

/// The plain scalar that a text begins with.
pub(crate) fn plain(text: &[u8]) -> &[u8]
    ensures { result.now ≡ spec.plain text.now }
{
    let (scalar, _) = text.split_at(plain_len(text));
    scalar
}

/// Where the first colon that stands alone is in the plain scalar that a text begins with.
pub(crate) fn colon_in(text: &[u8]) -> Option<usize>
    ensures bound { IfSome result (λ at. at < length text.now) }
    ensures value { option_map (λ at. (take at text.now, drop (at + 1) text.now)) result ≡ spec.cut_at_colon text.now }
{
    let mut at = 0;
    while at < text.len() {
        if is_white(text[at]) {
            let rest = past_white(from_place(text, at));
            if is_end(rest) {
                return None;
            }
            at = text.len() - rest.len();
        } else if is_colon_at(text, at) {
            return Some(at);
        } else {
            at += 1;
        }
    }
    None
}

/// What a plain scalar may not begin with.
pub(crate) fn foreign(first: u8, rest: &[u8]) -> Option<ModuleKind>
    ensures { result ≡ spec.foreign first rest.now }
{
    match first {
        b'&' | b'*' => Some(ModuleKind::Anchor),
        b'!' => Some(ModuleKind::Tag),
        b'{' | b'}' | b'[' | b']' | b',' => Some(ModuleKind::Flow),
        b'|' | b'>' => Some(ModuleKind::BlockScalar),
        b'@' | b'`' | b'%' => Some(ModuleKind::Reserved),
        b'?' if is_gap(rest) => Some(ModuleKind::Reserved),
        _ => None,
    }
}

/// The text of bytes that are UTF-8.
pub(crate) fn text_of(bytes: Bytes) -> Text
    requires { IsUtf8 bytes }
    ensures { result ≡ bytes }
{
    match Text::of(bytes) {
        Some(text) => text,
        None => unreachable!(),
    }
}

/// A text of its own with these bytes, which are UTF-8.
pub(crate) fn copied(alloc: Global, bytes: &[u8]) -> Mem<Text>
    requires { IsUtf8 bytes.now }
    ensures { IfOk result (λ text. text ≡ bytes.now) }
{
    Ok(text_of(Bytes::copy_of(alloc, bytes)?))
}
