//! One line by itself: its pieces.
ghost use Rattle.std.specs.Prelude.{◌≡◌, ◌≤◌, ◌+◌, ◌<◌, ◌^◌, ◌∷◌, length, option_map, IfOk, IsUtf8};
ghost use Rattle.yaml_block.specs.Lines as spec;
ghost use Rattle.yaml_block.specs.Scalars as scalar;

use crate::piece::{Head, Inline, Line, Piece};
use crate::quoted::{is_quote, quoted};
use crate::scalars::{
    colon_in, copied, first_of, foreign, is_gap, is_item, is_over, is_white, past_white, plain,
    text_of,
};
use proto_wire::{List, Mem, ModuleKind};
use std::alloc::Global;

/// What a line is. `text` has no line end.
pub(crate) fn line_on(alloc: Global, line: u32, text: &[u8]) -> Mem<Line>
    requires length { length text.now < 2 ^ 32 }
    requires utf8 { IsUtf8 text.now }
    ensures { IfOk result (λ found. found ≡ spec.line_on line text.now) }
{
    let Some(rest) = behind_mark(text) else {
        return other_line(alloc, line, text);
    };
    if is_over(rest) {
        return Ok(Line::Mark);
    }
    match first_of(rest) {
        Some((first, _)) if is_white(first) => refused_line(alloc, line, ModuleKind::Indent),
        _ => other_line(alloc, line, text),
    }
}

/// What follows `---` or `...` at the start of a line.
fn behind_mark(text: &[u8]) -> Option<&[u8]>
    ensures { option_map (λ x. x.now) result ≡ spec.behind_mark text.now }
{
    match text {
        [b'-', b'-', b'-', rest @ ..] => Some(rest),
        [b'.', b'.', b'.', rest @ ..] => Some(rest),
        _ => None,
    }
}

/// A line that neither begins nor ends a document.
fn other_line(alloc: Global, line: u32, text: &[u8]) -> Mem<Line>
    requires length { length text.now < 2 ^ 32 }
    requires utf8 { IsUtf8 text.now }
    ensures { IfOk result (λ found. found ≡ spec.other_line line text.now) }
{
    if let Some((b'%', _)) = first_of(text) {
        return refused_line(alloc, line, ModuleKind::Directive);
    }
    if has_tab(text) && !is_over(text) {
        return refused_line(alloc, line, ModuleKind::Tab);
    }
    Ok(Line::Pieces(pieces_on(alloc, line, text)?))
}

fn refused_line(alloc: Global, line: u32, kind: ModuleKind) -> Mem<Line>
    ensures { IfOk result (λ found. found ≡ spec.refused_line line kind) }
{
    let mut pieces = List::new(alloc);
    pieces.push(Piece {
        line,
        column: 0,
        head: Head::Refused(kind),
    })?;
    Ok(Line::Pieces(pieces))
}

/// Whether one of the white bytes that a line begins with is a tab.
fn has_tab(text: &[u8]) -> bool
    ensures { result ≡ spec.has_tab text.now }
{
    let mut rest = text;
    while let Some((first, after)) = first_of(rest) {
        if first == b'\t' {
            return true;
        }
        if first != b' ' {
            return false;
        }
        rest = after;
    }
    false
}

/// The pieces of a line: each `-` of an item, and what follows the last of them.
fn pieces_on(alloc: Global, line: u32, text: &[u8]) -> Mem<List<Piece>>
    requires length { length text.now < 2 ^ 32 }
    requires utf8 { IsUtf8 text.now }
    ensures { IfOk result (λ found. found ≡ spec.pieces_on line 0 text.now) }
{
    let mut pieces = List::new(alloc);
    let mut rest = text;
    let mut column: u32 = 0;
    while let Some((first, after)) = first_of(rest) {
        if is_white(first) {
            column += 1;
            rest = after;
            continue;
        }
        if first == b'#' {
            return Ok(pieces);
        }
        if is_item(first, after) {
            let head = Head::Item;
            pieces.push(Piece { line, column, head })?;
            column += 1;
            rest = after;
            continue;
        }
        let head = head_on(alloc, first, after, rest)?;
        pieces.push(Piece { line, column, head })?;
        return Ok(pieces);
    }
    Ok(pieces)
}

/// An entry or a scalar, with all that follows it on its line. `text` is `first` and `rest`.
fn head_on(alloc: Global, first: u8, rest: &[u8], text: &[u8]) -> Mem<Head>
    requires text { text.now ≡ first ∷ rest.now }
    requires utf8 { IsUtf8 text.now }
    ensures { IfOk result (λ head. head ≡ spec.head_on first rest.now) }
{
    if is_quote(first) {
        quoted_head(alloc, first, rest)
    } else {
        plain_head(alloc, first, rest, text)
    }
}

/// An entry or a scalar that begins with a quote, which `text` follows.
fn quoted_head(alloc: Global, quote: u8, text: &[u8]) -> Mem<Head>
    requires utf8 { IsUtf8 text.now }
    ensures { IfOk result (λ head. head ≡ spec.quoted_head (scalar.quoted quote text.now)) }
{
    let Some((content, rest)) = quoted(alloc, quote, text)? else {
        return Ok(Head::Refused(ModuleKind::Quote));
    };
    if let Some(value) = behind_colon(rest) {
        let value = inline_on(alloc, value)?;
        return Ok(Head::Entry(text_of(content), value));
    }
    if is_over(rest) {
        Ok(Head::Scalar(text_of(content)))
    } else {
        Ok(Head::Refused(ModuleKind::Quote))
    }
}

/// What follows a colon that a text begins with and that stands alone.
fn behind_colon(text: &[u8]) -> Option<&[u8]>
    ensures { option_map (λ x. x.now) result ≡ spec.behind_colon text.now }
{
    let (first, rest) = first_of(text)?;
    if first == b':' && is_gap(rest) {
        Some(rest)
    } else {
        None
    }
}

/// An entry or a scalar that begins with no quote.
fn plain_head(alloc: Global, first: u8, rest: &[u8], text: &[u8]) -> Mem<Head>
    requires text { text.now ≡ first ∷ rest.now }
    requires utf8 { IsUtf8 text.now }
    ensures { IfOk result (λ head. head ≡ spec.plain_head (scalar.foreign first rest.now) (scalar.cut_at_colon text.now) (scalar.plain text.now)) }
{
    if let Some(kind) = foreign(first, rest) {
        return Ok(Head::Refused(kind));
    }
    let Some(at) = colon_in(text) else {
        return Ok(Head::Scalar(copied(alloc, plain(text))?));
    };
    if at == 0 {
        return Ok(Head::Refused(ModuleKind::Colon));
    }
    let (key, rest) = text.split_at(at);
    let (_, value) = rest.split_at(1);
    let value = inline_on(alloc, value)?;
    Ok(Head::Entry(copied(alloc, plain(key))?, value))
}

/// What stands behind a key's colon, which `text` follows.
fn inline_on(alloc: Global, text: &[u8]) -> Mem<Inline>
    requires utf8 { IsUtf8 text.now }
    ensures { IfOk result (λ value. value ≡ spec.inline_on text.now) }
{
    let text = past_white(text);
    match first_of(text) {
        None => Ok(Inline::Nothing),
        Some((first, rest)) => value_on(alloc, first, rest, text),
    }
}

/// The value that stands on its key's line, or nothing before a comment. `text` is `first` and `rest`.
fn value_on(alloc: Global, first: u8, rest: &[u8], text: &[u8]) -> Mem<Inline>
    requires text { text.now ≡ first ∷ rest.now }
    requires utf8 { IsUtf8 text.now }
    ensures { IfOk result (λ value. value ≡ spec.value_on first rest.now) }
{
    if first == b'#' {
        return Ok(Inline::Nothing);
    }
    if is_item(first, rest) {
        return Ok(Inline::Refused(ModuleKind::Indent));
    }
    if is_quote(first) {
        return quoted_value(alloc, first, rest);
    }
    if let Some(kind) = foreign(first, rest) {
        return Ok(Inline::Refused(kind));
    }
    if let Some(_) = colon_in(text) {
        return Ok(Inline::Refused(ModuleKind::Colon));
    }
    Ok(Inline::Scalar(copied(alloc, plain(text))?))
}

/// A value that begins with a quote, which `text` follows.
fn quoted_value(alloc: Global, quote: u8, text: &[u8]) -> Mem<Inline>
    requires utf8 { IsUtf8 text.now }
    ensures { IfOk result (λ value. value ≡ spec.quoted_value (scalar.quoted quote text.now)) }
{
    match quoted(alloc, quote, text)? {
        Some((content, rest)) if is_over(rest) => Ok(Inline::Scalar(text_of(content))),
        _ => Ok(Inline::Refused(ModuleKind::Quote)),
    }
}
