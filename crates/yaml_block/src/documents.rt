//! From a text to the trees of its documents.
ghost use Rattle.std.specs.Prelude.{◌≡◌, ◌==◌, ◌≤◌, ◌<◌, ◌+◌, ◌^◌, Ok, count_by, length, take, slice_index, false, List, option_map, IfSome, IfOk, IfErr, OnOk, IsUtf8};
ghost use Rattle.std.specs.List.{list_any};
ghost use Rattle.yaml_block.specs.Documents as spec;
ghost use Rattle.yaml_block.specs.Layout.{forest};
ghost use Rattle.yaml_block.specs.declared.piece.Piece.{Piece};
ghost use Rattle.yaml_block.specs.Steps.{Answers, document_tree, AreLines, without_return, closed, trees_on};

use crate::blocks::block;
use crate::fault::{BlockFault, YamlFault};
use crate::lines::line_on;
use crate::node::Node;
use crate::piece::{Bound, Line, Piece};
use proto_wire::{List, ModuleKind};
use std::alloc::Global;

/// How many bytes a text may have.
const MOST_BYTES: usize = 1_048_576;

/// The trees of a text's documents, in their order. Documents without a node have none.
///
/// Reads each byte a bounded number of times, and takes memory in proportion to the text.
pub fn read_documents(alloc: Global, bytes: &[u8]) -> Result<List<Node>, YamlFault>
    ensures trees { IfOk result (λ nodes. spec.read bytes.now ≡ Ok nodes) }
    ensures refused { IfErr result (λ fault. spec.IsToldBy fault (spec.read bytes.now)) }
{
    if bytes.len() > MOST_BYTES {
        return Err(whole_text(0, ModuleKind::TooLong));
    }
    if let Err(fault) = std::str::from_utf8(bytes) {
        let (good, _) = bytes.split_at(fault.valid_up_to());
        let ends = line_ends(good);
        return Err(whole_text(ends as u32 + 1, ModuleKind::NotUtf8));
    }
    trees(alloc, without_mark(bytes))
}

/// A fault that belongs to no document.
fn whole_text(line: u32, kind: ModuleKind) -> YamlFault
    ensures { result ≡ YamlFault.Refused 0 line kind }
{
    YamlFault::Refused {
        document: 0,
        line,
        kind,
    }
}

/// How many line feeds a text has.
fn line_ends(text: &[u8]) -> usize
    ensures value { result ≡ count_by (λ b. b == 10) text.now }
    ensures bound { result ≤ length text.now }
{
    text.iter().filter(|b| **b == b'\n').count()
}

/// The text without the byte order mark that it may begin with.
fn without_mark(text: &[u8]) -> &[u8]
    ensures { result.now ≡ spec.without_mark text.now }
{
    match text {
        [0xEF, 0xBB, 0xBF, rest @ ..] => rest,
        _ => text,
    }
}

/// The trees of a text without such a mark.
fn trees(alloc: Global, text: &[u8]) -> Result<List<Node>, YamlFault>
    requires length { length text.now ≤ 1048576 }
    requires utf8 { IsUtf8 text.now }
    ensures trees { IfOk result (λ nodes. spec.trees 1 (spec.documents 1 (spec.lines text.now)) ≡ Ok nodes) }
    ensures refused { IfErr result (λ fault. spec.IsToldBy fault (spec.trees 1 (spec.documents 1 (spec.lines text.now)))) }
{
    let mut nodes = List::new(alloc);
    let mut pieces: Vec<Piece> = Vec::new(alloc);
    let mut rest = text;
    let mut line: u32 = 1;
    loop {
        let (content, after) = next_line(rest);
        take_line(alloc, line, content, &mut nodes, &mut pieces)?;
        let Some(after) = after else {
            break;
        };
        rest = after;
        line += 1;
    }
    close(alloc, &mut nodes, pieces.as_slice())?;
    Ok(nodes)
}

/// The first line of a text without its end, and the text after it where it has an end.
fn next_line(text: &[u8]) -> (&[u8], Option<&[u8]>)
    requires { IsUtf8 text.now }
    ensures lines { AreLines text.now result.0.now (option_map (λ x. x.now) result.1) }
    ensures bound { length result.0.now ≤ length text.now }
    ensures less { IfSome result.1 (λ rest. length rest.now < length text.now) }
    ensures utf8 { IsUtf8 result.0.now }
    ensures rest_utf8 { IfSome result.1 (λ rest. IsUtf8 rest.now) }
{
    let len = line_len(text);
    if len == text.len() {
        return (text, None);
    }
    let (line, rest) = text.split_at(len);
    let (_, rest) = rest.split_at(1);
    (without_return(line), Some(rest))
}

/// How many bytes stand before the first line feed.
fn line_len(text: &[u8]) -> usize
    ensures bound { result ≤ length text.now }
    ensures before { list_any (λ b. b == 10) (take result text.now) ≡ false }
    ensures there { result < length text.now → slice_index text.now result ≡ 10 }
{
    let mut len = 0;
    while len < text.len() {
        if text[len] == b'\n' {
            return len;
        }
        len += 1;
    }
    len
}

/// A line without the CR that it may end with.
fn without_return(line: &[u8]) -> &[u8]
    requires { IsUtf8 line.now }
    ensures bound { length result.now ≤ length line.now }
    ensures value { result.now ≡ without_return line.now }
    ensures utf8 { IsUtf8 result.now }
{
    let Some((last, front)) = line.split_last() else {
        return line;
    };
    if *last == b'\r' { front } else { line }
}

/// Takes a line: it ends a document, or its pieces join those of its document. An `Err` leaves both lists as they may be.
fn take_line(
    alloc: Global,
    line: u32,
    content: &[u8],
    nodes: &mut List<Node>,
    pieces: &mut Vec<Piece>,
) -> Result<(), YamlFault>
    requires room { length nodes.old < 2 ^ 31 }
    requires length { length content.now < 2 ^ 32 }
    requires utf8 { IsUtf8 content.now }
    ensures ok { OnOk result ((ds : List (List Piece))
        → trees_on nodes.new pieces.new.items ds
        ≡ trees_on nodes.old pieces.old.items (spec.and_line (spec.line_of line content.now) ds)) }
    ensures more { OnOk result (length nodes.new ≤ length nodes.old + 1) }
    ensures refused { IfErr result (λ fault. (ds : List (List Piece))
        → spec.IsToldBy fault (trees_on nodes.old pieces.old.items (spec.and_line (spec.line_of line content.now) ds))) }
{
    match line_on(alloc, line, content)? {
        Line::Mark => {
            close(alloc, nodes, pieces.as_slice())?;
            pieces.clear();
        }
        Line::Pieces(more) => {
            let mut more = more.into_vec();
            pieces.append(&mut more)?;
        }
    }
    Ok(())
}

/// Adds the tree of the document that these pieces are, if there are any.
fn close(alloc: Global, nodes: &mut List<Node>, pieces: &[Piece]) -> Result<(), YamlFault>
    requires { length nodes.old < 2 ^ 31 }
    ensures ok { OnOk result (closed nodes.old pieces.now ≡ Ok nodes.new) }
    ensures more { OnOk result (length nodes.new ≤ length nodes.old + 1) }
    ensures refused { IfErr result (λ fault. spec.IsToldBy fault (closed nodes.old pieces.now)) }
{
    if pieces.is_empty() {
        return Ok(());
    }
    let document = nodes.len() as u32 + 1;
    match tree(alloc, pieces) {
        Ok(node) => {
            nodes.push(node)?;
            Ok(())
        }
        Err(BlockFault::OutOfMemory) => Err(YamlFault::OutOfMemory),
        Err(BlockFault::Refused(refusal)) => Err(YamlFault::Refused {
            document,
            line: refusal.line,
            kind: refusal.kind,
        }),
    }
}

/// Reads the pieces of one document.
fn tree(alloc: Global, pieces: &[Piece]) -> Result<Node, BlockFault>
    ensures { Answers (λ x. x) result (document_tree (forest pieces.now)) }
{
    let everything = Bound {
        least: 0,
        below_key: false,
    };
    let (node, _) = block(alloc, 1, 0, everything, pieces)?;
    Ok(node)
}
