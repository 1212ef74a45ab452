//! Trees on one line: `'text'@LINE`, `['text'@LINE, ..]@LINE` and `{'key'@LINE: 'text'@LINE, ..}@LINE`.
use percent_encoding::{AsciiSet, CONTROLS, percent_encode};
use proto_wire::{Mem, Text};
use std::alloc::Global;
use yaml_block::{Node, NodeKind, Pair};

/// What is escaped in a text, beside bytes from 128 on.
fn escaped_bytes() -> AsciiSet {
    CONTROLS.add(b'%').add(b'\'')
}

#[cycle(trees)]
pub(crate) fn put_node(alloc: Global, node: &Node, into: &mut Text) -> Mem<()> {
    match &node.what {
        NodeKind::Scalar(text) => put_quoted(alloc, text, into)?,
        NodeKind::Mapping(pairs) => {
            into.append("{")?;
            let mut more = false;
            for pair in pairs.as_slice() {
                put_between(more, into)?;
                put_pair(alloc, pair, into)?;
                more = true;
            }
            into.append("}")?;
        }
        NodeKind::Sequence(items) => {
            into.append("[")?;
            let mut more = false;
            for item in items.as_slice() {
                put_between(more, into)?;
                put_node(alloc, item, into)?;
                more = true;
            }
            into.append("]")?;
        }
    }
    put_line(alloc, node.line, into)
}

#[cycle(trees)]
fn put_pair(alloc: Global, pair: &Pair, into: &mut Text) -> Mem<()> {
    put_quoted(alloc, &pair.key, into)?;
    put_line(alloc, pair.line, into)?;
    into.append(": ")?;
    put_node(alloc, &pair.value, into)
}

/// What stands before a part that is not the first.
fn put_between(more: bool, into: &mut Text) -> Mem<()> {
    if more { into.append(", ") } else { Ok(()) }
}

fn put_quoted(alloc: Global, text: &Text, into: &mut Text) -> Mem<()> {
    let mut escaped = String::new(alloc);
    percent_encode(text.as_bytes(), escaped_bytes()).append_to(&mut escaped)?;
    into.append("'")?;
    into.append(escaped.as_str())?;
    into.append("'")
}

fn put_line(alloc: Global, line: u32, into: &mut Text) -> Mem<()> {
    let line = format!(in alloc; "@{line}")?;
    into.append(line.as_str())
}
