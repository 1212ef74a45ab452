//! Trees.
use proto_wire::Text;
use sqlite_items::Items;

/// A node of a document's tree.
#[cycle(tree)]
#[derive(Drop)]
pub struct Node {
    /// The line of its first character, from 1. The empty scalar has that of its key's colon, or of its `-`.
    pub line: u32,
    pub what: NodeKind,
}

/// What a node is. Every scalar is a text.
#[cycle(tree)]
#[derive(Drop)]
pub enum NodeKind {
    Scalar(Text),
    /// At least one pair, in the order of the lines, and each key once.
    Mapping(Items<Pair>),
    /// At least one node, in the order of the lines.
    Sequence(Items<Node>),
}

/// A key and what it stands for.
#[cycle(tree)]
#[derive(Drop)]
pub struct Pair {
    pub key: Text,
    /// The line of the key, from 1.
    pub line: u32,
    pub value: Node,
}
