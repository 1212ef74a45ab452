//! What a line is made of.
use proto_wire::{List, ModuleKind, Text};

/// What stands behind a key's colon on its line.
#[derive(Drop)]
pub(crate) enum Inline {
    /// White space and perhaps a comment.
    Nothing,
    Scalar(Text),
    Refused(ModuleKind),
}

/// What a piece begins with.
#[derive(Drop)]
pub(crate) enum Head {
    /// The `-` of an item.
    Item,
    /// A key and its colon, and what stands behind.
    Entry(Text, Inline),
    Scalar(Text),
    Refused(ModuleKind),
}

/// A part of a line that stands at a column of its own: each `-` of an item, and what follows the last of them.
#[derive(Drop)]
pub(crate) struct Piece {
    /// From 1.
    pub(crate) line: u32,
    /// The bytes of its line before it.
    pub(crate) column: u32,
    pub(crate) head: Head,
}

/// What a line is.
#[derive(Drop)]
pub(crate) enum Line {
    /// `---` or `...`.
    Mark,
    /// None where it is blank or a comment.
    Pieces(List<Piece>),
}

/// What all lines of a block have in common.
#[derive(Clone, Copy, Debug, PartialEq, Eq)]
pub(crate) struct Block {
    pub(crate) column: u32,
    pub(crate) kind: BlockKind,
}

/// What the lines of a block are.
#[derive(Clone, Copy, Debug, PartialEq, Eq)]
pub(crate) enum BlockKind {
    Sequence,
    Mapping,
    Scalar,
    /// No line belongs to it.
    Closed,
}

/// From which column on a piece lies below another one.
#[derive(Clone, Copy, Debug, PartialEq, Eq)]
pub(crate) struct Bound {
    pub(crate) least: u64,
    /// Whether a `-` counts as one column further right, as it does below a key.
    pub(crate) below_key: bool,
}
