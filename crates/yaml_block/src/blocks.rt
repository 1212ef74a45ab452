//! Blocks, from the pieces of their lines.
ghost use Rattle.std.specs.Prelude.{◌≡◌, ◌≤◌, [], option_map};
ghost use Rattle.yaml_block.specs.Layout as layout;
ghost use Rattle.yaml_block.specs.Trees as spec;
ghost use Rattle.yaml_block.specs.Steps.{Answers, next_in, read_block, read_as, read_value, read_nothing, misplaced_kind, HasInline};

use crate::fault::{BlockFault, Refusal};
use crate::keys::Keys;
use crate::node::{Node, NodeKind, Pair};
use crate::piece::{Block, BlockKind, Bound, Head, Inline, Piece};
use proto_wire::{ModuleKind, Text, TryClone};
use sqlite_items::Items;
use std::alloc::Global;

/// How many blocks may lie in one another.
const MOST_LEVELS: u32 = 16;

impl Head {
    fn is_item(&self) -> bool
        ensures { result ≡ layout.is_item_head self.now }
    {
        match self {
            Head::Item => true,
            Head::Entry(..) => false,
            Head::Scalar(_) => false,
            Head::Refused(_) => false,
        }
    }

    fn is_entry(&self) -> bool
        ensures { result ≡ layout.is_entry_head self.now }
    {
        match self {
            Head::Item => false,
            Head::Entry(..) => true,
            Head::Scalar(_) => false,
            Head::Refused(_) => false,
        }
    }

    /// What the block is that a line with this head begins.
    fn block_kind(&self) -> BlockKind
        ensures { result ≡ spec.block_kind self.now }
    {
        match self {
            Head::Item => BlockKind::Sequence,
            Head::Entry(..) => BlockKind::Mapping,
            Head::Scalar(_) => BlockKind::Scalar,
            Head::Refused(_) => BlockKind::Scalar,
        }
    }

    /// Why a piece with this head is refused where no piece may stand.
    fn misplaced_kind(&self) -> ModuleKind
        ensures { result ≡ misplaced_kind self.now }
    {
        match self {
            Head::Item => ModuleKind::Indent,
            Head::Entry(..) => ModuleKind::Indent,
            Head::Scalar(_) => ModuleKind::Indent,
            Head::Refused(kind) => *kind,
        }
    }
}

impl Piece {
    fn lies_in(&self, bound: Bound) -> bool
        ensures { result ≡ layout.lies_in bound self.now }
    {
        let column = u64::from(self.column);
        if self.head.is_item() && bound.below_key {
            bound.least <= column + 1
        } else {
            bound.least <= column
        }
    }

    fn below(&self) -> Bound
        ensures { result ≡ layout.below self.now }
    {
        Bound {
            least: u64::from(self.column) + 1,
            below_key: self.head.is_entry(),
        }
    }

    /// The block that this piece begins.
    fn block(&self) -> Block
        ensures { result ≡ spec.block_of self.now }
    {
        Block {
            column: self.column,
            kind: self.head.block_kind(),
        }
    }

    fn refused(&self, kind: ModuleKind) -> BlockFault
        ensures { result ≡ BlockFault.Refused (record { line = self.now.line; kind = kind }) }
    {
        BlockFault::Refused(Refusal {
            line: self.line,
            kind,
        })
    }
}

fn is_of_kind(kind: BlockKind, head: &Head) -> bool
    ensures { result ≡ spec.is_of_kind kind head.now }
{
    match (kind, head) {
        (BlockKind::Sequence, Head::Item) => true,
        (BlockKind::Mapping, Head::Entry(..)) => true,
        (BlockKind::Scalar, Head::Scalar(_)) => true,
        _ => false,
    }
}

/// What is wrong with a piece in a block at a level, but for its key and its value.
fn misfit(level: u32, home: Block, piece: &Piece) -> Option<ModuleKind>
    ensures { result ≡ spec.misfit level home piece.now }
{
    if let Head::Refused(kind) = &piece.head {
        return Some(*kind);
    }
    if home.column != piece.column || !is_of_kind(home.kind, &piece.head) {
        return Some(ModuleKind::Indent);
    }
    if level > MOST_LEVELS {
        return Some(ModuleKind::Depth);
    }
    None
}

/// The next piece, if it lies in the bound, and those after it.
fn next_in(bound: Bound, pieces: &[Piece]) -> Option<(&Piece, &[Piece])>
    ensures { option_map (λ x. (x.0.now, x.1.now)) result ≡ next_in bound pieces.now }
{
    let (first, after) = pieces.split_first()?;
    if first.lies_in(bound) {
        Some((first, after))
    } else {
        None
    }
}

/// Refuses the next piece, if it lies in the bound.
fn nothing(bound: Bound, pieces: &[Piece]) -> Result<(), BlockFault>
    ensures { Answers (λ x. x) result (read_nothing bound pieces.now) }
{
    match next_in(bound, pieces) {
        None => Ok(()),
        Some((piece, _)) => Err(piece.refused(piece.head.misplaced_kind())),
    }
}

fn scalar(line: u32, text: Text) -> Node
    ensures { result ≡ spec.scalar line text }
{
    Node {
        line,
        what: NodeKind::Scalar(text),
    }
}

/// The block of the next pieces that lie in the bound, or the empty scalar on a line, and the pieces after it.
#[cycle(reader)]
pub(crate) fn block(
    alloc: Global,
    level: u32,
    line: u32,
    bound: Bound,
    pieces: &[Piece],
) -> Result<(Node, &[Piece]), BlockFault>
    requires { level ≤ 17 }
    ensures { Answers (λ x. (x.0, x.1.now)) result (read_block level line bound pieces.now) }
{
    let Some((first, after)) = next_in(bound, pieces) else {
        return Ok((scalar(line, Text::new(alloc)), pieces));
    };
    let home = first.block();
    let line = first.line;
    match &first.head {
        Head::Item => {
            let (items, rest) = items(alloc, level, home, bound, pieces)?;
            let what = NodeKind::Sequence(items);
            Ok((Node { line, what }, rest))
        }
        Head::Entry(..) => {
            let (pairs, rest) = pairs(alloc, level, home, bound, pieces)?;
            let what = NodeKind::Mapping(pairs);
            Ok((Node { line, what }, rest))
        }
        Head::Scalar(text) => {
            if let Some(kind) = misfit(level, home, first) {
                return Err(first.refused(kind));
            }
            nothing(first.below(), after)?;
            nothing(bound, after)?;
            Ok((scalar(line, text.try_clone(alloc)?), after))
        }
        Head::Refused(kind) => Err(first.refused(*kind)),
    }
}

/// The items of a sequence, and the pieces after it.
#[cycle(reader)]
fn items(
    alloc: Global,
    level: u32,
    home: Block,
    bound: Bound,
    pieces: &[Piece],
) -> Result<(Items<Node>, &[Piece]), BlockFault>
    requires level { level ≤ 17 }
    requires kind { home.kind ≡ BlockKind.Sequence }
    ensures { Answers (λ x. (x.0, x.1.now)) result (read_as spec.items level home [] bound pieces.now) }
{
    let mut items = Items::new(alloc);
    let mut rest = pieces;
    while let Some((piece, after)) = next_in(bound, rest) {
        if let Some(kind) = misfit(level, home, piece) {
            return Err(piece.refused(kind));
        }
        let (item, behind) = block(alloc, level + 1, piece.line, piece.below(), after)?;
        items.push(item)?;
        rest = behind;
    }
    Ok((items, rest))
}

/// The pairs of a mapping, and the pieces after it.
#[cycle(reader)]
fn pairs(
    alloc: Global,
    level: u32,
    home: Block,
    bound: Bound,
    pieces: &[Piece],
) -> Result<(Items<Pair>, &[Piece]), BlockFault>
    requires level { level ≤ 17 }
    requires kind { home.kind ≡ BlockKind.Mapping }
    ensures { Answers (λ x. (x.0, x.1.now)) result (read_as spec.pairs level home [] bound pieces.now) }
{
    let mut keys = Keys::new(alloc);
    let mut pairs = Items::new(alloc);
    let mut rest = pieces;
    while let Some((piece, after)) = next_in(bound, rest) {
        if let Some(kind) = misfit(level, home, piece) {
            return Err(piece.refused(kind));
        }
        let Head::Entry(key, inline) = &piece.head else {
            return Err(piece.refused(ModuleKind::Indent));
        };
        if keys.has(key) {
            return Err(piece.refused(ModuleKind::DuplicateKey));
        }
        keys = keys.and(alloc, key)?;
        let (value, behind) = value(alloc, level, piece, inline, after)?;
        let key = key.try_clone(alloc)?;
        let line = piece.line;
        pairs.push(Pair { key, line, value })?;
        rest = behind;
    }
    Ok((pairs, rest))
}

/// The value of an entry, and the pieces after it.
#[cycle(reader)]
fn value<'a>(
    alloc: Global,
    level: u32,
    piece: &Piece,
    inline: &Inline,
    after: &'a [Piece],
) -> Result<(Node, &'a [Piece]), BlockFault>
    requires level { level ≤ 16 }
    requires inline { HasInline inline.now piece.now.head }
    ensures { Answers (λ x. (x.0, x.1.now)) result (read_value level piece.now after.now) }
{
    match inline {
        Inline::Nothing => block(alloc, level + 1, piece.line, piece.below(), after),
        Inline::Scalar(text) => {
            nothing(piece.below(), after)?;
            Ok((scalar(piece.line, text.try_clone(alloc)?), after))
        }
        Inline::Refused(kind) => Err(piece.refused(*kind)),
    }
}
