//! What a node of a tree is, one level deep.
ghost use Rattle.std.specs.Prelude.{◌≡◌, option_map};
ghost use Rattle.module_yaml.specs.Nodes.{text_of, pairs_of, items_of};
ghost use Rattle.module_yaml.specs.Mappings.{pair_of, pairs_under};

use proto_wire::Text;
use yaml_block::{Node, NodeKind, Pair};

/// The text of a scalar.
pub(crate) fn text_of(node: &Node) -> Option<&Text>
    ensures { option_map (λ x. x.now) result ≡ text_of node.now }
{
    match &node.what {
        NodeKind::Scalar(text) => Some(text),
        NodeKind::Mapping(_) => None,
        NodeKind::Sequence(_) => None,
    }
}

/// The pairs of a mapping.
pub(crate) fn pairs_of(node: &Node) -> Option<&[Pair]>
    ensures { option_map (λ x. x.now) result ≡ pairs_of node.now }
{
    match &node.what {
        NodeKind::Scalar(_) => None,
        NodeKind::Mapping(pairs) => Some(pairs.as_slice()),
        NodeKind::Sequence(_) => None,
    }
}

/// The items of a sequence.
pub(crate) fn items_of(node: &Node) -> Option<&[Node]>
    ensures { option_map (λ x. x.now) result ≡ items_of node.now }
{
    match &node.what {
        NodeKind::Scalar(_) => None,
        NodeKind::Mapping(_) => None,
        NodeKind::Sequence(items) => Some(items.as_slice()),
    }
}

/// The pairs of a mapping; no other node has any.
pub(crate) fn pairs_under(node: &Node) -> &[Pair]
    ensures { result.now ≡ pairs_under node.now }
{
    match pairs_of(node) {
        Some(pairs) => pairs,
        None => &[],
    }
}

/// The pair of a key.
pub(crate) fn pair_of<'a>(name: &str, pairs: &'a [Pair]) -> Option<&'a Pair>
    ensures { option_map (λ x. x.now) result ≡ pair_of name.now pairs.now }
{
    for pair in pairs {
        if name.as_bytes() == pair.key.as_bytes() {
            return Some(pair);
        }
    }
    None
}
