//! Which key of a module file is missing, to show it to a person.
use std::alloc::Global;
use yaml_block::{Node, NodeKind, Pair, read_documents};

/// The keys of each document.
static DOCUMENT_KEYS: [&str; 2] = ["kind", "spec"];

/// The keys that have to stand under `spec`.
static ENDPOINT_KEYS: [&str; 2] = ["functions", "urlPathTemplate"];

static INGRESS_KEYS: [&str; 3] = ["id", "valueType", "targets"];

static EGRESS_KEYS: [&str; 1] = ["id"];

/// The first key that is missing in a document, counted from 1: one of its own, or else one of its `spec`.
pub(crate) fn missing_key(alloc: Global, text: &[u8], document: u32) -> Option<&'static str> {
    let Ok(documents) = read_documents(alloc, text) else {
        return None;
    };
    let place = (document as usize).saturating_sub(1);
    let node = documents.as_slice().get(place)?;
    match first_missing(DOCUMENT_KEYS.as_slice(), node) {
        Some(key) => Some(key),
        None => missing_in_spec(node),
    }
}

/// The first key that is missing under `spec`, by the document's kind.
fn missing_in_spec(node: &Node) -> Option<&'static str> {
    let kind = value_under("kind", node)?;
    let spec = value_under("spec", node)?;
    first_missing(keys_of(kind), spec)
}

/// The keys that have to stand under the `spec` of a kind.
fn keys_of(kind: &Node) -> &'static [&'static str] {
    let NodeKind::Scalar(kind) = &kind.what else {
        return &[];
    };
    match kind.as_str() {
        "io.statefun.endpoints.v2/http" => ENDPOINT_KEYS.as_slice(),
        "local.log.v1/ingress" => INGRESS_KEYS.as_slice(),
        "local.log.v1/egress" => EGRESS_KEYS.as_slice(),
        _ => &[],
    }
}

/// The first of these keys that does not stand in a mapping.
fn first_missing(keys: &[&'static str], node: &Node) -> Option<&'static str> {
    for key in keys {
        if value_under(key, node).is_none() {
            return Some(*key);
        }
    }
    None
}

/// What stands under a key of a mapping.
fn value_under<'a>(key: &str, node: &'a Node) -> Option<&'a Node> {
    for pair in pairs_of(node) {
        if pair.key.as_str() == key {
            return Some(&pair.value);
        }
    }
    None
}

/// The pairs of a mapping; no other node has any.
fn pairs_of(node: &Node) -> &[Pair] {
    match &node.what {
        NodeKind::Mapping(pairs) => pairs.as_slice(),
        NodeKind::Scalar(_) => &[],
        NodeKind::Sequence(_) => &[],
    }
}
