//! Which keys a mapping may have, and which it must have.
ghost use Rattle.std.specs.Prelude.{◌≡◌, [], ◌∷◌, None, IfErr, OnOk, option_map};
ghost use Rattle.module_yaml.specs.Mappings.{is_key, lacks_key, row, unknown_key, wrong_keys, stands};
ghost use Rattle.std.specs.Str.{bytes_eq};
ghost use Rattle.module_yaml.specs.Keys.{keys_of, document_keys, spec_keys, kind_in, max_num_batch_requests, max_batch_bytes, attempts, patience, targets, splits};
ghost use Rattle.module_yaml.specs.Told.{IsTold};

use crate::fault::{Fault, bad, refused};
use crate::nodes::{pair_of, pairs_of};
use proto_wire::{ModuleKind, Text};
use yaml_block::{Node, Pair};

/// A kind of document.
#[derive(Clone, Copy, Debug, PartialEq, Eq)]
pub(crate) enum Kind {
    Endpoint,
    Ingress,
    Egress,
}

/// A table of keys.
#[derive(Clone, Copy, Debug, PartialEq, Eq)]
pub(crate) enum Table {
    /// That of each document.
    Document,
    /// That of the `spec` of a kind.
    Spec(Kind),
}

/// The kind that a text names, if any.
pub(crate) fn kind_in(text: &Text) -> Option<Kind>
    ensures { result ≡ kind_in text.now }
{
    if text.as_str() == "io.statefun.endpoints.v2/http" {
        Some(Kind::Endpoint)
    } else if text.as_str() == "local.log.v1/ingress" {
        Some(Kind::Ingress)
    } else if text.as_str() == "local.log.v1/egress" {
        Some(Kind::Egress)
    } else {
        None
    }
}

impl Table {
    /// Whether a key is in the table.
    #[tactic(auto, unfolding(crate::specs::Keys::keys_of))]
    fn has(self, key: &Text) -> bool
        ensures { result ≡ is_key (keys_of self) key.now }
    {
        match self {
            Table::Document => is_document_key(key.as_str()),
            Table::Spec(kind) => is_spec_key(kind, key.as_str()),
        }
    }

    /// Whether pairs lack a key that the table asks for.
    #[tactic(auto, unfolding(crate::specs::Keys::keys_of, crate::specs::Keys::document_keys, crate::specs::Keys::spec_keys))]
    fn lacks(self, pairs: &[Pair]) -> bool
        ensures { result ≡ lacks_key (keys_of self) pairs.now }
    {
        match self {
            Table::Document => !stands("kind", pairs) || !stands("spec", pairs),
            Table::Spec(Kind::Endpoint) => {
                !stands("functions", pairs) || !stands("urlPathTemplate", pairs)
            }
            Table::Spec(Kind::Ingress) => {
                !stands("id", pairs) || !stands("valueType", pairs) || !stands("targets", pairs)
            }
            Table::Spec(Kind::Egress) => !stands("id", pairs),
        }
    }
}

#[tactic(auto, unfolding(crate::specs::Keys::document_keys))]
fn is_document_key(key: &str) -> bool
    ensures { result ≡ is_key document_keys key.now }
{
    is_called("kind", key) || is_called("spec", key)
}

fn is_spec_key(kind: Kind, key: &str) -> bool
    ensures { result ≡ is_key (spec_keys kind) key.now }
{
    match kind {
        Kind::Endpoint => is_endpoint_key(key),
        Kind::Ingress => is_ingress_key(key),
        Kind::Egress => is_egress_key(key),
    }
}

#[tactic(auto, unfolding(crate::specs::Keys::spec_keys))]
fn is_endpoint_key(key: &str) -> bool
    ensures { result ≡ is_key (spec_keys Kind.Endpoint) key.now }
{
    is_called("functions", key) || is_called("urlPathTemplate", key) || is_limit_key(key)
}

/// Whether a key is one of those with the numbers of an endpoint.
fn is_limit_key(key: &str) -> bool
    ensures { result ≡ is_key (row max_num_batch_requests ∷ row max_batch_bytes ∷ row attempts ∷ row patience ∷ []) key.now }
{
    is_called("maxNumBatchRequests", key) || is_called("maxBatchBytes", key) || is_retry_key(key)
}

/// Whether a key is one of those that say how often a call is tried, and how long one waits for it.
fn is_retry_key(key: &str) -> bool
    ensures { result ≡ is_key (row attempts ∷ row patience ∷ []) key.now }
{
    is_called("attempts", key) || is_called("patience", key)
}

#[tactic(auto, unfolding(crate::specs::Keys::spec_keys))]
fn is_ingress_key(key: &str) -> bool
    ensures { result ≡ is_key (spec_keys Kind.Ingress) key.now }
{
    is_called("id", key) || is_called("valueType", key) || is_list_key(key)
}

/// Whether a key is one of those that say where records go, and in how many splits they come.
fn is_list_key(key: &str) -> bool
    ensures { result ≡ is_key (row targets ∷ row splits ∷ []) key.now }
{
    is_called("targets", key) || is_called("splits", key)
}

#[tactic(auto, unfolding(crate::specs::Keys::spec_keys))]
fn is_egress_key(key: &str) -> bool
    ensures { result ≡ is_key (spec_keys Kind.Egress) key.now }
{
    is_called("id", key)
}

/// Whether a key is this one.
fn is_called(name: &str, key: &str) -> bool
    ensures { result ≡ bytes_eq name.now key.now }
{
    name == key
}

/// Whether a key stands.
fn stands(name: &str, pairs: &[Pair]) -> bool
    ensures { result ≡ stands name.now pairs.now }
{
    pair_of(name, pairs).is_some()
}

/// Refuses what is no mapping, then its first key that the table does not have, then a missing key.
#[tactic(auto, unfolding(crate::specs::Mappings::wrong_keys))]
pub(crate) fn check_keys(table: Table, node: &Node) -> Result<(), Fault>
    ensures ok { OnOk result (wrong_keys (keys_of table) node.now ≡ None) }
    ensures refused { IfErr result (IsTold (wrong_keys (keys_of table) node.now)) }
{
    let Some(pairs) = pairs_of(node) else {
        return Err(bad(node.line));
    };
    check_known(table, pairs)?;
    if table.lacks(pairs) {
        return Err(refused(node.line, ModuleKind::MissingKey));
    }
    Ok(())
}

fn check_known(table: Table, pairs: &[Pair]) -> Result<(), Fault>
    ensures ok { OnOk result (unknown_key (keys_of table) pairs.now ≡ None) }
    ensures refused { IfErr result (IsTold (unknown_key (keys_of table) pairs.now)) }
{
    for pair in pairs {
        if !table.has(&pair.key) {
            return Err(refused(pair.line, ModuleKind::UnknownKey));
        }
    }
    Ok(())
}
