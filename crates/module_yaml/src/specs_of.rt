//! What the `spec` of a document says.
ghost use Rattle.std.specs.Prelude.{◌≡◌, ◌≤◌, None, false, true, IfOk, IfErr};
ghost use Rattle.module_yaml.specs.Mappings.{bad_value, lacks_key, reading, value, stands};
ghost use Rattle.module_yaml.specs.Keys.{spec_keys, endpoint_of, ingress_of, part_of, functions, url_path_template, id, value_type, targets, number};
ghost use Rattle.module_yaml.specs.Told.{IsTold, Reads};

use crate::fault::Fault;
use crate::keys::Kind;
use crate::nodes::pair_of;
use crate::part::Part;
use crate::values::{id_at, number_at, pattern_at, some_text_at, targets_at, template_at};
use address_routing::{Endpoint, IngressSpec};
use proto_wire::{List, Text};
use std::alloc::Global;
use typed_values::{TypeName, TypePattern};
use yaml_block::Pair;

/// What the pairs of a `spec` say, which has each key that it must have.
#[tactic(auto, unfolding(crate::specs::Keys::part_of))]
pub(crate) fn part_of(alloc: Global, kind: Kind, pairs: &[Pair]) -> Result<Part, Fault>
    requires { lacks_key (spec_keys kind) pairs.now ≡ false }
    ensures part { IfOk result (λ part. part ≡ part_of kind pairs.now) }
    ensures ok { IfOk result (λ part. bad_value (spec_keys kind) pairs.now ≡ None) }
    ensures refused { IfErr result (IsTold (bad_value (spec_keys kind) pairs.now)) }
{
    match kind {
        Kind::Endpoint => Ok(Part::Endpoint(endpoint_of(alloc, pairs)?)),
        Kind::Ingress => Ok(Part::Ingress(ingress_of(alloc, pairs)?)),
        Kind::Egress => Ok(Part::Egress(egress_of(alloc, pairs)?)),
    }
}

#[tactic(auto, unfolding(crate::specs::Keys::spec_keys))]
fn endpoint_of(alloc: Global, pairs: &[Pair]) -> Result<Endpoint, Fault>
    requires { lacks_key (spec_keys Kind.Endpoint) pairs.now ≡ false }
    ensures part { IfOk result (λ made. made ≡ endpoint_of pairs.now) }
    ensures ok { IfOk result (λ made. bad_value (spec_keys Kind.Endpoint) pairs.now ≡ None) }
    ensures refused { IfErr result (IsTold (bad_value (spec_keys Kind.Endpoint) pairs.now)) }
{
    let pattern = functions(alloc, pairs)?;
    let template = url_path_template(alloc, pairs)?;
    let max_letters = number(pairs, "maxNumBatchRequests", 1, 65_536, 1000)?;
    let max_bytes = number(pairs, "maxBatchBytes", 64, 8_388_608, 4_194_304)?;
    let attempts = number(pairs, "attempts", 1, 100, 3)?;
    let patience = number(pairs, "patience", 1, 1_000_000, 1000)?;
    Ok(Endpoint {
        pattern,
        template,
        max_letters: max_letters as u32,
        max_bytes,
        attempts: attempts as u32,
        patience: patience as u32,
    })
}

#[tactic(auto, unfolding(crate::specs::Keys::spec_keys))]
fn ingress_of(alloc: Global, pairs: &[Pair]) -> Result<IngressSpec, Fault>
    requires { lacks_key (spec_keys Kind.Ingress) pairs.now ≡ false }
    ensures part { IfOk result (λ made. made ≡ ingress_of pairs.now) }
    ensures ok { IfOk result (λ made. bad_value (spec_keys Kind.Ingress) pairs.now ≡ None) }
    ensures refused { IfErr result (IsTold (bad_value (spec_keys Kind.Ingress) pairs.now)) }
{
    let id = id(alloc, pairs)?;
    let value_type = value_type(alloc, pairs)?;
    let targets = targets(alloc, pairs)?;
    let splits = number(pairs, "splits", 1, 32, 1)?;
    Ok(IngressSpec {
        id,
        splits: splits as u32,
        value_type,
        targets,
    })
}

#[tactic(auto, unfolding(crate::specs::Keys::spec_keys))]
fn egress_of(alloc: Global, pairs: &[Pair]) -> Result<TypeName, Fault>
    requires { lacks_key (spec_keys Kind.Egress) pairs.now ≡ false }
    ensures part { IfOk result (λ made. made ≡ value id pairs.now) }
    ensures ok { IfOk result (λ made. bad_value (spec_keys Kind.Egress) pairs.now ≡ None) }
    ensures refused { IfErr result (IsTold (bad_value (spec_keys Kind.Egress) pairs.now)) }
{
    id(alloc, pairs)
}

fn functions(alloc: Global, pairs: &[Pair]) -> Result<TypePattern, Fault>
    requires { stands functions.name pairs.now ≡ true }
    ensures { Reads (reading functions pairs.now) result }
{
    match pair_of("functions", pairs) {
        Some(pair) => pattern_at(alloc, pair),
        None => unreachable!(),
    }
}

fn url_path_template(alloc: Global, pairs: &[Pair]) -> Result<Text, Fault>
    requires { stands url_path_template.name pairs.now ≡ true }
    ensures { Reads (reading url_path_template pairs.now) result }
{
    match pair_of("urlPathTemplate", pairs) {
        Some(pair) => template_at(alloc, pair),
        None => unreachable!(),
    }
}

fn id(alloc: Global, pairs: &[Pair]) -> Result<TypeName, Fault>
    requires { stands id.name pairs.now ≡ true }
    ensures { Reads (reading id pairs.now) result }
{
    match pair_of("id", pairs) {
        Some(pair) => id_at(alloc, pair),
        None => unreachable!(),
    }
}

fn value_type(alloc: Global, pairs: &[Pair]) -> Result<Text, Fault>
    requires { stands value_type.name pairs.now ≡ true }
    ensures { Reads (reading value_type pairs.now) result }
{
    match pair_of("valueType", pairs) {
        Some(pair) => some_text_at(alloc, pair),
        None => unreachable!(),
    }
}

fn targets(alloc: Global, pairs: &[Pair]) -> Result<List<TypeName>, Fault>
    requires { stands targets.name pairs.now ≡ true }
    ensures { Reads (reading targets pairs.now) result }
{
    match pair_of("targets", pairs) {
        Some(pair) => targets_at(alloc, pair),
        None => unreachable!(),
    }
}

/// The number under a key, or the default where it does not stand.
fn number(pairs: &[Pair], name: &str, least: u64, most: u64, default: u64) -> Result<u64, Fault>
    requires least { 1 ≤ least }
    requires most { default ≤ most }
    ensures value { Reads (reading (number name.now least most default) pairs.now) result }
    ensures bound { IfOk result (λ found. found ≤ most) }
{
    match pair_of(name, pairs) {
        Some(pair) => number_at(least, most, pair),
        None => Ok(default),
    }
}
