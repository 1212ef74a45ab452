//! From a module file to its module.
ghost use Rattle.std.specs.Prelude.{◌≡◌, ◌+◌, ◌<◌, ◌^◌, ◌||◌, None, Some, Ok, List, Option, Result, true, false, codes, nat_le, nat_lt, IsTrue, IfOk, IfErr, OnOk, length, is_some, option_and_then};
ghost use Rattle.std.specs.List.{list_any};
ghost use Rattle.proto_wire.specs.declared.module_kind.ModuleKind.TheVariants.{DuplicateId, TooMany};
ghost use Rattle.typed_values.specs.Pattern.{same_pattern, same_pattern_name};
ghost use Rattle.typed_values.specs.Sameness.{same_name};
ghost use Rattle.address_routing.specs.declared.module.Endpoint.{Endpoint as EndpointValue};
ghost use Rattle.address_routing.specs.declared.module.IngressSpec.{IngressSpec as IngressValue};
ghost use Rattle.address_routing.specs.Routing.{endpoint_of, is_exact, is_wide, is_routable, splits_in};
ghost use Rattle.yaml_block.specs.declared.node.Node.{Node as NodeValue};
ghost use Rattle.yaml_block.specs.declared.node.Pair.{out-Pair};
ghost use Rattle.yaml_block.specs.Documents as texts;
ghost use Rattle.module_yaml.specs.declared.fault.Refusal.{Refusal};
ghost use Rattle.module_yaml.specs.Nodes.{text_of};
ghost use Rattle.module_yaml.specs.Mappings.{◌orElse◌, bad_value, mapping_refusal, pairs_under, stands, wrong_keys};
ghost use Rattle.module_yaml.specs.Values.{target_of};
ghost use Rattle.module_yaml.specs.Keys.{document_keys, kind_in, spec_keys};
ghost use Rattle.module_yaml.specs.Files.{AreBounded, document_refusal, duplicate, first_refused, first_target, first_unserved, in_document, is_item_served, kind_at, line_under, module_in, module_of, no_module, part_at, refusal_of, spec_at, spec_pairs, target_items, target_past, too_many, unserved, with_documents, with_part, IsToldBy, IsToldOf};
ghost use Rattle.module_yaml.specs.Told.{IsTold};

use crate::fault::{Fault, ModuleFault, refused};
use crate::keys::{Kind, Table, check_keys, kind_in};
use crate::nodes::{items_of, pair_of, pairs_under, text_of};
use crate::part::Part;
use crate::specs_of::part_of;
use crate::values::target_of;
use address_routing::{Endpoint, IngressSpec, Module};
use proto_wire::{List, Mem, ModuleKind, OutOfMemory, Text};
use std::alloc::Global;
use typed_values::{TypeName, TypePattern};
use yaml_block::{Node, Pair, YamlFault, read_documents};

/// The module of a module file, or its first refusal: what the YAML profile refuses, then document by document, then a target
/// without an endpoint, then that there is no ingress.
///
/// Routes can be made of the module.
pub fn read_module(alloc: Global, bytes: &[u8]) -> Result<Module, ModuleFault>
    ensures ok { IfOk result (λ job. module_in bytes.now ≡ Ok job) }
    ensures routable { IfOk result (λ job. IsTrue (is_routable job)) }
    ensures bounded { IfOk result (λ job. AreBounded job.endpoints) }
    ensures refused { IfErr result (λ fault. IsToldBy fault (module_in bytes.now)) }
{
    match read_documents(alloc, bytes) {
        Ok(nodes) => module_of(alloc, nodes.as_slice()),
        Err(fault) => Err(in_file(fault)),
    }
}

/// A fault of the file's text.
fn in_file(fault: YamlFault) -> ModuleFault
    ensures { (meaning : Result (List NodeValue) texts.Refused) → texts.IsToldBy fault meaning → IsToldBy result (module_of meaning) }
{
    match fault {
        YamlFault::Refused {
            document,
            line,
            kind,
        } => ModuleFault::Refused {
            document,
            line,
            kind,
        },
        YamlFault::OutOfMemory => ModuleFault::OutOfMemory,
    }
}

/// A fault in this document.
fn in_document(number: u32, fault: Fault) -> ModuleFault
    ensures { (refusal : Option Refusal) → IsTold refusal fault → IsToldOf (in_document number refusal) result }
{
    match fault {
        Fault::Refused(refusal) => ModuleFault::Refused {
            document: number,
            line: refusal.line,
            kind: refusal.kind,
        },
        Fault::OutOfMemory => ModuleFault::OutOfMemory,
    }
}

/// The module of the trees of documents.
#[tactic(auto, unfolding(crate::specs::Files::refusal_of))]
fn module_of(alloc: Global, nodes: &[Node]) -> Result<Module, ModuleFault>
    requires { length nodes.now < 2 ^ 32 }
    ensures ok { IfOk result (λ job. refusal_of nodes.now ≡ None) }
    ensures made { IfOk result (λ job. job ≡ with_documents no_module nodes.now) }
    ensures refused { IfErr result (IsToldOf (refusal_of nodes.now)) }
{
    let job = all_documents(alloc, nodes)?;
    check_targets(alloc, &job, nodes)?;
    if job.ingresses.is_empty() {
        return Err(ModuleFault::Refused {
            document: 0,
            line: 0,
            kind: ModuleKind::NoIngress,
        });
    }
    Ok(job)
}

/// What all documents add, or the first refusal of one by itself and by those before it.
fn all_documents(alloc: Global, nodes: &[Node]) -> Result<Module, ModuleFault>
    requires { length nodes.now < 2 ^ 32 }
    ensures ok { IfOk result (λ job. first_refused 1 no_module nodes.now ≡ None) }
    ensures made { IfOk result (λ job. job ≡ with_documents no_module nodes.now) }
    ensures refused { IfErr result (IsToldOf (first_refused 1 no_module nodes.now)) }
{
    let mut job = Module {
        endpoints: List::new(alloc),
        ingresses: List::new(alloc),
        egresses: List::new(alloc),
    };
    let mut number = 0u32;
    for node in nodes {
        number += 1;
        job = match with_document(alloc, job, node) {
            Ok(more) => more,
            Err(fault) => return Err(in_document(number, fault)),
        };
    }
    Ok(job)
}

/// Refuses the first target without an endpoint.
fn check_targets(alloc: Global, job: &Module, nodes: &[Node]) -> Result<(), ModuleFault>
    requires { length nodes.now < 2 ^ 32 }
    ensures ok { OnOk result (first_target 1 job.now nodes.now ≡ None) }
    ensures refused { IfErr result (IsToldOf (first_target 1 job.now nodes.now)) }
{
    let mut number = 0u32;
    for node in nodes {
        number += 1;
        if let Err(fault) = check_served(alloc, job, node) {
            return Err(in_document(number, fault));
        }
    }
    Ok(())
}

/// A module and what a document adds, or the first refusal of the document.
fn with_document(alloc: Global, job: Module, node: &Node) -> Result<Module, Fault>
    ensures ok { IfOk result (λ more. document_refusal job node.now ≡ None) }
    ensures more { IfOk result (λ more. more ≡ with_part job (part_at node.now)) }
    ensures refused { IfErr result (IsTold (document_refusal job node.now)) }
{
    let part = part_at(alloc, node)?;
    let pairs = spec_pairs(node);
    check_new(&job, &part, pairs)?;
    check_limits(&job, line_under("kind", pairs_under(node), 0), &part, pairs)?;
    Ok(with_part(job, part)?)
}

/// What a document adds, or the first refusal of its keys and values.
fn part_at(alloc: Global, node: &Node) -> Result<Part, Fault>
    ensures document { IfOk result (λ part. mapping_refusal document_keys node.now ≡ None) }
    ensures spec { IfOk result (λ part. mapping_refusal (spec_keys (kind_at node.now)) (spec_at node.now) ≡ None) }
    ensures part { IfOk result (λ part. part ≡ part_at node.now) }
    ensures refused { IfErr result (IsTold (mapping_refusal document_keys node.now
        orElse mapping_refusal (spec_keys (kind_at node.now)) (spec_at node.now))) }
{
    check_keys(Table::Document, node)?;
    check_kind(node)?;
    let kind = kind_at(node);
    check_spec(kind, node)?;
    part_of(alloc, kind, spec_pairs(node))
}

/// Refuses a kind of document that there is not.
#[tactic(auto, unfolding(crate::specs::Keys::document_keys))]
fn check_kind(node: &Node) -> Result<(), Fault>
    ensures ok { OnOk result (bad_value document_keys (pairs_under node.now) ≡ None) }
    ensures refused { IfErr result (IsTold (bad_value document_keys (pairs_under node.now))) }
{
    let Some(pair) = pair_of("kind", pairs_under(node)) else {
        return Ok(());
    };
    match kind_under(pair) {
        Some(_) => Ok(()),
        None => Err(refused(pair.line, ModuleKind::UnsupportedKind)),
    }
}

/// The kind that stands under a key, if any.
fn kind_under(pair: &Pair) -> Option<Kind>
    ensures { result ≡ option_and_then kind_in (text_of (out-Pair pair.now).value) }
{
    match text_of(&pair.value) {
        Some(text) => kind_in(text),
        None => None,
    }
}

/// The kind of a document; of one that has none, any.
fn kind_at(node: &Node) -> Kind
    ensures { result ≡ kind_at node.now }
{
    let Some(pair) = pair_of("kind", pairs_under(node)) else {
        return Kind::Endpoint;
    };
    match kind_under(pair) {
        Some(kind) => kind,
        None => Kind::Endpoint,
    }
}

/// Refuses the keys of a document's `spec`, which stands.
fn check_spec(kind: Kind, node: &Node) -> Result<(), Fault>
    requires { stands (codes "spec") (pairs_under node.now) ≡ true }
    ensures ok { OnOk result (wrong_keys (spec_keys kind) (spec_at node.now) ≡ None) }
    ensures refused { IfErr result (IsTold (wrong_keys (spec_keys kind) (spec_at node.now))) }
{
    match pair_of("spec", pairs_under(node)) {
        Some(pair) => check_keys(Table::Spec(kind), &pair.value),
        None => unreachable!(),
    }
}

/// The pairs of a document's `spec`.
fn spec_pairs(node: &Node) -> &[Pair]
    ensures { result.now ≡ spec_pairs node.now }
{
    match pair_of("spec", pairs_under(node)) {
        Some(pair) => pairs_under(&pair.value),
        None => &[],
    }
}

/// The line of a key, or another one where it does not stand.
fn line_under(name: &str, pairs: &[Pair], otherwise: u32) -> u32
    ensures { result ≡ line_under name.now pairs.now otherwise }
{
    match pair_of(name, pairs) {
        Some(pair) => pair.line,
        None => otherwise,
    }
}

/// Refuses a pattern or an id that the module has already.
#[tactic(auto, unfolding(crate::specs::Files::duplicate))]
fn check_new(job: &Module, part: &Part, pairs: &[Pair]) -> Result<(), Fault>
    ensures ok { OnOk result (duplicate job.now part.now pairs.now ≡ None) }
    ensures refused { IfErr result (IsTold (duplicate job.now part.now pairs.now)) }
{
    match part {
        Part::Endpoint(endpoint) => {
            check_pattern(job.endpoints.as_slice(), &endpoint.pattern, pairs)
        }
        Part::Ingress(ingress) => check_ingress(job.ingresses.as_slice(), &ingress.id, pairs),
        Part::Egress(name) => check_egress(job.egresses.as_slice(), name, pairs),
    }
}

/// Refuses a pattern that an endpoint has.
fn check_pattern(endpoints: &[Endpoint], pattern: &TypePattern, pairs: &[Pair]) -> Result<(), Fault>
    ensures ok { OnOk result (list_any (λ (other : EndpointValue). same_pattern other.pattern pattern.now) endpoints.now ≡ false) }
    ensures refused { IfErr result (λ fault. (list_any (λ (other : EndpointValue). same_pattern other.pattern pattern.now) endpoints.now ≡ true)
        × (fault ≡ Fault.Refused (record { line = line_under (codes "functions") pairs.now 0; kind = DuplicateId }))) }
{
    if has_pattern(endpoints, pattern) {
        return Err(duplicate("functions", pairs));
    }
    Ok(())
}

/// Refuses an id that an ingress has.
fn check_ingress(ingresses: &[IngressSpec], id: &TypeName, pairs: &[Pair]) -> Result<(), Fault>
    ensures ok { OnOk result (list_any (λ (other : IngressValue). same_name other.id id.now) ingresses.now ≡ false) }
    ensures refused { IfErr result (λ fault. (list_any (λ (other : IngressValue). same_name other.id id.now) ingresses.now ≡ true)
        × (fault ≡ Fault.Refused (record { line = line_under (codes "id") pairs.now 0; kind = DuplicateId }))) }
{
    if has_ingress(ingresses, id) {
        return Err(duplicate("id", pairs));
    }
    Ok(())
}

/// Refuses an id that an egress has.
fn check_egress(egresses: &[TypeName], id: &TypeName, pairs: &[Pair]) -> Result<(), Fault>
    ensures ok { OnOk result (list_any (λ other. same_name other id.now) egresses.now ≡ false) }
    ensures refused { IfErr result (λ fault. (list_any (λ other. same_name other id.now) egresses.now ≡ true)
        × (fault ≡ Fault.Refused (record { line = line_under (codes "id") pairs.now 0; kind = DuplicateId }))) }
{
    if has_egress(egresses, id) {
        return Err(duplicate("id", pairs));
    }
    Ok(())
}

/// What stands under a key is in the module already.
fn duplicate(name: &str, pairs: &[Pair]) -> Fault
    ensures { result ≡ Fault.Refused (record { line = line_under name.now pairs.now 0; kind = DuplicateId }) }
{
    refused(line_under(name, pairs, 0), ModuleKind::DuplicateId)
}

fn has_pattern(endpoints: &[Endpoint], pattern: &TypePattern) -> bool
    ensures { result ≡ list_any (λ (other : EndpointValue). same_pattern other.pattern pattern.now) endpoints.now }
{
    endpoints
        .iter()
        .any(|other| is_same_pattern(&other.pattern, pattern))
}

fn is_same_pattern(one: &TypePattern, other: &TypePattern) -> bool
    ensures { result ≡ same_pattern one.now other.now }
{
    one.namespace == other.namespace && is_same_name(&one.name, &other.name)
}

fn is_same_name(one: &Option<Text>, other: &Option<Text>) -> bool
    ensures { result ≡ same_pattern_name one.now other.now }
{
    match one {
        Some(one) => match other {
            Some(other) => *one == *other,
            None => false,
        },
        None => other.is_none(),
    }
}

#[tactic(auto, unfolding(typed_values::specs::Sameness::same_name))]
fn has_ingress(ingresses: &[IngressSpec], id: &TypeName) -> bool
    ensures { result ≡ list_any (λ (other : IngressValue). same_name other.id id.now) ingresses.now }
{
    ingresses.iter().any(|other| other.id == *id)
}

#[tactic(auto, unfolding(typed_values::specs::Sameness::same_name))]
fn has_egress(egresses: &[TypeName], name: &TypeName) -> bool
    ensures { result ≡ list_any (λ other. same_name other name.now) egresses.now }
{
    egresses.iter().any(|other| *other == *name)
}

/// Refuses what passes a limit, in a document whose `kind` is on this line.
#[tactic(auto, unfolding(crate::specs::Files::too_many))]
fn check_limits(job: &Module, line: u32, part: &Part, pairs: &[Pair]) -> Result<(), Fault>
    ensures ok { OnOk result (too_many job.now line part.now pairs.now ≡ None) }
    ensures refused { IfErr result (IsTold (too_many job.now line part.now pairs.now)) }
{
    match part {
        Part::Endpoint(_) => check_count(job.endpoints.len(), line),
        Part::Egress(_) => check_count(job.egresses.len(), line),
        Part::Ingress(ingress) => {
            check_splits(job.ingresses.as_slice(), ingress.splits, line, pairs)?;
            check_target_count(pairs)
        }
    }
}

/// How many endpoints, and how many egresses, a module may have.
const MOST_PARTS: usize = 256;

fn check_count(count: usize, line: u32) -> Result<(), Fault>
    ensures ok { OnOk result (nat_le 256 count ≡ false) }
    ensures refused { IfErr result (λ fault. (nat_le 256 count ≡ true) × (fault ≡ Fault.Refused (record { line = line; kind = TooMany }))) }
{
    if count >= MOST_PARTS {
        return Err(refused(line, ModuleKind::TooMany));
    }
    Ok(())
}

/// How many splits a module may have.
const MOST_SPLITS: u64 = 32;

fn check_splits(
    ingresses: &[IngressSpec],
    more: u32,
    line: u32,
    pairs: &[Pair],
) -> Result<(), Fault>
    ensures ok { OnOk result (nat_lt 32 (splits_in ingresses.now + more) ≡ false) }
    ensures refused { IfErr result (λ fault. (nat_lt 32 (splits_in ingresses.now + more) ≡ true)
        × (fault ≡ Fault.Refused (record { line = line_under (codes "splits") pairs.now line; kind = TooMany }))) }
{
    if past_splits(ingresses, more) {
        return Err(refused(line_under("splits", pairs, line), ModuleKind::TooMany));
    }
    Ok(())
}

/// Whether these splits and more are too many.
fn past_splits(ingresses: &[IngressSpec], more: u32) -> bool
    ensures { result ≡ nat_lt 32 (splits_in ingresses.now + more) }
{
    let mut sum = u64::from(more);
    for ingress in ingresses {
        if sum > MOST_SPLITS {
            return true;
        }
        sum += u64::from(ingress.splits);
    }
    sum > MOST_SPLITS
}

/// How many targets an ingress may have.
const MOST_TARGETS: usize = 64;

fn check_target_count(pairs: &[Pair]) -> Result<(), Fault>
    ensures ok { OnOk result (target_past pairs.now ≡ None) }
    ensures refused { IfErr result (IsTold (target_past pairs.now)) }
{
    match target_items(pairs).get(MOST_TARGETS) {
        Some(item) => Err(refused(item.line, ModuleKind::TooMany)),
        None => Ok(()),
    }
}

/// The items under `targets`.
fn target_items(pairs: &[Pair]) -> &[Node]
    ensures { result.now ≡ target_items pairs.now }
{
    let Some(pair) = pair_of("targets", pairs) else {
        return &[];
    };
    match items_of(&pair.value) {
        Some(items) => items,
        None => &[],
    }
}

/// A module and one part more.
#[tactic(auto, unfolding(crate::specs::Files::with_part))]
fn with_part(mut job: Module, part: Part) -> Mem<Module>
    ensures { IfOk result (λ more. more ≡ with_part job part) }
{
    match part {
        Part::Endpoint(endpoint) => job.endpoints.push(endpoint)?,
        Part::Ingress(ingress) => job.ingresses.push(ingress)?,
        Part::Egress(name) => job.egresses.push(name)?,
    }
    Ok(job)
}

/// Refuses a target without an endpoint.
fn check_served(alloc: Global, job: &Module, node: &Node) -> Result<(), Fault>
    ensures ok { OnOk result (unserved job.now node.now ≡ None) }
    ensures refused { IfErr result (IsTold (unserved job.now node.now)) }
{
    match kind_at(node) {
        Kind::Ingress => check_items(alloc, job, target_items(spec_pairs(node))),
        Kind::Endpoint => Ok(()),
        Kind::Egress => Ok(()),
    }
}

fn check_items(alloc: Global, job: &Module, items: &[Node]) -> Result<(), Fault>
    ensures ok { OnOk result (first_unserved job.now items.now ≡ None) }
    ensures refused { IfErr result (IsTold (first_unserved job.now items.now)) }
{
    for item in items {
        if !is_item_served(alloc, job, item)? {
            return Err(refused(item.line, ModuleKind::NoEndpoint));
        }
    }
    Ok(())
}

/// Whether there is an endpoint for a target. What is no name is not looked at here.
fn is_item_served(alloc: Global, job: &Module, item: &Node) -> Mem<bool>
    ensures { IfOk result (λ is. is ≡ is_item_served job.now (target_of item.now)) }
{
    match target_of(alloc, item) {
        Ok(name) => Ok(has_endpoint(job, &name)),
        Err(Fault::Refused(_)) => Ok(true),
        Err(Fault::OutOfMemory) => Err(OutOfMemory),
    }
}

/// Whether there is an endpoint for a type.
fn has_endpoint(job: &Module, kind: &TypeName) -> bool
    ensures { result ≡ is_some (endpoint_of job.now kind.now) }
{
    is_any_for(job.endpoints.as_slice(), kind)
}

/// Whether one of the endpoints is for a type.
fn is_any_for(endpoints: &[Endpoint], kind: &TypeName) -> bool
    ensures { result ≡ list_any (λ (endpoint : EndpointValue). is_exact kind.now endpoint || is_wide kind.now endpoint) endpoints.now }
{
    endpoints.iter().any(|endpoint| serves(endpoint, kind))
}

/// Whether an endpoint is for a type: by its very name, or by its namespace.
fn serves(endpoint: &Endpoint, kind: &TypeName) -> bool
    ensures { result ≡ (is_exact kind.now endpoint.now || is_wide kind.now endpoint.now) }
{
    if endpoint.pattern.namespace != kind.namespace {
        return false;
    }
    match &endpoint.pattern.name {
        Some(name) => *name == kind.name,
        None => true,
    }
}
