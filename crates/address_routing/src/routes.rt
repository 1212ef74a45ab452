//! Where a job's records and requests go.
ghost use Rattle.std.specs.Prelude.{◌≡◌, ◌<◌, ◌≤◌, IsTrue, IfOk, Some};
ghost use Rattle.std.specs.Option.{option_copied};
ghost use Rattle.address_routing.specs.Routing.{is_routable, endpoint_of, knows_egress, splits_in, ingress_in, ingress_of, targets_of, filled, url_of};

use crate::maps::{endpoint_at, exact_places, names_in, wide_places};
use crate::{Endpoint, IngressSpec, Module};
use proto_wire::{List, Mem, Text};
use std::alloc::Global;
use std::collections::{BTreeMap, BTreeSet};
use std::marker::Model;
use typed_values::TypeName;

/// The routes of a job. Contracts see its module, which is one that can be routed.
///
/// Looking up an endpoint or an egress takes the logarithm of how many there are.
#[derive(Drop)]
pub struct Routes {
    module: Module,
    /// Where in the list an endpoint stands, by the name that it is for.
    exact: BTreeMap<TypeName, usize>,
    /// The same, by the namespace for all names of which it is.
    wide: BTreeMap<Text, usize>,
    /// The names of the egresses, by namespace.
    egresses: BTreeMap<Text, BTreeSet<Text>>,
}

impl Model for Routes {
    ghost use Rattle.address_routing.specs.declared.module.Module.{Module};

    ghost Value = { Module };

    ghost use Rattle.std.specs.Prelude.{IsTrue};
    ghost use Rattle.address_routing.specs.Routing.{is_routable};
    ghost use Rattle.address_routing.specs.Kept.{AreMapsOf};

    ghost view = { λ r. r.module };

    ghost invariant = { λ r. IsTrue (is_routable r.module) × AreMapsOf r.module r.exact r.wide r.egresses };
}

impl Routes {
    /// The routes of a module, which is moved in. Its patterns, ingress ids and egress ids stand once each, its limits are
    /// at least 1, each target has an endpoint, and there are 1 to 32 splits in all.
    pub fn new(alloc: Global, job: Module) -> Mem<Routes>
        requires { IsTrue (is_routable job) }
        ensures { IfOk result (λ routes. routes ≡ job) }
    {
        let exact = exact_places(alloc, job.endpoints.as_slice())?;
        let wide = wide_places(alloc, job.endpoints.as_slice())?;
        let egresses = names_in(alloc, job.egresses.as_slice())?;
        Ok(Routes {
            module: job,
            exact,
            wide,
            egresses,
        })
    }

    /// The module.
    pub fn module(&self) -> &Module
        ensures value { result.now ≡ self.now }
        ensures routable { IsTrue (is_routable self.now) }
        ensures splits { (0 < splits_in self.now.ingresses) × (splits_in self.now.ingresses ≤ 32) }
    {
        &self.module
    }

    /// The endpoint for a type: the one whose pattern is that very name, else the one for all names of its namespace.
    /// `None` exactly where neither is there.
    #[tactic(auto, unfolding(crate::specs::Routing::endpoint_of))]
    pub fn endpoint_of(&self, kind: &TypeName) -> Option<&Endpoint>
        ensures { option_copied result ≡ endpoint_of self.now kind.now }
    {
        let endpoints = self.module.endpoints.as_slice();
        match endpoint_at(endpoints, self.exact.get(kind)) {
            Some(endpoint) => Some(endpoint),
            None => endpoint_at(endpoints, self.wide.get(&kind.namespace)),
        }
    }

    /// Whether the module has an egress of that name in that namespace.
    pub fn knows_egress(&self, namespace: &Text, name: &Text) -> bool
        ensures { result ≡ knows_egress self.now namespace.now name.now }
    {
        match self.egresses.get(namespace) {
            Some(names) => names.contains(name),
            None => false,
        }
    }

    /// The URL at which functions of a type are called: the template of its endpoint, with each `{function.name}`
    /// replaced by the type's name. `None` exactly where it has no endpoint.
    #[tactic(auto, unfolding(crate::specs::Routing::url_of))]
    pub fn url_of(&self, alloc: Global, kind: &TypeName) -> Mem<Option<Text>>
        ensures { IfOk result (λ url. url ≡ url_of self.now kind.now) }
    {
        match self.endpoint_of(kind) {
            Some(endpoint) => Ok(Some(filled(
                alloc,
                endpoint.template.as_str(),
                kind.name.as_str(),
            )?)),
            None => Ok(None),
        }
    }

    /// The ingress to which a split belongs. The split is one of the module's.
    #[tactic(auto, unfolding(crate::specs::Routing::ingress_of))]
    pub fn ingress_of(&self, split: u32) -> &IngressSpec
        requires { split < splits_in self.now.ingresses }
        ensures { Some result.now ≡ ingress_of self.now split }
    {
        ingress_at(self.module.ingresses.as_slice(), split)
    }

    /// The types to which the records of a split go. The split is one of the module's.
    #[tactic(auto, unfolding(crate::specs::Routing::targets_of, crate::specs::Routing::ingress_of))]
    pub fn targets_of(&self, split: u32) -> &List<TypeName>
        requires { split < splits_in self.now.ingresses }
        ensures { result.now ≡ targets_of self.now split }
    {
        &ingress_at(self.module.ingresses.as_slice(), split).targets
    }
}

/// The ingress to which a split belongs.
fn ingress_at<'a>(ingresses: &'a [IngressSpec], split: u32) -> &'a IngressSpec
    requires { split < splits_in ingresses.now }
    ensures { Some result.now ≡ ingress_in ingresses.now split }
{
    let mut left = split;
    for ingress in ingresses {
        if left < ingress.splits {
            return ingress;
        }
        left -= ingress.splits;
    }
    unreachable!()
}

/// A template with each `{function.name}` in it replaced by the name. What was put in is not filled again.
pub fn filled(alloc: Global, template: &str, name: &str) -> Mem<Text>
    ensures { IfOk result (λ text. text ≡ filled name.now template.now) }
{
    let mut made = Text::new(alloc);
    let mut rest = template;
    'parts: while let Some((before, after)) = rest.split_once("{function.name}") {
        made.append(before)?;
        made.append(name)?;
        rest = after;
    }
    made.append(rest)?;
    Ok(made)
}
