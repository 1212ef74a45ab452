//! The job of the rows.
ghost use Rattle.std.specs.Prelude.{◌≡◌, IfOk, IsTrue, codes};
ghost use Rattle.address_routing.specs.Routing.{is_routable};

use address_routing::{Endpoint, IngressSpec, Module, Routes};
use proto_wire::{List, Mem, Text};
use std::alloc::Global;
use typed_values::{Address, TypeName, TypePattern};

/// A name of the job's namespace `n`.
pub(crate) fn name(alloc: Global, name: &str) -> Mem<TypeName>
    ensures { IfOk result (λ made. made.namespace ≡ codes "n") }
{
    Ok(TypeName {
        namespace: Text::copy_of(alloc, "n")?,
        name: Text::copy_of(alloc, name)?,
    })
}

/// The function `n/f` of an id.
pub(crate) fn function(alloc: Global, id: Text) -> Mem<Address> {
    Ok(Address {
        kind: name(alloc, "f")?,
        id,
    })
}

/// The job: one endpoint for all types of `n`, in batches of at most two letters and 100 bytes; an ingress of two splits, whose
/// records go to `n/f` and `n/g`; and the egress `n/e`.
#[tactic(auto, unfolding(address_routing::specs::Routing::endpoint_of))]
fn job(alloc: Global) -> Mem<Module>
    ensures { IfOk result (λ made. IsTrue (is_routable made)) }
{
    let endpoint = Endpoint {
        pattern: TypePattern {
            namespace: Text::copy_of(alloc, "n")?,
            name: None,
        },
        template: Text::copy_of(alloc, "http://h/{function.name}")?,
        max_letters: 2,
        max_bytes: 100,
        attempts: 1,
        patience: 1,
    };
    let ingress = IngressSpec {
        id: name(alloc, "i")?,
        splits: 2,
        value_type: Text::copy_of(alloc, "v")?,
        targets: List::of(vec![in alloc; name(alloc, "f")?, name(alloc, "g")?]?),
    };
    Ok(Module {
        endpoints: List::of(vec![in alloc; endpoint]?),
        ingresses: List::of(vec![in alloc; ingress]?),
        egresses: List::of(vec![in alloc; name(alloc, "e")?]?),
    })
}

/// The ways of the job.
pub(crate) fn routes(alloc: Global) -> Mem<Routes> {
    Routes::new(alloc, job(alloc)?)
}
