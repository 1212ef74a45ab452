//! The job of the record that is replayed.
ghost use Rattle.std.specs.Prelude.{◌≡◌, IfOk, IsTrue, codes};
ghost use Rattle.address_routing.specs.Routing.{is_routable};

use address_routing::{Endpoint, IngressSpec, Module};
use proto_wire::{List, Mem, Text};
use std::alloc::Global;
use typed_values::{TypeName, TypePattern};

/// One endpoint for all types, an ingress of one split whose records go to `greeter`, and an egress.
#[tactic(auto, unfolding(address_routing::specs::Routing::endpoint_of))]
pub(crate) fn job(alloc: Global) -> Mem<Module>
    ensures { IfOk result (λ made. IsTrue (is_routable made)) }
{
    let endpoint = Endpoint {
        pattern: TypePattern {
            namespace: Text::copy_of(alloc, "com.example")?,
            name: None,
        },
        template: Text::copy_of(alloc, "http://localhost/{function.name}")?,
        max_letters: 1000,
        max_bytes: 4_194_304,
        attempts: 1,
        patience: 1,
    };
    let ingress = IngressSpec {
        id: name(alloc, "orders")?,
        splits: 1,
        value_type: Text::copy_of(alloc, "io.statefun.types/string")?,
        targets: List::of(vec![in alloc; name(alloc, "greeter")?]?),
    };
    Ok(Module {
        endpoints: List::of(vec![in alloc; endpoint]?),
        ingresses: List::of(vec![in alloc; ingress]?),
        egresses: List::of(vec![in alloc; name(alloc, "greetings")?]?),
    })
}

/// A name of the job's namespace.
fn name(alloc: Global, name: &str) -> Mem<TypeName>
    ensures { IfOk result (λ made. made.namespace ≡ codes "com.example") }
{
    Ok(TypeName {
        namespace: Text::copy_of(alloc, "com.example")?,
        name: Text::copy_of(alloc, name)?,
    })
}
