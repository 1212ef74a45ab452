//! What a document adds to a module.
use address_routing::{Endpoint, IngressSpec};
use typed_values::TypeName;

/// What a document adds to a module.
#[derive(Drop)]
pub(crate) enum Part {
    Endpoint(Endpoint),
    Ingress(IngressSpec),
    Egress(TypeName),
}
