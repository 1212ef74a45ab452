//! What a job is made of.
use proto_wire::{List, Mem, Text, TryClone};
use std::alloc::Global;
use typed_values::{TypeName, TypePattern};

/// A job: its endpoints, ingresses and egresses.
#[derive(Drop)]
pub struct Module {
    pub endpoints: List<Endpoint>,
    pub ingresses: List<IngressSpec>,
    pub egresses: List<TypeName>,
}

impl TryClone for Module {
    fn try_clone(&self, alloc: Global) -> Mem<Module> {
        Ok(Module {
            endpoints: self.endpoints.try_clone(alloc)?,
            ingresses: self.ingresses.try_clone(alloc)?,
            egresses: self.egresses.try_clone(alloc)?,
        })
    }
}

/// Where functions are called, and how.
#[derive(Drop)]
pub struct Endpoint {
    pub pattern: TypePattern,
    /// The URL, with `{function.name}` where the name of the function's type goes.
    pub template: Text,
    /// The most letters of a batch.
    pub max_letters: u32,
    /// The most bytes of a request.
    pub max_bytes: u64,
    /// After so many failed attempts in a row the run stops.
    pub attempts: u32,
    /// After so many polls without an outcome a call is late.
    pub patience: u32,
}

impl TryClone for Endpoint {
    fn try_clone(&self, alloc: Global) -> Mem<Endpoint> {
        Ok(Endpoint {
            pattern: self.pattern.try_clone(alloc)?,
            template: self.template.try_clone(alloc)?,
            max_letters: self.max_letters,
            max_bytes: self.max_bytes,
            attempts: self.attempts,
            patience: self.patience,
        })
    }
}

/// An ingress: each record goes to each target, at the address whose id is the record's key.
///
/// Splits are numbered from 0 through the ingresses in order.
#[derive(Drop)]
pub struct IngressSpec {
    pub id: TypeName,
    pub splits: u32,
    /// The typename of the letters' arguments.
    pub value_type: Text,
    pub targets: List<TypeName>,
}

impl TryClone for IngressSpec {
    fn try_clone(&self, alloc: Global) -> Mem<IngressSpec> {
        Ok(IngressSpec {
            id: self.id.try_clone(alloc)?,
            splits: self.splits,
            value_type: self.value_type.try_clone(alloc)?,
            targets: self.targets.try_clone(alloc)?,
        })
    }
}
