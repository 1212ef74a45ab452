//! Ingresses: lists of records that can be read again.
ghost use Rattle.std.specs.Prelude.{◌≡◌, ◌<◌, ◌^◌, ℕ, List, Option, IfOk, IfSome};
ghost use Rattle.sf_outside.specs.Told.{HasCause};
ghost use Rattle.sf_outside.specs.Splits.{Grows, Reads};

use crate::Fault;
use proto_wire::{Bytes, Mem, Text, TryClone};
use std::alloc::Global;

/// One record of an ingress.
#[derive(PartialEq, Eq, Drop)]
pub struct IngressRecord {
    pub key: Text,
    pub value: Bytes,
}

impl TryClone for IngressRecord {
    fn try_clone(&self, alloc: Global) -> Mem<IngressRecord> {
        Ok(IngressRecord {
            key: self.key.try_clone(alloc)?,
            value: self.value.try_clone(alloc)?,
        })
    }
}

/// An ingress: for each split a list of records, which only grows and reads the same each time.
pub trait Ingress {
    ghost use Rattle.sf_outside.specs.declared.ingress.IngressRecord.{IngressRecord};

    /// The lists by split, where the ingress tells them. A split past them is empty.
    ghost lists: { Self → Option (List (List IngressRecord)) };

    /// How often a read has failed.
    ghost faults: { Self → ℕ };

    /// Record `offset` of a split. `None` only where its list ends at or before `offset`.
    fn read(&mut self, split: u32, offset: u64) -> Result<Option<IngressRecord>, Fault>
        ensures grows { Grows (lists self.old) (lists self.new) }
        ensures reads { IfOk result (λ found. Reads (lists self.new) split offset found) }
        // A list is shorter than 2^63.
        ensures short { IfOk result (λ found. IfSome found (λ _. offset < 2 ^ 63)) }
        ensures cause { HasCause (faults self.old) (faults self.new) result };
}
