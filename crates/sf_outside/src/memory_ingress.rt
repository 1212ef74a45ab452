//! An ingress in memory.
ghost use Rattle.std.specs.Prelude.{◌≡◌, ◌↔◌, ◌<◌, ◌^◌, [], Some, IsOkAnd, IsErrOf, IfOk, IfSome, option_copied};
ghost use Rattle.sf_outside.specs.declared.fault.Fault.TheVariants.{Failed as HasFailed};
ghost use Rattle.sf_outside.specs.Told.{HasCause};
ghost use Rattle.sf_outside.specs.Splits.{Grows, Reads, record_at};
ghost use Rattle.sf_outside.specs.Failing.{IsFresh, FailsNext, CountsOne};

use crate::call_count::CallCount;
use crate::{Fault, Ingress, IngressRecord};
use proto_wire::{List, Mem, TryClone};
use std::alloc::Global;

/// An ingress whose lists do not grow, and whose listed reads fail.
#[derive(Drop)]
pub struct MemoryIngress {
    alloc: Global,
    content: List<List<IngressRecord>>,
    count: CallCount,
}

impl MemoryIngress {
    /// An ingress with these lists by split. `fail` has the numbers, from 0, of the reads that fail. It always succeeds.
    pub fn new(
        alloc: Global,
        content: List<List<IngressRecord>>,
        fail: List<u64>,
    ) -> Mem<MemoryIngress>
        ensures { IsOkAnd result (λ ingress. (ingress.content ≡ content) × IsFresh fail ingress.count) }
    {
        Ok(MemoryIngress {
            alloc,
            content,
            count: CallCount::new(fail),
        })
    }

    /// An ingress with these lists by split, none of whose reads fails. It always succeeds.
    pub fn steady(alloc: Global, content: List<List<IngressRecord>>) -> Mem<MemoryIngress>
        ensures { IsOkAnd result (λ ingress. (ingress.content ≡ content) × IsFresh [] ingress.count) }
    {
        MemoryIngress::new(alloc, content, List::new(alloc))
    }
}

impl Ingress for MemoryIngress {
    ghost lists = { λ ingress. Some ingress.content };

    ghost faults = { λ ingress. ingress.count.faults };

    /// A copy of the record, and of no other.
    fn read(&mut self, split: u32, offset: u64) -> Result<Option<IngressRecord>, Fault>
        ensures grows { Grows (Some self.old.content) (Some self.new.content) }
        ensures reads { IfOk result (λ found. Reads (Some self.new.content) split offset found) }
        ensures short { IfOk result (λ found. IfSome found (λ _. offset < 2 ^ 63)) }
        ensures cause { HasCause self.old.count.faults self.new.count.faults result }
        // The lists stand.
        ensures same { self.new.content ≡ self.old.content }
        // It fails exactly where it is listed.
        ensures fails { IsErrOf result HasFailed ↔ FailsNext self.old.count }
        ensures counted { CountsOne self.old.count self.new.count }
    {
        self.count.enter()?;
        match found(self.content.as_slice(), split, offset) {
            Some(record) => Ok(Some(record.try_clone(self.alloc)?)),
            None => Ok(None),
        }
    }
}

fn found(lists: &[List<IngressRecord>], split: u32, offset: u64) -> Option<&IngressRecord>
    ensures found { option_copied result ≡ record_at lists.now split offset }
    ensures short { IfSome result (λ _. offset < 2 ^ 63) }
{
    lists.get(split as usize)?.as_slice().get(offset as usize)
}
