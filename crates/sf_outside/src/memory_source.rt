//! A source in memory.
ghost use Rattle.std.specs.Prelude.{◌≡◌, ◌↔◌, ◌<◌, ◌≤◌, Some, [], length, take, drop, min, IsOkAnd, IsErrOf, IfOk, OnErr};
ghost use Rattle.sf_outside.specs.declared.fault.Fault.TheVariants.{Failed as HasFailed};
ghost use Rattle.sf_outside.specs.Told.{HasCause};
ghost use Rattle.sf_outside.specs.Left.{ahead, AtEnd};
ghost use Rattle.sf_outside.specs.Failing.{IsFresh, FailsNext, CountsOne};

use crate::call_count::CallCount;
use crate::unread::{Unread, put_front};
use crate::{Fault, Source};
use proto_wire::{Bytes, List, Mem};
use std::alloc::Global;

/// A source of bytes that are given, and whose listed reads fail.
#[derive(Drop)]
pub struct MemorySource {
    unread: Unread,
    count: CallCount,
}

impl MemorySource {
    /// A source of these bytes. `fail` has the numbers, from 0, of the reads that fail. It always succeeds.
    pub fn new(_alloc: Global, content: Bytes, fail: List<u64>) -> Mem<MemorySource>
        ensures { IsOkAnd result (λ source. (source.unread ≡ content) × IsFresh fail source.count) }
    {
        Ok(MemorySource {
            unread: Unread::of(content.into_vec()),
            count: CallCount::new(fail),
        })
    }

    /// A source of these bytes, none of whose reads fails. It always succeeds.
    pub fn steady(alloc: Global, content: Bytes) -> Mem<MemorySource>
        ensures { IsOkAnd result (λ source. (source.unread ≡ content) × IsFresh [] source.count) }
    {
        MemorySource::new(alloc, content, List::new(alloc))
    }
}

impl Source for MemorySource {
    ghost left = { λ source. Some source.unread };

    ghost faults = { λ source. source.count.faults };

    /// Reads as many bytes as there are and as there is room for. A read that fails reads none.
    fn read(&mut self, into: &mut [u8]) -> Result<usize, Fault>
        ensures read { IfOk result (λ n. Some self.old.unread ≡ ahead (take n into.new) (Some self.new.unread)) }
        ensures bound { IfOk result (λ n. n ≤ length into.new) }
        ensures behind { IfOk result (λ n. drop n into.new ≡ drop n into.old) }
        ensures end { IfOk result (λ n. n ≡ 0 → 0 < length into.new → AtEnd (Some self.new.unread)) }
        ensures err { OnErr result (Some self.new.unread ≡ Some self.old.unread) }
        ensures room { OnErr result (into.new ≡ into.old) }
        ensures cause { HasCause self.old.count.faults self.new.count.faults result }
        // It reads as many as fit.
        ensures most { IfOk result (λ n. n ≡ min (length self.old.unread) (length into.old)) }
        // It fails exactly where it is listed.
        ensures fails { IsErrOf result HasFailed ↔ FailsNext self.old.count }
        ensures counted { CountsOne self.old.count self.new.count }
    {
        self.count.enter()?;
        let count = put_front(into, self.unread.as_slice());
        self.unread.take(count);
        Ok(count)
    }
}
