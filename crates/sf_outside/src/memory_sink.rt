//! A sink in memory.
ghost use Rattle.std.specs.Prelude.{◌≡◌, ◌↔◌, ◌++◌, ◌<◌, ◌≤◌, Some, [], length, take, IsOkAnd, IsErrOf, IfOk, OnErr};
ghost use Rattle.sf_outside.specs.declared.fault.Fault.TheVariants.{Failed as HasFailed};
ghost use Rattle.sf_outside.specs.Told.{HasCause, more};
ghost use Rattle.sf_outside.specs.Failing.{IsFresh, FailsNext, CountsOne};

use crate::call_count::CallCount;
use crate::{Fault, Sink};
use proto_wire::{Bytes, List, Mem};
use std::alloc::Global;

/// A sink that keeps what is written, and whose listed writes fail.
#[derive(Drop)]
pub struct MemorySink {
    held: Bytes,
    count: CallCount,
}

impl MemorySink {
    /// A sink that holds these bytes already. `fail` has the numbers, from 0, of the writes that fail. It always succeeds.
    pub fn new(_alloc: Global, content: Bytes, fail: List<u64>) -> Mem<MemorySink>
        ensures { IsOkAnd result (λ sink. (sink.held ≡ content) × IsFresh fail sink.count) }
    {
        Ok(MemorySink {
            held: content,
            count: CallCount::new(fail),
        })
    }

    /// A sink that holds these bytes already, and none of whose writes fails. It always succeeds.
    pub fn steady(alloc: Global, content: Bytes) -> Mem<MemorySink>
        ensures { IsOkAnd result (λ sink. (sink.held ≡ content) × IsFresh [] sink.count) }
    {
        MemorySink::new(alloc, content, List::new(alloc))
    }

    /// What it holds.
    pub fn bytes(&self) -> &Bytes
        ensures { result.now ≡ self.now.held }
    {
        &self.held
    }
}

impl Sink for MemorySink {
    ghost written = { λ sink. Some sink.held };

    ghost faults = { λ sink. sink.count.faults };

    /// Writes all of the bytes. A write that fails, or that finds no memory, writes none.
    fn write(&mut self, bytes: &[u8]) -> Result<usize, Fault>
        ensures written { IfOk result (λ n. Some self.new.held ≡ more (Some self.old.held) (take n bytes.now)) }
        ensures bound { IfOk result (λ n. n ≤ length bytes.now) }
        ensures progress { IfOk result (λ n. 0 < length bytes.now → 0 < n) }
        ensures err { OnErr result (Some self.new.held ≡ Some self.old.held) }
        ensures cause { HasCause self.old.count.faults self.new.count.faults result }
        // It writes them all.
        ensures whole { IfOk result (λ n. n ≡ length bytes.now) }
        // It fails exactly where it is listed.
        ensures fails { IsErrOf result HasFailed ↔ FailsNext self.old.count }
        ensures counted { CountsOne self.old.count self.new.count }
    {
        self.count.enter()?;
        self.held.append(bytes)?;
        Ok(bytes.len())
    }
}
