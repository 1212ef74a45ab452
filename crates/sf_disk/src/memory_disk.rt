//! A disk in memory.
ghost use Rattle.std.specs.Prelude.{◌≡◌, ◌↔◌, ◌+◌, ◌^◌, ◌≤◌, ℕ, List, [], ◌∷◌, ◌++◌, Some, length, take, drop, vec_capacity, IfOk, OnOk, OnErr, IsErrOf};
ghost use Rattle.sf_outside.specs.declared.fault.Fault.TheVariants.{Failed as HasFailed};
ghost use Rattle.sf_outside.specs.Told.{HasCause};
ghost use Rattle.sf_disk.specs.Images.{Torn, Shortened, Same, Follows, Done, Synced, patched};
ghost use Rattle.sf_disk.specs.Moments.{WhereTold, Since, Becomes, InFile, IsImage};
ghost use Rattle.sf_disk.specs.Memory.{ReadsAs, moments_of, now_of, file_of, crashed};
ghost use Rattle.sf_disk.specs.Failing.{IsFresh, FailsNext, CountsOne};

use crate::Disk;
use crate::call_count::CallCount;
use crate::change::Change;
use crate::disk::LONGEST;
use crate::files::{change_in, copy_from, file_in};
use crate::image::image_of;
use proto_wire::{Bytes, List, Mem, TryClone};
use sf_outside::Fault;
use std::alloc::Global;

/// Numbered files in memory, whose listed calls fail.
///
/// It keeps what the files held at first and each change since, so that it can tell what a crash leaves; it takes
/// memory for each number up to the greatest one that was written.
#[derive(Drop)]
pub struct MemoryDisk {
    alloc: Global,
    /// What the files held at first.
    first: List<Bytes>,
    /// What was done to them since, the oldest of it first.
    changes: Vec<Change>,
    /// The files as they read.
    seen: Vec<Bytes>,
    count: CallCount,
    ghost reads: { ReadsAs first changes.items seen.items },
}

impl MemoryDisk {
    /// A disk with these files by number, all of them synced. `fail` has the numbers, from 0, of the calls that fail.
    pub fn new(alloc: Global, content: List<Bytes>, fail: List<u64>) -> Mem<MemoryDisk>
        ensures content { IfOk result (λ disk. disk.first ≡ content) }
        ensures unchanged { IfOk result (λ disk. disk.changes.items ≡ []) }
        ensures fresh { IfOk result (λ disk. IsFresh fail disk.count) }
    {
        let seen = content.try_clone(alloc)?.into_vec();
        Ok(MemoryDisk {
            alloc,
            first: content,
            changes: Vec::new(alloc),
            seen,
            count: CallCount::new(fail),
        })
    }

    /// A disk with these files by number, all of them synced, none of whose calls fails.
    pub fn steady(alloc: Global, content: List<Bytes>) -> Mem<MemoryDisk>
        ensures content { IfOk result (λ disk. disk.first ≡ content) }
        ensures unchanged { IfOk result (λ disk. disk.changes.items ≡ []) }
        ensures fresh { IfOk result (λ disk. IsFresh [] disk.count) }
    {
        MemoryDisk::new(alloc, content, List::new(alloc))
    }

    /// Makes call k, counted from 0, and every later call fail.
    pub fn stop_at(&mut self, k: u64)
        ensures first { self.new.first ≡ self.old.first }
        ensures changes { self.new.changes ≡ self.old.changes }
        ensures made { self.new.count.made ≡ self.old.count.made }
        ensures listed { self.new.count.failing ≡ self.old.count.failing }
        ensures stop { self.new.count.stop ≡ Some k }
        ensures faults { self.new.count.faults ≡ self.old.count.faults }
    {
        self.count.stop_at(k);
    }

    /// A steady disk with what a crash now leaves, by a pick of at most 2: by 0 only what was synced, by 1 every
    /// write, by 2 each range that was written and not synced filled with the byte `a5`.
    pub fn crash(&self, pick: u8) -> Mem<MemoryDisk>
        requires { pick ≤ 2 }
        ensures content { IfOk result (λ image. (file : ℕ) → file_of image.first file ≡ crashed pick (now_of self.now.first self.now.changes.items file)) }
        // It is one of the images.
        ensures image { IfOk result (λ image. IsImage (now_of self.now.first self.now.changes.items) (λ file. file_of image.first file)) }
        ensures unchanged { IfOk result (λ image. image.changes.items ≡ []) }
        ensures fresh { IfOk result (λ image. IsFresh [] image.count) }
    {
        let files = image_of(self.alloc, &self.first, self.changes.as_slice(), pick)?;
        MemoryDisk::steady(self.alloc, List::of(files))
    }

    // Makes a change. An `Err` changes nothing.
    fn change(&mut self, change: Change) -> Mem<()>
        ensures first { self.new.first ≡ self.old.first }
        ensures count { self.new.count ≡ self.old.count }
        ensures changed { OnOk result (self.new.changes.items ≡ self.old.changes.items ++ change ∷ []) }
        ensures err { OnErr result (self.new.changes.items ≡ self.old.changes.items) }
    {
        self.changes.reserve(1)?;
        change_in(self.alloc, &mut self.seen, &change)?;
        note(&mut self.changes, change);
        Ok(())
    }
}

// Adds a change, for which there is room.
fn note(changes: &mut Vec<Change>, change: Change)
    requires { length changes.old.items + 1 ≤ vec_capacity changes.old }
    ensures { changes.new.items ≡ changes.old.items ++ change ∷ [] }
{
    match changes.push(change) {
        Ok(()) => {}
        Err(_) => unreachable!(),
    }
}

impl Disk for MemoryDisk {
    ghost moments = { λ disk. moments_of disk.first disk.changes.items };

    ghost faults = { λ disk. disk.count.faults };

    fn len(&mut self, file: u32) -> Result<u64, Fault>
        ensures len { IfOk result (λ n. WhereTold (moments_of self.old.first self.old.changes.items) (λ now. n ≡ length (now file).seen)) }
        ensures bound { IfOk result (λ n. n ≤ 2 ^ 62) }
        ensures same { moments_of self.new.first self.new.changes.items ≡ moments_of self.old.first self.old.changes.items }
        ensures cause { HasCause self.old.count.faults self.new.count.faults result }
        // It fails exactly where it is listed, or all have stopped.
        ensures fails { IsErrOf result HasFailed ↔ FailsNext self.old.count }
        ensures counted { CountsOne self.old.count self.new.count }
    {
        self.count.enter()?;
        let len = file_in(self.seen.as_slice(), file).len() as u64;
        if len > LONGEST {
            return Err(Fault::OutOfMemory);
        }
        Ok(len)
    }

    fn read(&mut self, file: u32, at: u64, into: &mut [u8]) -> Result<(), Fault>
        requires { WhereTold (moments_of self.old.first self.old.changes.items) (λ now. at + length into.old ≤ length (now file).seen) }
        ensures read { OnOk result (WhereTold (moments_of self.old.first self.old.changes.items) (λ now. into.new ≡ take (length into.old) (drop at (now file).seen))) }
        ensures same { moments_of self.new.first self.new.changes.items ≡ moments_of self.old.first self.old.changes.items }
        ensures cause { HasCause self.old.count.faults self.new.count.faults result }
        ensures fails { IsErrOf result HasFailed ↔ FailsNext self.old.count }
        ensures counted { CountsOne self.old.count self.new.count }
    {
        self.count.enter()?;
        copy_from(file_in(self.seen.as_slice(), file), at, into);
        Ok(())
    }

    fn write_at(&mut self, file: u32, at: u64, bytes: &[u8]) -> Result<(), Fault>
        requires { WhereTold (moments_of self.old.first self.old.changes.items) (λ now. at ≤ length (now file).seen) }
        ensures wrote { OnOk result (Becomes (moments_of self.old.first self.old.changes.items) (moments_of self.new.first self.new.changes.items) (InFile file (Done (Torn at (length bytes.now)) (λ old. patched old at bytes.now)))) }
        ensures bound { OnOk result (at + length bytes.now ≤ 2 ^ 62) }
        ensures meanwhile { Since (moments_of self.old.first self.old.changes.items) (moments_of self.new.first self.new.changes.items) (InFile file (Follows (Torn at (length bytes.now)))) }
        ensures cause { HasCause self.old.count.faults self.new.count.faults result }
        ensures fails { IsErrOf result HasFailed ↔ FailsNext self.old.count }
        ensures counted { CountsOne self.old.count self.new.count }
    {
        self.count.enter()?;
        if at > LONGEST || bytes.len() as u64 > LONGEST - at {
            return Err(Fault::OutOfMemory);
        }
        let bytes = Bytes::copy_of(self.alloc, bytes)?;
        self.change(Change::Write { file, at, bytes })?;
        Ok(())
    }

    fn cut(&mut self, file: u32, len: u64) -> Result<(), Fault>
        requires { WhereTold (moments_of self.old.first self.old.changes.items) (λ now. len ≤ length (now file).seen) }
        ensures shortened { OnOk result (Becomes (moments_of self.old.first self.old.changes.items) (moments_of self.new.first self.new.changes.items) (InFile file (Done (Shortened len) (take len)))) }
        ensures meanwhile { Since (moments_of self.old.first self.old.changes.items) (moments_of self.new.first self.new.changes.items) (InFile file (Follows (Shortened len))) }
        ensures cause { HasCause self.old.count.faults self.new.count.faults result }
        ensures fails { IsErrOf result HasFailed ↔ FailsNext self.old.count }
        ensures counted { CountsOne self.old.count self.new.count }
    {
        self.count.enter()?;
        self.change(Change::Cut { file, len })?;
        Ok(())
    }

    fn sync(&mut self, file: u32) -> Result<(), Fault>
        ensures synced { OnOk result (Becomes (moments_of self.old.first self.old.changes.items) (moments_of self.new.first self.new.changes.items) (InFile file Synced)) }
        ensures meanwhile { Since (moments_of self.old.first self.old.changes.items) (moments_of self.new.first self.new.changes.items) (InFile file (Follows Same)) }
        ensures cause { HasCause self.old.count.faults self.new.count.faults result }
        ensures fails { IsErrOf result HasFailed ↔ FailsNext self.old.count }
        ensures counted { CountsOne self.old.count self.new.count }
    {
        self.count.enter()?;
        self.change(Change::Sync { file })?;
        Ok(())
    }
}
