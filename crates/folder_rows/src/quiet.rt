//! A disk in memory that tells nothing.
ghost use Rattle.std.specs.Prelude.{◌≡◌, ◌+◌, ◌^◌, ◌≤◌, [], length, IfOk, OnOk};
ghost use Rattle.sf_outside.specs.Told.{HasCause};

use proto_wire::{Bytes, List, Mem};
use row_text::Failure;
use sf_disk::{Disk, MemoryDisk};
use sf_outside::Fault;
use std::alloc::Global;

/// A disk in memory that tells nothing of what it holds, so nothing of that is owed by who calls it. It may stop at a call.
#[derive(Drop)]
pub struct Quiet {
    disk: MemoryDisk,
    /// How many calls were made.
    made: u64,
    /// The number of the call, from 0, from which on each fails.
    stop: u64,
    failed: u64,
}

impl Quiet {
    /// A disk with these files by number, all of them synced, that does not stop.
    pub(crate) fn new(alloc: Global, files: List<Bytes>) -> Mem<Quiet> {
        Ok(Quiet::over(MemoryDisk::steady(alloc, files)?))
    }

    /// A disk with these files by number, all of them synced, that stops at a call.
    pub(crate) fn stopping(alloc: Global, files: List<Bytes>, stop: u64) -> Mem<Quiet> {
        Ok(Quiet {
            stop,
            ..Quiet::new(alloc, files)?
        })
    }

    fn over(disk: MemoryDisk) -> Quiet {
        Quiet {
            disk,
            made: 0,
            stop: u64::MAX,
            failed: 0,
        }
    }

    /// A disk with what a crash now leaves, by a pick of 0, 1 or 2, that does not stop.
    pub(crate) fn crash(&self, pick: u8) -> Result<Quiet, Failure> {
        if pick > 2 {
            return Err(Failure::Row);
        }
        Ok(Quiet::over(self.disk.crash(pick)?))
    }

    /// A disk that reads as this one does, and stops at a call.
    pub(crate) fn copy(&self, stop: u64) -> Result<Quiet, Failure> {
        let mut copy = self.crash(1)?;
        copy.stop = stop;
        Ok(copy)
    }

    // Makes one more call.
    fn enter(&mut self) -> Result<(), Fault>
        ensures { self.new.failed ≡ self.old.failed }
    {
        if self.made >= self.stop {
            return Err(Fault::Failed);
        }
        self.made = self.made.saturating_add(1);
        Ok(())
    }

    fn len_of(&mut self, file: u32) -> Result<u64, Fault>
        ensures bound { IfOk result (λ n. n ≤ 2 ^ 62) }
        ensures faults { self.new.failed ≡ self.old.failed }
    {
        self.enter()?;
        self.disk.len(file)
    }

    fn read_from(&mut self, file: u32, at: u64, into: &mut [u8]) -> Result<(), Fault>
        ensures { self.new.failed ≡ self.old.failed }
    {
        self.enter()?;
        let len = self.disk.len(file)?;
        if at > len || into.len() as u64 > len - at {
            return Err(Fault::Failed);
        }
        self.disk.read(file, at, into)
    }

    fn write_to(&mut self, file: u32, at: u64, bytes: &[u8]) -> Result<(), Fault>
        ensures bound { OnOk result (at + length bytes.now ≤ 2 ^ 62) }
        ensures faults { self.new.failed ≡ self.old.failed }
    {
        self.enter()?;
        if at > self.disk.len(file)? {
            return Err(Fault::Failed);
        }
        self.disk.write_at(file, at, bytes)
    }

    fn cut_to(&mut self, file: u32, len: u64) -> Result<(), Fault>
        ensures { self.new.failed ≡ self.old.failed }
    {
        self.enter()?;
        if len > self.disk.len(file)? {
            return Err(Fault::Failed);
        }
        self.disk.cut(file, len)
    }

    fn sync_now(&mut self, file: u32) -> Result<(), Fault>
        ensures { self.new.failed ≡ self.old.failed }
    {
        self.enter()?;
        self.disk.sync(file)
    }

    // Counts a fault.
    fn counted<T: Drop>(&mut self, made: Result<T, Fault>) -> Result<T, Fault>
        ensures same { result ≡ made }
        ensures cause { HasCause self.old.failed self.new.failed result }
    {
        if let Err(Fault::Failed) = made {
            self.failed = self.failed.saturating_add(1);
        }
        made
    }
}

impl Disk for Quiet {
    ghost moments = { λ _. [] };

    ghost faults = { λ disk. disk.failed };

    fn len(&mut self, file: u32) -> Result<u64, Fault> {
        let made = self.len_of(file);
        self.counted(made)
    }

    fn read(&mut self, file: u32, at: u64, into: &mut [u8]) -> Result<(), Fault> {
        let made = self.read_from(file, at, into);
        self.counted(made)
    }

    fn write_at(&mut self, file: u32, at: u64, bytes: &[u8]) -> Result<(), Fault> {
        let made = self.write_to(file, at, bytes);
        self.counted(made)
    }

    fn cut(&mut self, file: u32, len: u64) -> Result<(), Fault> {
        let made = self.cut_to(file, len);
        self.counted(made)
    }

    fn sync(&mut self, file: u32) -> Result<(), Fault> {
        let made = self.sync_now(file);
        self.counted(made)
    }
}
