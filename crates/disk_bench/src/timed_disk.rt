//! A disk over a folder that times its syncs.
ghost use Rattle.std.specs.Prelude.{◌≡◌, []};

use sf_disk::{Disk, FolderDisk};
use sf_outside::Fault;
use std::io;
use std::os::unix::fs::FileExt;
use std::rt::{Clock, Files};
use std::time::{Duration, Instant};

/// A disk over a folder, and how long its syncs took.
#[derive(Drop)]
pub struct TimedDisk<R: Files, C: Clock>
where
    R::File: FileExt,
{
    disk: FolderDisk<R>,
    clock: C,
    pub(crate) syncs: u64,
    pub(crate) nanoseconds: u64,
}

impl<R: Files, C: Clock> TimedDisk<R, C>
where
    R::File: FileExt,
{
    pub(crate) fn new(disk: FolderDisk<R>, clock: C) -> TimedDisk<R, C> {
        TimedDisk {
            disk,
            clock,
            syncs: 0,
            nanoseconds: 0,
        }
    }

    // Counts one sync that began then.
    fn count(&mut self, began: io::Result<Instant>)
        ensures { self.new.disk ≡ self.old.disk }
    {
        self.syncs = self.syncs.saturating_add(1);
        if let Ok(began) = began {
            if let Ok(took) = began.elapsed(&self.clock) {
                self.nanoseconds = self.nanoseconds.saturating_add(nanoseconds_of(took));
            }
        }
    }
}

fn nanoseconds_of(took: Duration) -> u64 {
    match u64::try_from(took.as_nanos()) {
        Ok(nanoseconds) => nanoseconds,
        Err(_) => u64::MAX,
    }
}

impl<R: Files, C: Clock> Disk for TimedDisk<R, C>
where
    R::File: FileExt,
{
    ghost moments = { λ _. [] };

    ghost faults = { λ disk. disk.disk.failed };

    fn len(&mut self, file: u32) -> Result<u64, Fault> {
        self.disk.len(file)
    }

    fn read(&mut self, file: u32, at: u64, into: &mut [u8]) -> Result<(), Fault> {
        self.disk.read(file, at, into)
    }

    fn write_at(&mut self, file: u32, at: u64, bytes: &[u8]) -> Result<(), Fault> {
        self.disk.write_at(file, at, bytes)
    }

    fn cut(&mut self, file: u32, len: u64) -> Result<(), Fault> {
        self.disk.cut(file, len)
    }

    fn sync(&mut self, file: u32) -> Result<(), Fault> {
        let began = Instant::now(&self.clock);
        let synced = self.disk.sync(file);
        self.count(began);
        synced
    }
}
