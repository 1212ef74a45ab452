//! A disk that is read ahead.
ghost use Rattle.std.specs.Prelude.{◌≡◌, ◌+◌, ◌≤◌, [], length, take, drop, OnOk};
ghost use Rattle.sf_outside.specs.Told.{HasCause};
ghost use Rattle.sf_disk.specs.Moments.{WhereTold};
ghost use Rattle.read_ahead.specs.Windows.{AllShow};

use crate::bytes::bytes_at;
use crate::slots::{covering, keep, width_from};
use crate::window::Window;
use crate::within::copy_from;
use sf_disk::Disk;
use sf_outside::Fault;
use std::alloc::Global;

/// A disk that is read ahead: a small read takes the bytes behind it along, and the reads that follow find theirs in
/// memory. It takes few along at first, and twice as many each time that the reads go on behind them. What it keeps is
/// at most 2^20 bytes of each file, and is dropped when the disk is written. Reads of more than 2^16 bytes are made as
/// they are.
#[derive(Drop)]
pub struct ReadAhead<D: Disk + Drop> {
    disk: D,
    windows: Vec<Window>,
    alloc: Global,
    ghost shown: { AllShow (D.moments disk) windows.items },
}

impl<D: Disk + Drop> ReadAhead<D> {
    /// Over a disk of which nothing was read yet. Takes no memory.
    pub fn over(alloc: Global, disk: D) -> ReadAhead<D>
        ensures disk { result.disk ≡ disk }
        ensures nothing { result.windows.items ≡ [] }
    {
        ReadAhead {
            disk,
            windows: Vec::new(alloc),
            alloc,
        }
    }

    /// The disk itself.
    pub fn disk(&self) -> &D
        ensures { result.now ≡ self.now.disk }
    {
        &self.disk
    }

    // Reads what no window has, and the bytes behind it.
    fn read_on(&mut self, file: u32, at: u64, into: &mut [u8]) -> Result<(), Fault>
        requires { WhereTold (D.moments self.old.disk) (λ now. at + length into.old ≤ length (now file).seen) }
        ensures read { OnOk result (WhereTold (D.moments self.old.disk) (λ now. into.new ≡ take (length into.old) (drop at (now file).seen))) }
        ensures same { D.moments self.new.disk ≡ D.moments self.old.disk }
        ensures cause { HasCause (D.faults self.old.disk) (D.faults self.new.disk) result }
    {
        let len = self.disk.len(file)?;
        let wanted = into.len() as u64;
        let width = width_from(self.windows.as_slice(), file, at, wanted);
        let size = len.saturating_sub(at).min(width);
        if size <= wanted {
            return self.disk.read(file, at, into);
        }
        let bytes = bytes_at(self.alloc, &mut self.disk, file, at, size)?;
        copy_from(bytes.as_slice(), 0, into);
        keep(&mut self.windows, Window { file, at, bytes })?;
        Ok(())
    }
}

impl<D: Disk + Drop> Disk for ReadAhead<D> {
    ghost moments = { λ ahead. D.moments ahead.disk };

    ghost faults = { λ ahead. D.faults ahead.disk };

    fn len(&mut self, file: u32) -> Result<u64, Fault> {
        self.disk.len(file)
    }

    fn read(&mut self, file: u32, at: u64, into: &mut [u8]) -> Result<(), Fault> {
        if let Some(window) = covering(self.windows.as_slice(), file, at, into.len() as u64) {
            copy_from(window.bytes.as_slice(), (at - window.at) as usize, into);
            return Ok(());
        }
        self.read_on(file, at, into)
    }

    fn write_at(&mut self, file: u32, at: u64, bytes: &[u8]) -> Result<(), Fault> {
        self.windows.clear(); // they would show what stood there before
        self.disk.write_at(file, at, bytes)
    }

    fn cut(&mut self, file: u32, len: u64) -> Result<(), Fault> {
        self.windows.clear();
        self.disk.cut(file, len)
    }

    fn sync(&mut self, file: u32) -> Result<(), Fault> {
        self.disk.sync(file)
    }
}
