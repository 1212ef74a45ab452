//! One file of the system, which stays open.
ghost use Rattle.std.specs.Prelude.{◌+◌, ◌^◌, ◌≤◌, length, IfOk, OnOk};

use crate::disk::LONGEST;
use crate::names::fault_of;
use sf_outside::Fault;
use std::fs::OpenFile;
use std::io;
use std::io::ErrorKind;
use std::os::unix::fs::FileExt;

/// An open file. Its length is asked for once, since nobody else writes it.
#[derive(Drop)]
pub struct SystemFile<F: OpenFile + FileExt + Drop> {
    file: F,
    /// Its length, where that is known.
    len: Option<u64>,
    /// Its name in the folder was synced since it was opened.
    settled: bool,
    /// A sync of it failed. The system may have forgotten what it could not sync.
    lost: bool,
}

impl<F: OpenFile + FileExt + Drop> SystemFile<F> {
    /// A file that was just opened, for reading and writing.
    pub(crate) fn new(file: F) -> SystemFile<F> {
        SystemFile {
            file,
            len: None,
            settled: false,
            lost: false,
        }
    }

    /// Its length in bytes.
    pub(crate) fn len(&mut self) -> Result<u64, Fault>
        ensures { IfOk result (λ n. n ≤ 2 ^ 62) }
    {
        let len = match self.len {
            Some(len) => len,
            None => answer(self.file.metadata())?.len(),
        };
        self.len = Some(len);
        if len > LONGEST {
            return Err(Fault::Failed);
        }
        Ok(len)
    }

    /// Reads the bytes from `at` on; a file that is too short for them is a fault.
    pub(crate) fn read(&self, at: u64, into: &mut [u8]) -> Result<(), Fault> {
        answer(self.file.read_exact_at(into, at))
    }

    /// Writes bytes from `at` on, which is to be at most its length.
    pub(crate) fn write_at(&mut self, at: u64, bytes: &[u8]) -> Result<(), Fault>
        ensures { OnOk result (at + length bytes.now ≤ 2 ^ 62) }
    {
        let len = self.len()?;
        if at > len || bytes.len() as u64 > LONGEST - at {
            return Err(Fault::Failed);
        }
        self.len = None;
        answer(self.file.write_all_at(bytes, at))?;
        self.len = Some(len.max(at + bytes.len() as u64));
        Ok(())
    }

    /// Cuts it to a length, which is to be at most its length.
    pub(crate) fn cut(&mut self, len: u64) -> Result<(), Fault> {
        if len > self.len()? {
            return Err(Fault::Failed);
        }
        self.len = None;
        answer(self.file.set_len(len))?;
        self.len = Some(len);
        Ok(())
    }

    /// Whether its name in the folder was synced since it was opened.
    pub(crate) fn is_settled(&self) -> bool {
        self.settled
    }

    /// Its name in the folder was synced.
    pub(crate) fn settle(&mut self) {
        self.settled = true;
    }

    /// Syncs it. Where that failed once it fails for good.
    pub(crate) fn sync(&mut self) -> Result<(), Fault> {
        if self.lost {
            return Err(Fault::Failed);
        }
        self.lost = true;
        answer(self.file.sync_all())?;
        self.lost = false;
        Ok(())
    }
}

/// What a call of the system answers.
pub(crate) fn answer<T: Drop>(made: io::Result<T>) -> Result<T, Fault> {
    match made {
        Ok(value) => Ok(value),
        Err(error) => Err(fault_of(error.kind())),
    }
}
