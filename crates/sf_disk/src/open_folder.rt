//! The files of a folder that were opened.
ghost use Rattle.std.specs.Prelude.{◌≡◌, ◌+◌, ◌^◌, ◌≤◌, length, IfOk, OnOk};
ghost use Rattle.std.specs.BTreeMap.{IsEmpty};

use crate::names::path_of;
use crate::system_file::{SystemFile, answer};
use proto_wire::Text;
use sf_outside::Fault;
use std::alloc::Global;
use std::collections::BTreeMap;
use std::fs::{OpenFile, OpenOptions};
use std::os::unix::fs::FileExt;
use std::rt::Files;

/// A folder and those of its files that were opened, by number.
#[derive(Drop)]
pub struct OpenFolder<R: Files>
where
    R::File: FileExt,
{
    alloc: Global,
    files: R,
    path: Text,
    opened: BTreeMap<u32, SystemFile<R::File>>,
}

impl<R: Files> OpenFolder<R>
where
    R::File: FileExt,
{
    /// A folder of which nothing was opened. Takes no memory.
    pub(crate) fn new(alloc: Global, files: R, path: Text) -> OpenFolder<R>
        ensures files { result.files ≡ files }
        ensures path { result.path ≡ path }
        ensures unopened { IsEmpty result.opened }
    {
        OpenFolder {
            alloc,
            files,
            path,
            opened: BTreeMap::new(alloc),
        }
    }

    pub(crate) fn len(&mut self, file: u32) -> Result<u64, Fault>
        ensures { IfOk result (λ n. n ≤ 2 ^ 62) }
    {
        self.file(file)?.len()
    }

    pub(crate) fn read(&mut self, file: u32, at: u64, into: &mut [u8]) -> Result<(), Fault> {
        self.file(file)?.read(at, into)
    }

    pub(crate) fn write_at(&mut self, file: u32, at: u64, bytes: &[u8]) -> Result<(), Fault>
        ensures { OnOk result (at + length bytes.now ≤ 2 ^ 62) }
    {
        self.file(file)?.write_at(at, bytes)
    }

    pub(crate) fn cut(&mut self, file: u32, len: u64) -> Result<(), Fault> {
        self.file(file)?.cut(len)
    }

    pub(crate) fn sync(&mut self, file: u32) -> Result<(), Fault> {
        let opened = self.file(file)?;
        opened.sync()?;
        if opened.is_settled() {
            return Ok(());
        }
        self.sync_names()?;
        self.file(file)?.settle();
        Ok(())
    }

    // The file of a number, which is opened where it was not yet, and made where it is not there.
    fn file(&mut self, file: u32) -> Result<&mut SystemFile<R::File>, Fault> {
        if !self.opened.contains_key(&file) {
            let opened = self.open(file)?;
            self.opened.insert(file, opened)?;
        }
        match self.opened.get_mut(&file) {
            Some(opened) => Ok(opened),
            None => Err(Fault::Failed),
        }
    }

    fn open(&self, file: u32) -> Result<SystemFile<R::File>, Fault> {
        let path = path_of(self.alloc, self.path.as_str(), file)?;
        let mut options = OpenOptions::new();
        options.read(true).write(true).create(true);
        let file = answer(options.open(&self.files, path.as_str()))?;
        Ok(SystemFile::new(file))
    }

    // Syncs the folder itself, which keeps the names of its files.
    fn sync_names(&self) -> Result<(), Fault> {
        let mut options = OpenOptions::new();
        options.read(true);
        let folder = answer(options.open(&self.files, self.path.as_str()))?;
        answer(folder.sync_all())
    }
}
