//! An ingress over the logs of a folder.
ghost use Rattle.std.specs.Prelude.{◌≡◌, ◌<◌, ◌^◌, None, IfOk, IfSome};
ghost use Rattle.std.specs.BTreeMap.{IsEmpty, get};
ghost use Rattle.std.specs.Ordering.{nat_cmp};
ghost use Rattle.sf_outside.specs.Opened.{FindsIn};
ghost use Rattle.sf_outside.specs.Told.{HasCause};

use crate::split_log::SplitLog;
use crate::system::{fault_of, path_of};
use crate::{Fault, Ingress, IngressRecord};
use proto_wire::Text;
use std::alloc::Global;
use std::collections::BTreeMap;
use std::fs;
use std::io::ErrorKind;
use std::rt::Files;

/// An ingress over a folder with a log for each split: split S is the file `split-S.log`. A split without a file is
/// empty, and a record that is cut by the end of its file is not there yet. It tells nothing of the lists.
#[derive(Drop)]
pub struct FolderIngress<R: Files> {
    alloc: Global,
    files: R,
    folder: Text,
    /// The logs that were opened, by split.
    logs: BTreeMap<u32, SplitLog<R::File>>,
    failed: u64,
}

impl<R: Files> FolderIngress<R> {
    /// An ingress over this folder, on which no read has failed. Opens nothing yet, and takes no memory.
    pub fn new(alloc: Global, files: R, folder: Text) -> FolderIngress<R>
        ensures files { result.files ≡ files }
        ensures folder { result.folder ≡ folder }
        ensures unopened { IsEmpty result.logs }
        ensures faults { result.failed ≡ 0 }
    {
        FolderIngress {
            alloc,
            files,
            folder,
            logs: BTreeMap::new(alloc),
            failed: 0,
        }
    }

    fn found(&mut self, split: u32, offset: u64) -> Result<Option<IngressRecord>, Fault>
        requires { offset < 2 ^ 63 }
        ensures faults { self.new.failed ≡ self.old.failed }
        ensures reads { IfOk result (λ found. FindsIn R.File.remaining (get nat_cmp self.old.logs split) offset found) }
    {
        if !self.logs.contains_key(&split) {
            let Some(file) = self.opened(split)? else {
                return Ok(None);
            };
            self.logs.insert(split, SplitLog::new(self.alloc, file))?;
        }
        match self.logs.get_mut(&split) {
            Some(log) => log.read(self.alloc, offset),
            None => Ok(None),
        }
    }

    // The file of a split, or `None` where the folder has none.
    fn opened(&self, split: u32) -> Result<Option<R::File>, Fault> {
        let folder = self.folder.as_str();
        let path = path_of(self.alloc, folder, split)?;
        match fs::open(&self.files, path.as_str()) {
            Ok(file) => Ok(Some(file)),
            Err(error) if error.kind() == ErrorKind::NotFound => match self.files.metadata(folder) {
                Ok(_) => Ok(None),
                Err(error) => Err(fault_of(error.kind())),
            },
            Err(error) => Err(fault_of(error.kind())),
        }
    }
}

impl<R: Files> Ingress for FolderIngress<R> {
    ghost lists = { λ _. None };

    ghost faults = { λ ingress. ingress.failed };

    /// A record of the split's log. Bytes that are no record are a fault, and so is an error of the folder or the file,
    /// but for its want of memory.
    fn read(&mut self, split: u32, offset: u64) -> Result<Option<IngressRecord>, Fault>
        ensures short { IfOk result (λ found. IfSome found (λ _. offset < 2 ^ 63)) }
        ensures cause { HasCause self.old.failed self.new.failed result }
        // Where the bytes of the split's log are known.
        ensures reads { IfOk result (λ found. FindsIn R.File.remaining (get nat_cmp self.old.logs split) offset found) }
    {
        if offset >= 1 << 63 {
            return Ok(None);
        }
        let found = self.found(split, offset);
        if let Err(Fault::Failed) = found {
            self.failed = self.failed.saturating_add(1);
        }
        found
    }
}
