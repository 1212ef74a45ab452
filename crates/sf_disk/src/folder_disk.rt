//! A disk over the files of a folder.
ghost use Rattle.std.specs.Prelude.{◌≡◌, []};
ghost use Rattle.std.specs.BTreeMap.{IsEmpty};
ghost use Rattle.sf_outside.specs.Told.{HasCause};

use crate::Disk;
use crate::open_folder::OpenFolder;
use proto_wire::Text;
use sf_outside::Fault;
use std::alloc::Global;
use std::os::unix::fs::FileExt;
use std::rt::Files;

/// A disk over a folder: file 0 is `manifest`, 1 is `egress`, 2 + p is `pieces-p`. It makes a file that is not there,
/// keeps each file open, and tells nothing of what they hold.
///
/// A sync is the system's `fsync`. The first one of each file syncs the folder too, so that the file's name is kept.
/// The system may forget what it could not sync; so a file whose sync failed is never synced again.
#[derive(Drop)]
pub struct FolderDisk<R: Files>
where
    R::File: FileExt,
{
    folder: OpenFolder<R>,
    failed: u64,
}

impl<R: Files> FolderDisk<R>
where
    R::File: FileExt,
{
    /// A disk over this folder, no call on which has failed. Opens nothing yet, and takes no memory.
    pub fn new(alloc: Global, files: R, folder: Text) -> FolderDisk<R>
        ensures files { result.folder.files ≡ files }
        ensures path { result.folder.path ≡ folder }
        ensures unopened { IsEmpty result.folder.opened }
        ensures faults { result.failed ≡ 0 }
    {
        FolderDisk {
            folder: OpenFolder::new(alloc, files, folder),
            failed: 0,
        }
    }

    // Counts a fault.
    fn counted<T: Drop>(&mut self, made: Result<T, Fault>) -> Result<T, Fault>
        ensures same { result ≡ made }
        ensures cause { HasCause self.old.failed self.new.failed result }
    {
        if let Err(Fault::Failed) = made {
            self.failed = self.failed.saturating_add(1);
        }
        made
    }
}

impl<R: Files> Disk for FolderDisk<R>
where
    R::File: FileExt,
{
    ghost moments = { λ _. [] };

    ghost faults = { λ disk. disk.failed };

    fn len(&mut self, file: u32) -> Result<u64, Fault> {
        let made = self.folder.len(file);
        self.counted(made)
    }

    fn read(&mut self, file: u32, at: u64, into: &mut [u8]) -> Result<(), Fault> {
        let made = self.folder.read(file, at, into);
        self.counted(made)
    }

    fn write_at(&mut self, file: u32, at: u64, bytes: &[u8]) -> Result<(), Fault> {
        let made = self.folder.write_at(file, at, bytes);
        self.counted(made)
    }

    fn cut(&mut self, file: u32, len: u64) -> Result<(), Fault> {
        let made = self.folder.cut(file, len);
        self.counted(made)
    }

    fn sync(&mut self, file: u32) -> Result<(), Fault> {
        let made = self.folder.sync(file);
        self.counted(made)
    }
}
