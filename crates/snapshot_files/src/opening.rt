//! Opening a folder.
ghost use Rattle.std.specs.Prelude.{◌≡◌, ◌≤◌, ℕ, Some, IfOk, IfErr, IfSome, IsFalse, MatchOption};
ghost use Rattle.sf_disk.specs.Moments.{Since, Becomes};
ghost use Rattle.store_faults.specs.Faults.{HasStoreCause};
ghost use Rattle.folder_form.specs.Shapes.{partitions_in, shape_in};
ghost use Rattle.snapshot_files.specs.Opening.{IsNew, IsOpened, IsOpenedKept, Opens, OpensKept, RefusesKept, RefusesStore};

use crate::Store;
use crate::logs::open_logs;
use crate::texts::{begin_with, first_text};
use proto_wire::{Text, TryClone};
use sf_disk::Disk;
use std::alloc::Global;
use store_faults::StoreFault;

impl Store {
    /// Opens the folder of a job whose first line names this number of partitions. An empty folder gets the job. A crash at
    /// any moment of the call leaves what the folder stood for. `NotAStore` has file and place where a file is no log, or
    /// of the first block that breaks the form; `StoreOfOther` comes where the folder is of another job, before any block
    /// behind the job's is looked at.
    pub fn open_store<D: Disk>(
        alloc: Global,
        disk: &mut D,
        job: &Text,
        partitions: u32,
    ) -> Result<Store, StoreFault>
        requires names { partitions_in job.now ≡ Some partitions }
        ensures meanwhile { Since (D.moments disk.old) (D.moments disk.new) (Opens job.now) }
        ensures opened { IfOk result (λ store. Becomes (D.moments disk.old) (D.moments disk.new) (IsOpened store job.now)) }
        ensures text { IfOk result (λ store. store.text ≡ job.now) }
        ensures partitions { IfOk result (λ store. store.shape.partitions ≡ partitions) }
        ensures shape { IfOk result (λ store. shape_in job.now ≡ Some store.shape) }
        ensures spent { IfOk result (λ store. IsFalse store.spent) }
        ensures refuses { IfErr result (RefusesStore job.now (D.moments disk.old)) }
        ensures cause { HasStoreCause (D.faults disk.old) (D.faults disk.new) result }
    {
        let mut logs = open_logs(alloc, disk)?;
        begin_with(alloc, disk, &mut logs.manifest, job)?;
        Store::read(alloc, disk, logs, job.try_clone(alloc)?)
    }

    /// Opens a folder as it is; None exactly where its manifest has no block. A crash at any moment of the call leaves
    /// what the folder stood for. `NotAStore` as for `open_store`.
    pub fn open_kept<D: Disk>(alloc: Global, disk: &mut D) -> Result<Option<Store>, StoreFault>
        ensures meanwhile { Since (D.moments disk.old) (D.moments disk.new) OpensKept }
        ensures opened { IfOk result (λ found. MatchOption found (Becomes (D.moments disk.old) (D.moments disk.new) IsNew)
            (λ store. Becomes (D.moments disk.old) (D.moments disk.new) (IsOpenedKept store))) }
        ensures usable { IfOk result (λ found. IfSome found (λ store. IsFalse store.spent)) }
        ensures refuses { IfErr result (RefusesKept (D.moments disk.old)) }
        ensures cause { HasStoreCause (D.faults disk.old) (D.faults disk.new) result }
    {
        let logs = open_logs(alloc, disk)?;
        match first_text(alloc, disk, &logs.manifest)? {
            None => Ok(None),
            Some(text) => Ok(Some(Store::read(alloc, disk, logs, text)?)),
        }
    }
}
