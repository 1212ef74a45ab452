//! The storage of a run's checkpoints.
ghost use Rattle.std.specs.Prelude.{◌≡◌, ◌≤◌, ◌+◌, ◌⊎◌, ℕ, List, Some, IfOk, IfErr, IsTrue, IsFalse, OnOk, ◌↔◌};
ghost use Rattle.sf_disk.specs.Moments.{Since, Becomes, WhereTold};
ghost use Rattle.store_faults.specs.Faults.{HasStoreCause, IsNoRefusal, RefusesBy};
ghost use Rattle.store_faults.specs.declared.fault.StoreFault.TheVariants.{NotAStore};
ghost use Rattle.folder_form.specs.Shapes.{partitions_in, shape_in};
ghost use Rattle.folder_form.specs.Folders.{Contents, loaded_of, with_leg};
ghost use Rattle.snapshot_files.specs.Reading.{FitsShape, IsUntold};
ghost use Rattle.snapshot_files.specs.Stores.{newest};
ghost use Rattle.egress_commit.specs.Epochs.{Epoch};
ghost use Rattle.egress_commit.specs.Outlets.{last_epoch};
ghost use Rattle.checkpoint_storage.specs.Folders.{IsFar, IsKnown, IsStorage, Leaves, MayBegin, MayCommit, RefusesStorage, Stays, Turns, with_next};
ghost use Rattle.checkpoint_storage.specs.Opened.{IsOpened};

use egress_commit::Outlet;
use folder_form::{Loaded, Shape};
use proto_wire::Text;
use sf_disk::Disk;
use snapshot_files::Store;
use std::alloc::Global;
use store_faults::StoreFault;

/// The number of the egress file.
const EGRESS: u32 = 1;

/// The checkpoints and the committed egress of a folder that is open. It is for one disk alone, and nobody else writes its files.
#[derive(Drop)]
pub struct CheckpointStorage {
    pub(crate) store: Store,
    pub(crate) outlet: Outlet,
}

impl CheckpointStorage {
    /// Opens the folder of a job whose first line names this number of partitions, and its egress file. A crash at any moment of
    /// the call leaves what the folder stood for. `NotAStore` and `StoreOfOther` as for `Store::open_store`, and then `NotAStore`
    /// where the egress file has not its form.
    pub fn open<D: Disk>(
        alloc: Global,
        disk: &mut D,
        job: &Text,
        partitions: u32,
    ) -> Result<CheckpointStorage, StoreFault>
        requires names { partitions_in job.now ≡ Some partitions }
        ensures meanwhile { Since (D.moments disk.old) (D.moments disk.new) (Stays job.now) }
        ensures opened { IfOk result (λ storage. Becomes (D.moments disk.old) (D.moments disk.new) (IsOpened storage job.now)) }
        ensures text { IfOk result (λ storage. storage.store.text ≡ job.now) }
        ensures partitions { IfOk result (λ storage. storage.store.shape.partitions ≡ partitions) }
        ensures shape { IfOk result (λ storage. shape_in job.now ≡ Some storage.store.shape) }
        ensures usable { IfOk result (λ storage. IsFalse storage.store.spent) }
        ensures open { IfOk result (λ storage. IsFalse storage.outlet.spent) }
        ensures refuses { IfErr result (RefusesStorage job.now (D.moments disk.old)) }
        ensures cause { HasStoreCause (D.faults disk.old) (D.faults disk.new) result }
    {
        let store = Store::open_store(alloc, disk, job, partitions)?;
        let outlet = Outlet::open_outlet(alloc, disk)?;
        Ok(CheckpointStorage { store, outlet })
    }

    /// The number of the newest checkpoint, 0 for none.
    pub fn newest(&self) -> u64
        ensures newest { result ≡ newest self.now.store }
        ensures order { result ≤ self.now.store.stored_leg }
    {
        self.store.newest()
    }

    /// The greatest leg of a run that was begun or of a checkpoint, 0 for none.
    pub fn stored_leg(&self) -> u64
        ensures { result ≡ self.now.store.stored_leg }
    {
        self.store.stored_leg()
    }

    /// Over how many partitions its addresses are spread, and how many splits its job reads.
    pub fn shape(&self) -> Shape
        ensures { result ≡ self.now.store.shape }
    {
        self.store.shape()
    }

    /// Loads the newest checkpoint, or the empty one. Nothing changes.
    pub fn load<D: Disk>(&self, disk: &mut D) -> Result<Loaded, StoreFault>
        requires usable { IsFalse self.now.store.spent }
        requires is_known { IsKnown self.now (D.moments disk.old) }
        ensures loaded { IfOk result (λ loaded. WhereTold (D.moments disk.old) (λ now. (contents : Contents) (epochs : List Epoch) → IsStorage self.now contents epochs now → loaded ≡ loaded_of contents)) }
        ensures fits { IfOk result (FitsShape self.now.store.shape) }
        ensures refuses { IfErr result (IsUntold (D.moments disk.old)) }
        ensures same { D.moments disk.new ≡ D.moments disk.old }
        ensures cause { HasStoreCause (D.faults disk.old) (D.faults disk.new) result }
    {
        self.store.load(disk)
    }

    /// Commits the egress of the newest checkpoint where the egress file is one epoch behind it. `NotAStore` for the egress file at
    /// place 0 exactly where it is further behind, or ahead. A crash at any moment of the call leaves the folder with this epoch or
    /// without.
    pub fn catch_up<D: Disk>(&mut self, disk: &mut D) -> Result<(), StoreFault>
        requires usable { IsFalse self.old.store.spent }
        requires open { IsFalse self.old.outlet.spent }
        requires is_known { IsKnown self.old (D.moments disk.old) }
        ensures meanwhile { Since (D.moments disk.old) (D.moments disk.new) (Leaves self.old MayCommit) }
        ensures caught_up { OnOk result (Becomes (D.moments disk.old) (D.moments disk.new) (Turns self.old self.new (λ contents epochs. contents) with_next)) }
        ensures even { OnOk result (last_epoch self.new.outlet ≡ newest self.new.store) }
        ensures store { self.new.store ≡ self.old.store }
        ensures open { OnOk result (IsFalse self.new.outlet.spent) }
        ensures refuses { IfErr result (RefusesBy (λ file place. ((file ≡ 1) × (place ≡ 0) × IsFar (newest self.old.store) (last_epoch self.old.outlet)) ⊎ IsUntold (D.moments disk.old) (NotAStore file place))) }
        ensures cause { HasStoreCause (D.faults disk.old) (D.faults disk.new) result }
    {
        let newest = self.store.newest();
        let last = self.outlet.last_epoch();
        if last == newest {
            return Ok(());
        }
        if !is_next(last, newest) {
            return Err(StoreFault::NotAStore {
                file: EGRESS,
                place: 0,
            });
        }
        let egress = self.store.read_egress(disk, newest)?;
        self.outlet.commit(disk, newest, &egress)?;
        Ok(())
    }

    /// Begins a run whose legs go up to a limit, which is not below the stored leg. A crash at any moment of the call leaves the
    /// folder with this run or without. After a fault the storage is spent.
    pub fn begin_run<D: Disk>(&mut self, disk: &mut D, leg_limit: u64) -> Result<(), StoreFault>
        requires usable { IsFalse self.old.store.spent }
        requires limit { self.old.store.stored_leg ≤ leg_limit }
        requires is_known { IsKnown self.old (D.moments disk.old) }
        ensures meanwhile { Since (D.moments disk.old) (D.moments disk.new) (Leaves self.old (MayBegin leg_limit)) }
        ensures began { OnOk result (Becomes (D.moments disk.old) (D.moments disk.new) (Turns self.old self.new (λ contents epochs. with_leg leg_limit contents) (λ contents epochs. epochs))) }
        ensures leg { OnOk result (self.new.store.stored_leg ≡ leg_limit) }
        ensures newest { newest self.new.store ≡ newest self.old.store }
        ensures text { self.new.store.text ≡ self.old.store.text }
        ensures shape { self.new.store.shape ≡ self.old.store.shape }
        ensures outlet { self.new.outlet ≡ self.old.outlet }
        ensures usable { OnOk result (IsFalse self.new.store.spent) }
        ensures form { IfErr result IsNoRefusal }
        ensures cause { HasStoreCause (D.faults disk.old) (D.faults disk.new) result }
    {
        self.store.begin_run(disk, leg_limit)
    }
}

/// Whether a number is the next behind another.
fn is_next(number: u64, other: u64) -> bool
    ensures { IsTrue result ↔ (number + 1 ≡ other) }
{
    other > 0 && other - 1 == number
}
