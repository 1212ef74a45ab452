//! Opening a folder for a run.
ghost use Rattle.std.specs.Prelude.{◌≡◌, ◌≤◌, ◌⊎◌, [], true, length, Some, IfOk, IfErr, OnOk, IsFalse};
ghost use Rattle.std.specs.List.{list_all};
ghost use Rattle.sf_disk.specs.Moments.{Becomes, Since};
ghost use Rattle.store_faults.specs.declared.fault.StoreFault.TheVariants.{NotAStore};
ghost use Rattle.store_faults.specs.Faults.{HasStoreCause, RefusesBy};
ghost use Rattle.folder_form.specs.Shapes.{partitions_in, shape_in};
ghost use Rattle.folder_form.specs.Pieces.{are_cells};
ghost use Rattle.snapshot_files.specs.Reading.{IsUntold};
ghost use Rattle.snapshot_files.specs.Stores.{newest};
ghost use Rattle.egress_commit.specs.Outlets.{last_epoch};
ghost use Rattle.checkpoint_storage.specs.Folders.{IsKnown, Leaves, Stays, Turns, with_next};
ghost use Rattle.statefun_driver.specs.Runs.{AreModest};
ghost use Rattle.statefun_driver.specs.Turns.{rested};
ghost use Rattle.statefun_driver.specs.Work.{here, splits_of};
ghost use Rattle.checkpoint_drive.specs.Images.{MayLeave, RunsOn, begun_run, most_legs};
ghost use Rattle.checkpoint_drive.specs.Begins.{IsBegun, RefusesOpening, reaches_work, shape_of};
ghost use Rattle.checkpoint_drive.specs.Starts.{HasRead, IsUnfit, origin_at, start_from};

use crate::Options;
use crate::begin::{check_counts, check_targets, kept_of};
use crate::run::Run;
use address_routing::Routes;
use checkpoint_storage::CheckpointStorage;
use folder_form::Loaded;
use partition_core::{KeptWork, Partition};
use proto_wire::{List, Mem, Text};
use sf_disk::Disk;
use statefun_driver::{Job, Progress};
use std::alloc::Global;
use store_faults::StoreFault;

/// A checkpoint that was loaded, as what turns begin with.
#[derive(Drop)]
pub(crate) struct Start {
    pub(crate) moment: u64,
    pub(crate) taken: List<u64>,
    pub(crate) kept: KeptWork,
}

/// A folder that was opened, and what turns begin with.
#[derive(Drop)]
pub(crate) struct Opened {
    pub(crate) storage: CheckpointStorage,
    pub(crate) start: Start,
}

impl Run {
    /// Opens the folder of a job for a run: loads the newest checkpoint, commits its egress where that is missing, and begins a
    /// run that goes on from it. A crash at any moment of the call leaves what the folder stood for, with the newest epoch
    /// committed perhaps, and with the run begun perhaps. `NotAStore` and `StoreOfOther` as for `CheckpointStorage::open`; and
    /// `NotAStore`, at place 0, for the egress file where it is further off than one epoch, for the pieces where something waits
    /// for a function without an endpoint, and for the manifest where it counts more splits than there are.
    pub(crate) fn open<D: Disk>(
        alloc: Global,
        routes: Routes,
        options: Options,
        text: &Text,
        disk: &mut D,
    ) -> Result<Run, StoreFault>
        requires names { partitions_in text.now ≡ Some 1 }
        requires shape { shape_in text.now ≡ Some (shape_of routes) }
        requires every { 1 ≤ options.every }
        requires modest { AreModest routes.endpoints }
        ensures meanwhile { Since (D.moments disk.old) (D.moments disk.new) (MayLeave text.now options []) }
        ensures begun { IfOk result (IsBegun routes options text.now (D.moments disk.old) (D.moments disk.new)) }
        ensures refuses { IfErr result (RefusesOpening routes text.now (D.moments disk.old)) }
        ensures cause { HasStoreCause (D.faults disk.old) (D.faults disk.new) result }
    {
        let opened = read(alloc, &routes, text, disk)?;
        let mut storage = opened.storage;
        let stored = storage.stored_leg();
        let holds = storage.newest() <= stored;
        prove!(holds);
        let most = begin(&mut storage, &routes, &opened.start.kept, options, disk)?;
        let job = Job::driven(routes);
        let progress = progress_of(alloc, &job, stored, opened.start)?;
        Ok(Run {
            alloc,
            job,
            options,
            storage,
            progress,
            most,
            legs: 0,
            unheld: false,
        })
    }
}

/// Opens a folder, and loads its newest checkpoint.
fn read<D: Disk>(
    alloc: Global,
    routes: &Routes,
    text: &Text,
    disk: &mut D,
) -> Result<Opened, StoreFault>
    requires names { partitions_in text.now ≡ Some 1 }
    requires shape { shape_in text.now ≡ Some (shape_of routes.now) }
    ensures meanwhile { Since (D.moments disk.old) (D.moments disk.new) (Stays text.now) }
    ensures has_read { IfOk result (λ opened. HasRead routes.now text.now (D.moments disk.old) (D.moments disk.new) opened.storage opened.start) }
    ensures refuses { IfErr result (RefusesOpening routes.now text.now (D.moments disk.old)) }
    ensures cause { HasStoreCause (D.faults disk.old) (D.faults disk.new) result }
{
    let storage = CheckpointStorage::open(alloc, disk, text, 1)?;
    let loaded = storage.load(disk)?;
    check_counts(storage.shape().splits, loaded.taken.as_slice())?;
    let start = start_of(alloc, loaded)?;
    Ok(Opened { storage, start })
}

/// Commits the newest egress where that is missing, and begins a run; answers the most legs that it may have.
fn begin<D: Disk>(
    storage: &mut CheckpointStorage,
    routes: &Routes,
    kept: &KeptWork,
    options: Options,
    disk: &mut D,
) -> Result<u64, StoreFault>
    requires usable { IsFalse storage.old.store.spent }
    requires open { IsFalse storage.old.outlet.spent }
    requires is_known { IsKnown storage.old (D.moments disk.old) }
    ensures meanwhile { Since (D.moments disk.old) (D.moments disk.new) (Leaves storage.old (RunsOn options [])) }
    ensures begun { OnOk result (Becomes (D.moments disk.old) (D.moments disk.new)
        (Turns storage.old storage.new (λ contents epochs. begun_run options contents) with_next)) }
    ensures reached { OnOk result (reaches_work routes.now kept.now.letters kept.now.delays ≡ true) }
    ensures most { IfOk result (λ most. most ≡ most_legs options storage.old.store.stored_leg) }
    ensures newest { OnOk result (newest storage.new.store ≡ newest storage.old.store) }
    ensures even { OnOk result (last_epoch storage.new.outlet ≡ newest storage.new.store) }
    ensures text { OnOk result (storage.new.store.text ≡ storage.old.store.text) }
    ensures shape { OnOk result (storage.new.store.shape ≡ storage.old.store.shape) }
    ensures usable { OnOk result (IsFalse storage.new.store.spent) }
    ensures open { OnOk result (IsFalse storage.new.outlet.spent) }
    ensures refuses { IfErr result (RefusesBy (λ file place. IsUntold (D.moments disk.old) (NotAStore file place)
        ⊎ IsUnfit routes.now storage.old kept.now file place)) }
    ensures cause { HasStoreCause (D.faults disk.old) (D.faults disk.new) result }
{
    storage.catch_up(disk)?;
    check_targets(routes, kept)?;
    let stored = storage.stored_leg();
    let most = options.legs.min(u64::MAX - stored);
    storage.begin_run(disk, stored + most)?;
    Ok(most)
}

/// What turns begin with behind a checkpoint.
fn start_of(alloc: Global, loaded: Loaded) -> Mem<Start>
    ensures { IfOk result (λ start. start ≡ start_from loaded) }
{
    let kept = kept_of(alloc, loaded.pieces, loaded.feedback)?;
    Ok(Start {
        moment: loaded.moment,
        taken: loaded.taken,
        kept,
    })
}

/// Turns that go on behind a leg.
fn progress_of(alloc: Global, job: &Job, leg: u64, start: Start) -> Mem<Progress>
    requires cells { list_all (λ state. are_cells state.cells) start.kept.states ≡ true }
    requires counted { length start.taken ≤ job.now.splits }
    ensures here { IfOk result (λ progress. here progress ≡ rested (origin_at leg start)) }
    ensures splits { IfOk result (λ progress. splits_of progress ≡ job.now.splits) }
{
    let partition = Partition::restore(alloc, start.kept)?;
    Progress::resume(
        alloc,
        job,
        leg,
        start.moment,
        start.taken.as_slice(),
        partition,
    )
}
