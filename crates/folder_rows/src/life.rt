//! A life of a folder: it is opened, and checkpoints are written, each behind the beginning of a run.
ghost use Rattle.std.specs.Prelude.{◌≡◌, ◌≤◌, ◌<◌, ◌+◌, length, true, IsFalse, IfOk, OnOk};
ghost use Rattle.std.specs.List.{list_all};
ghost use Rattle.folder_form.specs.Folders.{takes};
ghost use Rattle.snapshot_files.specs.Stores.{newest};
ghost use Rattle.snapshot_files.specs.Usable.{AreAllPut, has_letters, has_piece, latest_put};

use crate::plan::{Part, Plan};
use crate::quiet::Quiet;
use crate::stop::{Stop, refusal};
use folder_form::{Home, Mark, owns_letters, owns_piece, shape_in};
use piece_messages::Piece;
use proto_wire::{List, Text};
use row_text::Failure;
use run_record::{Entry, Step};
use snapshot_files::Store;
use std::alloc::Global;
use store_faults::StoreFault;
use typed_values::Letter;

/// What came of a life.
#[derive(Drop)]
pub struct Life {
    /// How many runs and checkpoints were begun.
    pub(crate) begun: u64,
    /// How many of them were answered Ok.
    pub(crate) answered: u64,
    /// The fault that ended it.
    pub(crate) fault: Option<StoreFault>,
}

/// Opens the folder of a job.
#[tactic(auto, unfolding(folder_form::specs::Shapes::shape_in))]
pub(crate) fn opened(alloc: Global, disk: &mut Quiet, job: &Text) -> Result<Store, Stop>
    ensures usable { IfOk result (λ store. IsFalse store.spent) }
{
    let shape = shape_in(job).ok_or(Failure::Row)?;
    let store = Store::open_store(alloc, disk, job, shape.partitions)?;
    Ok(store)
}

/// Writes what is planned into a folder, up to the first fault.
pub(crate) fn live(alloc: Global, disk: &mut Quiet, plan: &Plan) -> Result<Life, Failure> {
    let mut life = Life {
        begun: 0,
        answered: 0,
        fault: None,
    };
    if let Err(stop) = go(alloc, disk, plan, &mut life) {
        life.fault = Some(refusal(stop)?);
    }
    Ok(life)
}

fn go(alloc: Global, disk: &mut Quiet, plan: &Plan, life: &mut Life) -> Result<(), Stop> {
    let mut store = opened(alloc, disk, &plan.job)?;
    for checkpoint in plan.checkpoints.as_slice() {
        begin(disk, &mut store, life, checkpoint.limit)?;
        put_all(alloc, disk, &mut store, checkpoint.parts.as_slice())?;
        complete(disk, &mut store, life, &checkpoint.mark)?;
    }
    Ok(())
}

fn begin(disk: &mut Quiet, store: &mut Store, life: &mut Life, leg: u64) -> Result<(), Stop>
    requires usable { IsFalse store.old.spent }
    ensures usable { OnOk result (IsFalse store.new.spent) }
{
    if leg < store.stored_leg() {
        return Err(Stop::Failure(Failure::Row));
    }
    life.begun = life.begun.saturating_add(1);
    store.begin_run(disk, leg)?;
    life.answered = life.answered.saturating_add(1);
    Ok(())
}

fn put_all(alloc: Global, disk: &mut Quiet, store: &mut Store, parts: &[Part]) -> Result<(), Stop>
    requires usable { IsFalse store.old.spent }
    ensures usable { OnOk result (IsFalse store.new.spent) }
{
    for part in parts {
        put_piece(alloc, disk, store, &part.piece)?;
        put_letters(disk, store, part.piece.partition, &part.letters)?;
    }
    Ok(())
}

fn put_piece(alloc: Global, disk: &mut Quiet, store: &mut Store, piece: &Piece) -> Result<(), Stop>
    requires usable { IsFalse store.old.spent }
    ensures usable { OnOk result (IsFalse store.new.spent) }
{
    let home = Home {
        partitions: store.shape().partitions,
        partition: piece.partition,
    };
    let is_owned = owns_piece(alloc, home, piece)?;
    if !is_owned || home.partition >= home.partitions {
        return Err(Stop::Failure(Failure::Row));
    }
    store.put_piece(disk, piece)?;
    Ok(())
}

fn put_letters(
    disk: &mut Quiet,
    store: &mut Store,
    partition: u32,
    letters: &List<Letter>,
) -> Result<(), Stop>
    requires usable { IsFalse store.old.spent }
    ensures usable { OnOk result (IsFalse store.new.spent) }
{
    let home = Home {
        partitions: store.shape().partitions,
        partition,
    };
    if !owns_letters(home, letters.as_slice()) || partition >= home.partitions {
        return Err(Stop::Failure(Failure::Row));
    }
    store.put_feedback(disk, partition, letters)?;
    Ok(())
}

/// Whether the parts of a partition were put, with no moment above this one.
fn is_put(store: &Store, partition: u32, moment: u64) -> bool
    requires { partition < store.now.shape.partitions }
    ensures piece { result ≡ true → has_piece store.now partition ≡ true }
    ensures letters { result ≡ true → has_letters store.now partition ≡ true }
    ensures latest { result ≡ true → latest_put store.now partition ≤ moment }
{
    store.placed(partition) && store.latest(partition) <= moment
}

/// Whether all parts of the next checkpoint were put, with no moment above this one.
fn are_all_put(store: &Store, moment: u64) -> bool
    ensures { result ≡ true → AreAllPut store.now moment }
{
    for partition in 0..store.shape().partitions {
        if !is_put(store, partition, moment) {
            return false;
        }
    }
    true
}

fn is_take(entry: &Entry) -> bool
    ensures { result ≡ takes entry.now }
{
    match &entry.step {
        Step::Take(_split) => true,
        Step::Batch(_reply) => false,
        Step::Register(_reply) => false,
        Step::Due { .. } => false,
    }
}

fn are_takes(entries: &[Entry]) -> bool
    ensures { result ≡ list_all takes entries.now }
{
    entries.iter().all(|entry| is_take(entry))
}

/// Whether a checkpoint may be the next.
fn is_next(store: &Store, mark: &Mark) -> bool
    ensures number { result ≡ true → mark.now.number ≡ newest store.now + 1 }
    ensures leg { result ≡ true → mark.now.number ≤ mark.now.leg }
    ensures taken { result ≡ true → length mark.now.taken ≡ store.now.shape.splits }
    ensures takes { result ≡ true → list_all takes mark.now.takes ≡ true }
{
    store.newest() < mark.number
        && mark.number - store.newest() == 1
        && mark.number <= mark.leg
        && mark.taken.len() as u64 == store.shape().splits
        && are_takes(mark.takes.as_slice())
}

fn complete(disk: &mut Quiet, store: &mut Store, life: &mut Life, mark: &Mark) -> Result<(), Stop>
    requires usable { IsFalse store.old.spent }
    ensures usable { OnOk result (IsFalse store.new.spent) }
{
    if !is_next(store, mark) || !are_all_put(store, mark.moment) {
        return Err(Stop::Failure(Failure::Row));
    }
    life.begun = life.begun.saturating_add(1);
    store.complete(disk, mark)?;
    life.answered = life.answered.saturating_add(1);
    Ok(())
}
