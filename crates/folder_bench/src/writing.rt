//! Writing checkpoints.
ghost use Rattle.std.specs.Prelude.{◌≡◌, ◌≤◌, ◌<◌, ◌+◌, length, true, IfOk, IsFalse, OnOk};
ghost use Rattle.std.specs.List.{list_all};
ghost use Rattle.folder_form.specs.Folders.{takes};
ghost use Rattle.snapshot_files.specs.Stores.{newest};
ghost use Rattle.snapshot_files.specs.Usable.{AreAllPut, has_letters, has_piece, latest_put};

use crate::content::{JOB, mark, piece_of_entries, piece_of_letters};
use crate::failure::Failure;
use folder_form::{Home, Mark, owns_letters, owns_piece, shape_in};
use piece_messages::{Piece, encode_piece};
use proto_wire::{List, Text};
use run_record::{Entry, Step};
use sf_disk::FolderDisk;
use snapshot_files::Store;
use std::alloc::Global;
use std::time::{Duration, Instant};

/// Writes checkpoints of so many entries.
pub(crate) fn make(
    rt: &HostRuntime,
    folder: &str,
    checkpoints: u32,
    entries: u32,
) -> Result<(), Failure> {
    let alloc = rt.alloc();
    let mut disk = FolderDisk::new(alloc, rt, Text::copy_of(alloc, folder)?);
    let mut store = opened(alloc, &mut disk)?;
    for _ in 0..checkpoints {
        let number = store.newest().saturating_add(1);
        let piece = piece_of_entries(alloc, number, entries)?;
        put(alloc, &mut disk, &mut store, &piece)?;
        complete(&mut disk, &mut store, &mark(alloc, number)?)?;
    }
    println!(rt; "made {checkpoints} {entries}")?;
    Ok(())
}

/// Writes a checkpoint of so many letters, and prints how long its parts took.
pub(crate) fn large(
    rt: &HostRuntime,
    folder: &str,
    letters: u32,
    size: u32,
) -> Result<(), Failure> {
    let alloc = rt.alloc();
    let mut disk = FolderDisk::new(alloc, rt, Text::copy_of(alloc, folder)?);
    let mut store = opened(alloc, &mut disk)?;
    let piece = piece_of_letters(alloc, letters, size as usize)?;
    let bytes = encode_piece(alloc, &piece)?.len();
    let mark = mark(alloc, store.newest().saturating_add(1))?;
    let began = Instant::now(rt)?;
    put(alloc, &mut disk, &mut store, &piece)?;
    let put = nanoseconds_of(began.elapsed(rt)?);
    let began = Instant::now(rt)?;
    complete(&mut disk, &mut store, &mark)?;
    let completed = nanoseconds_of(began.elapsed(rt)?);
    println!(rt; "large {letters} {size} bytes {bytes} put {put} completed {completed}")?;
    Ok(())
}

fn nanoseconds_of(took: Duration) -> u64 {
    match u64::try_from(took.as_nanos()) {
        Ok(nanoseconds) => nanoseconds,
        Err(_) => u64::MAX,
    }
}

/// Opens the folder of the job.
#[tactic(auto, unfolding(folder_form::specs::Shapes::shape_in))]
fn opened(alloc: Global, disk: &mut FolderDisk<&HostRuntime>) -> Result<Store, Failure>
    ensures { IfOk result (λ store. IsFalse store.spent) }
{
    let job = Text::copy_of(alloc, JOB)?;
    let shape = shape_in(&job).ok_or(Failure::Words)?;
    let store = Store::open_store(alloc, disk, &job, shape.partitions)?;
    Ok(store)
}

/// Puts a piece, and no letters beside it.
fn put(
    alloc: Global,
    disk: &mut FolderDisk<&HostRuntime>,
    store: &mut Store,
    piece: &Piece,
) -> Result<(), Failure>
    requires usable { IsFalse store.old.spent }
    ensures usable { OnOk result (IsFalse store.new.spent) }
{
    put_piece(alloc, disk, store, piece)?;
    put_no_letters(alloc, disk, store, piece.partition)
}

fn put_piece(
    alloc: Global,
    disk: &mut FolderDisk<&HostRuntime>,
    store: &mut Store,
    piece: &Piece,
) -> Result<(), Failure>
    requires usable { IsFalse store.old.spent }
    ensures usable { OnOk result (IsFalse store.new.spent) }
{
    let home = Home {
        partitions: store.shape().partitions,
        partition: piece.partition,
    };
    let is_owned = owns_piece(alloc, home, piece)?;
    if !is_owned || home.partition >= home.partitions {
        return Err(Failure::Words);
    }
    store.put_piece(disk, piece)?;
    Ok(())
}

/// Puts no letters for a partition.
fn put_no_letters(
    alloc: Global,
    disk: &mut FolderDisk<&HostRuntime>,
    store: &mut Store,
    partition: u32,
) -> Result<(), Failure>
    requires usable { IsFalse store.old.spent }
    ensures usable { OnOk result (IsFalse store.new.spent) }
{
    let letters = List::new(alloc);
    let home = Home {
        partitions: store.shape().partitions,
        partition,
    };
    if !owns_letters(home, letters.as_slice()) || partition >= home.partitions {
        return Err(Failure::Words);
    }
    store.put_feedback(disk, partition, &letters)?;
    Ok(())
}

/// Whether the parts of a partition were put, with no moment above this one.
fn is_put(store: &Store, partition: u32, moment: u64) -> bool
    requires { partition < store.now.shape.partitions }
    ensures piece { result ≡ true → has_piece store.now partition ≡ true }
    ensures letters { result ≡ true → has_letters store.now partition ≡ true }
    ensures latest { result ≡ true → latest_put store.now partition ≤ moment }
{
    store.placed(partition) && store.latest(partition) <= moment
}

/// Whether all parts of the next checkpoint were put, with no moment above this one.
fn are_all_put(store: &Store, moment: u64) -> bool
    ensures { result ≡ true → AreAllPut store.now moment }
{
    for partition in 0..store.shape().partitions {
        if !is_put(store, partition, moment) {
            return false;
        }
    }
    true
}

fn is_take(entry: &Entry) -> bool
    ensures { result ≡ takes entry.now }
{
    match &entry.step {
        Step::Take(_split) => true,
        Step::Batch(_reply) => false,
        Step::Register(_reply) => false,
        Step::Due { .. } => false,
    }
}

fn are_takes(entries: &[Entry]) -> bool
    ensures { result ≡ list_all takes entries.now }
{
    entries.iter().all(|entry| is_take(entry))
}

/// Whether a checkpoint may be the next.
fn is_next(store: &Store, mark: &Mark) -> bool
    ensures number { result ≡ true → mark.now.number ≡ newest store.now + 1 }
    ensures leg { result ≡ true → mark.now.number ≤ mark.now.leg }
    ensures taken { result ≡ true → length mark.now.taken ≡ store.now.shape.splits }
    ensures takes { result ≡ true → list_all takes mark.now.takes ≡ true }
{
    store.newest() < mark.number
        && mark.number - store.newest() == 1
        && mark.number <= mark.leg
        && mark.taken.len() as u64 == store.shape().splits
        && are_takes(mark.takes.as_slice())
}

fn complete(
    disk: &mut FolderDisk<&HostRuntime>,
    store: &mut Store,
    mark: &Mark,
) -> Result<(), Failure>
    requires usable { IsFalse store.old.spent }
    ensures usable { OnOk result (IsFalse store.new.spent) }
{
    if !is_next(store, mark) || !are_all_put(store, mark.moment) {
        return Err(Failure::Words);
    }
    store.complete(disk, mark)?;
    Ok(())
}
