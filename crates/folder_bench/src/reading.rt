//! Opening and reading a folder.
ghost use Rattle.std.specs.Prelude.{IfOk, IsFalse};

use crate::failure::Failure;
use folder_form::Loaded;
use proto_wire::{Mem, Text};
use read_ahead::ReadAhead;
use sf_disk::FolderDisk;
use snapshot_files::Store;
use std::alloc::Global;

/// Opens a folder.
pub(crate) fn open(rt: &HostRuntime, folder: &str) -> Result<(), Failure> {
    let alloc = rt.alloc();
    let mut disk = over(rt, folder)?;
    let store = kept(alloc, &mut disk)?;
    let newest = store.newest();
    let leg = store.stored_leg();
    println!(rt; "opened newest {newest} leg {leg}")?;
    Ok(())
}

/// Opens a folder, and loads its newest checkpoint.
pub(crate) fn load(rt: &HostRuntime, folder: &str) -> Result<(), Failure> {
    let alloc = rt.alloc();
    let mut disk = over(rt, folder)?;
    let store = kept(alloc, &mut disk)?;
    let loaded = store.load(&mut disk)?;
    let number = loaded.number;
    let (states, letters) = counts(&loaded);
    println!(rt; "loaded {number} states {states} letters {letters}")?;
    Ok(())
}

/// Opens a folder, and reads the entries of all its checkpoints.
pub(crate) fn read(rt: &HostRuntime, folder: &str) -> Result<(), Failure> {
    let alloc = rt.alloc();
    let mut disk = over(rt, folder)?;
    let store = kept(alloc, &mut disk)?;
    let entries = store.read_entries(&mut disk)?.len();
    println!(rt; "read entries {entries}")?;
    Ok(())
}

/// A disk over a folder, which is read ahead.
fn over<'a>(rt: &'a HostRuntime, folder: &str) -> Mem<ReadAhead<FolderDisk<&'a HostRuntime>>> {
    let alloc = rt.alloc();
    let path = Text::copy_of(alloc, folder)?;
    Ok(ReadAhead::over(alloc, FolderDisk::new(alloc, rt, path)))
}

/// Opens a folder that has a job.
fn kept(alloc: Global, disk: &mut ReadAhead<FolderDisk<&HostRuntime>>) -> Result<Store, Failure>
    ensures { IfOk result (λ store. IsFalse store.spent) }
{
    match Store::open_kept(alloc, disk)? {
        Some(store) if !store.spent() => Ok(store),
        _ => Err(Failure::NotAStore),
    }
}

/// How many states and letters are loaded.
fn counts(loaded: &Loaded) -> (usize, usize) {
    let mut states: usize = 0;
    let mut letters: usize = 0;
    for piece in loaded.pieces.as_slice() {
        states = states.saturating_add(piece.states.len());
        letters = letters.saturating_add(piece.letters.len());
    }
    (states, letters)
}
