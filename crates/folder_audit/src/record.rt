//! What a folder has stored: the record of its checkpoints, and the newest of them.
ghost use Rattle.std.specs.Prelude.{◌≡◌, ℕ, List, IfOk, IfErr, IfSome, IsFalse, IsTrue, ◌↔◌};
ghost use Rattle.sf_disk.specs.Moments.{Since, WhereTold};
ghost use Rattle.store_faults.specs.Faults.{HasStoreCause};
ghost use Rattle.address_routing.specs.JobText.{job_text};
ghost use Rattle.folder_form.specs.Folders.{Contents};
ghost use Rattle.snapshot_files.specs.Stores.{IsStore, Pending};
ghost use Rattle.command_io.specs.Folders.{Stays};
ghost use Rattle.folder_audit.specs.Stored.{IsFound, IsFoundIn, RefusesFound, RefusesFoundIn, behind_line, is_of};

use address_routing::{Module, job_text};
use folder_form::Loaded;
use proto_wire::{List, Mem};
use run_record::Entry;
use sf_disk::Disk;
use snapshot_files::Store;
use std::alloc::Global;
use store_faults::StoreFault;

/// What was found in a folder that is to be of a job.
#[derive(Drop)]
pub(crate) enum Found {
    /// No job, and so no checkpoint.
    Nothing,
    /// Another job.
    Other,
    /// The entries of all checkpoints in order of their keys, and the newest checkpoint, or the empty one.
    Record {
        entries: List<Entry>,
        loaded: Loaded,
    },
}

/// Opens a folder as it is, and reads what it has of a job.
pub(crate) fn found_of<D: Disk>(
    alloc: Global,
    job: &Module,
    disk: &mut D,
) -> Result<Found, StoreFault>
    ensures found { IfOk result (IsFound job.now (D.moments disk.old)) }
    ensures refuses { IfErr result (RefusesFound (D.moments disk.old)) }
    ensures cause { HasStoreCause (D.faults disk.old) (D.faults disk.new) result }
    ensures meanwhile { Since (D.moments disk.old) (D.moments disk.new) Stays }
{
    match Store::open_kept(alloc, disk)? {
        None => Ok(Found::Nothing),
        Some(store) => found_in(alloc, job, &store, disk),
    }
}

/// Reads what an open store has of a job.
fn found_in<D: Disk>(
    alloc: Global,
    job: &Module,
    store: &Store,
    disk: &mut D,
) -> Result<Found, StoreFault>
    requires usable { IsFalse store.now.spent }
    requires is_open { WhereTold (D.moments disk.old) (λ now. (contents : Contents) × (pending : (ℕ → Pending)) × IsStore store.now contents pending now) }
    ensures found { IfOk result (IsFoundIn job.now store.now (D.moments disk.old)) }
    ensures refuses { IfErr result (RefusesFoundIn (D.moments disk.old)) }
    ensures cause { HasStoreCause (D.faults disk.old) (D.faults disk.new) result }
    ensures same { D.moments disk.new ≡ D.moments disk.old }
{
    let text = job_text(alloc, job)?;
    if !is_of(store.kept_text().as_bytes(), text.as_bytes()) {
        return Ok(Found::Other);
    }
    let entries = store.read_entries(disk)?;
    let loaded = store.load(disk)?;
    Ok(Found::Record { entries, loaded })
}

/// Whether a folder's text is that of a job behind its first line.
fn is_of(kept: &[u8], job: &[u8]) -> bool
    ensures { result ≡ is_of kept.now job.now }
{
    let rest = behind_line(kept);
    rest == job
}

/// What stands behind the first line; nothing where no line ends.
fn behind_line(text: &[u8]) -> &[u8]
    ensures { result.now ≡ behind_line text.now }
{
    let mut rest = text;
    while let Some((byte, others)) = rest.split_first() {
        rest = others;
        if *byte == b'\n' {
            return rest;
        }
    }
    rest
}
