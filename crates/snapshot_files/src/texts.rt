//! The job with which a manifest begins.
ghost use Rattle.std.specs.Prelude.{◌≡◌, ◌↔◌, [], IfOk, IfErr, IsErr, IsTrue, IsFalse, List, OnOk};
ghost use Rattle.sf_disk.specs.Images.{Follows};
ghost use Rattle.sf_disk.specs.Moments.{Since, Becomes, InFile, WhereTold};
ghost use Rattle.block_log.specs.Blocks.{Body};
ghost use Rattle.block_log.specs.Logs.{IsOpen};
ghost use Rattle.store_faults.specs.Faults.{HasStoreCause, IsNoRefusal};
ghost use Rattle.snapshot_files.specs.Opening.{Begins};
ghost use Rattle.snapshot_files.specs.Steps.{Begun, HasText, JobWritten, RefusesJob, RefusesText};

use crate::job::job_block;
use crate::store::MANIFEST;
use block_log::BlockLog;
use folder_form::job_in;
use proto_wire::{Text, TryClone};
use sf_disk::Disk;
use std::alloc::Global;
use store_faults::{StoreFault, in_file};

/// The text of the job with which a manifest begins; None where it has no block.
pub(crate) fn first_text<D: Disk>(
    alloc: Global,
    disk: &mut D,
    manifest: &BlockLog,
) -> Result<Option<Text>, StoreFault>
    requires file { manifest.now.file ≡ 0 }
    requires usable { IsFalse manifest.now.spent }
    requires is_open { WhereTold (D.moments disk.old) (λ now. (bodies : List Body) × IsOpen manifest.now bodies (now 0)) }
    ensures text { IfOk result (HasText manifest.now (D.moments disk.old)) }
    ensures refuses { IfErr result (RefusesJob manifest.now (D.moments disk.old)) }
    ensures same { D.moments disk.new ≡ D.moments disk.old }
    ensures cause { HasStoreCause (D.faults disk.old) (D.faults disk.new) result }
{
    if manifest.blocks().is_empty() {
        return Ok(None);
    }
    let place = manifest.blocks().as_slice()[0];
    let body = match manifest.read_block(disk, place) {
        Ok(body) => body,
        Err(fault) => return Err(in_file(MANIFEST, fault)),
    };
    match job_in(alloc, body.as_slice())? {
        Some(text) => Ok(Some(text)),
        None => Err(StoreFault::NotAStore {
            file: MANIFEST,
            place,
        }),
    }
}

/// Lets a manifest begin with the job: it is written where there is no block. `StoreOfOther` comes where another job stands.
pub(crate) fn begin_with<D: Disk>(
    alloc: Global,
    disk: &mut D,
    manifest: &mut BlockLog,
    job: &Text,
) -> Result<(), StoreFault>
    requires file { manifest.old.file ≡ 0 }
    requires usable { IsFalse manifest.old.spent }
    requires is_open { WhereTold (D.moments disk.old) (λ now. (bodies : List Body) × IsOpen manifest.old bodies (now 0)) }
    ensures meanwhile { Since (D.moments disk.old) (D.moments disk.new) (InFile 0 (Follows (Begins job.now))) }
    ensures begun { OnOk result (Becomes (D.moments disk.old) (D.moments disk.new) (InFile 0 (Begun manifest.old manifest.new job.now))) }
    ensures file { manifest.new.file ≡ manifest.old.file }
    ensures spent { OnOk result (IsFalse manifest.new.spent) }
    ensures refuses { IfErr result (RefusesText manifest.old job.now (D.moments disk.old)) }
    ensures cause { HasStoreCause (D.faults disk.old) (D.faults disk.new) result }
{
    match first_text(alloc, disk, manifest)? {
        None => write_job(alloc, disk, manifest, job),
        Some(kept) => {
            if kept != *job {
                return Err(StoreFault::StoreOfOther {
                    kept,
                    given: job.try_clone(alloc)?,
                });
            }
            Ok(())
        }
    }
}

/// Writes the job into a manifest without blocks.
fn write_job<D: Disk>(
    alloc: Global,
    disk: &mut D,
    manifest: &mut BlockLog,
    job: &Text,
) -> Result<(), StoreFault>
    requires file { manifest.old.file ≡ 0 }
    requires usable { IsFalse manifest.old.spent }
    requires is_open { WhereTold (D.moments disk.old) (λ now. IsOpen manifest.old [] (now 0)) }
    ensures meanwhile { Since (D.moments disk.old) (D.moments disk.new) (InFile 0 (Follows (Begins job.now))) }
    ensures written { OnOk result (Becomes (D.moments disk.old) (D.moments disk.new) (InFile 0 (JobWritten manifest.old manifest.new job.now))) }
    ensures file { manifest.new.file ≡ manifest.old.file }
    ensures spent { OnOk result (IsFalse manifest.new.spent) }
    ensures form { IfErr result IsNoRefusal }
    ensures cause { HasStoreCause (D.faults disk.old) (D.faults disk.new) result }
{
    let body = job_block(alloc, job)?;
    match manifest.append(disk, body.as_slice()) {
        Ok(_place) => Ok(()),
        Err(fault) => Err(in_file(MANIFEST, fault)),
    }
}
