//! Opening the logs of a folder.
ghost use Rattle.std.specs.Prelude.{◌≡◌, IfOk, IfErr, IsFalse};
ghost use Rattle.sf_disk.specs.Images.{Follows};
ghost use Rattle.sf_disk.specs.Moments.{Since, Becomes, InFile, WhereTold};
ghost use Rattle.block_log.specs.Blocks.{IsNoLog, Keeps};
ghost use Rattle.block_log.specs.Logs.{IsOpened};
ghost use Rattle.store_faults.specs.Faults.{HasStoreCause, RefusesBy};
ghost use Rattle.snapshot_files.specs.Opening.{OpensKept};
ghost use Rattle.snapshot_files.specs.Steps.{AreReady, LogsOpened, RefusesLog};

use crate::store::{MANIFEST, PARTITIONS, PIECES};
use block_log::{BlockLog, open_log};
use sf_disk::Disk;
use std::alloc::Global;
use store_faults::{StoreFault, in_file};

/// The logs of a folder.
#[derive(Drop)]
pub struct Logs {
    pub manifest: BlockLog,
    /// Those of files 2 to 17.
    pub pieces: Vec<BlockLog>,
}

/// Opens the logs of all files.
pub(crate) fn open_logs<D: Disk>(alloc: Global, disk: &mut D) -> Result<Logs, StoreFault>
    ensures meanwhile { Since (D.moments disk.old) (D.moments disk.new) OpensKept }
    ensures opened { IfOk result (λ logs. Becomes (D.moments disk.old) (D.moments disk.new) (LogsOpened logs.manifest logs.pieces.items)) }
    ensures ready { IfOk result (λ logs. AreReady logs.manifest logs.pieces.items) }
    ensures refuses { IfErr result (RefusesLog (D.moments disk.old)) }
    ensures cause { HasStoreCause (D.faults disk.old) (D.faults disk.new) result }
{
    let manifest = open_in(alloc, disk, MANIFEST)?;
    let mut pieces = Vec::with_capacity(alloc, PARTITIONS as usize)?;
    for partition in 0..PARTITIONS {
        let log = open_in(alloc, disk, PIECES + partition)?;
        pieces.push(log)?;
    }
    Ok(Logs { manifest, pieces })
}

/// Opens the log in a file.
fn open_in<D: Disk>(alloc: Global, disk: &mut D, file: u32) -> Result<BlockLog, StoreFault>
    ensures meanwhile { Since (D.moments disk.old) (D.moments disk.new) (InFile file (Follows Keeps)) }
    ensures opened { IfOk result (λ log. Becomes (D.moments disk.old) (D.moments disk.new) (InFile file (IsOpened log))) }
    ensures file { IfOk result (λ log. log.file ≡ file) }
    ensures spent { IfOk result (λ log. IsFalse log.spent) }
    ensures refuses { IfErr result (RefusesBy (λ named place. (named ≡ file) × WhereTold (D.moments disk.old) (λ now. IsNoLog (now file).seen place))) }
    ensures cause { HasStoreCause (D.faults disk.old) (D.faults disk.new) result }
{
    match open_log(alloc, disk, file) {
        Ok(log) => Ok(log),
        Err(fault) => Err(in_file(file, fault)),
    }
}
