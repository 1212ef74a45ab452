//! Opening a log that a crash may have left.
ghost use Rattle.std.specs.Prelude.{◌≡◌, IfOk, IfErr, IsFalse};
ghost use Rattle.sf_disk.specs.Images.{Follows};
ghost use Rattle.sf_disk.specs.Moments.{Since, Becomes, InFile};
ghost use Rattle.block_log.specs.Blocks.{Keeps};
ghost use Rattle.block_log.specs.Logs.{IsOpened};
ghost use Rattle.block_log.specs.Faults.{HasLogCause, Refuses};

use crate::find::find_blocks;
use crate::frame::SHORTEST;
use crate::mend::mend;
use crate::{BlockLog, LogFault};
use proto_wire::List;
use sf_disk::Disk;
use std::alloc::Global;

/// Opens the log in a file: syncs the file and finds its blocks. A file of fewer than 10 bytes has none; where its
/// first gate does not stand, it is written. A crash at any moment of the call leaves the blocks that stood.
/// `NotALog` has the place of the gate whose block does not fit.
pub fn open_log<D: Disk>(alloc: Global, disk: &mut D, file: u32) -> Result<BlockLog, LogFault>
    ensures meanwhile { Since (D.moments disk.old) (D.moments disk.new) (InFile file (Follows Keeps)) }
    ensures opened { IfOk result (λ log. Becomes (D.moments disk.old) (D.moments disk.new) (InFile file (IsOpened log))) }
    ensures file { IfOk result (λ log. log.file ≡ file) }
    ensures spent { IfOk result (λ log. IsFalse log.spent) }
    ensures refuses { IfErr result (λ fault. Refuses fault (D.moments disk.old) file) }
    ensures cause { HasLogCause (D.faults disk.old) (D.faults disk.new) result }
{
    disk.sync(file)?;
    let len = disk.len(file)?;
    if len < SHORTEST {
        mend(disk, file, len)?;
        return Ok(BlockLog::at(alloc, file, List::new(alloc), 0));
    }
    match find_blocks(alloc, disk, file, len) {
        Ok(log) => Ok(log),
        Err(fault) => Err(fault),
    }
}
