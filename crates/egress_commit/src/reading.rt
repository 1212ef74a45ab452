//! Reading the epochs of a log.
ghost use Rattle.std.specs.Prelude.{◌≡◌, ◌+◌, List, Contains, take, Some, None, IfOk, IfErr, OnOk, IsFalse, slice_get};
ghost use Rattle.sf_disk.specs.Moments.{WhereTold};
ghost use Rattle.block_log.specs.Blocks.{Body};
ghost use Rattle.block_log.specs.Logs.{IsOpen, HasBlockAt};
ghost use Rattle.store_faults.specs.Faults.{HasStoreCause, RefusesUntold};
ghost use Rattle.egress_commit.specs.Epochs.{epoch_in};

use block_log::BlockLog;
use piece_messages::decode_commit;
use proto_wire::{DecodeFault, List, Mem, OutOfMemory};
use sf_disk::Disk;
use std::alloc::Global;
use store_faults::{StoreFault, in_file};
use typed_values::EgressRecord;

/// The epoch of that number, where the bytes spell it.
#[tactic(auto, unfolding(crate::specs::Epochs::epoch_in))]
fn epoch_in(alloc: Global, body: &[u8], number: u64) -> Mem<Option<List<EgressRecord>>>
    ensures { IfOk result (λ found. found ≡ epoch_in number body.now) }
{
    match decode_commit(alloc, body) {
        Ok(commit) => {
            if commit.epoch == number {
                Ok(Some(commit.records))
            } else {
                Ok(None)
            }
        }
        Err(DecodeFault::Wire(_fault)) => Ok(None),
        Err(DecodeFault::OutOfMemory) => Err(OutOfMemory),
    }
}

/// The epoch of that number, where the block at that position spells it.
pub(crate) fn epoch_at<D: Disk>(
    alloc: Global,
    disk: &mut D,
    log: &BlockLog,
    position: u64,
    number: u64,
) -> Result<Option<List<EgressRecord>>, StoreFault>
    requires file { log.now.file ≡ 1 }
    requires usable { IsFalse log.now.spent }
    requires block { Contains log.now.blocks position }
    requires is_open { WhereTold (D.moments disk.old) (λ now. (bodies : List Body) × IsOpen log.now bodies (now 1)) }
    ensures epoch { IfOk result (λ found. WhereTold (D.moments disk.old) (λ now. (bodies : List Body) (body : Body) → IsOpen log.now bodies (now 1) → HasBlockAt bodies position body → found ≡ epoch_in number body)) }
    ensures refuses { IfErr result (RefusesUntold 1 (D.moments disk.old)) }
    ensures same { D.moments disk.new ≡ D.moments disk.old }
    ensures cause { HasStoreCause (D.faults disk.old) (D.faults disk.new) result }
{
    let body = match log.read_block(disk, position) {
        Ok(body) => body,
        Err(fault) => return Err(in_file(log.file(), fault)),
    };
    let found = epoch_in(alloc, body.as_slice(), number)?;
    Ok(found)
}
