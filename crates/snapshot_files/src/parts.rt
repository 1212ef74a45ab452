//! Reading the parts of a checkpoint.
ghost use Rattle.std.specs.Prelude.{◌≡◌, ◌<◌, ◌+◌, List, IfOk, IfErr, IsFalse, Some, is_some, true};
ghost use Rattle.sf_disk.specs.Moments.{WhereTold};
ghost use Rattle.block_log.specs.Blocks.{Body};
ghost use Rattle.block_log.specs.Logs.{IsOpen};
ghost use Rattle.store_faults.specs.Faults.{HasStoreCause, RefusesUntold};
ghost use Rattle.folder_form.specs.Pieces.{owns_letters};
ghost use Rattle.folder_form.specs.Folders.{Files, block_at, is_piece, letters_in, piece_in, spelled_at};
ghost use Rattle.snapshot_files.specs.Stores.{AreOpen, home_in};
ghost use Rattle.snapshot_files.specs.Reading.{BreaksThere};

use crate::Store;
use crate::store::PIECES;
use block_log::BlockLog;
use folder_form::{Home, letters_in, piece_in};
use piece_messages::Piece;
use proto_wire::{Bytes, List};
use sf_disk::Disk;
use store_faults::{StoreFault, in_file};
use typed_values::Letter;

/// The body of the block that begins at a place; None where none begins there.
pub(crate) fn body_at<D: Disk>(
    disk: &mut D,
    log: &BlockLog,
    place: u64,
) -> Result<Option<Bytes>, StoreFault>
    requires usable { IsFalse log.now.spent }
    requires is_open { WhereTold (D.moments disk.old) (λ now. (bodies : List Body) × IsOpen log.now bodies (now log.now.file)) }
    ensures body { IfOk result (λ found. WhereTold (D.moments disk.old) (λ now. (bodies : List Body) → IsOpen log.now bodies (now log.now.file) → found ≡ block_at place bodies)) }
    ensures refuses { IfErr result (RefusesUntold log.now.file (D.moments disk.old)) }
    ensures same { D.moments disk.new ≡ D.moments disk.old }
    ensures cause { HasStoreCause (D.faults disk.old) (D.faults disk.new) result }
{
    if log.blocks().as_slice().binary_search(&place).is_err() {
        return Ok(None);
    }
    match log.read_block(disk, place) {
        Ok(body) => Ok(Some(body)),
        Err(fault) => Err(in_file(log.file(), fault)),
    }
}

impl Store {
    /// The piece of a partition that stands at a place.
    pub(crate) fn piece_at<D: Disk>(
        &self,
        disk: &mut D,
        partition: u32,
        moment: u64,
        place: u64,
    ) -> Result<Piece, StoreFault>
        requires partition { partition < self.now.shape.partitions }
        requires usable { IsFalse self.now.spent }
        requires is_open { WhereTold (D.moments disk.old) (λ now. (files : Files) × AreOpen files now 2 self.now.logs.items) }
        ensures piece { IfOk result (λ piece. WhereTold (D.moments disk.old) (λ now. (files : Files) → AreOpen files now 2 self.now.logs.items
            → spelled_at (piece_in (home_in self.now.shape partition) moment) (block_at place (files (2 + partition))) ≡ Some piece)) }
        ensures owned { IfOk result (λ piece. is_piece (home_in self.now.shape partition) moment piece ≡ true) }
        ensures refuses { IfErr result (BreaksThere self.now (D.moments disk.old) (2 + partition) place (λ body. is_some (piece_in (home_in self.now.shape partition) moment body))) }
        ensures same { D.moments disk.new ≡ D.moments disk.old }
        ensures cause { HasStoreCause (D.faults disk.old) (D.faults disk.new) result }
    {
        let file = PIECES + partition;
        let Some(body) = body_at(disk, &self.logs[partition as usize], place)? else {
            return Err(StoreFault::NotAStore { file, place });
        };
        match piece_in(self.alloc, self.home(partition), moment, body.as_slice())? {
            Some(piece) => Ok(piece),
            None => Err(StoreFault::NotAStore { file, place }),
        }
    }

    /// The letters that were on the way to a partition, as they stand at a place.
    pub(crate) fn letters_at<D: Disk>(
        &self,
        disk: &mut D,
        partition: u32,
        place: u64,
    ) -> Result<List<Letter>, StoreFault>
        requires partition { partition < self.now.shape.partitions }
        requires usable { IsFalse self.now.spent }
        requires is_open { WhereTold (D.moments disk.old) (λ now. (files : Files) × AreOpen files now 2 self.now.logs.items) }
        ensures letters { IfOk result (λ letters. WhereTold (D.moments disk.old) (λ now. (files : Files) → AreOpen files now 2 self.now.logs.items
            → spelled_at (letters_in (home_in self.now.shape partition)) (block_at place (files (2 + partition))) ≡ Some letters)) }
        ensures owned { IfOk result (λ letters. owns_letters (home_in self.now.shape partition) letters ≡ true) }
        ensures refuses { IfErr result (BreaksThere self.now (D.moments disk.old) (2 + partition) place (λ body. is_some (letters_in (home_in self.now.shape partition) body))) }
        ensures same { D.moments disk.new ≡ D.moments disk.old }
        ensures cause { HasStoreCause (D.faults disk.old) (D.faults disk.new) result }
    {
        let file = PIECES + partition;
        let Some(body) = body_at(disk, &self.logs[partition as usize], place)? else {
            return Err(StoreFault::NotAStore { file, place });
        };
        match letters_in(self.alloc, self.home(partition), body.as_slice())? {
            Some(letters) => Ok(letters),
            None => Err(StoreFault::NotAStore { file, place }),
        }
    }

    /// A partition of the folder's.
    fn home(&self, partition: u32) -> Home
        ensures { result ≡ home_in self.now.shape partition }
    {
        Home {
            partitions: self.shape.partitions,
            partition,
        }
    }
}
