//! Putting a partition's part of a checkpoint.
ghost use Rattle.std.specs.Prelude.{◌≡◌, ◌≢◌, ◌↔◌, ◌<◌, ℕ, true, IsTrue, IsFalse, IsErr, IfOk, IfErr, OnOk};
ghost use Rattle.piece_messages.specs.declared.piece.Piece.{Piece};
ghost use Rattle.sf_disk.specs.Moments.{Since, Becomes, WhereTold};
ghost use Rattle.store_faults.specs.Faults.{HasStoreCause, IsNoRefusal};
ghost use Rattle.folder_form.specs.Pieces.{latest_in, owns_letters, owns_piece};
ghost use Rattle.folder_form.specs.Folders.{Contents, Files, file_of};
ghost use Rattle.snapshot_files.specs.Stores.{AreOpen, IsStore, Pending, home_in};
ghost use Rattle.snapshot_files.specs.Logs.{AreUsable};
ghost use Rattle.snapshot_files.specs.Usable.{has_letters, has_piece, latest_put};
ghost use Rattle.snapshot_files.specs.Changes.{Grown, Grows, IsBeside, IsUnchanged, Keeps, PutLetters, PutPiece};

use crate::Store;
use crate::store::PIECES;
use folder_form::latest_in;
use piece_messages::{Feedback, Piece, encode_feedback, encode_piece};
use proto_wire::{List, TryClone};
use sf_disk::Disk;
use store_faults::{StoreFault, in_file};
use typed_values::Letter;

impl Store {
    /// Puts the piece of a partition for the next checkpoint; of two the later counts. A crash at any moment of the call
    /// leaves what the folder stood for. After a fault the store is spent.
    pub fn put_piece<D: Disk>(&mut self, disk: &mut D, piece: &Piece) -> Result<(), StoreFault>
        requires usable { IsFalse self.old.spent }
        requires partition { piece.now.partition < self.old.shape.partitions }
        requires owned { owns_piece (home_in self.old.shape piece.now.partition) piece.now ≡ true }
        requires is_open { WhereTold (D.moments disk.old) (λ now. (contents : Contents) × (pending : (ℕ → Pending)) × IsStore self.old contents pending now) }
        ensures meanwhile { Since (D.moments disk.old) (D.moments disk.new) (Keeps (file_of piece.now.partition) self.old) }
        ensures put { OnOk result (Becomes (D.moments disk.old) (D.moments disk.new) (PutPiece self.old self.new piece.now)) }
        ensures has_piece { OnOk result (has_piece self.new piece.now.partition ≡ true) }
        ensures latest { OnOk result (latest_put self.new piece.now.partition ≡ latest_in piece.now) }
        ensures letters { has_letters self.new piece.now.partition ≡ has_letters self.old piece.now.partition }
        ensures others { IsUnchanged piece.now.partition self.old self.new }
        ensures spent { IsErr result ↔ IsTrue self.new.spent }
        ensures form { IfErr result IsNoRefusal }
        ensures cause { HasStoreCause (D.faults disk.old) (D.faults disk.new) result }
    {
        self.spent = true;
        let body = encode_piece(self.alloc, piece)?;
        let place = self.append(disk, piece.partition, body.as_slice())?;
        let slot = &mut self.slots[piece.partition as usize];
        slot.piece = Some(place);
        slot.latest = latest_in(piece);
        self.spent = false;
        Ok(())
    }

    /// Puts the letters that are on the way to a partition, for the next checkpoint; of two lists the later counts. A
    /// crash at any moment of the call leaves what the folder stood for. After a fault the store is spent.
    pub fn put_feedback<D: Disk>(
        &mut self,
        disk: &mut D,
        partition: u32,
        letters: &List<Letter>,
    ) -> Result<(), StoreFault>
        requires usable { IsFalse self.old.spent }
        requires partition { partition < self.old.shape.partitions }
        requires owned { owns_letters (home_in self.old.shape partition) letters.now ≡ true }
        requires is_open { WhereTold (D.moments disk.old) (λ now. (contents : Contents) × (pending : (ℕ → Pending)) × IsStore self.old contents pending now) }
        ensures meanwhile { Since (D.moments disk.old) (D.moments disk.new) (Keeps (file_of partition) self.old) }
        ensures put { OnOk result (Becomes (D.moments disk.old) (D.moments disk.new) (PutLetters self.old self.new partition letters.now)) }
        ensures has_letters { OnOk result (has_letters self.new partition ≡ true) }
        ensures piece { has_piece self.new partition ≡ has_piece self.old partition }
        ensures latest { latest_put self.new partition ≡ latest_put self.old partition }
        ensures others { IsUnchanged partition self.old self.new }
        ensures spent { IsErr result ↔ IsTrue self.new.spent }
        ensures form { IfErr result IsNoRefusal }
        ensures cause { HasStoreCause (D.faults disk.old) (D.faults disk.new) result }
    {
        self.spent = true;
        let feedback = Feedback {
            letters: letters.try_clone(self.alloc)?,
        };
        let body = encode_feedback(self.alloc, &feedback)?;
        let place = self.append(disk, partition, body.as_slice())?;
        self.slots[partition as usize].letters = Some(place);
        self.spent = false;
        Ok(())
    }

    /// Appends a block to the file of a partition.
    fn append<D: Disk>(
        &mut self,
        disk: &mut D,
        partition: u32,
        body: &[u8],
    ) -> Result<u64, StoreFault>
        requires partition { partition < 16 }
        requires spent { IsTrue self.old.spent }
        requires usable { AreUsable self.old.logs.items }
        requires is_open { WhereTold (D.moments disk.old) (λ now. (files : Files) × AreOpen files now 2 self.old.logs.items) }
        ensures meanwhile { Since (D.moments disk.old) (D.moments disk.new) (Grows (file_of partition) body.now self.old.logs.items) }
        ensures grown { IfOk result (λ place. Becomes (D.moments disk.old) (D.moments disk.new) (Grown (file_of partition) place body.now self.old.logs.items self.new.logs.items)) }
        ensures usable { OnOk result (AreUsable self.new.logs.items) }
        ensures beside { IsBeside self.old self.new }
        ensures slots { self.new.slots ≡ self.old.slots }
        ensures form { IfErr result IsNoRefusal }
        ensures cause { HasStoreCause (D.faults disk.old) (D.faults disk.new) result }
    {
        match self.logs[partition as usize].append(disk, body) {
            Ok(place) => Ok(place),
            Err(fault) => Err(in_file(PIECES + partition, fault)),
        }
    }
}
