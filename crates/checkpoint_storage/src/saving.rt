//! Saving checkpoints.
ghost use Rattle.std.specs.Prelude.{◌≡◌, ◌≤◌, ◌+◌, true, length, max, IfErr, IsFalse, OnOk};
ghost use Rattle.std.specs.List.{list_all};
ghost use Rattle.sf_disk.specs.Moments.{Since, Becomes};
ghost use Rattle.store_faults.specs.Faults.{HasStoreCause, IsNoRefusal};
ghost use Rattle.folder_form.specs.Folders.{takes, with_checkpoint};
ghost use Rattle.snapshot_files.specs.Stores.{newest};
ghost use Rattle.egress_commit.specs.Outlets.{last_epoch};
ghost use Rattle.checkpoint_storage.specs.Folders.{Checkpoints, Completes, IsKnown, IsPart, Leaves, Turns, the_part, with_next};

use crate::CheckpointStorage;
use folder_form::Mark;
use piece_messages::Piece;
use proto_wire::List;
use sf_disk::Disk;
use store_faults::StoreFault;
use typed_values::Letter;

impl CheckpointStorage {
    /// Saves the next checkpoint of a folder of one partition: its piece and the letters that are on the way, then the checkpoint,
    /// and then its egress. A crash at any moment of the call leaves the folder without the checkpoint, with it, or with its egress
    /// committed too. After a fault the storage is spent.
    pub fn save<D: Disk>(
        &mut self,
        disk: &mut D,
        mark: &Mark,
        piece: &Piece,
        letters: &List<Letter>,
    ) -> Result<(), StoreFault>
        requires usable { IsFalse self.old.store.spent }
        requires open { IsFalse self.old.outlet.spent }
        requires one { self.old.store.shape.partitions ≡ 1 }
        requires even { last_epoch self.old.outlet ≡ newest self.old.store }
        requires part { IsPart mark.now piece.now letters.now }
        requires number { mark.now.number ≡ newest self.old.store + 1 }
        requires leg { mark.now.number ≤ mark.now.leg }
        requires taken { length mark.now.taken ≡ self.old.store.shape.splits }
        requires takes { list_all takes mark.now.takes ≡ true }
        requires is_known { IsKnown self.old (D.moments disk.old) }
        ensures meanwhile { Since (D.moments disk.old) (D.moments disk.new) (Leaves self.old (Checkpoints mark.now (the_part piece.now letters.now))) }
        ensures saved { OnOk result (Becomes (D.moments disk.old) (D.moments disk.new) (Turns self.old self.new
            (λ contents epochs. with_checkpoint mark.now (the_part piece.now letters.now) contents)
            (λ contents epochs. with_next (with_checkpoint mark.now (the_part piece.now letters.now) contents) epochs))) }
        ensures newest { OnOk result (newest self.new.store ≡ newest self.old.store + 1) }
        ensures leg { OnOk result (self.new.store.stored_leg ≡ max self.old.store.stored_leg mark.now.leg) }
        ensures even { OnOk result (last_epoch self.new.outlet ≡ newest self.new.store) }
        ensures text { self.new.store.text ≡ self.old.store.text }
        ensures shape { self.new.store.shape ≡ self.old.store.shape }
        ensures usable { OnOk result (IsFalse self.new.store.spent) }
        ensures open { OnOk result (IsFalse self.new.outlet.spent) }
        ensures form { IfErr result IsNoRefusal }
        ensures cause { HasStoreCause (D.faults disk.old) (D.faults disk.new) result }
    {
        self.complete(disk, mark, piece, letters)?;
        self.outlet.commit(disk, mark.number, &piece.egress)?;
        Ok(())
    }

    /// Puts the part of a checkpoint, and completes it.
    fn complete<D: Disk>(
        &mut self,
        disk: &mut D,
        mark: &Mark,
        piece: &Piece,
        letters: &List<Letter>,
    ) -> Result<(), StoreFault>
        requires usable { IsFalse self.old.store.spent }
        requires one { self.old.store.shape.partitions ≡ 1 }
        requires part { IsPart mark.now piece.now letters.now }
        requires number { mark.now.number ≡ newest self.old.store + 1 }
        requires leg { mark.now.number ≤ mark.now.leg }
        requires taken { length mark.now.taken ≡ self.old.store.shape.splits }
        requires takes { list_all takes mark.now.takes ≡ true }
        requires is_known { IsKnown self.old (D.moments disk.old) }
        ensures meanwhile { Since (D.moments disk.old) (D.moments disk.new) (Leaves self.old (Completes mark.now (the_part piece.now letters.now))) }
        ensures completed { OnOk result (Becomes (D.moments disk.old) (D.moments disk.new) (Turns self.old self.new
            (λ contents epochs. with_checkpoint mark.now (the_part piece.now letters.now) contents) (λ contents epochs. epochs))) }
        ensures newest { OnOk result (newest self.new.store ≡ newest self.old.store + 1) }
        ensures leg { OnOk result (self.new.store.stored_leg ≡ max self.old.store.stored_leg mark.now.leg) }
        ensures outlet { self.new.outlet ≡ self.old.outlet }
        ensures text { self.new.store.text ≡ self.old.store.text }
        ensures shape { self.new.store.shape ≡ self.old.store.shape }
        ensures usable { OnOk result (IsFalse self.new.store.spent) }
        ensures form { IfErr result IsNoRefusal }
        ensures cause { HasStoreCause (D.faults disk.old) (D.faults disk.new) result }
    {
        self.store.put_piece(disk, piece)?;
        self.store.put_feedback(disk, 0, letters)?;
        self.store.complete(disk, mark)?;
        Ok(())
    }
}
