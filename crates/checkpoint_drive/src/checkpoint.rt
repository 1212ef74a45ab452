//! The checkpoint of what a run has done.
ghost use Rattle.std.specs.Prelude.{◌≡◌, ◌<◌, ◌+◌, ◌^◌, [], IfOk, OnOk, IsFalse, true};
ghost use Rattle.std.specs.List.{list_all};
ghost use Rattle.folder_form.specs.Folders.{takes};
ghost use Rattle.store_faults.specs.Faults.{HasStoreCause};
ghost use Rattle.snapshot_files.specs.Stores.{newest};
ghost use Rattle.egress_commit.specs.Outlets.{last_epoch};
ghost use Rattle.statefun_driver.specs.Origins.{IsHeld};
ghost use Rattle.statefun_driver.specs.Turns.{origin_of, rested};
ghost use Rattle.statefun_driver.specs.Work.{here, plan_of, splits_of};
ghost use Rattle.checkpoint_storage.specs.Folders.{IsKnown, IsPart};
ghost use Rattle.checkpoint_drive.specs.Begins.{shape_of};
ghost use Rattle.checkpoint_drive.specs.Drives.{IsCheckpointOf};
ghost use Rattle.checkpoint_drive.specs.OneLeg.{Saves, AreBeside};

use crate::run::Run;
use folder_form::Mark;
use piece_messages::Piece;
use proto_wire::{List, Mem};
use sf_disk::Disk;
use std::alloc::Global;
use store_faults::StoreFault;

/// A checkpoint that is to be saved.
#[derive(Drop)]
pub(crate) struct Prepared {
    pub(crate) mark: Mark,
    pub(crate) piece: Piece,
}

impl Run {
    /// Saves a checkpoint of what was done. Turns then begin anew behind those that were made.
    pub(crate) fn save_checkpoint<D: Disk>(&mut self, disk: &mut D) -> Result<(), StoreFault>
        requires shape { self.old.storage.store.shape ≡ shape_of self.old.job.routes }
        requires counted { splits_of self.old.progress ≡ self.old.job.splits }
        requires usable { IsFalse self.old.storage.store.spent }
        requires open { IsFalse self.old.storage.outlet.spent }
        requires even { last_epoch self.old.storage.outlet ≡ newest self.old.storage.store }
        requires numbered { newest self.old.storage.store < (here self.old.progress).turn }
        requires held { IsHeld (here self.old.progress).work (here self.old.progress).moment }
        requires is_known { IsKnown self.old.storage (D.moments disk.old) }
        ensures saves { Saves self.old self.new (D.moments disk.old) (D.moments disk.new) result }
        ensures here { OnOk result (here self.new.progress ≡ rested (origin_of (here self.old.progress))) }
        ensures counted { splits_of self.new.progress ≡ splits_of self.old.progress }
        ensures newest { OnOk result (newest self.new.storage.store ≡ newest self.old.storage.store + 1) }
        ensures even { OnOk result (last_epoch self.new.storage.outlet ≡ newest self.new.storage.store) }
        ensures shape { self.new.storage.store.shape ≡ self.old.storage.store.shape }
        ensures text { self.new.storage.store.text ≡ self.old.storage.store.text }
        ensures usable { OnOk result (IsFalse self.new.storage.store.spent) }
        ensures open { OnOk result (IsFalse self.new.storage.outlet.spent) }
        ensures beside { AreBeside self.old self.new }
        ensures cause { HasStoreCause (D.faults disk.old) (D.faults disk.new) result }
    {
        let prepared = self.prepare()?;
        let none = List::new(self.alloc);
        self.storage
            .save(disk, &prepared.mark, &prepared.piece, &none)?;
        Ok(())
    }

    /// Takes out what was recorded since the last checkpoint, with a copy of what is left to do.
    fn prepare(&mut self) -> Mem<Prepared>
        requires shape { self.old.storage.store.shape ≡ shape_of self.old.job.routes }
        requires counted { splits_of self.old.progress ≡ self.old.job.splits }
        requires numbered { newest self.old.storage.store < (here self.old.progress).turn }
        requires held { IsHeld (here self.old.progress).work (here self.old.progress).moment }
        ensures checkpoint { IfOk result (λ made. IsCheckpointOf (plan_of self.old.job) (newest self.old.storage.store) (here self.old.progress) made.mark made.piece) }
        ensures part { IfOk result (λ made. IsPart made.mark made.piece []) }
        ensures takes { IfOk result (λ made. list_all takes made.mark.takes ≡ true) }
        ensures here { OnOk result (here self.new.progress ≡ rested (origin_of (here self.old.progress))) }
        ensures counted { splits_of self.new.progress ≡ splits_of self.old.progress }
        ensures others { self.new ≡ record self.old { progress = self.new.progress } }
    {
        let leg = self.progress.turn();
        let number = self.storage.newest() + 1;
        let kept = self.progress.partition().keep()?;
        let taken = copied(self.alloc, self.progress.counts())?;
        let moment = self.progress.moment();
        let cut = self.progress.cut(self.alloc)?;
        let mark = Mark {
            number,
            leg,
            moment,
            taken,
            takes: cut.takes,
        };
        let piece = Piece {
            partition: 0,
            entries: cut.others,
            egress: cut.egress,
            letters: kept.letters,
            states: kept.states,
            delays: kept.delays,
        };
        Ok(Prepared { mark, piece })
    }
}

/// A copy of numbers.
fn copied(alloc: Global, numbers: &[u64]) -> Mem<List<u64>>
    ensures { IfOk result (λ copy. copy ≡ numbers.now) }
{
    Ok(List::of(numbers.to_vec(alloc)?))
}
