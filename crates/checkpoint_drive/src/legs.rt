//! Legs, one after the other.
ghost use Rattle.std.specs.Prelude.{◌≡◌, ◌<◌, ◌+◌, ◌^◌, ◌&&◌, true, OnOk};
ghost use Rattle.snapshot_files.specs.Stores.{newest};
ghost use Rattle.store_faults.specs.Faults.{HasStoreCause};
ghost use Rattle.statefun_driver.specs.Origins.{IsHeld};
ghost use Rattle.statefun_driver.specs.Runs.{AreModest};
ghost use Rattle.statefun_driver.specs.Work.{here, plan_of, splits_of};
ghost use Rattle.checkpoint_storage.specs.Folders.{IsKnown};
ghost use Rattle.checkpoint_drive.specs.Begins.{IsReady};
ghost use Rattle.checkpoint_drive.specs.Drives.{is_held};
ghost use Rattle.checkpoint_drive.specs.Driven.{HasDiskCause, IsUnderway, MakesLegs};
ghost use Rattle.checkpoint_drive.specs.OneLeg.{Closes, HasLegCause, IsSame, MakesLeg, Turned, counted};

use crate::DriveEnd;
use crate::run::Run;
use sf_disk::Disk;
use statefun_driver::{Outside, what_turns_come_to};
use store_faults::StoreFault;

impl Run {
    ghost use Rattle.statefun_driver.specs.Turns.{Origin};

    /// Makes legs until the run is over, something ends it, or all are made.
    pub(crate) fn make_legs<O: Outside, D: Disk>(
        &mut self,
        outside: &mut O,
        disk: &mut D,
    ) -> DriveEnd
        requires ready { IsReady self.old }
        requires is_known { IsKnown self.old.storage (D.moments disk.old) }
        requires underway { (origin : Origin) × IsUnderway (plan_of self.old.job) origin (here self.old.progress) (O.seen outside.old) }
        ensures legs { (origin : Origin) → MakesLegs self.old self.new origin (O.seen outside.old) (O.seen outside.new) (D.moments disk.old) (D.moments disk.new) result }
        ensures same { IsSame self.old self.new }
        ensures cause { HasDiskCause (D.faults disk.old) (D.faults disk.new) result }
    {
        for _ in self.legs..self.most {
            match self.make_leg(outside, disk) {
                Err(end) => return end,
                Ok(over) => {
                    if over {
                        return DriveEnd::Done {
                            checkpoint: self.storage.newest(),
                        };
                    }
                }
            }
        }
        DriveEnd::TurnsSpent {
            checkpoint: self.storage.newest(),
            legs: self.legs,
        }
    }

    /// Makes a leg: a turn, and behind it the checkpoint that is asked for. `true` where the run is over.
    fn make_leg<O: Outside, D: Disk>(
        &mut self,
        outside: &mut O,
        disk: &mut D,
    ) -> Result<bool, DriveEnd>
        requires ready { IsReady self.old }
        requires more { self.old.legs < self.old.most }
        requires is_known { IsKnown self.old.storage (D.moments disk.old) }
        requires underway { (origin : Origin) × IsUnderway (plan_of self.old.job) origin (here self.old.progress) (O.seen outside.old) }
        ensures leg { (origin : Origin) → MakesLeg self.old self.new origin (O.seen outside.old) (O.seen outside.new) (D.moments disk.old) (D.moments disk.new) result }
        ensures ready { OnOk result (IsReady self.new) }
        ensures counted { OnOk result (self.new.legs ≡ self.old.legs + 1) }
        ensures is_known { OnOk result (IsKnown self.new.storage (D.moments disk.new)) }
        ensures underway { OnOk result ((origin : Origin) × IsUnderway (plan_of self.new.job) origin (here self.new.progress) (O.seen outside.new)) }
        ensures same { IsSame self.old self.new }
        ensures cause { HasLegCause (D.faults disk.old) (D.faults disk.new) result }
    {
        what_turns_come_to();
        let holds = self.legs < self.most;
        prove!(holds);
        let asked = self.is_asked();
        let done = self.turn(outside)?;
        self.close(asked, disk)?;
        let over = self.is_over(done);
        Ok(over)
    }

    /// Whether the run is over behind a leg: it drains, the leg's turn left nothing to do, and all is in a checkpoint.
    fn is_over(&self, done: bool) -> bool
        ensures { result ≡ (self.now.options.drain && done && is_held (newest self.now.storage.store) (here self.now.progress)) }
    {
        self.options.drain && done && self.is_held()
    }

    /// Makes a turn. `true` where no split may have more records, and nothing is left to do.
    fn turn<O: Outside>(&mut self, outside: &mut O) -> Result<bool, DriveEnd>
        requires rests { self.old.job.rests ≡ true }
        requires counted { splits_of self.old.progress ≡ self.old.job.splits }
        requires room { (here self.old.progress).turn + 1 < 2 ^ 64 }
        requires modest { AreModest self.old.job.routes.endpoints }
        ensures turned { Turned (plan_of self.old.job) (here self.old.progress) (O.seen outside.old) result (here self.new.progress) (O.seen outside.new) }
        ensures turn { (here self.new.progress).turn ≡ (here self.old.progress).turn + 1 }
        ensures counted { splits_of self.new.progress ≡ splits_of self.old.progress }
        ensures others { self.new ≡ record self.old { progress = self.new.progress } }
    {
        self.progress.leg(self.alloc, &self.job, outside)?;
        Ok(self.progress.is_done())
    }

    /// Behind a turn: saves a checkpoint where it is asked for, and counts the leg.
    fn close<D: Disk>(&mut self, asked: bool, disk: &mut D) -> Result<(), StoreFault>
        requires ready { IsReady (counted self.old) }
        requires more { self.old.legs < self.old.most }
        requires numbered { newest self.old.storage.store < (here self.old.progress).turn }
        requires held { IsHeld (here self.old.progress).work (here self.old.progress).moment }
        requires is_known { IsKnown self.old.storage (D.moments disk.old) }
        ensures closes { (origin : Origin) → Closes self.old self.new origin asked (D.moments disk.old) (D.moments disk.new) result }
        ensures ready { OnOk result (IsReady self.new) }
        ensures counted { OnOk result (self.new.legs ≡ self.old.legs + 1) }
        ensures is_known { OnOk result (IsKnown self.new.storage (D.moments disk.new)) }
        ensures same { IsSame self.old self.new }
        ensures cause { HasStoreCause (D.faults disk.old) (D.faults disk.new) result }
    {
        if asked {
            return self.close_saving(disk);
        }
        self.count_leg();
        Ok(())
    }

    /// Saves a checkpoint, and counts the leg.
    fn close_saving<D: Disk>(&mut self, disk: &mut D) -> Result<(), StoreFault>
        requires ready { IsReady (counted self.old) }
        requires more { self.old.legs < self.old.most }
        requires numbered { newest self.old.storage.store < (here self.old.progress).turn }
        requires held { IsHeld (here self.old.progress).work (here self.old.progress).moment }
        requires is_known { IsKnown self.old.storage (D.moments disk.old) }
        ensures closes { (origin : Origin) → Closes self.old self.new origin true (D.moments disk.old) (D.moments disk.new) result }
        ensures ready { OnOk result (IsReady self.new) }
        ensures counted { OnOk result (self.new.legs ≡ self.old.legs + 1) }
        ensures is_known { OnOk result (IsKnown self.new.storage (D.moments disk.new)) }
        ensures same { IsSame self.old self.new }
        ensures cause { HasStoreCause (D.faults disk.old) (D.faults disk.new) result }
    {
        self.save_checkpoint(disk)?;
        self.count_leg();
        Ok(())
    }

    /// Counts the leg, and keeps in mind whether it leaves nothing to do that is not in a checkpoint.
    fn count_leg(&mut self)
        requires more { self.old.legs < self.old.most }
        ensures { self.new ≡ counted self.old }
    {
        self.legs += 1;
        let idle = self.progress.partition().is_idle();
        let held = self.is_held();
        self.unheld = self.options.drain && idle && !held;
    }
}
