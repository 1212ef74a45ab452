//! Beginning runs, and completing checkpoints.
ghost use Rattle.std.specs.Prelude.{◌≡◌, ◌↔◌, ◌+◌, ◌≤◌, ◌<◌, ℕ, length, max, true, false, List, IsTrue, IsFalse, IsErr, IfOk, IfErr, OnOk};
ghost use Rattle.std.specs.List.{list_all};
ghost use Rattle.sf_disk.specs.Moments.{Since, Becomes, WhereTold};
ghost use Rattle.block_log.specs.Blocks.{Body};
ghost use Rattle.block_log.specs.Logs.{IsOpen};
ghost use Rattle.store_faults.specs.Faults.{HasStoreCause, IsNoRefusal};
ghost use Rattle.folder_form.specs.Folders.{Contents, mark_of, takes};
ghost use Rattle.snapshot_files.specs.Stores.{IsStore, Pending, newest};
ghost use Rattle.snapshot_files.specs.Usable.{AreAllPut, has_letters, has_piece};
ghost use Rattle.snapshot_files.specs.Changes.{Began, Completed, Said, Says, Writes, completed_by, opened_run, places_put};

use crate::Store;
use crate::slot::EMPTY;
use crate::store::MANIFEST;
use folder_form::Mark;
use folder_messages::{Complete, Manifest, Opening, Place, Taken, encode_manifest};
use proto_wire::{List, Mem, TryClone};
use sf_disk::Disk;
use store_faults::{StoreFault, in_file};

impl Store {
    /// Begins a run whose legs go up to a limit, which is not below the stored leg. A crash at any moment of the call
    /// leaves the folder with this run or without. After a fault the store is spent.
    pub fn begin_run<D: Disk>(&mut self, disk: &mut D, leg_limit: u64) -> Result<(), StoreFault>
        requires usable { IsFalse self.old.spent }
        requires limit { self.old.stored_leg ≤ leg_limit }
        requires is_open { WhereTold (D.moments disk.old) (λ now. (contents : Contents) × (pending : (ℕ → Pending)) × IsStore self.old contents pending now) }
        ensures meanwhile { Since (D.moments disk.old) (D.moments disk.new) (Writes self.old (opened_run leg_limit)) }
        ensures began { OnOk result (Becomes (D.moments disk.old) (D.moments disk.new) (Began self.old self.new leg_limit)) }
        ensures leg { OnOk result (self.new.stored_leg ≡ leg_limit) }
        ensures newest { newest self.new ≡ newest self.old }
        ensures text { self.new.text ≡ self.old.text }
        ensures shape { self.new.shape ≡ self.old.shape }
        ensures slots { self.new.slots ≡ self.old.slots }
        ensures spent { IsErr result ↔ IsTrue self.new.spent }
        ensures form { IfErr result IsNoRefusal }
        ensures cause { HasStoreCause (D.faults disk.old) (D.faults disk.new) result }
    {
        self.spent = true;
        let opening = Manifest::Opening(Opening { leg: leg_limit });
        self.write(disk, &opening)?;
        self.stored_leg = leg_limit;
        self.spent = false;
        Ok(())
    }

    /// Completes the next checkpoint with the parts that were put. A crash at any moment of the call leaves the
    /// checkpoints before, with this one and all its parts or without. After a fault the store is spent.
    pub fn complete<D: Disk>(&mut self, disk: &mut D, mark: &Mark) -> Result<(), StoreFault>
        requires usable { IsFalse self.old.spent }
        requires put { AreAllPut self.old mark.now.moment }
        requires number { mark.now.number ≡ newest self.old + 1 }
        requires leg { mark.now.number ≤ mark.now.leg }
        requires taken { length mark.now.taken ≡ self.old.shape.splits }
        requires takes { list_all takes mark.now.takes ≡ true }
        requires is_open { WhereTold (D.moments disk.old) (λ now. (contents : Contents) × (pending : (ℕ → Pending)) × IsStore self.old contents pending now) }
        ensures meanwhile { Since (D.moments disk.old) (D.moments disk.new) (Writes self.old (completed_by self.old mark.now)) }
        ensures completed { OnOk result (Becomes (D.moments disk.old) (D.moments disk.new) (Completed self.old self.new mark.now)) }
        ensures newest { OnOk result (newest self.new ≡ newest self.old + 1) }
        ensures stored { OnOk result (self.new.stored_leg ≡ max self.old.stored_leg mark.now.leg) }
        ensures pieces { OnOk result ((partition : ℕ) → has_piece self.new partition ≡ false) }
        ensures letters { OnOk result ((partition : ℕ) → has_letters self.new partition ≡ false) }
        ensures text { self.new.text ≡ self.old.text }
        ensures shape { self.new.shape ≡ self.old.shape }
        ensures spent { IsErr result ↔ IsTrue self.new.spent }
        ensures form { IfErr result IsNoRefusal }
        ensures cause { HasStoreCause (D.faults disk.old) (D.faults disk.new) result }
    {
        self.spent = true;
        let complete = Manifest::Complete(self.complete_of(mark)?);
        let place = self.write(disk, &complete)?;
        self.stored_leg = self.stored_leg.max(mark.leg);
        self.completes.push(place)?;
        self.slots.fill(EMPTY);
        self.spent = false;
        Ok(())
    }

    /// The block of a checkpoint, with the places of what was put.
    fn complete_of(&self, mark: &Mark) -> Mem<Complete>
        ensures mark { IfOk result (λ complete. mark_of complete ≡ mark.now) }
        ensures places { IfOk result (λ complete. complete.places ≡ places_put self.now) }
    {
        let mut taken = List::new(self.alloc);
        for count in mark.taken.as_slice() {
            taken.push(Taken { count: *count })?;
        }
        Ok(Complete {
            number: mark.number,
            leg: mark.leg,
            moment: mark.moment,
            taken,
            takes: mark.takes.try_clone(self.alloc)?,
            places: self.places()?,
        })
    }

    /// Where what was put stands, by partition.
    fn places(&self) -> Mem<List<Place>>
        ensures { IfOk result (λ places. places ≡ places_put self.now) }
    {
        let mut places = List::new(self.alloc);
        for slot in &self.slots.as_slice()[..self.shape.partitions as usize] {
            places.push(Place {
                piece: slot.piece.unwrap_or(0),
                feedback: slot.letters.unwrap_or(0),
            })?;
        }
        Ok(places)
    }

    /// Appends a block to the manifest.
    fn write<D: Disk>(&mut self, disk: &mut D, said: &Manifest) -> Result<u64, StoreFault>
        requires spent { IsTrue self.old.spent }
        requires usable { IsFalse self.old.manifest.spent }
        requires is_open { WhereTold (D.moments disk.old) (λ now. (bodies : List Body) × IsOpen self.old.manifest bodies (now 0)) }
        ensures meanwhile { Since (D.moments disk.old) (D.moments disk.new) (Says said.now self.old.manifest) }
        ensures written { IfOk result (λ place. Becomes (D.moments disk.old) (D.moments disk.new) (Said said.now place self.old.manifest self.new.manifest)) }
        ensures usable { OnOk result (IsFalse self.new.manifest.spent) }
        ensures logs { self.new.logs ≡ self.old.logs }
        ensures slots { self.new.slots ≡ self.old.slots }
        ensures text { self.new.text ≡ self.old.text }
        ensures shape { self.new.shape ≡ self.old.shape }
        ensures completes { self.new.completes ≡ self.old.completes }
        ensures stored_leg { self.new.stored_leg ≡ self.old.stored_leg }
        ensures spent { self.new.spent ≡ self.old.spent }
        ensures form { IfErr result IsNoRefusal }
        ensures cause { HasStoreCause (D.faults disk.old) (D.faults disk.new) result }
    {
        let body = encode_manifest(self.alloc, said)?;
        match self.manifest.append(disk, body.as_slice()) {
            Ok(place) => Ok(place),
            Err(fault) => Err(in_file(MANIFEST, fault)),
        }
    }
}
