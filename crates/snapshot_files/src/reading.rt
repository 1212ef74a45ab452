//! Reading the manifest of a folder.
ghost use Rattle.std.specs.Prelude.{◌≡◌, ◌<◌, ◌≤◌, ◌^◌, [], ◌∷◌, ◌++◌, ℕ, List, Contains, length, max, IfOk, IfErr, IsFalse, OnOk, Some};
ghost use Rattle.sf_disk.specs.Moments.{WhereTold};
ghost use Rattle.store_faults.specs.Faults.{HasStoreCause};
ghost use Rattle.store_faults.specs.declared.fault.StoreFault.TheVariants.{NotAStore};
ghost use Rattle.folder_form.specs.Shapes.{shape_in};
ghost use Rattle.folder_form.specs.Folders.{Files, is_next, parts_from};
ghost use Rattle.snapshot_files.specs.Stores.{AreOpen, newest};
ghost use Rattle.snapshot_files.specs.Steps.{Advances, AreHeld, AreReady, HasParts, IsFolder, IsRead, IsReading, RefusesBlock, RefusesFolder, RefusesParts, checked};

use crate::Store;
use crate::logs::Logs;
use crate::slot::EMPTY;
use crate::store::{MANIFEST, PARTITIONS};
use folder_form::{is_next, manifest_in, shape_in};
use folder_messages::{Complete, Manifest};
use proto_wire::{List, Text};
use sf_disk::Disk;
use std::alloc::Global;
use store_faults::{StoreFault, in_file};

impl Store {
    /// Reads the blocks of a manifest behind its job.
    pub(crate) fn read<D: Disk>(
        alloc: Global,
        disk: &mut D,
        logs: Logs,
        text: Text,
    ) -> Result<Store, StoreFault>
        requires ready { AreReady logs.manifest logs.pieces.items }
        requires is_open { WhereTold (D.moments disk.old) (λ now. (files : Files) × IsFolder logs.manifest logs.pieces.items text files now) }
        ensures read { IfOk result (IsRead logs.manifest logs.pieces.items text (D.moments disk.old)) }
        ensures text { IfOk result (λ store. store.text ≡ text) }
        ensures shape { IfOk result (λ store. shape_in text ≡ Some store.shape) }
        ensures spent { IfOk result (λ store. IsFalse store.spent) }
        ensures refuses { IfErr result (RefusesFolder logs.manifest logs.pieces.items text (D.moments disk.old)) }
        ensures same { D.moments disk.new ≡ D.moments disk.old }
        ensures cause { HasStoreCause (D.faults disk.old) (D.faults disk.new) result }
    {
        let Some(shape) = shape_in(&text) else {
            return Err(broken(MANIFEST, 0));
        };
        let mut store = Store {
            manifest: logs.manifest,
            logs: logs.pieces,
            slots: vec![in alloc; EMPTY; PARTITIONS as usize]?,
            text,
            shape,
            completes: List::new(alloc),
            stored_leg: 0,
            spent: false,
            alloc,
        };
        for number in 1..store.manifest.blocks().len() {
            let place = store.manifest.blocks().as_slice()[number];
            store.read_next(disk, place)?;
        }
        Ok(store)
    }

    /// Goes on over one block of the manifest.
    fn read_next<D: Disk>(&mut self, disk: &mut D, place: u64) -> Result<(), StoreFault>
        requires usable { IsFalse self.old.spent }
        requires block { Contains self.old.manifest.blocks place }
        requires is_open { WhereTold (D.moments disk.old) (λ now. (files : Files) × AreHeld self.old.manifest self.old.logs.items files now) }
        ensures next { OnOk result (Advances self.old self.new place (D.moments disk.old)) }
        ensures others { IsReading self.old self.new }
        ensures refuses { IfErr result (RefusesBlock self.old place (D.moments disk.old)) }
        ensures same { D.moments disk.new ≡ D.moments disk.old }
        ensures cause { HasStoreCause (D.faults disk.old) (D.faults disk.new) result }
    {
        let body = match self.manifest.read_block(disk, place) {
            Ok(body) => body,
            Err(fault) => return Err(in_file(MANIFEST, fault)),
        };
        match manifest_in(self.alloc, body.as_slice())? {
            Some(Manifest::Opening(opening)) => {
                self.stored_leg = self.stored_leg.max(opening.leg);
                Ok(())
            }
            Some(Manifest::Complete(complete)) => self.read_complete(disk, place, &complete),
            Some(Manifest::Job(_job)) => Err(broken(MANIFEST, place)),
            None => Err(broken(MANIFEST, place)),
        }
    }

    /// Goes on over the block of a checkpoint.
    fn read_complete<D: Disk>(
        &mut self,
        disk: &mut D,
        place: u64,
        complete: &Complete,
    ) -> Result<(), StoreFault>
        requires usable { IsFalse self.old.spent }
        requires is_open { WhereTold (D.moments disk.old) (λ now. (files : Files) × AreOpen files now 2 self.old.logs.items) }
        ensures parts { OnOk result (HasParts self.old (D.moments disk.old) (λ files. checked self.old.shape files place (newest self.old) complete.now)) }
        ensures completes { OnOk result (self.new.completes ≡ self.old.completes ++ place ∷ []) }
        ensures leg { OnOk result (self.new.stored_leg ≡ max self.old.stored_leg complete.now.leg) }
        ensures others { IsReading self.old self.new }
        ensures refuses { IfErr result (RefusesParts self.old (D.moments disk.old) (λ files. checked self.old.shape files place (newest self.old) complete.now)) }
        ensures same { D.moments disk.new ≡ D.moments disk.old }
        ensures cause { HasStoreCause (D.faults disk.old) (D.faults disk.new) result }
    {
        if !is_next(self.shape, self.newest(), complete) {
            return Err(broken(MANIFEST, place));
        }
        self.check_parts(disk, complete)?;
        self.stored_leg = self.stored_leg.max(complete.leg);
        self.completes.push(place)?;
        Ok(())
    }

    /// Reads the parts of a checkpoint, up to the first that may not stand there.
    fn check_parts<D: Disk>(&self, disk: &mut D, complete: &Complete) -> Result<(), StoreFault>
        requires usable { IsFalse self.now.spent }
        requires len { length complete.now.places ≡ self.now.shape.partitions }
        requires is_open { WhereTold (D.moments disk.old) (λ now. (files : Files) × AreOpen files now 2 self.now.logs.items) }
        ensures parts { OnOk result (HasParts self.now (D.moments disk.old) (λ files. parts_from self.now.shape.partitions 0 files complete.now.moment complete.now.places)) }
        ensures refuses { IfErr result (RefusesParts self.now (D.moments disk.old) (λ files. parts_from self.now.shape.partitions 0 files complete.now.moment complete.now.places)) }
        ensures same { D.moments disk.new ≡ D.moments disk.old }
        ensures cause { HasStoreCause (D.faults disk.old) (D.faults disk.new) result }
    {
        let mut partition = 0;
        for place in complete.places.as_slice() {
            let _piece = self.piece_at(disk, partition, complete.moment, place.piece)?;
            let _letters = self.letters_at(disk, partition, place.feedback)?;
            partition += 1;
        }
        Ok(())
    }
}

/// A block breaks the form.
fn broken(file: u32, place: u64) -> StoreFault
    ensures { result ≡ NotAStore file place }
{
    StoreFault::NotAStore { file, place }
}
