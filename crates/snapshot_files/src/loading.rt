//! Reading checkpoints.
ghost use Rattle.std.specs.Prelude.{◌≡◌, ◌≤◌, ◌-◌, ◌++◌, ℕ, length, map, List, IfOk, IfErr, IsFalse, OnOk, Some, slice_get};
ghost use Rattle.std.specs.Option.{option_map};
ghost use Rattle.std.specs.List.{flat_map};
ghost use Rattle.sf_disk.specs.Moments.{WhereTold};
ghost use Rattle.block_log.specs.Logs.{IsOpen};
ghost use Rattle.store_faults.specs.Faults.{HasStoreCause};
ghost use Rattle.folder_form.specs.Folders.{Contents, Files, Part, count_of, egress_in, egress_of, entries_of, feedback_of, loaded_of, nothing_loaded, pieces_of, record_of};
ghost use Rattle.snapshot_files.specs.Stores.{IsStore, Pending, newest};
ghost use Rattle.snapshot_files.specs.Reading.{Fits, FitsShape, HasComplete, HasPartsAt, IsUntold, RefusesComplete};

use crate::Store;
use crate::parts::body_at;
use crate::store::MANIFEST;
use folder_form::{Loaded, manifest_in};
use folder_messages::{Complete, Manifest, Place, Taken};
use piece_messages::Piece;
use proto_wire::{List, Mem};
use run_record::{Entry, merge};
use sf_disk::Disk;
use std::alloc::Global;
use store_faults::StoreFault;
use typed_values::{EgressRecord, Letter};

/// The parts of a checkpoint, by partition.
#[derive(Drop)]
struct Parts {
    pieces: List<Piece>,
    feedback: List<List<Letter>>,
}

/// How many records of each split were taken.
fn counts(alloc: Global, taken: &[Taken]) -> Mem<List<u64>>
    ensures { IfOk result (λ counts. counts ≡ map count_of taken.now) }
{
    let mut counts = List::new(alloc);
    for split in taken {
        counts.push(split.count)?;
    }
    Ok(counts)
}

impl Store {
    /// The newest checkpoint, or the empty one. Reads its block and its parts alone. `NotAStore` comes only from a disk that
    /// does not tell what it holds.
    pub fn load<D: Disk>(&self, disk: &mut D) -> Result<Loaded, StoreFault>
        requires usable { IsFalse self.now.spent }
        requires is_open { WhereTold (D.moments disk.old) (λ now. (contents : Contents) × (pending : (ℕ → Pending)) × IsStore self.now contents pending now) }
        ensures loaded { IfOk result (λ loaded. WhereTold (D.moments disk.old) (λ now. (contents : Contents) (pending : (ℕ → Pending)) → IsStore self.now contents pending now → loaded ≡ loaded_of contents)) }
        ensures fits { IfOk result (FitsShape self.now.shape) }
        ensures refuses { IfErr result (IsUntold (D.moments disk.old)) }
        ensures same { D.moments disk.new ≡ D.moments disk.old }
        ensures cause { HasStoreCause (D.faults disk.old) (D.faults disk.new) result }
    {
        let newest = self.completes.as_slice().len();
        if newest == 0 {
            return Ok(self.nothing());
        }
        let place = self.completes.as_slice()[newest - 1];
        let complete = self.complete_at(disk, place)?;
        let parts = self.read_parts(disk, complete.moment, complete.places.as_slice())?;
        let taken = counts(self.alloc, complete.taken.as_slice())?;
        Ok(Loaded {
            number: complete.number,
            leg: complete.leg,
            moment: complete.moment,
            taken,
            pieces: parts.pieces,
            feedback: parts.feedback,
        })
    }

    /// The entries of all checkpoints, in order of their keys.
    pub fn read_entries<D: Disk>(&self, disk: &mut D) -> Result<List<Entry>, StoreFault>
        requires usable { IsFalse self.now.spent }
        requires is_open { WhereTold (D.moments disk.old) (λ now. (contents : Contents) × (pending : (ℕ → Pending)) × IsStore self.now contents pending now) }
        ensures entries { IfOk result (λ entries. WhereTold (D.moments disk.old) (λ now. (contents : Contents) (pending : (ℕ → Pending)) → IsStore self.now contents pending now → entries ≡ record_of contents)) }
        ensures refuses { IfErr result (IsUntold (D.moments disk.old)) }
        ensures same { D.moments disk.new ≡ D.moments disk.old }
        ensures cause { HasStoreCause (D.faults disk.old) (D.faults disk.new) result }
    {
        let mut lists = List::new(self.alloc);
        for place in self.completes.as_slice() {
            let complete = self.complete_at(disk, *place)?;
            lists.push(complete.takes)?;
            self.add_entries(
                disk,
                complete.moment,
                complete.places.as_slice(),
                &mut lists,
            )?;
        }
        let entries = merge(self.alloc, lists)?;
        Ok(entries)
    }

    /// What the pieces of a checkpoint gave to egress, by partition.
    pub fn read_egress<D: Disk>(
        &self,
        disk: &mut D,
        number: u64,
    ) -> Result<List<EgressRecord>, StoreFault>
        requires first { 1 ≤ number }
        requires last { number ≤ newest self.now }
        requires usable { IsFalse self.now.spent }
        requires is_open { WhereTold (D.moments disk.old) (λ now. (contents : Contents) × (pending : (ℕ → Pending)) × IsStore self.now contents pending now) }
        ensures egress { IfOk result (λ given. WhereTold (D.moments disk.old) (λ now. (contents : Contents) (pending : (ℕ → Pending)) → IsStore self.now contents pending now
            → option_map egress_in (slice_get contents.checkpoints (number - 1)) ≡ Some given)) }
        ensures refuses { IfErr result (IsUntold (D.moments disk.old)) }
        ensures same { D.moments disk.new ≡ D.moments disk.old }
        ensures cause { HasStoreCause (D.faults disk.old) (D.faults disk.new) result }
    {
        let place = self.completes.as_slice()[number as usize - 1];
        let complete = self.complete_at(disk, place)?;
        self.egress_at(disk, complete.moment, complete.places.as_slice())
    }

    /// The empty checkpoint.
    fn nothing(&self) -> Loaded
        ensures { result ≡ nothing_loaded }
    {
        Loaded {
            number: 0,
            leg: 0,
            moment: 0,
            taken: List::new(self.alloc),
            pieces: List::new(self.alloc),
            feedback: List::new(self.alloc),
        }
    }

    /// The block of a checkpoint, which has a place for each partition.
    fn complete_at<D: Disk>(&self, disk: &mut D, place: u64) -> Result<Complete, StoreFault>
        requires usable { IsFalse self.now.spent }
        requires is_open { WhereTold (D.moments disk.old) (λ now. (files : Files) × IsOpen self.now.manifest (files 0) (now 0)) }
        ensures complete { IfOk result (λ complete. WhereTold (D.moments disk.old) (λ now. (files : Files) → IsOpen self.now.manifest (files 0) (now 0) → HasComplete files place complete)) }
        ensures len { IfOk result (λ complete. length complete.places ≡ self.now.shape.partitions) }
        ensures refuses { IfErr result (RefusesComplete self.now place (D.moments disk.old)) }
        ensures same { D.moments disk.new ≡ D.moments disk.old }
        ensures cause { HasStoreCause (D.faults disk.old) (D.faults disk.new) result }
    {
        let Some(body) = body_at(disk, &self.manifest, place)? else {
            return Err(StoreFault::NotAStore {
                file: MANIFEST,
                place,
            });
        };
        match manifest_in(self.alloc, body.as_slice())? {
            Some(Manifest::Complete(complete)) => {
                if complete.places.len() as u64 == self.shape.partitions as u64 {
                    Ok(complete)
                } else {
                    Err(StoreFault::NotAStore {
                        file: MANIFEST,
                        place,
                    })
                }
            }
            Some(Manifest::Job(_job)) => Err(StoreFault::NotAStore {
                file: MANIFEST,
                place,
            }),
            Some(Manifest::Opening(_opening)) => Err(StoreFault::NotAStore {
                file: MANIFEST,
                place,
            }),
            None => Err(StoreFault::NotAStore {
                file: MANIFEST,
                place,
            }),
        }
    }

    /// Reads the parts of a checkpoint.
    fn read_parts<D: Disk>(
        &self,
        disk: &mut D,
        moment: u64,
        places: &[Place],
    ) -> Result<Parts, StoreFault>
        requires usable { IsFalse self.now.spent }
        requires len { length places.now ≡ self.now.shape.partitions }
        requires is_open { WhereTold (D.moments disk.old) (λ now. (files : Files) × (parts : List Part) × HasPartsAt self.now moment places.now now files parts) }
        ensures pieces { IfOk result (λ read. WhereTold (D.moments disk.old) (λ now. (files : Files) (parts : List Part) → HasPartsAt self.now moment places.now now files parts → read.pieces ≡ pieces_of parts)) }
        ensures feedback { IfOk result (λ read. WhereTold (D.moments disk.old) (λ now. (files : Files) (parts : List Part) → HasPartsAt self.now moment places.now now files parts → read.feedback ≡ feedback_of parts)) }
        ensures fits { IfOk result (λ read. Fits self.now.shape moment read.pieces read.feedback) }
        ensures refuses { IfErr result (IsUntold (D.moments disk.old)) }
        ensures same { D.moments disk.new ≡ D.moments disk.old }
        ensures cause { HasStoreCause (D.faults disk.old) (D.faults disk.new) result }
    {
        let mut pieces = List::new(self.alloc);
        let mut feedback = List::new(self.alloc);
        let mut partition = 0;
        for place in places {
            let piece = self.piece_at(disk, partition, moment, place.piece)?;
            let letters = self.letters_at(disk, partition, place.feedback)?;
            pieces.push(piece)?;
            feedback.push(letters)?;
            partition += 1;
        }
        Ok(Parts { pieces, feedback })
    }

    /// What the pieces at these places gave to egress, by partition.
    fn egress_at<D: Disk>(
        &self,
        disk: &mut D,
        moment: u64,
        places: &[Place],
    ) -> Result<List<EgressRecord>, StoreFault>
        requires usable { IsFalse self.now.spent }
        requires len { length places.now ≡ self.now.shape.partitions }
        requires is_open { WhereTold (D.moments disk.old) (λ now. (files : Files) × (parts : List Part) × HasPartsAt self.now moment places.now now files parts) }
        ensures egress { IfOk result (λ given. WhereTold (D.moments disk.old) (λ now. (files : Files) (parts : List Part) → HasPartsAt self.now moment places.now now files parts → given ≡ flat_map egress_of (pieces_of parts))) }
        ensures refuses { IfErr result (IsUntold (D.moments disk.old)) }
        ensures same { D.moments disk.new ≡ D.moments disk.old }
        ensures cause { HasStoreCause (D.faults disk.old) (D.faults disk.new) result }
    {
        let mut given = Vec::new(self.alloc);
        let mut partition = 0;
        for place in places {
            let piece = self.piece_at(disk, partition, moment, place.piece)?;
            let mut egress = piece.egress.into_vec();
            given.append(&mut egress)?;
            partition += 1;
        }
        Ok(List::of(given))
    }

    /// Adds the entries of the pieces at these places, a list for each partition.
    fn add_entries<D: Disk>(
        &self,
        disk: &mut D,
        moment: u64,
        places: &[Place],
        lists: &mut List<List<Entry>>,
    ) -> Result<(), StoreFault>
        requires usable { IsFalse self.now.spent }
        requires len { length places.now ≡ self.now.shape.partitions }
        requires is_open { WhereTold (D.moments disk.old) (λ now. (files : Files) × (parts : List Part) × HasPartsAt self.now moment places.now now files parts) }
        ensures added { OnOk result (WhereTold (D.moments disk.old) (λ now. (files : Files) (parts : List Part) → HasPartsAt self.now moment places.now now files parts → lists.new ≡ lists.old ++ map entries_of (pieces_of parts))) }
        ensures refuses { IfErr result (IsUntold (D.moments disk.old)) }
        ensures same { D.moments disk.new ≡ D.moments disk.old }
        ensures cause { HasStoreCause (D.faults disk.old) (D.faults disk.new) result }
    {
        let mut partition = 0;
        for place in places {
            let piece = self.piece_at(disk, partition, moment, place.piece)?;
            lists.push(piece.entries)?;
            partition += 1;
        }
        Ok(())
    }
}
