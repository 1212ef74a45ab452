//! An outlet that is open.
ghost use Rattle.std.specs.Prelude.{◌≡◌, ◌↔◌, ◌+◌, ◌-◌, ◌<◌, ◌≤◌, [], ◌∷◌, ◌++◌, List, IsTrue, IsFalse, IsErr, IfOk, IfErr, Ok, Some, true, false, slice_get};
ghost use Rattle.sf_disk.specs.Moments.{Since, Becomes, WhereTold, InFile};
ghost use Rattle.store_faults.specs.Faults.{HasStoreCause, IsNoRefusal, RefusesUntold};

use crate::reading::epoch_at;
use block_log::BlockLog;
use piece_messages::{Commit, encode_commit};
use proto_wire::{List, TryClone};
use sf_disk::Disk;
use std::alloc::Global;
use store_faults::{StoreFault, in_file};
use typed_values::EgressRecord;

/// The number of the egress file.
pub(crate) const EGRESS: u32 = 1;

/// An egress file that is open. It is for one disk alone, and nobody else writes the file.
#[derive(Drop)]
pub struct Outlet {
    pub(crate) log: BlockLog,
    /// A commit has answered a fault.
    pub(crate) spent: bool,
    pub(crate) alloc: Global,
    ghost file: { log.file ≡ 1 },
    ghost ready: { IsFalse spent → IsFalse log.spent },
}

impl Outlet {
    ghost use Rattle.egress_commit.specs.Epochs.{Epoch};
    ghost use Rattle.egress_commit.specs.Outlets.{last_epoch, IsOutlet, Commits, Committed};

    /// The number of the newest epoch that was committed, 0 for none.
    pub fn last_epoch(&self) -> u64
        ensures { result ≡ last_epoch self.now }
    {
        self.log.blocks().len() as u64
    }

    /// Whether a commit has answered a fault. Then the folder is opened again.
    pub fn spent(&self) -> bool
        ensures { result ≡ self.now.spent }
    {
        self.spent
    }

    /// Commits an epoch with these records, unless it was committed before: true where it is a new one. A crash at any
    /// moment of the call leaves the epochs before, with this one or without. After a fault the outlet is spent.
    pub fn commit<D: Disk>(
        &mut self,
        disk: &mut D,
        number: u64,
        items: &List<EgressRecord>,
    ) -> Result<bool, StoreFault>
        requires usable { IsFalse self.old.spent }
        requires next { number ≤ last_epoch self.old + 1 }
        requires is_open { WhereTold (D.moments disk.old) (λ now. (epochs : List Epoch) × IsOutlet self.old epochs (now 1)) }
        ensures meanwhile { Since (D.moments disk.old) (D.moments disk.new) (InFile 1 (Commits self.old number items.now)) }
        ensures committed { result ≡ Ok true → Becomes (D.moments disk.old) (D.moments disk.new) (InFile 1 (Committed self.old self.new items.now)) }
        ensures unchanged { result ≡ Ok false → D.moments disk.new ≡ D.moments disk.old }
        ensures same { result ≡ Ok false → self.new ≡ self.old }
        ensures is_new { IfOk result (λ made. IsTrue made ↔ (last_epoch self.old < number)) }
        ensures counted { result ≡ Ok true → last_epoch self.new ≡ last_epoch self.old + 1 }
        ensures spent { IsErr result ↔ IsTrue self.new.spent }
        ensures form { IfErr result IsNoRefusal }
        ensures cause { HasStoreCause (D.faults disk.old) (D.faults disk.new) result }
    {
        if number <= self.last_epoch() {
            return Ok(false);
        }
        self.spent = true;
        let commit = Commit {
            epoch: number,
            records: items.try_clone(self.alloc)?,
        };
        let body = encode_commit(self.alloc, &commit)?;
        match self.log.append(disk, body.as_slice()) {
            Ok(_position) => {}
            Err(fault) => return Err(in_file(EGRESS, fault)),
        }
        self.spent = false;
        Ok(true)
    }

    /// The records of an epoch that was committed.
    pub fn committed<D: Disk>(
        &self,
        disk: &mut D,
        number: u64,
    ) -> Result<List<EgressRecord>, StoreFault>
        requires usable { IsFalse self.now.spent }
        requires first { 1 ≤ number }
        requires last { number ≤ last_epoch self.now }
        requires is_open { WhereTold (D.moments disk.old) (λ now. (epochs : List Epoch) × IsOutlet self.now epochs (now 1)) }
        ensures records { IfOk result (λ records. WhereTold (D.moments disk.old) (λ now. (epochs : List Epoch) → IsOutlet self.now epochs (now 1) → slice_get epochs (number - 1) ≡ Some records)) }
        ensures refuses { IfErr result (RefusesUntold 1 (D.moments disk.old)) }
        ensures same { D.moments disk.new ≡ D.moments disk.old }
        ensures cause { HasStoreCause (D.faults disk.old) (D.faults disk.new) result }
    {
        let place = number as usize - 1;
        let position = self.log.blocks().as_slice()[place];
        match epoch_at(self.alloc, disk, &self.log, position, number)? {
            Some(records) => Ok(records),
            None => Err(StoreFault::NotAStore {
                file: EGRESS,
                place: position,
            }),
        }
    }
}
