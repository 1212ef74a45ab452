//! Opening an egress file.
ghost use Rattle.std.specs.Prelude.{◌≡◌, List, Some, IfOk, IfErr, OnOk, IsFalse};
ghost use Rattle.sf_disk.specs.Images.{Follows};
ghost use Rattle.sf_disk.specs.Moments.{Since, Becomes, InFile, WhereTold};
ghost use Rattle.block_log.specs.Blocks.{Body};
ghost use Rattle.block_log.specs.Logs.{IsOpen};
ghost use Rattle.store_faults.specs.Faults.{HasStoreCause};
ghost use Rattle.egress_commit.specs.Epochs.{Epoch, epochs_from, KeepsEpochs};
ghost use Rattle.egress_commit.specs.Outlets.{IsOpened, RefusesOutlet};
ghost use Rattle.egress_commit.specs.Checking.{RefusesBlocks};

use crate::Outlet;
use crate::outlet::EGRESS;
use crate::reading::epoch_at;
use block_log::{BlockLog, open_log};
use sf_disk::Disk;
use std::alloc::Global;
use store_faults::{StoreFault, in_file};

impl Outlet {
    /// Opens the egress file of a folder. A crash at any moment of the call leaves the epochs that stood. `NotAStore` has
    /// the place at which the file is no log, or of the first block that is not the commit of its own epoch.
    pub fn open_outlet<D: Disk>(alloc: Global, disk: &mut D) -> Result<Outlet, StoreFault>
        ensures meanwhile { Since (D.moments disk.old) (D.moments disk.new) (InFile 1 (Follows KeepsEpochs)) }
        ensures opened { IfOk result (λ outlet. Becomes (D.moments disk.old) (D.moments disk.new) (InFile 1 (IsOpened outlet))) }
        ensures spent { IfOk result (λ outlet. IsFalse outlet.spent) }
        ensures refuses { IfErr result (RefusesOutlet (D.moments disk.old)) }
        ensures cause { HasStoreCause (D.faults disk.old) (D.faults disk.new) result }
    {
        let log = match open_log(alloc, disk, EGRESS) {
            Ok(log) => log,
            Err(fault) => return Err(in_file(EGRESS, fault)),
        };
        check_epochs(alloc, disk, &log)?;
        Ok(Outlet {
            log,
            spent: false,
            alloc,
        })
    }
}

/// Reads each block, up to the first that is not the commit of its own epoch.
fn check_epochs<D: Disk>(alloc: Global, disk: &mut D, log: &BlockLog) -> Result<(), StoreFault>
    requires file { log.now.file ≡ 1 }
    requires usable { IsFalse log.now.spent }
    requires is_open { WhereTold (D.moments disk.old) (λ now. (bodies : List Body) × IsOpen log.now bodies (now 1)) }
    ensures spelled { OnOk result (WhereTold (D.moments disk.old) (λ now. (bodies : List Body) → IsOpen log.now bodies (now 1) → (epochs : List Epoch) × (epochs_from 1 bodies ≡ Some epochs))) }
    ensures refuses { IfErr result (RefusesBlocks log.now (D.moments disk.old)) }
    ensures same { D.moments disk.new ≡ D.moments disk.old }
    ensures cause { HasStoreCause (D.faults disk.old) (D.faults disk.new) result }
{
    let mut number = 0;
    for position in log.blocks().as_slice() {
        number += 1;
        match epoch_at(alloc, disk, log, *position, number)? {
            Some(_records) => {}
            None => {
                return Err(StoreFault::NotAStore {
                    file: EGRESS,
                    place: *position,
                });
            }
        }
    }
    Ok(())
}
