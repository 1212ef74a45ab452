//! Runs over a folder.
ghost use Rattle.std.specs.Prelude.{◌≡◌, ◌≤◌};
ghost use Rattle.statefun_driver.specs.Runs.{AreModest};
ghost use Rattle.checkpoint_drive.specs.Jobs.{folder_text};
ghost use Rattle.checkpoint_drive.specs.Driven.{HasDiskCause, IsDriven};
ghost use Rattle.checkpoint_drive.specs.Good.{KeepsGood};

use crate::job::folder_text;
use crate::laws::what_a_run_leaves_is_good;
use crate::run::Run;
use crate::{DriveEnd, Options};
use address_routing::Routes;
use sf_disk::Disk;
use statefun_driver::Outside;
use std::alloc::Global;
use store_faults::StoreFault;

/// Runs a job over a folder of checkpoints, from its newest checkpoint on: makes its legs, and saves a checkpoint behind every so
/// many of them. An empty folder gets the job. No endpoint has more than 100 attempts, nor takes requests of more than 8,388,608
/// bytes. Whatever the end, a crash at any moment leaves the folder with all checkpoints up to one of those that the legs completed,
/// each with its committed egress, but for that of the last one perhaps. A folder that was good stays so: no checkpoint, no entry of its
/// record and no committed egress is lost, and where the run is done nothing is left to do.
pub fn drive<O: Outside, D: Disk>(
    alloc: Global,
    routes: Routes,
    options: Options,
    outside: &mut O,
    disk: &mut D,
) -> DriveEnd
    requires every { 1 ≤ options.every }
    requires modest { AreModest routes.endpoints }
    ensures driven { IsDriven routes options (folder_text routes) (D.moments disk.old) (D.moments disk.new) (O.seen outside.old) (O.seen outside.new) result }
    ensures good { KeepsGood routes (folder_text routes) (D.moments disk.old) (D.moments disk.new) (O.seen outside.old) (O.seen outside.new) result }
    ensures objects { (O.seen outside.new).objects ≡ (O.seen outside.old).objects }
    ensures cause { HasDiskCause (D.faults disk.old) (D.faults disk.new) result }
{
    what_a_run_leaves_is_good();
    // what is run can be routed
    let _module = routes.module();
    run_over(alloc, routes, options, outside, disk)
}

/// The same, without what follows for a good folder.
fn run_over<O: Outside, D: Disk>(
    alloc: Global,
    routes: Routes,
    options: Options,
    outside: &mut O,
    disk: &mut D,
) -> DriveEnd
    requires every { 1 ≤ options.every }
    requires modest { AreModest routes.endpoints }
    ensures driven { IsDriven routes options (folder_text routes) (D.moments disk.old) (D.moments disk.new) (O.seen outside.old) (O.seen outside.new) result }
    ensures objects { (O.seen outside.new).objects ≡ (O.seen outside.old).objects }
    ensures cause { HasDiskCause (D.faults disk.old) (D.faults disk.new) result }
{
    let Ok(text) = folder_text(alloc, routes.module()) else {
        return DriveEnd::Refused(StoreFault::OutOfMemory);
    };
    match Run::open(alloc, routes, options, &text, disk) {
        Ok(run) => {
            let mut run = run;
            run.make_legs(outside, disk)
        }
        Err(fault) => DriveEnd::Refused(fault),
    }
}
