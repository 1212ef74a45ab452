//! A run.
ghost use Rattle.std.specs.Prelude.{◌≡◌, ◌≤◌, false, IfOk};
ghost use Rattle.statefun_driver.specs.Runs.{AreModest, IsRun};
ghost use Rattle.statefun_driver.specs.Turns.{no_origin, rested};
ghost use Rattle.statefun_driver.specs.Work.{here, splits_of};

use crate::job::Job;
use crate::laws::what_turns_come_to_is_a_run;
use crate::progress::Progress;
use crate::{Broken, End, Outside};
use address_routing::Routes;
use partition_core::Partition;
use proto_wire::{List, Mem};
use run_record::Entry;
use std::alloc::Global;

/// What a run comes to.
#[derive(Drop)]
pub struct Ran {
    pub end: End,
    /// The record of its steps.
    pub entries: List<Entry>,
}

/// Makes the turns of a job from its beginning, and no more than so many, at most 1,000,000,000. No endpoint has more than 100
/// attempts, nor takes requests of more than 8,388,608 bytes.
pub fn run<O: Outside>(alloc: Global, routes: Routes, turns: u64, outside: &mut O) -> Ran
    requires attempts { AreModest routes.endpoints }
    requires turns { turns ≤ 1000000000 }
    ensures ran { IsRun (record { routes = routes; turns = turns; rests = false }) (O.seen outside.old) (O.seen outside.new) result.entries result.end }
    ensures objects { (O.seen outside.new).objects ≡ (O.seen outside.old).objects }
{
    what_turns_come_to_is_a_run();
    let job = Job::new(routes, turns);
    let Ok(mut progress) = begun(alloc, &job) else {
        return Ran {
            end: End::Broke(Broken::Memory),
            entries: List::new(alloc),
        };
    };
    let end = progress.make_turns(alloc, &job, outside);
    Ran {
        end,
        entries: progress.entries.into_entries(),
    }
}

/// Nothing was done.
fn begun(alloc: Global, job: &Job) -> Mem<Progress>
    ensures here { IfOk result (λ progress. here progress ≡ rested no_origin) }
    ensures splits { IfOk result (λ progress. splits_of progress ≡ job.now.splits) }
{
    let partition = Partition::new(alloc)?;
    Progress::resume(alloc, job, 0, 0, &[], partition)
}
