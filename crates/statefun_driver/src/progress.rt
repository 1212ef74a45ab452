//! What a run has done so far, and its turns.
ghost use Rattle.std.specs.Prelude.{◌≡◌, ◌<◌, ◌≤◌, ◌^◌, ◌+◌, ◌-◌, ℕ, length, max, ◌++◌, ◌∷◌, [], IfOk, OnOk, OnErr, true, false, get_or, vec_len};
ghost use Rattle.run_record.specs.declared.entry.Step.TheVariants.{Batch as IsBatch};
ghost use Rattle.run_record.specs.Egress.{records_of_reply};
ghost use Rattle.partition_core.specs.Kept.{work_of};
ghost use Rattle.partition_core.specs.Work.{is_empty};
ghost use Rattle.sf_outside.specs.declared.ingress.IngressRecord.{IngressRecord};
ghost use Rattle.statefun_driver.specs.Runs.{AreModest};
ghost use Rattle.statefun_driver.specs.Traces.{Ends};
ghost use Rattle.statefun_driver.specs.Turns.{Asking, Reading, at, dues, finish, first_control, is_done, no_origin, read_from, rested, send_due, serve, size_of, origin_of, take_record};
ghost use Rattle.statefun_driver.specs.Parted.{given_by, IsParted};
ghost use Rattle.statefun_driver.specs.Work.{Led, IsSentFront, here, plan_of, splits_of};

use crate::End;
use crate::job::Job;
use crate::outside::Outside;
use crate::steps::{Cut, Steps, taken_in};
use partition_core::Partition;
use proto_wire::{List, Mem};
use run_record::{Entry, Reply, Step, letters_of};
use sf_outside::IngressRecord;
use std::alloc::Global;
use std::mem;
use typed_values::EgressRecord;

/// At most so many records of a split are taken in a turn.
const QUOTA: u32 = 64;

/// At most so many delayed letters are sent in a turn.
const DUES: u32 = 1024;

/// The most bytes of a record's key and value together.
const LONGEST: u64 = 1 << 20;

/// What a run has done so far.
#[derive(Drop)]
pub struct Progress {
    pub(crate) partition: Partition,
    /// How many records of each split were taken.
    pub(crate) counts: Vec<u64>,
    /// The number of the last turn that began, from 1 on; 0 behind none.
    pub(crate) turn: u64,
    /// The greatest moment so far, in milliseconds.
    pub(crate) moment: u64,
    /// How many calls were started in this turn.
    pub(crate) calls: u32,
    /// Whether a split may have more records.
    pub(crate) left: bool,
    pub(crate) entries: Steps,
    /// How many of the entries stem from the turns before.
    pub(crate) before: usize,
}

impl Progress {
    /// Turns begin behind others, with the work that is left and so many records taken of each split.
    #[tactic(auto, unfolding(crate::specs::Work::here, crate::specs::Work::splits_of))]
    pub fn resume(
        alloc: Global,
        job: &Job,
        turn: u64,
        moment: u64,
        taken: &[u64],
        partition: Partition,
    ) -> Mem<Progress>
        requires { length taken.now ≤ job.now.splits }
        ensures here { IfOk result (λ progress. here progress ≡
            rested (record { turn = turn; moment = moment; counts = λ split. get_or taken.now split 0; work = work_of partition })) }
        ensures splits { IfOk result (λ progress. splits_of progress ≡ job.now.splits) }
    {
        Ok(Progress {
            partition,
            counts: counts_of(alloc, taken, job.splits)?,
            turn,
            moment,
            calls: 0,
            left: false,
            entries: Steps::new(alloc),
            before: 0,
        })
    }

    /// Records a step of a node that gives nothing to egresses. An `Err` leaves the record as it was.
    pub(crate) fn note(&mut self, node: u32, step: Step) -> Mem<()>
        requires { given_by step ≡ [] }
        ensures ok { OnOk result (self.new ≡ record self.old {
          entries = self.old.entries
              ++ record { leg = self.old.turn; stamp = length self.old.entries - self.old.before + 1; node = node; step = step } ∷ [];
        }) }
        ensures err { OnErr result (self.new.entries ≡ self.old.entries) }
        ensures counts { self.new.counts ≡ self.old.counts }
        ensures calls { self.new.calls ≡ self.old.calls }
        ensures turn { self.new.turn ≡ self.old.turn }
    {
        let entry = self.entry(node, step);
        self.entries.push(entry)
    }

    /// Records a batch of a node, and what it gives to egresses. An `Err` leaves the record as it was.
    pub(crate) fn note_batch(
        &mut self,
        node: u32,
        reply: Reply,
        egress: List<EgressRecord>,
    ) -> Mem<()>
        requires { records_of_reply reply ≡ egress }
        ensures ok { OnOk result (self.new ≡ record self.old {
          entries = self.old.entries
              ++ record { leg = self.old.turn; stamp = length self.old.entries - self.old.before + 1; node = node; step = IsBatch reply } ∷ [];
        }) }
        ensures err { OnErr result (self.new.entries ≡ self.old.entries) }
        ensures counts { self.new.counts ≡ self.old.counts }
        ensures calls { self.new.calls ≡ self.old.calls }
        ensures turn { self.new.turn ≡ self.old.turn }
    {
        let entry = self.entry(node, Step::Batch(reply));
        self.entries.push_with(entry, egress)
    }

    /// A step of a node, as the next of the turn.
    fn entry(&self, node: u32, step: Step) -> Entry
        ensures { result ≡ record {
          leg = self.now.turn;
          stamp = length self.now.entries - self.now.before + 1;
          node = node;
          step = step;
        } }
    {
        let made = self.entries.as_slice().len().saturating_sub(self.before) as u64;
        Entry {
            leg: self.turn,
            stamp: made + 1,
            node,
            step,
        }
    }

    /// Takes a record of a split. An `Err` leaves the record of the steps as it was.
    fn take(&mut self, alloc: Global, job: &Job, split: u32, found: IngressRecord) -> Mem<()>
        requires split { split < job.now.splits }
        requires counts { vec_len self.old.counts ≡ job.now.splits }
        requires short { get_or self.old.counts.items split 0 < 2 ^ 63 }
        ensures ok { OnOk result (here self.new ≡ take_record job.now.routes split found (here self.old)) }
        ensures err { OnErr result (self.new.entries ≡ self.old.entries) }
        ensures counts { vec_len self.new.counts ≡ vec_len self.old.counts }
        ensures calls { self.new.calls ≡ self.old.calls }
        ensures turn { self.new.turn ≡ self.old.turn }
    {
        let letters = letters_of(alloc, &job.routes, split, found)?;
        self.partition.post(letters)?;
        self.counts[split as usize] += 1;
        self.note(split, Step::Take(split))
    }

    /// Reads a split until it has no more records, or the quota is spent.
    fn read_split<O: Outside>(
        &mut self,
        alloc: Global,
        job: &Job,
        split: u32,
        outside: &mut O,
    ) -> Result<(), End>
        requires split { split < job.now.splits }
        requires counts { vec_len self.old.counts ≡ job.now.splits }
        ensures led { Led (plan_of job.now) (at (Reading split 0) (here self.old)) (O.seen outside.old)
            result (read_from (plan_of job.now) (split + 1) (here self.new)) self.new.entries (O.seen outside.new) }
        ensures counts { vec_len self.new.counts ≡ vec_len self.old.counts }
        ensures calls { self.new.calls ≡ self.old.calls }
        ensures turn { self.new.turn ≡ self.old.turn }
    {
        for _ in 0..QUOTA {
            let offset = self.counts[split as usize];
            let Some(found) = outside.read(split, offset)? else {
                return Ok(());
            };
            let size = size_of(&found);
            if size > LONGEST {
                return Err(End::RecordTooLarge {
                    split,
                    offset,
                    size,
                });
            }
            self.take(alloc, job, split, found)?;
        }
        self.left = true;
        Ok(())
    }

    /// Reads all splits, in order.
    fn read_splits<O: Outside>(
        &mut self,
        alloc: Global,
        job: &Job,
        outside: &mut O,
    ) -> Result<(), End>
        requires counts { vec_len self.old.counts ≡ job.now.splits }
        ensures led { Led (plan_of job.now) (read_from (plan_of job.now) 0 (here self.old)) (O.seen outside.old)
            result (serve (plan_of job.now) (send_due job.now.routes dues (here self.new))) self.new.entries (O.seen outside.new) }
        ensures counts { vec_len self.new.counts ≡ vec_len self.old.counts }
        ensures calls { self.new.calls ≡ self.old.calls }
        ensures turn { self.new.turn ≡ self.old.turn }
    {
        for split in 0..job.splits {
            self.read_split(alloc, job, split, outside)?;
        }
        Ok(())
    }

    /// Sends the delayed letters that are due, up to a number. An `Err` leaves a front of the steps.
    fn send_due(&mut self, job: &Job) -> Mem<()>
        ensures ok { OnOk result (here self.new ≡ send_due job.now.routes dues (here self.old)) }
        ensures err { OnErr result (IsSentFront (plan_of job.now) (here self.old) self.new.entries) }
        ensures counts { self.new.counts ≡ self.old.counts }
        ensures calls { self.new.calls ≡ self.old.calls }
        ensures turn { self.new.turn ≡ self.old.turn }
    {
        for _ in 0..DUES {
            let Some(address) = self.partition.send_due(self.moment)? else {
                return Ok(());
            };
            let moment = self.moment;
            self.note(job.splits, Step::Due { address, moment })?;
        }
        Ok(())
    }

    /// The next turn begins, at the greatest moment so far.
    fn begin(&mut self, now: u64)
        requires { self.old.turn + 1 < 2 ^ 64 }
        ensures { self.new ≡ record self.old {
          turn = self.old.turn + 1;
          moment = max self.old.moment now;
          calls = 0;
          left = false;
          before = length self.old.entries;
        } }
    {
        self.turn += 1;
        self.moment = self.moment.max(now);
        self.calls = 0;
        self.left = false;
        self.before = self.entries.as_slice().len();
    }

    /// Makes a turn.
    fn make_turn<O: Outside>(
        &mut self,
        alloc: Global,
        job: &Job,
        outside: &mut O,
    ) -> Result<(), End>
        requires counts { vec_len self.old.counts ≡ job.now.splits }
        requires turn { self.old.turn + 1 < 2 ^ 64 }
        requires attempts { AreModest job.now.routes.endpoints }
        ensures led { Led (plan_of job.now) (at Asking (here self.old)) (O.seen outside.old)
            result (finish (plan_of job.now) (here self.new)) self.new.entries (O.seen outside.new) }
        ensures counts { vec_len self.new.counts ≡ vec_len self.old.counts }
        ensures turn { self.new.turn ≡ self.old.turn + 1 }
    {
        let now = outside.now();
        self.begin(now);
        self.read_splits(alloc, job, outside)?;
        self.send_due(job)?;
        self.serve(alloc, job, outside)
    }

    /// Makes a turn of a job whose turns are driven. Behind an `Err` no turn may be made.
    #[tactic(auto, unfolding(crate::specs::Work::splits_of))]
    pub fn leg<O: Outside>(&mut self, alloc: Global, job: &Job, outside: &mut O) -> Result<(), End>
        requires driven { job.now.rests ≡ true }
        requires splits { splits_of self.old ≡ job.now.splits }
        requires turn { (here self.old).turn + 1 < 2 ^ 64 }
        requires attempts { AreModest job.now.routes.endpoints }
        ensures led { Led (plan_of job.now) (here self.old) (O.seen outside.old) result (here self.new) (here self.new).entries (O.seen outside.new) }
        ensures splits { splits_of self.new ≡ splits_of self.old }
        ensures turn { (here self.new).turn ≡ (here self.old).turn + 1 }
    {
        self.make_turn(alloc, job, outside)
    }

    /// The number of the last turn that began.
    #[tactic(auto, unfolding(crate::specs::Work::here))]
    pub fn turn(&self) -> u64
        ensures { result ≡ (here self.now).turn }
    {
        self.turn
    }

    /// Its moment, in milliseconds: the greatest so far.
    #[tactic(auto, unfolding(crate::specs::Work::here))]
    pub fn moment(&self) -> u64
        ensures { result ≡ (here self.now).moment }
    {
        self.moment
    }

    /// How many records of each split were taken.
    #[tactic(auto, unfolding(crate::specs::Work::here, crate::specs::Work::splits_of))]
    pub fn counts(&self) -> &[u64]
        ensures counts { ◌≡◌ {A = ℕ → ℕ} (here self.now).counts (λ split. get_or result.now split 0) }
        ensures splits { length result.now ≡ splits_of self.now }
    {
        self.counts.as_slice()
    }

    /// The work that is left.
    #[tactic(auto, unfolding(crate::specs::Work::here))]
    pub fn partition(&self) -> &Partition
        ensures { work_of result.now ≡ (here self.now).work }
    {
        &self.partition
    }

    /// Whether no split may have more records, and nothing is left to do.
    #[tactic(auto, unfolding(crate::specs::Work::here))]
    pub fn is_done(&self) -> bool
        ensures { result ≡ is_done (here self.now) }
    {
        !self.left && self.partition.is_idle()
    }

    /// Whether no step was recorded since the start or the last cut.
    #[tactic(auto, unfolding(crate::specs::Work::here))]
    pub fn is_cut(&self) -> bool
        ensures { result ≡ is_empty (here self.now).entries }
    {
        is_empty(self.entries.as_slice())
    }

    /// Takes out what was recorded since the start or the last cut: turns begin anew behind those that were made. What an `Err`
    /// leaves of the record is gone.
    #[tactic(auto, unfolding(crate::specs::Work::here, crate::specs::Work::splits_of))]
    pub fn cut(&mut self, alloc: Global) -> Mem<Cut>
        ensures cut { IfOk result (IsParted (here self.old).entries) }
        ensures here { here self.new ≡ rested (origin_of (here self.old)) }
        ensures splits { splits_of self.new ≡ splits_of self.old }
    {
        self.calls = 0;
        self.left = false;
        self.before = 0;
        mem::replace(&mut self.entries, Steps::new(alloc)).part(alloc)
    }

    /// Makes turns until one ends the run, and no more than are allowed.
    pub(crate) fn make_turns<O: Outside>(
        &mut self,
        alloc: Global,
        job: &Job,
        outside: &mut O,
    ) -> End
        requires first { here self.old ≡ rested no_origin }
        requires counts { vec_len self.old.counts ≡ job.now.splits }
        requires alone { job.now.rests ≡ false }
        requires attempts { AreModest job.now.routes.endpoints }
        requires turns { job.now.turns ≤ 1000000000 }
        ensures { Ends (plan_of job.now) (first_control (plan_of job.now) no_origin) (O.seen outside.old) self.new.entries result (O.seen outside.new) }
    {
        for _ in 0..job.turns {
            if let Err(end) = self.make_turn(alloc, job, outside) {
                return end;
            }
            if self.is_done() {
                return End::Done {
                    taken: taken_in(self.entries.as_slice()),
                };
            }
        }
        End::TurnsSpent {
            taken: taken_in(self.entries.as_slice()),
        }
    }
}

/// So many records taken of each split, of so many splits.
fn counts_of(alloc: Global, taken: &[u64], splits: u32) -> Mem<Vec<u64>>
    requires { length taken.now ≤ splits }
    ensures counts { IfOk result (λ counts. ◌≡◌ {A = ℕ → ℕ} (λ split. get_or counts.items split 0) (λ split. get_or taken.now split 0)) }
    ensures splits { IfOk result (λ counts. vec_len counts ≡ splits) }
{
    let mut counts = taken.to_vec(alloc)?;
    counts.resize(splits as usize, 0)?;
    Ok(counts)
}

/// Whether there are no entries.
fn is_empty(entries: &[Entry]) -> bool
    ensures { result ≡ is_empty entries.now }
{
    match entries {
        [] => true,
        [_, ..] => false,
    }
}

/// How many bytes a record's key and value have together.
fn size_of(found: &IngressRecord) -> u64
    ensures { result ≡ size_of found.now }
{
    found.key.as_bytes().len() as u64 + found.value.as_slice().len() as u64
}
