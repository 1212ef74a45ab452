//! Batches of a run, and the attempts at them.
ghost use Rattle.std.specs.Prelude.{◌≡◌, ◌<◌, ◌≤◌, ◌+◌, ◌^◌, true, [], length, Some, IsSome, IfSome, IsTrue, IfOk, IfErr, OnOk};
ghost use Rattle.std.specs.Option.{option_copied};
ghost use Rattle.batch_queue.specs.Post.{is_ready};
ghost use Rattle.address_routing.specs.Routing.{endpoint_of, is_usable, url_of};
ghost use Rattle.statefun_driver.specs.declared.end.Broken.TheVariants.{Memory as WantsMemory};
ghost use Rattle.statefun_driver.specs.declared.end.End.TheVariants.{Broke as HasBroken};
ghost use Rattle.statefun_driver.specs.Seen.{Seen};
ghost use Rattle.statefun_driver.specs.Turns.{call_of, came, fated, finish, open_batch, own_part, patience_at, serve};
ghost use Rattle.statefun_driver.specs.Runs.{AreModest};
ghost use Rattle.statefun_driver.specs.Work.{Reasons, Led, LedBy, IfAgain, IsAskedIn, IsCalledBy, IsSpelled, IsTaken, called, came_as, flying, here, opening_at, plan_of, replied, served_on};

use crate::job::Job;
use crate::outside::Outside;
use crate::progress::Progress;
use crate::settled::Valid;
use crate::{Broken, End};
use address_routing::Endpoint;
use batch_queue::BatchFault;
use invocation::Judged;
use partition_core::{Bounds, Opened};
use proto_wire::{Bytes, List, Mem, Text, TryClone};
use request_reply::Reason;
use run_record::{Reply, Step};
use sf_outside::{Answered, Call, Outcome};
use std::alloc::Global;
use typed_values::{Address, Sender};

/// The most batches of an address in a turn: each but the last registers a value, and an address has at most 64.
const BATCHES: u32 = 65;

/// What is asked of a function: its batch, and where.
#[derive(Drop)]
pub(crate) struct Asked {
    address: Address,
    url: Text,
    batch: Opened,
}

/// A valid answer to a batch, and the call that it came to.
#[derive(Drop)]
pub(crate) struct Answer {
    call: Call,
    valid: Valid,
}

impl Progress {
    /// Serves the address that has been ready longest, where there is one.
    pub(crate) fn serve<O: Outside>(
        &mut self,
        alloc: Global,
        job: &Job,
        outside: &mut O,
    ) -> Result<(), End>
        requires calls { self.old.calls ≡ 0 }
        requires attempts { AreModest job.now.routes.endpoints }
        ensures led { Led (plan_of job.now) (serve (plan_of job.now) (here self.old)) (O.seen outside.old)
            result (finish (plan_of job.now) (here self.new)) self.new.entries (O.seen outside.new) }
        ensures kept { IsCalledBy self.old self.new }
    {
        let Some(ready) = self.partition.ready() else {
            return Ok(());
        };
        let address = ready.try_clone(alloc)?;
        let Some(endpoint) = endpoint_for(job, &address) else {
            return Ok(());
        };
        let mut most = most_letters(endpoint);
        for _ in 0..BATCHES {
            match self.serve_batch(alloc, job, &address, endpoint, most, outside)? {
                None => return Ok(()),
                Some(letters) => most = letters,
            }
        }
        unreachable!()
    }

    /// Serves a batch of at most so many letters of an address. Where its answer missed values, they are registered, and it
    /// gives how many letters the batch had.
    fn serve_batch<O: Outside>(
        &mut self,
        alloc: Global,
        job: &Job,
        address: &Address,
        endpoint: &Endpoint,
        most: u32,
        outside: &mut O,
    ) -> Result<Option<u32>, End>
        requires endpoint { endpoint_of job.now.routes address.now.kind ≡ Some endpoint.now }
        requires usable { IsTrue (is_usable endpoint.now) }
        requires some { 1 ≤ most }
        requires most { most ≤ endpoint.now.max_letters }
        requires waits { is_ready (here self.old).work.post address.now ≡ true }
        requires calls { self.old.calls + endpoint.now.attempts < 2 ^ 32 }
        ensures led { LedBy (plan_of job.now) (open_batch (plan_of job.now) address.now most (here self.old)) (O.seen outside.old)
            result (λ again. served_on (plan_of job.now) address.now again (here self.new)) self.new.entries (O.seen outside.new) }
        ensures again { IfOk result (λ again. IfAgain address.now most (here self.old) (here self.new) again) }
        ensures kept { IsCalledBy self.old self.new }
        ensures calls { self.new.calls ≤ self.old.calls + endpoint.now.attempts }
    {
        let asked = self.open(alloc, job, address, endpoint, most)?;
        let answer = self.exchange(alloc, job, &asked, endpoint, outside)?;
        self.settle(job, asked, answer)
    }

    /// Opens a batch of at most so many letters of an address that waits.
    fn open(
        &mut self,
        alloc: Global,
        job: &Job,
        address: &Address,
        endpoint: &Endpoint,
        most: u32,
    ) -> Result<Asked, End>
        requires endpoint { endpoint_of job.now.routes address.now.kind ≡ Some endpoint.now }
        requires some { 1 ≤ most }
        requires most { most ≤ endpoint.now.max_letters }
        requires waits { is_ready (here self.old).work.post address.now ≡ true }
        ensures led { (seen : Seen) → Led (plan_of job.now) (open_batch (plan_of job.now) address.now most (here self.old)) seen
            result (opening_at address.now [] (here self.new)) self.new.entries seen }
        ensures asked { IfOk result (λ asked. IsAskedIn job.now.routes address.now (here self.new) asked) }
        ensures some { IfOk result (λ asked. 0 < length asked.batch.picks) }
        ensures fewer { IfOk result (λ asked. length asked.batch.picks ≤ most) }
        ensures cells { OnOk result ((here self.new).work.cells ≡ (here self.old).work.cells) }
        ensures kept { self.new ≡ record self.old { partition = self.new.partition } }
    {
        let bounds = Bounds {
            max_letters: most,
            max_bytes: endpoint.max_bytes,
        };
        match self.partition.open(address, &bounds, self.moment) {
            Ok(Some(batch)) => ask(alloc, job, address, batch),
            Ok(None) => unreachable!(),
            Err(BatchFault::OutOfMemory) => Err(End::Broke(Broken::Memory)),
            Err(BatchFault::TooLarge { size, limit }) => Err(End::BatchTooLarge {
                address: address.try_clone(alloc)?,
                size,
                limit,
            }),
        }
    }

    /// Asks until a valid answer comes, or no attempt is left.
    fn exchange<O: Outside>(
        &mut self,
        alloc: Global,
        job: &Job,
        asked: &Asked,
        endpoint: &Endpoint,
        outside: &mut O,
    ) -> Result<Answer, End>
        requires endpoint { endpoint_of job.now.routes asked.now.address.kind ≡ Some endpoint.now }
        requires usable { IsTrue (is_usable endpoint.now) }
        requires asked { IsAskedIn job.now.routes asked.now.address (here self.old) asked.now }
        requires calls { self.old.calls + endpoint.now.attempts < 2 ^ 32 }
        ensures led { LedBy (plan_of job.now) (opening_at asked.now.address [] (here self.old)) (O.seen outside.old)
            result (λ answer. replied (plan_of job.now) asked.now.address answer (here self.new)) self.new.entries (O.seen outside.new) }
        ensures taken { IfOk result (λ answer. IsTaken ((here self.old).work.cells asked.now.address) answer.valid) }
        ensures spelled { IfOk result (λ answer. IsSpelled asked.now.address answer.valid) }
        ensures kept { self.new ≡ record self.old { calls = self.new.calls } }
        ensures calls { self.new.calls ≤ self.old.calls + endpoint.now.attempts }
    {
        let mut reasons = List::new(alloc);
        for _ in 0..endpoint.attempts {
            let call = Call {
                leg: self.turn,
                partition: 0,
                turn: self.calls,
            };
            let told = self.attempt(job, asked, call, endpoint.patience, outside)?;
            match self.settled(job, &asked.address, told)? {
                Err(reason) => reasons.push(reason)?,
                Ok(valid) => return Ok(Answer { call, valid }),
            }
        }
        Err(End::EndpointFailed {
            address: asked.address.try_clone(alloc)?,
            reasons,
        })
    }

    /// Makes an attempt: what was told of its call, or nothing where it is late.
    fn attempt<O: Outside>(
        &mut self,
        job: &Job,
        asked: &Asked,
        call: Call,
        patience: u32,
        outside: &mut O,
    ) -> Result<Option<Answered>, End>
        requires asked { IsAskedIn job.now.routes asked.now.address (here self.old) asked.now }
        requires patience { patience ≡ patience_at job.now.routes asked.now.address }
        requires call { call ≡ call_of (here self.old) }
        requires calls { self.old.calls + 1 < 2 ^ 32 }
        ensures led { (reasons : Reasons) → LedBy (plan_of job.now) (opening_at asked.now.address reasons (here self.old)) (O.seen outside.old)
            result (λ told. fated (plan_of job.now) (flying asked.now.address reasons (here self.new)) call (here self.new) told)
            self.new.entries (O.seen outside.new) }
        ensures called { OnOk result (self.new ≡ called self.old) }
        ensures kept { self.new ≡ record self.old { calls = self.new.calls } }
        ensures calls { self.new.calls ≤ self.old.calls + 1 }
    {
        outside.start(call, &asked.url, asked.batch.request.as_slice())?;
        self.calls += 1;
        for _ in 0..patience {
            let told = own_part(call, outside.poll()?);
            if let Some(what) = told {
                return Ok(Some(what));
            }
        }
        Ok(None)
    }

    /// What becomes of an attempt by what was told of its call: a valid answer, or why it failed.
    fn settled(
        &self,
        job: &Job,
        address: &Address,
        told: Option<Answered>,
    ) -> Mem<Result<Valid, Reason>>
        ensures { IfOk result (λ made. came_as made ≡ came job.now.routes (here self.now) address.now told) }
    {
        let answer = match told {
            None => return Ok(Err(Reason::Late)),
            Some(Answered::Lost(note)) => return Ok(Err(Reason::Lost(note))),
            Some(Answered::Answer(answer)) => answer,
        };
        let judged = self
            .partition
            .judge(&job.routes, address, self.moment, answer.as_slice())?;
        Ok(match judged {
            Judged::Accept(effects) => Ok(Valid::Accepted { answer, effects }),
            Judged::Register(specs) => Ok(Valid::Missed { answer, specs }),
            Judged::Flaw(flaw) => Err(Reason::Refused { answer, flaw }),
        })
    }

    /// A valid answer takes effect, and is recorded. Where it missed values it gives how many letters the batch had.
    fn settle(&mut self, job: &Job, asked: Asked, answer: Answer) -> Result<Option<u32>, End>
        requires asked { IsAskedIn job.now.routes asked.address (here self.old) asked }
        requires some { 0 < length asked.batch.picks }
        requires few { length asked.batch.picks < 2 ^ 32 }
        requires taken { IsTaken ((here self.old).work.cells asked.address) answer.valid }
        requires spelled { IsSpelled asked.address answer.valid }
        ensures led { (seen : Seen) → LedBy (plan_of job.now) (replied (plan_of job.now) asked.address answer (here self.old)) seen
            result (λ again. served_on (plan_of job.now) asked.address again (here self.new)) self.new.entries seen }
        ensures again { IfOk result (λ again. IfAgain asked.address (length asked.batch.picks) (here self.old) (here self.new) again) }
        ensures calls { self.new.calls ≡ self.old.calls }
        ensures kept { IsCalledBy self.old self.new }
    {
        let Asked { address, batch, .. } = asked;
        let letters = batch.picks.len() as u32;
        let Answer { call, valid } = answer;
        match valid {
            Valid::Accepted { answer, effects } => {
                let reply = self.reply(call, address, batch.picks, answer);
                let egress = self.partition.serve(&reply, effects)?;
                self.note_batch(job.splits, reply, egress)?;
                Ok(None)
            }
            Valid::Missed { answer, specs } => {
                let reply = self.reply(call, address, batch.picks, answer);
                self.partition.register(&reply, specs)?;
                self.note(job.splits, Step::Register(reply))?;
                Ok(Some(letters))
            }
        }
    }

    /// The reply of an answer at the moment of the turn.
    fn reply(&self, call: Call, address: Address, picks: List<Sender>, answer: Bytes) -> Reply
        ensures { result ≡ record { call = call; address = address; moment = self.now.moment; picks = picks; answer = answer } }
    {
        Reply {
            call,
            address,
            moment: self.moment,
            picks,
            answer,
        }
    }
}

/// The endpoint of an address, where it has one: it can be used.
fn endpoint_for<'a>(job: &'a Job, address: &Address) -> Option<&'a Endpoint>
    requires { AreModest job.now.routes.endpoints }
    ensures endpoint { option_copied result ≡ endpoint_of job.now.routes address.now.kind }
    ensures usable { IfSome result (λ endpoint. IsTrue (is_usable endpoint.now)) }
    ensures attempts { IfSome result (λ endpoint. endpoint.now.attempts ≤ 100) }
{
    let _routed = job.routes.module();
    job.routes.endpoint_of(&address.kind)
}

/// The most letters of an endpoint's batch.
fn most_letters(endpoint: &Endpoint) -> u32
    ensures is { result ≡ endpoint.now.max_letters }
    ensures small { result < 2 ^ 32 }
{
    endpoint.max_letters
}

/// A batch as it is asked for, at the URL of its address.
fn ask(alloc: Global, job: &Job, address: &Address, batch: Opened) -> Result<Asked, End>
    requires { IsSome (endpoint_of job.now.routes address.now.kind) }
    ensures address { IfOk result (λ asked. asked.address ≡ address.now) }
    ensures url { IfOk result (λ asked. url_of job.now.routes address.now.kind ≡ Some asked.url) }
    ensures batch { IfOk result (λ asked. asked.batch ≡ batch) }
    ensures err { IfErr result (λ end. end ≡ HasBroken WantsMemory) }
{
    let Some(url) = job.routes.url_of(alloc, &address.kind)? else {
        unreachable!();
    };
    Ok(Asked {
        address: address.try_clone(alloc)?,
        url,
        batch,
    })
}

/// What a poll told of the call.
fn own_part(call: Call, poll: Option<Outcome>) -> Option<Answered>
    ensures { result ≡ own_part call poll }
{
    let outcome = poll?;
    if outcome.call == call {
        Some(outcome.what)
    } else {
        None
    }
}
