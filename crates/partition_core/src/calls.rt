//! The calls of a partition.
ghost use Rattle.std.specs.Prelude.{◌≡◌, ◌≤◌, ◌<◌, [], ◌∷◌, map, slice_get, IfOk, IfErr, IfSome, IsTrue, OnOk, ◌^◌};
ghost use Rattle.std.specs.Option.{option_copied};
ghost use Rattle.batch_queue.specs.Post.{is_ready};
ghost use Rattle.batch_queue.specs.Kept.{post_of};
ghost use Rattle.invocation.specs.Judging.{judgement};
ghost use Rattle.invocation.specs.Laws.{Fits, TakesAll, AreNew};
ghost use Rattle.run_record.specs.declared.entry.Step.TheVariants as step;
ghost use Rattle.run_record.specs.Machine.{served, declared};
ghost use Rattle.partition_core.specs.Work.{no_work, own_of, done, with_posted, is_empty, is_idle, IsSent};
ghost use Rattle.partition_core.specs.Batches.{sender_of, request_bytes, IsTooLarge, Opens};
ghost use Rattle.partition_core.specs.Kept.{work_of};

use crate::actors::Actors;
use crate::{Bounds, Opened, Partition};
use address_routing::Routes;
use batch_queue::{BatchFault, Limits, Mail};
use delayed_messages::Delays;
use invocation::{Effects, Judged, Request, head_bytes, judge};
use proto_wire::{List, Mem, OutOfMemory, TryClone};
use request_reply::encode_to;
use run_record::{Reply, change_delays};
use state_cells::Cells;
use std::alloc::Global;
use typed_values::{Address, CellSpec, EgressRecord, Letter, Sender};

impl Partition {
    /// Nothing is to be done.
    #[tactic(auto, unfolding(crate::specs::Kept::work_of))]
    pub fn new(alloc: Global) -> Mem<Partition>
        ensures { IfOk result (λ partition. work_of partition ≡ no_work) }
    {
        Ok(Partition {
            alloc,
            mail: Mail::new(alloc)?,
            actors: Actors::new(alloc),
            delays: Delays::new(alloc)?,
            none: Cells::new(alloc)?,
        })
    }

    /// Letters arrive, in order: each goes last among those of its target.
    #[tactic(auto, unfolding(crate::specs::Kept::work_of))]
    pub fn post(&mut self, letters: List<Letter>) -> Mem<()>
        ensures { OnOk result (work_of self.new ≡ with_posted letters (work_of self.old)) }
    {
        for letter in letters.into_vec() {
            self.put(letter)?;
        }
        Ok(())
    }

    /// A letter arrives.
    #[tactic(auto, unfolding(crate::specs::Kept::work_of))]
    fn put(&mut self, letter: Letter) -> Mem<()>
        ensures { OnOk result (work_of self.new ≡ with_posted (letter ∷ []) (work_of self.old)) }
    {
        match self.mail.put(letter) {
            Ok(()) => Ok(()),
            Err(_letter) => Err(OutOfMemory),
        }
    }

    /// The address that has been ready longest: it has letters, and none in flight.
    #[tactic(auto, unfolding(crate::specs::Kept::work_of))]
    pub fn ready(&self) -> Option<&Address>
        ensures first { option_copied result ≡ slice_get (work_of self.now).post.ready 0 }
        ensures waits { IfSome result (λ address. IsTrue (is_ready (work_of self.now).post address.now)) }
    {
        self.mail.ready()
    }

    /// Whether no address is ready, and no delayed letter waits.
    #[tactic(auto, unfolding(crate::specs::Kept::work_of))]
    pub fn is_idle(&self) -> bool
        ensures { result ≡ is_idle (work_of self.now) }
    {
        none_ready(&self.mail) && none_delayed(&self.delays)
    }

    /// Opens a batch of an address at a moment, in milliseconds: the longest front of its letters that keeps the bounds. They
    /// are in flight from then on. `None` exactly where it has no letter, or some in flight. `TooLarge` exactly where the request
    /// with the first letter alone passes the bound. Only `Some` changes anything.
    #[tactic(auto, unfolding(crate::specs::Kept::work_of))]
    pub fn open(
        &mut self,
        address: &Address,
        bounds: &Bounds,
        moment: u64,
    ) -> Result<Option<Opened>, BatchFault>
        requires { 1 ≤ bounds.now.max_letters }
        ensures opens { IfOk result (λ opening. Opens bounds.now moment address.now (work_of self.old) opening (work_of self.new)) }
        ensures fault { IfErr result (IsTooLarge bounds.now moment address.now (work_of self.old)) }
    {
        let cells = self.actors.cells_or(address, &self.none);
        let head = head_bytes(address, cells, moment);
        let limits = limits_of(bounds.max_letters, bounds.max_bytes, head);
        let Some(batch) = self.mail.open_batch(address, &limits)? else {
            return Ok(None);
        };
        let opening = opened_of(self.alloc, address, cells, batch.letters, moment)?;
        Ok(Some(opening))
    }

    /// What an answer of an address to a batch of a moment does.
    #[tactic(auto, unfolding(crate::specs::Kept::work_of))]
    pub fn judge(
        &self,
        routes: &Routes,
        address: &Address,
        moment: u64,
        answer: &[u8],
    ) -> Mem<Judged>
        ensures judged { IfOk result (λ judged. judged ≡ judgement routes.now ((work_of self.now).cells address.now) address.now moment answer.now) }
        ensures fits { IfOk result (Fits ((work_of self.now).cells address.now)) }
    {
        let cells = self.actors.cells_or(address, &self.none);
        judge(self.alloc, answer, cells, routes, address, moment)
    }

    /// A batch in flight was served at its moment: its letters leave for good, and its answer takes effect. Gives back what it
    /// gave to egresses.
    #[tactic(auto, unfolding(crate::specs::Kept::work_of))]
    pub fn serve(&mut self, reply: &Reply, effects: Effects) -> Mem<List<EgressRecord>>
        requires flight { 0 < (work_of self.old).post.in_flight reply.now.address }
        requires fits { TakesAll ((work_of self.old).cells reply.now.address) effects.mutations }
        ensures egress { IfOk result (λ egress. egress ≡ effects.egress) }
        ensures work { let work = work_of self.old in OnOk result (work_of self.new ≡
            done (step.Batch reply.now) (served reply.now effects (own_of work reply.now.address)) work) }
    {
        let Effects {
            mutations,
            letters,
            delays,
            egress,
        } = effects;
        self.delays.reserve(delays.len())?;
        let address = &reply.address;
        self.actors
            .serve(self.alloc, address, reply.moment, mutations)?;
        change_delays(&mut self.delays, address, delays);
        self.mail.take_batch(address);
        self.post(letters)?;
        Ok(egress)
    }

    /// What the answer to a batch in flight missed becomes cells, at the batch's moment; its letters wait again.
    #[tactic(auto, unfolding(crate::specs::Kept::work_of))]
    pub fn register(&mut self, reply: &Reply, specs: List<CellSpec>) -> Mem<()>
        requires flight { 0 < (work_of self.old).post.in_flight reply.now.address }
        requires new { AreNew ((work_of self.old).cells reply.now.address) specs }
        ensures work { let work = work_of self.old in OnOk result (work_of self.new ≡
            done (step.Register reply.now) (declared reply.now specs (own_of work reply.now.address)) work) }
    {
        let address = &reply.address;
        self.actors
            .register(self.alloc, address, reply.moment, specs)?;
        self.mail.return_batch(address);
        Ok(())
    }

    /// Sends the delayed letter of the least due, the first that was put among equals, where its moment has come, and gives
    /// its sender. `None` exactly where none is due.
    #[tactic(auto, unfolding(crate::specs::Kept::work_of))]
    pub fn send_due(&mut self, moment: u64) -> Mem<Option<Address>>
        ensures { IfOk result (λ sender. IsSent moment (work_of self.old) sender (work_of self.new)) }
    {
        let Some(delay) = self.delays.next_due(moment) else {
            return Ok(None);
        };
        let sender = delay.sender.try_clone(self.alloc)?;
        let letter = Letter {
            sender: Sender::Function(delay.sender),
            target: delay.target,
            argument: delay.argument,
        };
        self.put(letter)?;
        Ok(Some(sender))
    }
}

/// Whether no address is ready.
#[tactic(auto, using(crate::proofs::Idle::none_first, crate::proofs::Idle::some_first))]
fn none_ready(mail: &Mail) -> bool
    ensures { result ≡ is_empty (post_of mail.now).ready }
{
    match mail.ready() {
        Some(_address) => false,
        None => true,
    }
}

/// Whether no delayed letter waits.
#[tactic(auto, using(crate::proofs::Idle::none_earliest, crate::proofs::Idle::some_earliest))]
fn none_delayed(delays: &Delays) -> bool
    ensures { result ≡ is_empty delays.now.delays }
{
    match delays.first() {
        Some(_delay) => false,
        None => true,
    }
}

/// The limits of a batch in a request whose target and state have so many bytes.
fn limits_of(max_letters: u32, max_bytes: u64, head_bytes: u64) -> Limits
    ensures is { result ≡ record { max_letters = max_letters; max_bytes = max_bytes; head_bytes = head_bytes } }
    ensures small { max_bytes < 2 ^ 64 }
{
    Limits {
        max_letters,
        max_bytes,
        head_bytes,
    }
}

/// The senders of a batch's letters, and their request to an address with such cells.
fn opened_of(
    alloc: Global,
    address: &Address,
    cells: &Cells,
    letters: List<Letter>,
    moment: u64,
) -> Mem<Opened>
    ensures picks { IfOk result (λ opening. opening.picks ≡ map sender_of letters) }
    ensures request { IfOk result (λ opening. opening.request ≡ request_bytes address.now cells.now moment letters) }
{
    let picks = senders_of(alloc, letters.as_slice())?;
    let request = Request::of_letters(alloc, address, cells, letters, moment)?;
    Ok(Opened {
        picks,
        request: encode_to(alloc, &request)?,
    })
}

/// The senders of letters.
fn senders_of(alloc: Global, letters: &[Letter]) -> Mem<List<Sender>>
    ensures { IfOk result (λ picks. picks ≡ map sender_of letters.now) }
{
    let mut picks = List::new(alloc);
    for letter in letters {
        picks.push(letter.sender.try_clone(alloc)?)?;
    }
    Ok(picks)
}
