//! Entries of the run record as messages.
ghost use Rattle.std.specs.Prelude.{◌≡◌, ◌++◌, length, IfOk, OnOk, Some, Ok, true};
ghost use Rattle.proto_wire.specs.Reads.{Gives};
ghost use Rattle.proto_wire.specs.Message.{capped, fit};
ghost use Rattle.folder_messages.specs.Entries.{batch_held, register_held, due_held, step_of, empty_entry, entry_rows, entry_read, entry_of, fit_step};
ghost use Rattle.folder_messages.specs.Spelling.{spelled_step, entry_spelling, entry_value};

use crate::due_step::{DueRead, DueStep, DueWritten, due_of};
use crate::parts::{Parts, decoded_whole};
use crate::reply::{ReplyRead, ReplyWritten};
use crate::shorts::with_short;
use proto_wire::{
    Bytes, Decode, DecodeFault, Encode, Mem, Record, choice_size, encoded, member_size,
    number_size, with_choice, with_member, with_number,
};
use run_record::{Entry, Step};
use std::alloc::Global;

/// A step while it is read.
#[derive(Drop)]
pub enum StepRead {
    Take(u32),
    Batch(ReplyRead),
    Register(ReplyRead),
    Due(DueRead),
}

/// The reply of a batch that stands.
#[tactic(auto, unfolding(crate::specs::Entries::batch_held))]
fn batch_held(step: Option<StepRead>) -> Option<ReplyRead>
    ensures { result ≡ batch_held step }
{
    match step {
        Some(StepRead::Batch(reply)) => Some(reply),
        Some(StepRead::Take(_split)) => None,
        Some(StepRead::Register(_reply)) => None,
        Some(StepRead::Due(_due)) => None,
        None => None,
    }
}

/// The reply of a registration that stands.
#[tactic(auto, unfolding(crate::specs::Entries::register_held))]
fn register_held(step: Option<StepRead>) -> Option<ReplyRead>
    ensures { result ≡ register_held step }
{
    match step {
        Some(StepRead::Register(reply)) => Some(reply),
        Some(StepRead::Take(_split)) => None,
        Some(StepRead::Batch(_reply)) => None,
        Some(StepRead::Due(_due)) => None,
        None => None,
    }
}

/// The sending of a delayed letter that stands.
#[tactic(auto, unfolding(crate::specs::Entries::due_held))]
fn due_held(step: Option<StepRead>) -> Option<DueRead>
    ensures { result ≡ due_held step }
{
    match step {
        Some(StepRead::Due(due)) => Some(due),
        Some(StepRead::Take(_split)) => None,
        Some(StepRead::Batch(_reply)) => None,
        Some(StepRead::Register(_reply)) => None,
        None => None,
    }
}

/// The step that was read. `None` exactly where something is absent that it needs.
#[tactic(auto, unfolding(crate::specs::Entries::step_of))]
fn step_of(alloc: Global, step: StepRead) -> Mem<Option<Step>>
    ensures { IfOk result (λ found. found ≡ step_of step) }
{
    match step {
        StepRead::Take(split) => Ok(Some(Step::Take(split))),
        StepRead::Batch(reply) => match reply.whole(alloc)? {
            Some(reply) => Ok(Some(Step::Batch(reply))),
            None => Ok(None),
        },
        StepRead::Register(reply) => match reply.whole(alloc)? {
            Some(reply) => Ok(Some(Step::Register(reply))),
            None => Ok(None),
        },
        StepRead::Due(due) => match due_of(due) {
            Some(DueStep { address, moment }) => Ok(Some(Step::Due { address, moment })),
            None => Ok(None),
        },
    }
}

/// An entry while it is read.
#[derive(Drop)]
pub struct EntryRead {
    pub leg: u64,
    pub stamp: u64,
    pub node: u32,
    pub step: Option<StepRead>,
}

impl Decode for EntryRead {
    ghost rows = { entry_rows };

    ghost empty = { empty_entry };

    #[tactic(auto, unfolding(crate::specs::Entries::empty_entry))]
    fn blank(_alloc: Global) -> EntryRead {
        EntryRead {
            leg: 0,
            stamp: 0,
            node: 0,
            step: None,
        }
    }

    #[tactic(auto, unfolding(crate::specs::Entries::entry_rows))]
    fn accept(&mut self, alloc: Global, item: &Record<'_>) -> Result<(), DecodeFault> {
        if item.is(1, 0) {
            self.leg = item.number;
        } else if item.is(2, 0) {
            self.stamp = item.number;
        } else if item.is(3, 0) {
            self.node = item.short()?;
        } else if item.is(10, 0) {
            self.step = Some(StepRead::Take(item.short()?));
        } else if item.is(11, 2) {
            let held = batch_held(self.step.take());
            self.step = Some(StepRead::Batch(item.message(alloc, held)?));
        } else if item.is(12, 2) {
            let held = register_held(self.step.take());
            self.step = Some(StepRead::Register(item.message(alloc, held)?));
        } else if item.is(13, 2) {
            let held = due_held(self.step.take());
            self.step = Some(StepRead::Due(item.message(alloc, held)?));
        }
        Ok(())
    }
}

impl Parts for EntryRead {
    type Whole = Entry;

    ghost whole = { entry_of };

    #[tactic(auto, unfolding(crate::specs::Entries::entry_of))]
    fn whole(self, alloc: Global) -> Mem<Option<Entry>> {
        let EntryRead {
            leg,
            stamp,
            node,
            step,
        } = self;
        let Some(step) = step else {
            return Ok(None);
        };
        match step_of(alloc, step)? {
            Some(step) => Ok(Some(Entry {
                leg,
                stamp,
                node,
                step,
            })),
            None => Ok(None),
        }
    }
}

/// An entry that is written.
#[derive(Drop)]
pub struct EntryWritten<'a> {
    pub entry: &'a Entry,
}

/// The length of the record of a step, or `u64::MAX` where it is greater.
#[tactic(auto, unfolding(crate::specs::Spelling::spelled_step, proto_wire::specs::Message::spelled_choice))]
fn step_size(step: &Step) -> u64
    ensures { result ≡ capped (length (spelled_step step.now)) }
{
    match step {
        Step::Take(split) => choice_size(10, Some(*split)),
        Step::Batch(reply) => member_size(11, &ReplyWritten { reply }),
        Step::Register(reply) => member_size(12, &ReplyWritten { reply }),
        Step::Due { address, moment } => member_size(
            13,
            &DueWritten {
                address,
                moment: *moment,
            },
        ),
    }
}

/// Adds the record of a step.
#[tactic(auto, unfolding(crate::specs::Spelling::spelled_step, crate::specs::Entries::fit_step, proto_wire::specs::Message::spelled_choice))]
fn with_step(into: Bytes, step: &Step) -> Mem<Bytes>
    ensures spelled { IfOk result (λ bytes. bytes ≡ into ++ spelled_step step.now) }
    ensures fits { OnOk result (fit_step step.now ≡ true) }
{
    match step {
        Step::Take(split) => with_choice(into, 10, Some(*split)),
        Step::Batch(reply) => with_member(into, 11, &ReplyWritten { reply }),
        Step::Register(reply) => with_member(into, 12, &ReplyWritten { reply }),
        Step::Due { address, moment } => with_member(
            into,
            13,
            &DueWritten {
                address,
                moment: *moment,
            },
        ),
    }
}

impl Encode for EntryWritten<'_> {
    ghost spells = { λ it. entry_spelling it.entry.now };

    ghost fits = { λ it. fit entry_rows (entry_read it.entry.now) };

    #[tactic(auto, using(crate::proofs::Steps::step_steps), unfolding(crate::specs::Spelling::entry_spelling, crate::specs::Entries::entry_rows))]
    fn size(&self) -> u64 {
        number_size(1, self.entry.leg)
            .saturating_add(number_size(2, self.entry.stamp))
            .saturating_add(number_size(3, u64::from(self.entry.node)))
            .saturating_add(step_size(&self.entry.step))
    }

    #[tactic(auto, using(crate::proofs::Steps::step_steps), unfolding(crate::specs::Spelling::entry_spelling, crate::specs::Entries::entry_rows))]
    fn put(&self, into: Bytes) -> Mem<Bytes> {
        let into = with_number(into, 1, self.entry.leg)?;
        let into = with_number(into, 2, self.entry.stamp)?;
        let into = with_short(into, 3, self.entry.node)?;
        with_step(into, &self.entry.step)
    }
}

/// The canonical spelling of an entry. Decoding it gives the entry again.
pub fn encode_entry(alloc: Global, entry: &Entry) -> Mem<Bytes>
    ensures spelled { IfOk result (λ b. b ≡ entry_spelling entry.now) }
    ensures again { IfOk result (λ b. entry_value b ≡ Ok entry.now) }
{
    let bytes = encoded(alloc, &EntryWritten { entry })?;
    Ok(bytes)
}

/// The entry that the bytes spell. It needs a step with all that the step needs.
#[tactic(auto, unfolding(crate::specs::Spelling::entry_value))]
pub fn decode_entry(alloc: Global, bytes: &[u8]) -> Result<Entry, DecodeFault>
    ensures { Gives (λ entry. entry) result (entry_value bytes.now) }
{
    decoded_whole::<EntryRead>(alloc, bytes)
}
