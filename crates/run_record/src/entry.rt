//! Entries of the run record.
use proto_wire::{Bytes, List, Mem, TryClone};
use sf_outside::Call;
use std::alloc::Global;
use typed_values::{Address, Sender};

/// One step of the machine, and its key: `leg`, then `stamp`, then `node`.
///
/// Node `s` is split `s`, and node `S + p` is partition `p` where there are `S` splits.
#[derive(Drop)]
pub struct Entry {
    pub leg: u64,
    pub stamp: u64,
    pub node: u32,
    pub step: Step,
}

impl TryClone for Entry {
    fn try_clone(&self, alloc: Global) -> Mem<Entry> {
        Ok(Entry {
            leg: self.leg,
            stamp: self.stamp,
            node: self.node,
            step: self.step.try_clone(alloc)?,
        })
    }
}

/// What a step did.
#[derive(Drop)]
pub enum Step {
    /// The next record of a split became one letter for each target.
    Take(u32),
    /// A batch was served, and its answer took effect.
    Batch(Reply),
    /// An answer that missed values registered them; its letters wait on.
    Register(Reply),
    /// The delayed letter of an address that comes due first was sent, at a moment in milliseconds.
    Due { address: Address, moment: u64 },
}

impl TryClone for Step {
    fn try_clone(&self, alloc: Global) -> Mem<Step> {
        match self {
            Step::Take(split) => Ok(Step::Take(*split)),
            Step::Batch(reply) => Ok(Step::Batch(reply.try_clone(alloc)?)),
            Step::Register(reply) => Ok(Step::Register(reply.try_clone(alloc)?)),
            Step::Due { address, moment } => Ok(Step::Due {
                address: address.try_clone(alloc)?,
                moment: *moment,
            }),
        }
    }
}

/// An answer, and the request that it answers.
#[derive(Drop)]
pub struct Reply {
    /// The call that brought the answer.
    pub call: Call,
    /// The function that was called.
    pub address: Address,
    /// The moment of the batch, in milliseconds.
    pub moment: u64,
    /// The senders of the batch's letters, in order.
    pub picks: List<Sender>,
    /// The answer's bytes, as the link gave them.
    pub answer: Bytes,
}

impl TryClone for Reply {
    fn try_clone(&self, alloc: Global) -> Mem<Reply> {
        Ok(Reply {
            call: self.call,
            address: self.address.try_clone(alloc)?,
            moment: self.moment,
            picks: self.picks.try_clone(alloc)?,
            answer: self.answer.try_clone(alloc)?,
        })
    }
}
