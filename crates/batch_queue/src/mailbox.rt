//! The letters of one address.
ghost use Rattle.std.specs.Prelude.{◌≡◌, ◌↔◌, ◌+◌, ◌∷◌, ◌++◌, ◌<◌, ◌≤◌, [], ℕ, drop, take, length, IsTrue, IfOk, IfErr, OnOk, OnErr};
ghost use Rattle.batch_queue.specs.Boxes.{Waiting};
ghost use Rattle.batch_queue.specs.Post.{waits};
ghost use Rattle.batch_queue.specs.Batches.{request_size, IsWithin, IsBatch, IsFaultOf};

use crate::sizes::{told_size, with_letter};
use crate::{BatchFault, Limits};
use proto_wire::{List, Mem, TryClone};
use request_reply::Batch;
use std::alloc::{AllocFailed, Global};
use std::collections::VecDeque;
use std::marker::Model;
use typed_values::{Address, Letter};

/// The letters of one address, and its number. Contracts see the letters as a list.
#[derive(Drop)]
pub(crate) struct MailBox {
    /// In order of arrival, those in flight in front.
    letters: VecDeque<Letter>,
    /// How many are in flight.
    in_flight: usize,
    number: usize,
}

impl Model for MailBox {
    ghost use Rattle.batch_queue.specs.Boxes.{Waiting};

    ghost Value = { Waiting };

    ghost view = { λ b. record { letters = b.letters.items; in_flight = b.in_flight; number = b.number } };
}

impl MailBox {
    /// No letters.
    pub(crate) fn new(alloc: Global, number: usize) -> MailBox
        ensures { result ≡ record { letters = []; in_flight = 0; number = number } }
    {
        MailBox {
            letters: VecDeque::new(alloc),
            in_flight: 0,
            number,
        }
    }

    pub(crate) fn number(&self) -> usize
        ensures { result ≡ self.now.number }
    {
        self.number
    }

    pub(crate) fn in_flight(&self) -> usize
        ensures { result ≡ self.now.in_flight }
    {
        self.in_flight
    }

    /// Whether there are letters, and none is in flight.
    pub(crate) fn is_ready(&self) -> bool
        ensures { result ≡ waits self.now.letters self.now.in_flight }
    {
        !self.letters.is_empty() && self.in_flight == 0
    }

    /// A letter goes last. An `Err` changes nothing, and hands it back.
    pub(crate) fn push(&mut self, letter: Letter) -> Result<(), Letter>
        ensures ok { OnOk result (self.new ≡ record self.old { letters = self.old.letters ++ letter ∷ [] }) }
        ensures err { OnErr result (self.new ≡ self.old) }
        ensures back { IfErr result (λ refused. refused ≡ letter) }
    {
        match self.letters.push_back(letter) {
            Ok(()) => Ok(()),
            Err(AllocFailed { value }) => Err(value),
        }
    }

    /// So many letters are in flight.
    pub(crate) fn open(&mut self, count: usize)
        ensures { self.new ≡ record self.old { in_flight = count } }
    {
        self.in_flight = count;
    }

    /// The letters in flight leave.
    pub(crate) fn take(&mut self)
        ensures { self.new ≡ record self.old { letters = drop self.old.in_flight self.old.letters; in_flight = 0 } }
    {
        while self.in_flight > 0 {
            let _gone = self.letters.pop_front();
            self.in_flight -= 1;
        }
    }

    /// The longest front of the letters within the limits, as a batch, which is a copy of them.
    pub(crate) fn batch(
        &self,
        alloc: Global,
        address: &Address,
        limits: &Limits,
    ) -> Result<Batch, BatchFault>
        requires some { 0 < length self.now.letters }
        requires one { 1 ≤ limits.now.max_letters }
        ensures address { IfOk result (λ batch. batch.address ≡ address.now) }
        ensures letters { IfOk result (λ batch. IsBatch limits.now self.now.letters batch.letters) }
        ensures err { IfErr result (IsFaultOf limits.now self.now.letters) }
    {
        let count = self.fitting(*limits);
        if count == 0 {
            return Err(self.too_large(limits));
        }
        Ok(Batch {
            address: address.try_clone(alloc)?,
            letters: self.front(alloc, count)?,
        })
    }

    /// How many letters the longest front within the limits has.
    fn fitting(&self, limits: Limits) -> usize
        ensures within { result ≤ length self.now.letters }
        ensures fits { 0 < result → IsWithin limits (take result self.now.letters) }
        ensures longest { (more : ℕ) → result < more → more ≤ length self.now.letters → ¬ (IsWithin limits (take more self.now.letters)) }
    {
        let max_bytes = limits.max_bytes;
        let mut records = limits.head_bytes;
        for count in 0..limits.max_letters as usize {
            let Some(letter) = self.letters.get(count) else {
                return count;
            };
            let Some(size) = with_letter(records, letter) else {
                return count;
            };
            if size.message > max_bytes {
                return count;
            }
            records = size.records;
        }
        limits.max_letters as usize
    }

    /// What is told of a first letter whose request passes the limit.
    fn too_large(&self, limits: &Limits) -> BatchFault
        requires some { 0 < length self.now.letters }
        requires passes { limits.now.max_bytes < request_size limits.now.head_bytes (take 1 self.now.letters) }
        ensures { IsFaultOf limits.now self.now.letters result }
    {
        let size = match self.letters.front() {
            Some(letter) => told_size(limits.head_bytes, letter),
            None => 0,
        };
        BatchFault::TooLarge {
            size,
            limit: limits.max_bytes,
        }
    }

    /// A copy of all letters.
    pub(crate) fn all(&self, alloc: Global) -> Mem<List<Letter>>
        ensures { IfOk result (λ copy. copy ≡ self.now.letters) }
    {
        self.front(alloc, self.letters.len())
    }

    /// A copy of so many letters from the first on, or of all where there are fewer.
    fn front(&self, alloc: Global, count: usize) -> Mem<List<Letter>>
        ensures { IfOk result (λ copy. copy ≡ take count self.now.letters) }
    {
        let mut copy = List::new(alloc);
        for index in 0..count {
            let Some(letter) = self.letters.get(index) else {
                return Ok(copy);
            };
            copy.push(letter.try_clone(alloc)?)?;
        }
        Ok(copy)
    }
}
