//! The delays that wait.
ghost use Rattle.std.specs.Prelude.{◌≡◌, ◌+◌, ◌-◌, ◌<◌, ◌≤◌, [], ◌∷◌, ◌++◌, length, count_by, IsTrue, ◌↔◌, IfOk, IfSome, IfNone, OnOk, OnErr, OnSome, option_copied};
ghost use Rattle.std.specs.Option.{option_map};
ghost use Rattle.typed_values.specs.Delays.{is_meant, cancelled, earliest, due_at};
ghost use Rattle.delayed_messages.specs.Waiting.{TakesDue, best_of};

use crate::queue::{Numbered, by_put, delays_of, enqueue, remove_meant};
use proto_wire::{List, Mem, OutOfMemory, Text};
use std::alloc::Global;
use std::collections::VecDeque;
use std::marker::Model;
use typed_values::{Address, Delay};

/// Delays that wait. Contracts see the list of them, in order of put, and how many more can be put with no memory.
#[derive(Drop)]
pub struct Delays {
    queue: VecDeque<Numbered>,
    next: u64,
    alloc: Global,
}

impl Model for Delays {
    ghost use Rattle.std.specs.VecDeque.{deque_capacity, deque_len};
    ghost use Rattle.delayed_messages.specs.Waiting.{Waiting};
    ghost use Rattle.delayed_messages.specs.Queue.{IsQueue, AreBelow, in_order_of_put, room};

    ghost Value = { Waiting };

    ghost view = { λ d. record { delays = in_order_of_put d.queue.items; spare = room (deque_capacity d.queue) (deque_len d.queue) d.next } };

    ghost invariant = { λ d. IsQueue d.queue.items × AreBelow d.next d.queue.items };
}

impl Delays {
    /// No delays. `OutOfMemory` is free.
    pub fn new(alloc: Global) -> Mem<Delays>
        ensures { IfOk result (λ made. made.delays ≡ []) }
    {
        Ok(Delays {
            queue: VecDeque::new(alloc),
            next: 0,
            alloc,
        })
    }

    /// Whether a delay can be put.
    pub fn has_room(&self) -> bool
        ensures { IsTrue result ↔ (0 < self.now.spare) }
    {
        self.queue.len() < self.queue.capacity() && self.next < u64::MAX
    }

    /// Room for so many more. An `Err` changes nothing.
    pub fn reserve(&mut self, more: usize) -> Mem<()>
        ensures delays { self.new.delays ≡ self.old.delays }
        ensures room { OnOk result (more ≤ self.new.spare) }
        ensures spare { self.old.spare ≤ self.new.spare }
    {
        if u64::MAX - self.next < more as u64 {
            return Err(OutOfMemory);
        }
        self.queue.reserve(more)?;
        Ok(())
    }

    /// Puts a delay behind the others. Takes no memory.
    pub fn put(&mut self, delay: Delay)
        requires { 0 < self.old.spare }
        ensures delays { self.new.delays ≡ self.old.delays ++ delay ∷ [] }
        ensures spare { self.old.spare ≤ self.new.spare + 1 }
    {
        let number = self.next;
        self.next += 1;
        enqueue(&mut self.queue, Numbered { number, delay });
    }

    /// Takes out all that a sender put with a token, and gives their number. Takes no memory.
    pub fn cancel(&mut self, sender: &Address, token: &Text) -> u64
        ensures count { result ≡ count_by (is_meant sender.now token.now) self.old.delays }
        ensures delays { self.new.delays ≡ cancelled sender.now token.now self.old.delays }
        ensures spare { self.old.spare ≤ self.new.spare }
    {
        let before = self.queue.len();
        remove_meant(&mut self.queue, sender, token);
        (before - self.queue.len()) as u64
    }

    /// The delay of the least due, the first that was put among equals; `None` exactly where none waits.
    pub fn first(&self) -> Option<&Delay>
        ensures { option_copied result ≡ option_map best_of (earliest self.now.delays) }
    {
        match self.queue.front() {
            Some(kept) => Some(&kept.delay),
            None => None,
        }
    }

    /// Takes out the delay of the least due, the first that was put among equals, where it is due at a moment. None
    /// exactly where no due is at or below the moment. Takes no memory.
    pub fn next_due(&mut self, moment: u64) -> Option<Delay>
        ensures due { TakesDue (due_at moment self.old.delays) self.old.delays result self.new.delays }
        ensures spare { self.old.spare ≤ self.new.spare }
    {
        if self.queue.front()?.delay.due > moment {
            return None;
        }
        Some(self.queue.pop_front()?.delay)
    }

    /// Copies of all that wait, in order of put.
    pub fn waiting(&self) -> Mem<List<Delay>>
        ensures { IfOk result (λ list. list ≡ self.now.delays) }
    {
        delays_of(self.alloc, by_put(self.alloc, &self.queue)?)
    }
}
