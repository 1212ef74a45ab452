//! Queues.
ghost use Rattle.std.specs.Prelude.{◌≡◌, ◌+◌, ◌-◌, [], ◌∷◌, ◌++◌, drop, take, length, slice_get, OnOk, OnErr, IsTrue, ◌↔◌, option_copied};

use crate::exact::Exact;
use proto_wire::Mem;
use std::alloc::Global;
use std::collections::VecDeque;
use std::marker::Model;

/// A list that grows at its end and is taken from its front. Contracts see the list of its values.
#[derive(Drop)]
pub struct Queue<T> {
    items: VecDeque<T>,
}

impl<T> Model for Queue<T> {
    ghost use Rattle.std.specs.Prelude.{List};
    ghost use Rattle.std.specs.Coded.{coded_list};

    ghost Value = { List T };

    ghost coded = { coded_list T.code };

    ghost view = { λ q. q.items.items };
}

impl<T> Queue<T> {
    /// No values. Takes no memory.
    pub fn new(alloc: Global) -> Queue<T>
        ensures { result ≡ [] }
    {
        Queue {
            items: VecDeque::new(alloc),
        }
    }

    /// Whether there are no values.
    pub fn is_empty(&self) -> bool
        ensures { IsTrue result ↔ (self.now ≡ []) }
    {
        self.items.is_empty()
    }

    /// The value at a place, counted from the front.
    pub fn get(&self, index: usize) -> Option<&T>
        ensures { option_copied result ≡ slice_get self.now index }
    {
        self.items.get(index)
    }
}

impl<T: Drop> Queue<T> {
    /// Adds a value at the end. An `Err` changes nothing, and the value is dropped.
    pub fn push(&mut self, value: T) -> Mem<()>
        ensures ok { OnOk result (self.new ≡ self.old ++ value ∷ []) }
        ensures err { OnErr result (self.new ≡ self.old) }
    {
        self.items.push_back(value)?;
        Ok(())
    }

    /// Drops the first value, if there is one.
    pub fn drop_first(&mut self)
        ensures { self.new ≡ drop 1 self.old }
    {
        let _first = self.items.pop_front();
    }

    /// Drops the last value, if there is one.
    pub fn drop_last(&mut self)
        ensures { self.new ≡ take (length self.old - 1) self.old }
    {
        let _last = self.items.pop_back();
    }
}

impl<T: Exact> Queue<T> {
    /// Whether another queue has the same values in the same order. Takes no memory.
    pub fn same(&self, other: &Queue<T>) -> bool
        ensures { IsTrue result ↔ (self.now ≡ other.now) }
    {
        if self.items.len() != other.items.len() {
            return false;
        }
        for place in 0..self.items.len() {
            if !self.items[place].same(&other.items[place]) {
                return false;
            }
        }
        true
    }
}
