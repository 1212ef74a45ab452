//! Queues by key.
ghost use Rattle.std.specs.Prelude.{◌≡◌, ◌+◌, ◌-◌, [], ◌∷◌, ◌++◌, drop, take, length, slice_get, OnOk, OnErr, IsTrue, ◌↔◌, option_copied};
ghost use Rattle.std.specs.BTreeMap.{IsOrdered};
ghost use Rattle.keyed_queues.specs.Queues.{AreBlank, AreExact, AreReadIn, list_at, list_of, SetsAt};

use crate::exact::Exact;
use crate::queue::Queue;
use proto_wire::{Mem, TryClone};
use std::alloc::Global;
use std::collections::BTreeMap;

/// What queues go by: keys that compare alike are one.
pub trait Key: Ord + TryClone + Drop {
    ghost use Rattle.keyed_queues.specs.Queues.{AreExact};

    ghost exact: { AreExact Self.cmp };
}

/// A queue for each key, most of them empty.
#[derive(Drop)]
pub struct Shelf<K: Ord, T> {
    pub(crate) queues: BTreeMap<K, Queue<T>>,
}

impl<K: Key, T: Drop> Shelf<K, T> {
    /// All queues are empty. Takes no memory.
    pub fn new(alloc: Global) -> Shelf<K, T>
        ensures { result.queues.entries ≡ [] }
    {
        Shelf {
            queues: BTreeMap::new(alloc),
        }
    }

    /// The value at a place of a key's queue.
    pub fn get(&self, key: &K, index: usize) -> Option<&T>
        ensures { option_copied result ≡ slice_get (list_at K.cmp self.now.queues key.now) index }
    {
        match self.queues.get(key) {
            Some(queue) => queue.get(index),
            None => None,
        }
    }

    /// Adds a value at the end of a key's queue. An `Err` changes no queue, and the value is dropped.
    pub fn push(&mut self, alloc: Global, key: &K, value: T) -> Mem<()>
        ensures ok { OnOk result (SetsAt (list_at K.cmp self.old.queues) (list_at K.cmp self.new.queues)
            key.now (list_at K.cmp self.old.queues key.now ++ value ∷ [])) }
        ensures err { OnErr result ((other : K) → list_at K.cmp self.new.queues other ≡ list_at K.cmp self.old.queues other) }
    {
        if let Some(queue) = self.queues.get_mut(key) {
            return queue.push(value);
        }
        let mut queue = Queue::new(alloc);
        queue.push(value)?;
        self.queues.insert(key.try_clone(alloc)?, queue)?;
        Ok(())
    }

    /// Drops the first value of a key's queue, if there is one.
    pub fn drop_first(&mut self, key: &K)
        ensures { SetsAt (list_at K.cmp self.old.queues) (list_at K.cmp self.new.queues)
            key.now (drop 1 (list_at K.cmp self.old.queues key.now)) }
    {
        if let Some(queue) = self.queues.get_mut(key) {
            queue.drop_first();
        }
        self.forget_empty(key);
    }

    /// Drops the last value of a key's queue, if there is one.
    pub fn drop_last(&mut self, key: &K)
        ensures { SetsAt (list_at K.cmp self.old.queues) (list_at K.cmp self.new.queues)
            key.now (take (length (list_at K.cmp self.old.queues key.now) - 1) (list_at K.cmp self.old.queues key.now)) }
    {
        if let Some(queue) = self.queues.get_mut(key) {
            queue.drop_last();
        }
        self.forget_empty(key);
    }

    // Forgets the queue of a key where it is empty. Changes no list.
    fn forget_empty(&mut self, key: &K)
        ensures { (other : K) → list_at K.cmp self.new.queues other ≡ list_at K.cmp self.old.queues other }
    {
        if self.has_none(key) {
            self.queues.remove(key);
        }
    }

    // Whether a key has no values.
    fn has_none(&self, key: &K) -> bool
        ensures { IsTrue result → list_at K.cmp self.now.queues key.now ≡ [] }
    {
        match self.queues.get(key) {
            Some(queue) => queue.is_empty(),
            None => true,
        }
    }

    /// Whether all queues are empty.
    pub fn is_empty(&self) -> bool
        ensures { IsTrue result → (key : K) → list_at K.cmp self.now.queues key ≡ [] }
    {
        self.queues.is_empty()
    }
}

impl<K: Key, T: Exact> Shelf<K, T> {
    /// Whether each key has in another shelf the list that it has in this one. Takes no memory.
    pub fn same(&self, other: &Shelf<K, T>) -> bool
        ensures { IsTrue result ↔ ((key : K) → list_at K.cmp self.now.queues key ≡ list_at K.cmp other.now.queues key) }
    {
        self.is_in(other) && other.is_in(self)
    }

    // Whether each key that has a queue has the same list in another shelf.
    fn is_in(&self, other: &Shelf<K, T>) -> bool
        ensures alike { IsTrue result ↔ AreReadIn K.cmp list_of other.now.queues self.now.queues.entries }
        ensures ordered { IsOrdered K.cmp self.now.queues }
    {
        for (key, queue) in &self.queues {
            if !other.has(key, queue) {
                return false;
            }
        }
        true
    }

    // Whether a list is that of a key.
    fn has(&self, key: &K, queue: &Queue<T>) -> bool
        ensures { IsTrue result ↔ (queue.now ≡ list_at K.cmp self.now.queues key.now) }
    {
        match self.queues.get(key) {
            Some(own) => queue.same(own),
            None => queue.is_empty(),
        }
    }

    /// Whether no key has a value. Takes no memory.
    pub fn is_blank(&self) -> bool
        ensures { IsTrue result ↔ ((key : K) → list_at K.cmp self.now.queues key ≡ []) }
    {
        self.are_blank()
    }

    // Whether each queue that is there is empty.
    fn are_blank(&self) -> bool
        ensures blank { IsTrue result ↔ AreBlank self.now.queues.entries }
        ensures ordered { IsOrdered K.cmp self.now.queues }
    {
        for (_key, queue) in &self.queues {
            if !queue.is_empty() {
                return false;
            }
        }
        true
    }
}
