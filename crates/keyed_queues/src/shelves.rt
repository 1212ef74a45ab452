//! Queues by pairs of keys.
ghost use Rattle.std.specs.Prelude.{◌≡◌, ◌+◌, ◌-◌, [], ◌∷◌, ◌++◌, drop, take, length, slice_get, OnOk, OnErr, IfOk, IsTrue, ◌↔◌, Some, option_copied, List, map};
ghost use Rattle.std.specs.BTreeMap.{get, IsOrdered};
ghost use Rattle.keyed_queues.specs.Queues.{AreReadIn, lists_of, list_in, ChangesIn, HasBehind, place_of};
ghost use Rattle.keyed_queues.specs.declared.shelves.Placed.{Placed};

use crate::exact::Exact;
use crate::shelf::{Key, Shelf};
use proto_wire::{Mem, OutOfMemory};
use std::alloc::{AllocFailed, Global};
use std::collections::BTreeMap;

/// A pair of keys.
#[derive(Drop)]
pub struct Place<A, B> {
    pub outer: A,
    pub inner: B,
}

/// A value, and the pair of keys to whose queue it goes.
#[derive(Drop)]
pub struct Placed<A, B, T> {
    pub outer: A,
    pub inner: B,
    pub value: T,
}

/// A queue for each pair of an outer and an inner key, most of them empty.
#[derive(Drop)]
pub struct Shelves<A: Ord, B: Ord, T> {
    pub(crate) shelves: BTreeMap<A, Shelf<B, T>>,
}

impl<A: Key, B: Key, T: Drop> Shelves<A, B, T> {
    /// All queues are empty. Takes no memory.
    pub fn new(alloc: Global) -> Shelves<A, B, T>
        ensures { result.shelves.entries ≡ [] }
    {
        Shelves {
            shelves: BTreeMap::new(alloc),
        }
    }

    /// The value at a place of a pair's queue.
    pub fn get(&self, outer: &A, inner: &B, index: usize) -> Option<&T>
        ensures { option_copied result ≡ slice_get (list_in A.cmp B.cmp self.now.shelves outer.now inner.now) index }
    {
        match self.shelves.get(outer) {
            Some(shelf) => shelf.get(inner, index),
            None => None,
        }
    }

    /// Adds a value at the end of a pair's queue. An `Err` changes no queue, and the value is dropped.
    pub fn push(&mut self, alloc: Global, outer: &A, inner: &B, value: T) -> Mem<()>
        ensures ok { OnOk result (ChangesIn (list_in A.cmp B.cmp self.old.shelves) (list_in A.cmp B.cmp self.new.shelves)
            outer.now inner.now (list_in A.cmp B.cmp self.old.shelves outer.now inner.now ++ value ∷ [])) }
        ensures err { OnErr result ((a : A) → (b : B) →
            list_in A.cmp B.cmp self.new.shelves a b ≡ list_in A.cmp B.cmp self.old.shelves a b) }
    {
        if let Some(shelf) = self.shelves.get_mut(outer) {
            return shelf.push(alloc, inner, value);
        }
        let mut shelf = Shelf::new(alloc);
        shelf.push(alloc, inner, value)?;
        self.shelves.insert(outer.try_clone(alloc)?, shelf)?;
        Ok(())
    }

    /// Drops the first value of a pair's queue, if there is one.
    pub fn drop_first(&mut self, outer: &A, inner: &B)
        ensures { ChangesIn (list_in A.cmp B.cmp self.old.shelves) (list_in A.cmp B.cmp self.new.shelves)
            outer.now inner.now (drop 1 (list_in A.cmp B.cmp self.old.shelves outer.now inner.now)) }
    {
        if let Some(shelf) = self.shelves.get_mut(outer) {
            shelf.drop_first(inner);
        }
        self.forget_empty(outer);
    }

    /// Drops the last value of a pair's queue, if there is one.
    pub fn drop_last(&mut self, outer: &A, inner: &B)
        ensures { ChangesIn (list_in A.cmp B.cmp self.old.shelves) (list_in A.cmp B.cmp self.new.shelves)
            outer.now inner.now (take (length (list_in A.cmp B.cmp self.old.shelves outer.now inner.now) - 1)
            (list_in A.cmp B.cmp self.old.shelves outer.now inner.now)) }
    {
        if let Some(shelf) = self.shelves.get_mut(outer) {
            shelf.drop_last(inner);
        }
        self.forget_empty(outer);
    }

    // Forgets the queues of an outer key where all are empty. Changes no list.
    fn forget_empty(&mut self, outer: &A)
        ensures { (a : A) → (b : B) → list_in A.cmp B.cmp self.new.shelves a b ≡ list_in A.cmp B.cmp self.old.shelves a b }
    {
        if self.has_none(outer) {
            self.shelves.remove(outer);
        }
    }

    // Whether an outer key has no values.
    fn has_none(&self, outer: &A) -> bool
        ensures { IsTrue result → (b : B) → list_in A.cmp B.cmp self.now.shelves outer.now b ≡ [] }
    {
        match self.shelves.get(outer) {
            Some(shelf) => shelf.is_empty(),
            None => true,
        }
    }

    /// Adds values at the ends of their pairs' queues, in order, and answers where. An `Err` changes no queue.
    pub fn push_all(&mut self, alloc: Global, items: Vec<Placed<A, B, T>>) -> Mem<Vec<Place<A, B>>>
        ensures places { IfOk result (λ places. places.items ≡ map place_of items.items) }
        ensures ok { OnOk result (HasBehind A.cmp B.cmp
            (list_in A.cmp B.cmp self.old.shelves) items.items (list_in A.cmp B.cmp self.new.shelves)) }
        ensures err { OnErr result ((a : A) → (b : B) →
            list_in A.cmp B.cmp self.new.shelves a b ≡ list_in A.cmp B.cmp self.old.shelves a b) }
    {
        let mut done = Vec::with_capacity(alloc, items.len())?;
        for item in items {
            if let Err(refused) = self.push_placed(alloc, item, &mut done) {
                self.withdraw(done.as_slice());
                return Err(refused);
            }
        }
        Ok(done)
    }

    // Adds one value, and notes where.
    fn push_placed(
        &mut self,
        alloc: Global,
        item: Placed<A, B, T>,
        done: &mut Vec<Place<A, B>>,
    ) -> Mem<()>
        ensures ok { OnOk result (HasBehind A.cmp B.cmp
            (list_in A.cmp B.cmp self.old.shelves) (item ∷ []) (list_in A.cmp B.cmp self.new.shelves)) }
        ensures noted { OnOk result (done.new.items ≡ done.old.items ++ place_of item ∷ []) }
        ensures err { OnErr result ((a : A) → (b : B) →
            list_in A.cmp B.cmp self.new.shelves a b ≡ list_in A.cmp B.cmp self.old.shelves a b) }
        ensures kept { OnErr result (done.new.items ≡ done.old.items) }
    {
        let Placed {
            outer,
            inner,
            value,
        } = item;
        self.push(alloc, &outer, &inner, value)?;
        match done.push(Place { outer, inner }) {
            Ok(()) => Ok(()),
            Err(AllocFailed { value: place }) => {
                self.drop_last(&place.outer, &place.inner);
                Err(OutOfMemory)
            }
        }
    }

    /// Takes away the values that were added last at these pairs, in this order.
    pub fn withdraw(&mut self, places: &[Place<A, B>])
        ensures { (before : A → B → List T) (items : List (Placed A B T)) → map place_of items ≡ places.now →
            HasBehind A.cmp B.cmp before items (list_in A.cmp B.cmp self.old.shelves) →
            (a : A) → (b : B) → list_in A.cmp B.cmp self.new.shelves a b ≡ before a b }
    {
        for gone in 0..places.len() {
            let place = &places[places.len() - 1 - gone];
            self.drop_last(&place.outer, &place.inner);
        }
    }
}

impl<A: Key, B: Key, T: Exact> Shelves<A, B, T> {
    /// Whether each pair of keys has in other shelves the list that it has in these. Takes no memory.
    pub fn same(&self, other: &Shelves<A, B, T>) -> bool
        ensures { IsTrue result ↔ ((a : A) → (b : B) →
            list_in A.cmp B.cmp self.now.shelves a b ≡ list_in A.cmp B.cmp other.now.shelves a b) }
    {
        self.is_in(other) && other.is_in(self)
    }

    // Whether each outer key that has a shelf has the same lists in other shelves.
    fn is_in(&self, other: &Shelves<A, B, T>) -> bool
        ensures alike { IsTrue result ↔ AreReadIn A.cmp (lists_of B.cmp) other.now.shelves self.now.shelves.entries }
        ensures ordered { IsOrdered A.cmp self.now.shelves }
    {
        for (outer, shelf) in &self.shelves {
            if !other.has(outer, shelf) {
                return false;
            }
        }
        true
    }

    // Whether the lists of a shelf are those of an outer key.
    fn has(&self, outer: &A, shelf: &Shelf<B, T>) -> bool
        ensures { IsTrue result ↔ (lists_of B.cmp (Some shelf.now) ≡ lists_of B.cmp (get A.cmp self.now.shelves outer.now)) }
    {
        match self.shelves.get(outer) {
            Some(own) => shelf.same(own),
            None => shelf.is_blank(),
        }
    }
}
