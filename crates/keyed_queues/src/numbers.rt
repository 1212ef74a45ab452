//! Numbers by key.
ghost use Rattle.std.specs.Prelude.{◌≡◌, [], IsSome, OnOk, OnErr};
ghost use Rattle.std.specs.BTreeMap.{get};
ghost use Rattle.keyed_queues.specs.Queues.{number_at, SetsAt};

use crate::shelf::Key;
use proto_wire::Mem;
use std::alloc::Global;
use std::collections::BTreeMap;

/// A number for each key, most of them 0.
#[derive(Drop)]
pub struct Numbers<K: Ord> {
    pub(crate) numbers: BTreeMap<K, u64>,
}

impl<K: Key> Numbers<K> {
    /// All numbers are 0. Takes no memory.
    pub fn new(alloc: Global) -> Numbers<K>
        ensures { result.numbers.entries ≡ [] }
    {
        Numbers {
            numbers: BTreeMap::new(alloc),
        }
    }

    /// The number of a key.
    pub fn at(&self, key: &K) -> u64
        ensures { result ≡ number_at K.cmp self.now.numbers key.now }
    {
        match self.numbers.get(key) {
            Some(number) => *number,
            None => 0,
        }
    }

    /// Makes room for a key's number. Changes no number.
    pub fn reserve(&mut self, alloc: Global, key: &K) -> Mem<()>
        ensures room { OnOk result (IsSome (get K.cmp self.new.numbers key.now)) }
        ensures same { (other : K) → number_at K.cmp self.new.numbers other ≡ number_at K.cmp self.old.numbers other }
    {
        if self.numbers.contains_key(key) {
            return Ok(());
        }
        self.numbers.insert(key.try_clone(alloc)?, 0)?;
        Ok(())
    }

    /// Sets the number of a key for which there is room.
    pub fn set_reserved(&mut self, key: &K, number: u64)
        requires { IsSome (get K.cmp self.old.numbers key.now) }
        ensures { SetsAt (number_at K.cmp self.old.numbers) (number_at K.cmp self.new.numbers) key.now number }
    {
        if let Some(stands) = self.numbers.get_mut(key) {
            *stands = number;
        }
    }

    /// Sets the number of a key. An `Err` changes no number.
    pub fn set(&mut self, alloc: Global, key: &K, number: u64) -> Mem<()>
        ensures ok { OnOk result (SetsAt (number_at K.cmp self.old.numbers) (number_at K.cmp self.new.numbers) key.now number) }
        ensures err { OnErr result ((other : K) → number_at K.cmp self.new.numbers other ≡ number_at K.cmp self.old.numbers other) }
    {
        self.reserve(alloc, key)?;
        self.set_reserved(key, number);
        Ok(())
    }
}
