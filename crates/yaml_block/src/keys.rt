//! Keys that a mapping has already.
ghost use Rattle.std.specs.Prelude.{◌≡◌, [], ◌∷◌, ◌++◌, IfOk};
ghost use Rattle.std.specs.List.{list_any};
ghost use Rattle.std.specs.Str.{bytes_eq};

use proto_wire::{List, Mem, Text, TryClone};
use std::alloc::Global;
use std::collections::BTreeSet;
use std::marker::Model;

/// Keys of one mapping. Contracts see the list of them, in the order of the lines.
#[derive(Drop)]
pub(crate) struct Keys {
    in_order: List<Text>,
    /// The same keys, so that one of many is found fast.
    known: BTreeSet<String>,
}

impl Model for Keys {
    ghost use Rattle.std.specs.Prelude.{ℕ, List, ◌≡◌};
    ghost use Rattle.std.specs.BTreeSet.{contains_text};
    ghost use Rattle.std.specs.List.{list_any};
    ghost use Rattle.std.specs.Str.{bytes_eq};

    ghost Value = { List (List ℕ) };

    ghost view = { λ k. k.in_order };

    ghost invariant = { λ k. (key : List ℕ) → contains_text k.known key ≡ list_any (bytes_eq key) k.in_order };
}

impl Keys {
    pub(crate) fn new(alloc: Global) -> Keys
        ensures { result ≡ [] }
    {
        Keys {
            in_order: List::new(alloc),
            known: BTreeSet::new(alloc),
        }
    }

    /// Whether a key is among them.
    pub(crate) fn has(&self, key: &Text) -> bool
        ensures { result ≡ list_any (bytes_eq key.now) self.now }
    {
        self.known.contains(key.as_str())
    }

    /// These keys and one more. An `Err` drops them.
    pub(crate) fn and(self, alloc: Global, key: &Text) -> Mem<Keys>
        ensures { IfOk result (λ more. more ≡ self ++ key.now ∷ []) }
    {
        let Keys {
            mut in_order,
            mut known,
        } = self;
        known.insert(String::from_str(alloc, key.as_str())?)?;
        in_order.push(key.try_clone(alloc)?)?;
        Ok(Keys { in_order, known })
    }
}
