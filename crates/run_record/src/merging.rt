//! Lists of entries, merged into one record.
ghost use Rattle.std.specs.Prelude.{◌≡◌, IfOk, flat_map};
ghost use Rattle.run_record.specs.Record.{merged};

use crate::Entry;
use proto_wire::{List, Mem};
use std::alloc::Global;

/// The key of an entry: leg, then stamp, then node.
#[derive(Clone, Copy, PartialEq, Eq, PartialOrd, Ord)]
struct EntryKey {
    leg: u64,
    stamp: u64,
    node: u32,
}

/// The entries of lists, one list after the other.
fn joined(alloc: Global, lists: List<List<Entry>>) -> Mem<Vec<Entry>>
    ensures { IfOk result (λ entries. entries.items ≡ flat_map (λ list. list) lists) }
{
    let mut entries = Vec::new(alloc);
    for list in lists.into_vec() {
        let mut part = list.into_vec();
        entries.append(&mut part)?;
    }
    Ok(entries)
}

/// Lists of entries as one, in order of their keys. Entries of equal keys stand as in the lists, one list after the other.
pub fn merge(alloc: Global, lists: List<List<Entry>>) -> Mem<List<Entry>>
    ensures { IfOk result (λ entries. entries ≡ merged lists) }
{
    let mut entries = joined(alloc, lists)?;
    entries.sort_by_key(|entry| EntryKey {
        leg: entry.leg,
        stamp: entry.stamp,
        node: entry.node,
    })?;
    Ok(List::of(entries))
}
