//! The steps of a run so far, and what they gave to egresses.
ghost use Rattle.std.specs.Prelude.{◌≡◌, ◌∷◌, ◌++◌, [], length, filter, IfOk, OnOk, OnErr};
ghost use Rattle.statefun_driver.specs.Turns.{is_take, taken_in};
ghost use Rattle.statefun_driver.specs.Parted.{given_by, IsParted};

use proto_wire::{List, Mem};
use run_record::{Entry, Step};
use std::alloc::Global;
use std::marker::Model;
use typed_values::EgressRecord;

/// Steps steps. Contracts see the list of them.
#[derive(Drop)]
pub(crate) struct Steps {
    entries: List<Entry>,
    egress: Vec<EgressRecord>,
}

impl Model for Steps {
    ghost use Rattle.std.specs.Prelude.{List};
    ghost use Rattle.run_record.specs.declared.entry.Entry.{Entry};
    ghost use Rattle.std.specs.Prelude.{◌≡◌};
    ghost use Rattle.run_record.specs.Egress.{egress_of};

    ghost Value = { List Entry };

    ghost view = { λ r. r.entries };

    ghost invariant = { λ r. r.egress.items ≡ egress_of r.entries };
}

/// Steps steps, parted, and what they gave to egresses.
#[derive(Drop)]
pub struct Cut {
    /// Those that take a record, in order.
    pub takes: List<Entry>,
    /// All others, in order.
    pub others: List<Entry>,
    pub egress: List<EgressRecord>,
}

impl Steps {
    /// No steps. Takes no memory.
    #[tactic(auto, unfolding(run_record::specs::Egress::egress_of))]
    pub(crate) fn new(alloc: Global) -> Steps
        ensures { result ≡ [] }
    {
        Steps {
            entries: List::new(alloc),
            egress: Vec::new(alloc),
        }
    }

    /// The steps, lent.
    pub(crate) fn as_slice(&self) -> &[Entry]
        ensures { result.now ≡ self.now }
    {
        self.entries.as_slice()
    }

    /// The steps, without what they gave.
    pub(crate) fn into_entries(self) -> List<Entry>
        ensures { result ≡ self }
    {
        self.entries
    }

    /// Adds a step that gives nothing to egresses. An `Err` leaves the steps as they were.
    pub(crate) fn push(&mut self, entry: Entry) -> Mem<()>
        requires { given_by entry.step ≡ [] }
        ensures ok { OnOk result (self.new ≡ self.old ++ entry ∷ []) }
        ensures err { OnErr result (self.new ≡ self.old) }
    {
        self.entries.push(entry)?;
        Ok(())
    }

    /// Adds a step that gives this to egresses. An `Err` leaves the steps as they were.
    pub(crate) fn push_with(&mut self, entry: Entry, egress: List<EgressRecord>) -> Mem<()>
        requires { given_by entry.step ≡ egress }
        ensures ok { OnOk result (self.new ≡ self.old ++ entry ∷ []) }
        ensures err { OnErr result (self.new ≡ self.old) }
    {
        let mut records = egress.into_vec();
        self.egress.reserve(records.len())?;
        self.entries.push(entry)?;
        match self.egress.append(&mut records) {
            Ok(()) => Ok(()),
            Err(_full) => unreachable!(),
        }
    }

    /// Parts the steps.
    pub(crate) fn part(self, alloc: Global) -> Mem<Cut>
        ensures { IfOk result (IsParted self) }
    {
        let Steps { entries, egress } = self;
        let mut takes = List::new(alloc);
        let mut others = List::new(alloc);
        for entry in entries.into_vec() {
            if is_take(&entry) {
                takes.push(entry)?;
            } else {
                others.push(entry)?;
            }
        }
        Ok(Cut {
            takes,
            others,
            egress: List::of(egress),
        })
    }
}

/// How many records a record of steps takes.
#[tactic(auto, unfolding(crate::specs::Turns::taken_in))]
pub(crate) fn taken_in(entries: &[Entry]) -> u64
    ensures { result ≡ taken_in entries.now }
{
    takes_of(entries) as u64
}

/// How many entries take a record.
fn takes_of(entries: &[Entry]) -> usize
    ensures { result ≡ length (filter is_take entries.now) }
{
    entries.iter().filter(|entry| is_take(entry)).count()
}

/// Whether an entry takes a record.
fn is_take(entry: &Entry) -> bool
    ensures { result ≡ is_take entry.now }
{
    match &entry.step {
        Step::Take(_split) => true,
        Step::Batch(_reply) => false,
        Step::Register(_reply) => false,
        Step::Due { .. } => false,
    }
}
