//! Rows of replays.
use crate::entries::{entries_of, record};
use crate::job::routes;
use address_routing::Routes;
use proto_wire::{List, Mem};
use row_text::{Failure, calls_of};
use run_record::{Entry, Machine, ReplayFault, Replayed, replay};
use sf_outside::{IngressRecord, MemoryIngress};
use std::alloc::Global;

/// How a replay ended.
#[derive(Drop)]
enum ReplayEnd {
    State(Machine),
    NotAllowed(u64),
    IngressFault,
    OutOfMemory,
}

/// What a replay comes to: `KEYS|READS|ENTRIES`, over the records of these keys in split 0, of which the reads `read:N` fail.
pub(crate) fn replayed(alloc: Global, row: &str) -> Result<String, Failure> {
    let mut fields = row.split('|');
    let records = records_of(alloc, fields.next().unwrap_or(""))?;
    let reads = calls_of(alloc, fields.next().unwrap_or(""), "read:")?;
    let entries = entries_of(alloc, fields.next().unwrap_or(""))?;
    let mut splits = List::new(alloc);
    splits.push(records)?;
    let ingress = MemoryIngress::new(alloc, splits, reads)?;
    ran_text(alloc, ran(alloc, &entries, &routes(alloc)?, ingress))
}

fn records_of(alloc: Global, keys: &str) -> Mem<List<IngressRecord>> {
    let mut records = List::new(alloc);
    for key in keys.split_whitespace() {
        records.push(record(alloc, key)?)?;
    }
    Ok(records)
}

/// The one call of the replay.
fn ran(
    alloc: Global,
    entries: &List<Entry>,
    routes: &Routes,
    mut ingress: MemoryIngress,
) -> ReplayEnd {
    match replay(alloc, entries, routes, &mut ingress) {
        Ok(Replayed::State(machine)) => ReplayEnd::State(machine),
        Ok(Replayed::NotAllowed(place)) => ReplayEnd::NotAllowed(place),
        Err(ReplayFault::IngressFault) => ReplayEnd::IngressFault,
        Err(ReplayFault::OutOfMemory) => ReplayEnd::OutOfMemory,
    }
}

fn ran_text(alloc: Global, ran: ReplayEnd) -> Result<String, Failure> {
    match ran {
        ReplayEnd::State(machine) => taken_text(alloc, machine.taken(0), machine.taken(1)),
        ReplayEnd::NotAllowed(place) => Ok(format!(in alloc; "  not allowed at {place}\n")?),
        ReplayEnd::IngressFault => Ok(String::from_str(alloc, "  ingress fault\n")?),
        ReplayEnd::OutOfMemory => Err(Failure::OutOfMemory),
    }
}

fn taken_text(alloc: Global, first: u64, second: u64) -> Result<String, Failure> {
    Ok(format!(in alloc; "  replays, taken {first} {second}\n")?)
}
