//! A record of the machine that is replayed.
use crate::failure::Failure;
use crate::job::job;
use crate::parts::{address, id};
use crate::steps::step_at;
use crate::tally::Tally;
use address_routing::Routes;
use proto_wire::{Bytes, List, Mem};
use run_record::{Entry, ReplayFault, Replayed, Step, replay};
use sf_outside::{IngressRecord, MemoryIngress};
use std::alloc::Global;
use typed_values::Address;

/// The addresses of the record.
pub(crate) const ADDRESSES: u32 = 1_000;

/// Makes a record of so many entries over a thousand addresses, with cells, messages and delays, and replays it in each round.
pub(crate) fn work(alloc: Global, count: u32, rounds: u32) -> Result<Tally, Failure> {
    let routes = Routes::new(alloc, job(alloc)?)?;
    let entries = entries(alloc, count)?;
    let mut splits = List::new(alloc);
    splits.push(records(alloc, count)?)?;
    let mut ingress = MemoryIngress::new(alloc, splits, List::new(alloc))?;
    let mut same = true;
    for _ in 0..rounds {
        let whole = replays(alloc, &entries, &routes, &mut ingress)?;
        same = same && whole;
    }
    Ok(Tally {
        bytes: answer_bytes(entries.as_slice()),
        same,
    })
}

/// The function of an address' number.
pub(crate) fn function(alloc: Global, number: u32) -> Mem<Address> {
    address(alloc, "greeter", number % ADDRESSES)
}

fn entries(alloc: Global, count: u32) -> Result<List<Entry>, Failure> {
    let mut entries = List::new(alloc);
    for number in 0..count {
        entries.push(Entry {
            leg: 1,
            stamp: u64::from(number),
            node: 0,
            step: step_at(alloc, number)?,
        })?;
    }
    Ok(entries)
}

/// How many bytes the answers of the batches have.
fn answer_bytes(entries: &[Entry]) -> usize {
    let mut bytes = 0usize;
    for entry in entries {
        if let Step::Batch(reply) = &entry.step {
            bytes = bytes.saturating_add(reply.answer.len());
        }
    }
    bytes
}

/// More records than the entries take, for one address after the other.
fn records(alloc: Global, count: u32) -> Mem<List<IngressRecord>> {
    let mut records = List::new(alloc);
    for number in 0..(count / 4).saturating_add(ADDRESSES) {
        records.push(IngressRecord {
            key: id(alloc, number % ADDRESSES)?,
            value: Bytes::copy_of(alloc, b"an order")?,
        })?;
    }
    Ok(records)
}

/// Whether the record replays whole.
fn replays(
    alloc: Global,
    entries: &List<Entry>,
    routes: &Routes,
    ingress: &mut MemoryIngress,
) -> Result<bool, Failure> {
    match replay(alloc, entries, routes, ingress) {
        Ok(Replayed::State(_machine)) => Ok(true),
        Ok(Replayed::NotAllowed(_place)) => Ok(false),
        Err(ReplayFault::IngressFault) => Err(Failure::Fault),
        Err(ReplayFault::OutOfMemory) => Err(Failure::OutOfMemory),
    }
}
