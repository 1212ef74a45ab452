//! How much egress a replayed machine keeps.
use address_routing::Module;
use run_record::{Entry, Machine, Reply, Step};
use typed_values::{Address, TypeName};

/// How many records the addresses of a record's batches gave to the egresses of a job.
pub(crate) fn kept_of(machine: &Machine, job: &Module, entries: &[Entry]) -> usize {
    let mut kept = 0usize;
    for (place, entry) in entries.iter().enumerate() {
        let (earlier, _) = entries.split_at(place);
        if let Step::Batch(reply) = &entry.step {
            if !has_served(earlier, &reply.address) {
                kept = kept.saturating_add(kept_by(machine, job, reply));
            }
        }
    }
    kept
}

/// Whether one of some entries is a batch of an address.
fn has_served(entries: &[Entry], address: &Address) -> bool {
    for entry in entries {
        if let Step::Batch(reply) = &entry.step {
            if reply.address == *address {
                return true;
            }
        }
    }
    false
}

fn kept_by(machine: &Machine, job: &Module, reply: &Reply) -> usize {
    let mut kept = 0usize;
    for name in job.egresses.as_slice() {
        kept = kept.saturating_add(kept_in(machine, &reply.address, name));
    }
    kept
}

fn kept_in(machine: &Machine, address: &Address, name: &TypeName) -> usize {
    for place in 0..usize::MAX {
        if machine.egress(address, name, place).is_none() {
            return place;
        }
    }
    usize::MAX
}
