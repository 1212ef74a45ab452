//! The replay of a run's record.
use crate::comparing::kept_of;
use crate::module_file::file_of;
use crate::records::splits_of;
use crate::row::Row;
use address_routing::Routes;
use module_yaml::{ModuleFault, read_module};
use proto_wire::List;
use row_text::Failure;
use run_record::{Entry, Replayed, replay};
use sf_outside::MemoryIngress;
use std::alloc::Global;

/// What a replayed machine holds.
#[derive(Clone, Copy)]
pub(crate) struct Held {
    /// How many records of splits 0 and 1 were taken.
    pub(crate) taken: [u64; 2],
    /// How many egress records it keeps.
    pub(crate) kept: usize,
}

/// What came of a replay.
#[derive(Clone, Copy)]
pub(crate) enum Again {
    /// There is no job.
    NoJob,
    /// The replay was given up.
    GivenUp,
    /// Each entry was allowed.
    State(Held),
    /// The first entry that is not allowed.
    NotAllowed(u64),
}

/// Replays the entries of a row's run.
pub(crate) fn replay_row(
    alloc: Global,
    row: &Row,
    entries: &List<Entry>,
) -> Result<Again, Failure> {
    let Some(routes) = routes_of(alloc, row.file)? else {
        return Ok(Again::NoJob);
    };
    let ingress = MemoryIngress::steady(alloc, splits_of(alloc, row.replayed())?)?;
    Ok(replayed(alloc, entries, &routes, ingress))
}

/// The one call of the replay.
fn replayed(
    alloc: Global,
    entries: &List<Entry>,
    routes: &Routes,
    mut ingress: MemoryIngress,
) -> Again {
    match replay(alloc, entries, routes, &mut ingress) {
        Ok(Replayed::State(machine)) => Again::State(Held {
            taken: [machine.taken(0), machine.taken(1)],
            kept: kept_of(&machine, routes.module(), entries.as_slice()),
        }),
        Ok(Replayed::NotAllowed(place)) => Again::NotAllowed(place),
        Err(_) => Again::GivenUp,
    }
}

/// The routes of a row's module, if its file is one.
fn routes_of(alloc: Global, field: &str) -> Result<Option<Routes>, Failure> {
    let bytes = file_of(alloc, field)?;
    match read_module(alloc, bytes.as_slice()) {
        Ok(job) => Ok(Some(Routes::new(alloc, job)?)),
        Err(ModuleFault::Refused { .. }) => Ok(None),
        Err(ModuleFault::OutOfMemory) => Err(Failure::OutOfMemory),
    }
}
