//! The run of a row.
use crate::module_file::file_of;
use crate::records::splits_of;
use crate::row::Row;
use crate::script::turns_of;
use proto_wire::{Bytes, List};
use row_text::{Failure, calls_of, words_of};
use run_record::Entry;
use sf_clock::ScriptClock;
use sf_outside::{MemoryIngress, MemorySink, MemorySource, ScriptLink};
use statefun_cli::{PlainRun, statefun_run};
use std::alloc::Global;

/// What came of a run.
#[derive(Drop)]
pub(crate) struct Made {
    /// The status of its end.
    pub(crate) status: u8,
    pub(crate) entries: List<Entry>,
    pub(crate) link: ScriptLink,
    pub(crate) out: MemorySink,
}

/// The objects of a run.
#[derive(Drop)]
struct Objects {
    file: MemorySource,
    ingress: MemoryIngress,
    link: ScriptLink,
    clock: ScriptClock,
    out: MemorySink,
}

/// Makes the run of a row.
pub(crate) fn make(alloc: Global, row: &Row) -> Result<Made, Failure> {
    let words = words_of(alloc, row.words)?;
    let objects = objects_of(alloc, row)?;
    Ok(ran(alloc, words.as_slice(), objects))
}

fn objects_of(alloc: Global, row: &Row) -> Result<Objects, Failure> {
    let failing = |prefix| calls_of(alloc, row.failing, prefix);
    let file = file_of(alloc, row.file)?;
    let splits = splits_of(alloc, row.records)?;
    let turns = turns_of(alloc, row.script)?;
    let moments = calls_of(alloc, row.moments, "")?;
    Ok(Objects {
        file: MemorySource::new(alloc, file, failing("file:")?)?,
        ingress: MemoryIngress::new(alloc, splits, failing("read:")?)?,
        link: ScriptLink::new(alloc, turns, failing("link:")?)?,
        clock: ScriptClock::steady(alloc, moments)?,
        out: MemorySink::new(alloc, Bytes::new(alloc), failing("write:")?)?,
    })
}

/// The one call of the run.
fn ran(alloc: Global, words: &[String], mut objects: Objects) -> Made {
    let PlainRun { end, entries } = statefun_run(
        alloc,
        words,
        &mut objects.file,
        &mut objects.ingress,
        &mut objects.link,
        &mut objects.clock,
        &mut objects.out,
    );
    Made {
        status: end.status(),
        entries,
        link: objects.link,
        out: objects.out,
    }
}
