//! The run of a module without a folder.
ghost use Rattle.std.specs.Prelude.{◌≡◌, ◌≤◌, [], List, Ok, map, OnOk, OnErr, IsTrue};
ghost use Rattle.std.specs.String.{string_bytes};
ghost use Rattle.sf_outside.specs.Told.{HasCause};
ghost use Rattle.address_routing.specs.Routing.{is_routable};
ghost use Rattle.module_yaml.specs.Files.{AreBounded, module_in};
ghost use Rattle.statefun_driver.specs.Seen.{Objects};
ghost use Rattle.statefun_cli.specs.RunWords.{turns_asked};
ghost use Rattle.statefun_cli.specs.Running.{IsCommandRun, IsModuleRun, IsNoSinkFault, IsPart, IsRunOf, IsSinkCauseOf, IsTold, IsTurnsRun, around, file, run_text, seen_of};

use crate::egress_out::write_egress;
use crate::input::read_up_to;
use crate::output::write_whole;
use crate::{PlainEnd, PlainRun, read_run_words};
use address_routing::{Module, Routes};
use module_yaml::{ModuleFault, read_module};
use proto_wire::{Bytes, List};
use run_record::Entry;
use sf_clock::Clock;
use sf_outside::{Fault, Ingress, Link, Sink, Source};
use statefun_driver::{Ran, World, run};
use std::alloc::Global;

/// The most bytes of a module file.
const LIMIT: usize = 1_048_576;

/// Runs the job of a module file without a folder, from its beginning.
///
/// The words are `run MODULE --turns N`; the file that MODULE names is the caller's to open, and at most 1,048,577 bytes of it
/// are read. The egress of the answers, and then the line of the end, are written to `out`. Answers how the run ended, and the
/// record of its steps.
pub fn statefun_run<Y: Source, I: Ingress, L: Link, C: Clock, O: Sink>(
    alloc: Global,
    words: &[String],
    module: &mut Y,
    ingress: &mut I,
    link: &mut L,
    clock: &mut C,
    out: &mut O,
) -> PlainRun
    // What the words ask for was done.
    ensures ran { (objects : Objects) × IsCommandRun (turns_asked (map string_bytes words.now))
        (file (Y.left «module».old) (Y.faults «module».old)) (file (Y.left «module».new) (Y.faults «module».new))
        (around (seen_of objects (I.lists ingress.old) (C.ahead clock.old) (L.journal link.old) (L.exchanges link.old) (I.faults ingress.old) (L.faults link.old) (L.losses link.old)) (O.written out.old))
        (around (seen_of objects (I.lists ingress.new) (C.ahead clock.new) (L.journal link.new) (L.exchanges link.new) (I.faults ingress.new) (L.faults link.new) (L.losses link.new)) (O.written out.new))
        result.entries result.end }

    // The sink is blamed exactly where it failed.
    ensures sink_cause { IsSinkCauseOf (O.faults out.old) (O.faults out.new) result.end }
{
    match read_run_words(words) {
        Ok(asked) => run_file(alloc, asked.turns, module, ingress, link, clock, out),
        Err(fault) => told(
            alloc,
            out,
            PlainEnd::Usage { word: fault.word },
            List::new(alloc),
            0,
        ),
    }
}

/// Reads a module file to its end, and runs it.
fn run_file<Y: Source, I: Ingress, L: Link, C: Clock, O: Sink>(
    alloc: Global,
    turns: u64,
    module: &mut Y,
    ingress: &mut I,
    link: &mut L,
    clock: &mut C,
    out: &mut O,
) -> PlainRun
    requires turns { turns ≤ 1000000000 }
    ensures ran { (objects : Objects) × IsModuleRun turns
        (file (Y.left «module».old) (Y.faults «module».old)) (file (Y.left «module».new) (Y.faults «module».new))
        (around (seen_of objects (I.lists ingress.old) (C.ahead clock.old) (L.journal link.old) (L.exchanges link.old) (I.faults ingress.old) (L.faults link.old) (L.losses link.old)) (O.written out.old))
        (around (seen_of objects (I.lists ingress.new) (C.ahead clock.new) (L.journal link.new) (L.exchanges link.new) (I.faults ingress.new) (L.faults link.new) (L.losses link.new)) (O.written out.new))
        result.entries result.end }
    ensures sink_cause { IsSinkCauseOf (O.faults out.old) (O.faults out.new) result.end }
{
    match read_up_to(alloc, module, LIMIT) {
        Ok(bytes) => run_bytes(alloc, turns, bytes.as_slice(), ingress, link, clock, out),
        Err(Fault::Failed) => told(alloc, out, PlainEnd::ModuleFault, List::new(alloc), 0),
        Err(Fault::OutOfMemory) => told(alloc, out, PlainEnd::OutOfMemory, List::new(alloc), 0),
    }
}

/// Runs what the bytes of a module file mean.
fn run_bytes<I: Ingress, L: Link, C: Clock, O: Sink>(
    alloc: Global,
    turns: u64,
    bytes: &[u8],
    ingress: &mut I,
    link: &mut L,
    clock: &mut C,
    out: &mut O,
) -> PlainRun
    requires turns { turns ≤ 1000000000 }
    ensures ran { (objects : Objects) × IsRunOf (module_in bytes.now) turns
        (around (seen_of objects (I.lists ingress.old) (C.ahead clock.old) (L.journal link.old) (L.exchanges link.old) (I.faults ingress.old) (L.faults link.old) (L.losses link.old)) (O.written out.old))
        (around (seen_of objects (I.lists ingress.new) (C.ahead clock.new) (L.journal link.new) (L.exchanges link.new) (I.faults ingress.new) (L.faults link.new) (L.losses link.new)) (O.written out.new))
        result.entries result.end }
    ensures sink_cause { IsSinkCauseOf (O.faults out.old) (O.faults out.new) result.end }
{
    match read_module(alloc, bytes) {
        Ok(job) => run_job(alloc, turns, job, ingress, link, clock, out),
        Err(
            ModuleFault::Refused {
                document,
                line,
                kind,
            },
        ) => {
            let end = PlainEnd::ModuleRefused {
                document,
                line,
                kind,
            };
            told(alloc, out, end, List::new(alloc), 0)
        }
        Err(ModuleFault::OutOfMemory) => {
            told(alloc, out, PlainEnd::OutOfMemory, List::new(alloc), 0)
        }
    }
}

/// Runs a module.
fn run_job<I: Ingress, L: Link, C: Clock, O: Sink>(
    alloc: Global,
    turns: u64,
    job: Module,
    ingress: &mut I,
    link: &mut L,
    clock: &mut C,
    out: &mut O,
) -> PlainRun
    requires turns { turns ≤ 1000000000 }
    requires routable { IsTrue (is_routable job) }
    requires bounded { AreBounded job.endpoints }
    ensures ran { (objects : Objects) × IsRunOf (Ok job) turns
        (around (seen_of objects (I.lists ingress.old) (C.ahead clock.old) (L.journal link.old) (L.exchanges link.old) (I.faults ingress.old) (L.faults link.old) (L.losses link.old)) (O.written out.old))
        (around (seen_of objects (I.lists ingress.new) (C.ahead clock.new) (L.journal link.new) (L.exchanges link.new) (I.faults ingress.new) (L.faults link.new) (L.losses link.new)) (O.written out.new))
        result.entries result.end }
    ensures sink_cause { IsSinkCauseOf (O.faults out.old) (O.faults out.new) result.end }
{
    match Routes::new(alloc, job) {
        Ok(routes) => run_turns(alloc, turns, routes, ingress, link, clock, out),
        Err(_) => told(alloc, out, PlainEnd::OutOfMemory, List::new(alloc), 0),
    }
}

/// Makes the turns of a module.
fn run_turns<I: Ingress, L: Link, C: Clock, O: Sink>(
    alloc: Global,
    turns: u64,
    routes: Routes,
    ingress: &mut I,
    link: &mut L,
    clock: &mut C,
    out: &mut O,
) -> PlainRun
    requires turns { turns ≤ 1000000000 }
    requires bounded { AreBounded routes.endpoints }
    ensures ran { (objects : Objects) × IsTurnsRun routes turns
        (around (seen_of objects (I.lists ingress.old) (C.ahead clock.old) (L.journal link.old) (L.exchanges link.old) (I.faults ingress.old) (L.faults link.old) (L.losses link.old)) (O.written out.old))
        (around (seen_of objects (I.lists ingress.new) (C.ahead clock.new) (L.journal link.new) (L.exchanges link.new) (I.faults ingress.new) (L.faults link.new) (L.losses link.new)) (O.written out.new))
        result.entries result.end }
    ensures sink_cause { IsSinkCauseOf (O.faults out.old) (O.faults out.new) result.end }
{
    let mut world = World {
        ingress,
        link,
        clock,
    };
    let Ran { end, entries } = run(alloc, routes, turns, &mut world);
    told(alloc, out, PlainEnd::of(end), entries, turns)
}

/// Tells how a run ended: writes its egress and the line of the end. Nothing is written where memory ran out.
fn told<O: Sink>(
    alloc: Global,
    out: &mut O,
    end: PlainEnd,
    entries: List<Entry>,
    turns: u64,
) -> PlainRun
    requires no_sink { IsNoSinkFault end }
    ensures entries { result.entries ≡ entries }
    ensures told { IsTold (O.written out.old) (O.written out.new) entries turns end result.end }
    ensures sink_cause { IsSinkCauseOf (O.faults out.old) (O.faults out.new) result.end }
{
    let end = match tell(alloc, out, &end, entries.as_slice(), turns) {
        Ok(()) => end,
        Err(Fault::Failed) => PlainEnd::SinkFault,
        Err(Fault::OutOfMemory) => PlainEnd::OutOfMemory,
    };
    PlainRun { end, entries }
}

/// Writes the egress of a record, and the line of an end. An `Err` leaves a part of both, from the front.
fn tell<O: Sink>(
    alloc: Global,
    out: &mut O,
    end: &PlainEnd,
    entries: &[Entry],
    turns: u64,
) -> Result<(), Fault>
    ensures told { OnOk result (IsTold (O.written out.old) (O.written out.new) entries.now turns end.now end.now) }
    ensures part { OnErr result (IsPart (O.written out.old) (O.written out.new) (run_text entries.now turns end.now)) }
    ensures cause { HasCause (O.faults out.old) (O.faults out.new) result }
{
    if matches!(end, PlainEnd::OutOfMemory) {
        return Ok(());
    }
    let mut line = Bytes::new(alloc);
    end.put_line(&mut line, turns)?;
    write_egress(alloc, out, entries)?;
    write_whole(out, line.as_slice())
}
