//! A run of a module over a folder.
ghost use Rattle.std.specs.Prelude.{◌≡◌, ◌≤◌, List, Ok, map, OnOk, OnErr, IsTrue};
ghost use Rattle.std.specs.String.{string_bytes};
ghost use Rattle.sf_outside.specs.Told.{HasCause};
ghost use Rattle.address_routing.specs.Routing.{is_routable};
ghost use Rattle.module_yaml.specs.Files.{AreBounded, module_in};
ghost use Rattle.statefun_driver.specs.Seen.{Objects};
ghost use Rattle.run_words.specs.Words.{words_asked};
ghost use Rattle.folder_run.specs.Ends.{end_line};
ghost use Rattle.folder_run.specs.Running.{IsCommandRun, IsFolderRun, IsModuleRun, IsNoSinkFault, IsPart, IsRunOf, IsSinkCauseOf, IsTold, around, file, options_of, seen_of};

use crate::RunEnd;
use address_routing::{Module, Routes};
use checkpoint_drive::{Options, drive};
use command_io::{read_up_to, write_whole};
use module_yaml::{ModuleFault, read_module};
use proto_wire::Bytes;
use run_words::{RunWords, read_run_words};
use sf_clock::Clock;
use sf_disk::Disk;
use sf_outside::{Fault, Ingress, Link, Sink, Source};
use statefun_driver::World;
use std::alloc::Global;

/// The most bytes of a module file.
const LIMIT: usize = 1_048_576;

/// Runs the job of a module file over a folder of checkpoints, from its newest checkpoint on.
///
/// The words are `run MODULE FOLDER` and behind them, in any order, `--partitions 1`, `--every K`, `--turns N` and perhaps `--drain`. The
/// file that MODULE names, the logs and the disk of FOLDER are the caller's to open; at most 1,048,577 bytes of the file are read. The
/// run makes at most N legs and saves a checkpoint behind every K-th of them; with `--drain` it ends once nothing is left to do and all
/// is in a checkpoint. The line of the end is written to `out`. Answers how the run ended. Whatever it is, a crash at any moment leaves
/// the folder good where it was good: each checkpoint is what the sequential machine gives on the stored record, each answer in it is
/// one that its endpoint gave, and the committed egress is that of the checkpoints, at most one behind.
pub fn statefun_run<Y: Source, I: Ingress, L: Link, D: Disk, C: Clock, O: Sink>(
    alloc: Global,
    words: &[String],
    module: &mut Y,
    ingress: &mut I,
    link: &mut L,
    disk: &mut D,
    clock: &mut C,
    out: &mut O,
) -> RunEnd
    // What the words ask for was done.
    ensures ran { (objects : Objects) × IsCommandRun (words_asked (map string_bytes words.now))
        (file (Y.left «module».old) (Y.faults «module».old)) (file (Y.left «module».new) (Y.faults «module».new))
        (around (seen_of objects (I.lists ingress.old) (C.ahead clock.old) (L.journal link.old) (L.exchanges link.old) (I.faults ingress.old) (L.faults link.old) (L.losses link.old)) (D.moments disk.old) (D.faults disk.old) (O.written out.old))
        (around (seen_of objects (I.lists ingress.new) (C.ahead clock.new) (L.journal link.new) (L.exchanges link.new) (I.faults ingress.new) (L.faults link.new) (L.losses link.new)) (D.moments disk.new) (D.faults disk.new) (O.written out.new))
        result }

    // The sink is blamed exactly where it failed.
    ensures sink_cause { IsSinkCauseOf (O.faults out.old) (O.faults out.new) result }
{
    match read_run_words(words) {
        Ok(asked) => run_file(
            alloc,
            options_of(asked),
            module,
            ingress,
            link,
            disk,
            clock,
            out,
        ),
        Err(fault) => told(alloc, out, RunEnd::Usage { word: fault.word }),
    }
}

/// How a run goes that these words ask for.
fn options_of(asked: RunWords) -> Options
    ensures { result ≡ options_of asked }
{
    Options {
        every: asked.every,
        legs: asked.turns,
        drain: asked.drain,
    }
}

/// Reads a module file to its end, and runs it.
fn run_file<Y: Source, I: Ingress, L: Link, D: Disk, C: Clock, O: Sink>(
    alloc: Global,
    options: Options,
    module: &mut Y,
    ingress: &mut I,
    link: &mut L,
    disk: &mut D,
    clock: &mut C,
    out: &mut O,
) -> RunEnd
    requires every { 1 ≤ options.every }
    ensures ran { (objects : Objects) × IsModuleRun options
        (file (Y.left «module».old) (Y.faults «module».old)) (file (Y.left «module».new) (Y.faults «module».new))
        (around (seen_of objects (I.lists ingress.old) (C.ahead clock.old) (L.journal link.old) (L.exchanges link.old) (I.faults ingress.old) (L.faults link.old) (L.losses link.old)) (D.moments disk.old) (D.faults disk.old) (O.written out.old))
        (around (seen_of objects (I.lists ingress.new) (C.ahead clock.new) (L.journal link.new) (L.exchanges link.new) (I.faults ingress.new) (L.faults link.new) (L.losses link.new)) (D.moments disk.new) (D.faults disk.new) (O.written out.new))
        result }
    ensures sink_cause { IsSinkCauseOf (O.faults out.old) (O.faults out.new) result }
{
    match read_up_to(alloc, module, LIMIT) {
        Ok(bytes) => run_bytes(
            alloc,
            options,
            bytes.as_slice(),
            ingress,
            link,
            disk,
            clock,
            out,
        ),
        Err(Fault::Failed) => told(alloc, out, RunEnd::ModuleFault),
        Err(Fault::OutOfMemory) => told(alloc, out, RunEnd::OutOfMemory),
    }
}

/// Runs what the bytes of a module file mean.
fn run_bytes<I: Ingress, L: Link, D: Disk, C: Clock, O: Sink>(
    alloc: Global,
    options: Options,
    bytes: &[u8],
    ingress: &mut I,
    link: &mut L,
    disk: &mut D,
    clock: &mut C,
    out: &mut O,
) -> RunEnd
    requires every { 1 ≤ options.every }
    ensures ran { (objects : Objects) × IsRunOf (module_in bytes.now) options
        (around (seen_of objects (I.lists ingress.old) (C.ahead clock.old) (L.journal link.old) (L.exchanges link.old) (I.faults ingress.old) (L.faults link.old) (L.losses link.old)) (D.moments disk.old) (D.faults disk.old) (O.written out.old))
        (around (seen_of objects (I.lists ingress.new) (C.ahead clock.new) (L.journal link.new) (L.exchanges link.new) (I.faults ingress.new) (L.faults link.new) (L.losses link.new)) (D.moments disk.new) (D.faults disk.new) (O.written out.new))
        result }
    ensures sink_cause { IsSinkCauseOf (O.faults out.old) (O.faults out.new) result }
{
    match read_module(alloc, bytes) {
        Ok(job) => run_job(alloc, options, job, ingress, link, disk, clock, out),
        Err(
            ModuleFault::Refused {
                document,
                line,
                kind,
            },
        ) => {
            let end = RunEnd::ModuleRefused {
                document,
                line,
                kind,
            };
            told(alloc, out, end)
        }
        Err(ModuleFault::OutOfMemory) => told(alloc, out, RunEnd::OutOfMemory),
    }
}

/// Runs a module.
fn run_job<I: Ingress, L: Link, D: Disk, C: Clock, O: Sink>(
    alloc: Global,
    options: Options,
    job: Module,
    ingress: &mut I,
    link: &mut L,
    disk: &mut D,
    clock: &mut C,
    out: &mut O,
) -> RunEnd
    requires every { 1 ≤ options.every }
    requires routable { IsTrue (is_routable job) }
    requires bounded { AreBounded job.endpoints }
    ensures ran { (objects : Objects) × IsRunOf (Ok job) options
        (around (seen_of objects (I.lists ingress.old) (C.ahead clock.old) (L.journal link.old) (L.exchanges link.old) (I.faults ingress.old) (L.faults link.old) (L.losses link.old)) (D.moments disk.old) (D.faults disk.old) (O.written out.old))
        (around (seen_of objects (I.lists ingress.new) (C.ahead clock.new) (L.journal link.new) (L.exchanges link.new) (I.faults ingress.new) (L.faults link.new) (L.losses link.new)) (D.moments disk.new) (D.faults disk.new) (O.written out.new))
        result }
    ensures sink_cause { IsSinkCauseOf (O.faults out.old) (O.faults out.new) result }
{
    match Routes::new(alloc, job) {
        Ok(routes) => run_legs(alloc, options, routes, ingress, link, disk, clock, out),
        Err(_) => told(alloc, out, RunEnd::OutOfMemory),
    }
}

/// Makes the legs of a module.
fn run_legs<I: Ingress, L: Link, D: Disk, C: Clock, O: Sink>(
    alloc: Global,
    options: Options,
    routes: Routes,
    ingress: &mut I,
    link: &mut L,
    disk: &mut D,
    clock: &mut C,
    out: &mut O,
) -> RunEnd
    requires every { 1 ≤ options.every }
    requires bounded { AreBounded routes.endpoints }
    ensures ran { (objects : Objects) × IsFolderRun routes options
        (around (seen_of objects (I.lists ingress.old) (C.ahead clock.old) (L.journal link.old) (L.exchanges link.old) (I.faults ingress.old) (L.faults link.old) (L.losses link.old)) (D.moments disk.old) (D.faults disk.old) (O.written out.old))
        (around (seen_of objects (I.lists ingress.new) (C.ahead clock.new) (L.journal link.new) (L.exchanges link.new) (I.faults ingress.new) (L.faults link.new) (L.losses link.new)) (D.moments disk.new) (D.faults disk.new) (O.written out.new))
        result }
    ensures sink_cause { IsSinkCauseOf (O.faults out.old) (O.faults out.new) result }
{
    let mut world = World {
        ingress,
        link,
        clock,
    };
    let end = drive(alloc, routes, options, &mut world, disk);
    told(alloc, out, RunEnd::of(end))
}

/// Tells how a run ended: writes the line of the end. Nothing is written where memory ran out.
fn told<O: Sink>(alloc: Global, out: &mut O, end: RunEnd) -> RunEnd
    requires no_sink { IsNoSinkFault end }
    ensures told { IsTold (O.written out.old) (O.written out.new) end result }
    ensures sink_cause { IsSinkCauseOf (O.faults out.old) (O.faults out.new) result }
{
    match tell(alloc, out, &end) {
        Ok(()) => end,
        Err(Fault::Failed) => RunEnd::SinkFault,
        Err(Fault::OutOfMemory) => RunEnd::OutOfMemory,
    }
}

/// Writes the line of an end. An `Err` leaves a part of it, from the front.
fn tell<O: Sink>(alloc: Global, out: &mut O, end: &RunEnd) -> Result<(), Fault>
    ensures told { OnOk result (IsTold (O.written out.old) (O.written out.new) end.now end.now) }
    ensures part { OnErr result (IsPart (O.written out.old) (O.written out.new) (end_line end.now)) }
    ensures cause { HasCause (O.faults out.old) (O.faults out.new) result }
{
    let mut line = Bytes::new(alloc);
    end.put_line(&mut line)?;
    write_whole(out, line.as_slice())
}
