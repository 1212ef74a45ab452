//! The command `statefun audit`.
ghost use Rattle.std.specs.Prelude.{◌≡◌, ◌≢◌, [], ◌∷◌, ℕ, List, IsTrue, map};
ghost use Rattle.std.specs.String.{string_bytes};
ghost use Rattle.sf_outside.specs.Told.{Rose};
ghost use Rattle.sf_outside.specs.Splits.{Grows};
ghost use Rattle.sf_disk.specs.Moments.{Since};
ghost use Rattle.address_routing.specs.Routing.{is_routable};
ghost use Rattle.checkpoint_state.specs.Matching.{HaveCells};
ghost use Rattle.checkpoint_state.specs.Stored.{states_in};
ghost use Rattle.command_io.specs.Words.{AsksForHelp, IsPlain, IsWrong};
ghost use Rattle.command_io.specs.Telling.{output};
ghost use Rattle.command_io.specs.Folders.{Stays};
ghost use Rattle.command_io.specs.Runs.{Ends, IsHelpRun, IsRun, IsWorkRun};
ghost use Rattle.folder_audit.specs.Words.{audit_app};
ghost use Rattle.folder_audit.specs.Audited.{IsAudited, IsBytesAudited, IsJobAudited, IsRecordAudited, audit_command, outside};

use crate::end::AuditEnd;
use crate::judging::judged;
use crate::read_audit_words;
use crate::record::{Found, found_of};
use address_routing::Module;
use command_io::{Asked, read_up_to, tell_made};
use folder_form::Loaded;
use module_yaml::{ModuleFault, read_module};
use proto_wire::List;
use run_record::{Entry, ReplayFault};
use sf_disk::Disk;
use sf_outside::{Fault, Ingress, Sink, Source};
use std::alloc::Global;
use store_faults::StoreFault;

/// The most bytes of a module file.
const LIMIT: usize = 1_048_576;

/// Replays the stored record of a folder over an ingress, and writes whether it leads to the newest checkpoint.
///
/// The words are `audit MODULE FOLDER`, as `clap` reads them; the file, the ingress and the disk are the caller's to open. At most
/// 1,048,577 bytes of the module file are read. Nothing is written to the folder but what opening its logs writes. Answers the status:
/// 0 where `audit yes checkpoint N entries M`, or the text of `--help`, was written; 1 where `audit no entry K` was written, K being the
/// first entry that is not allowed, counted from 0, or `audit no state`; 2 where the words are wrong, and `usage` was written; 3 where a
/// read of the module file failed, and `module fault` was written; 4 where `module refused document D line L kind NAME` was written; 9
/// where the ingress failed, and `ingress fault` was written; 10 where the disk failed, and `disk fault` was written; 11 where a write
/// failed; 13 where `not a store file F place P` was written; 14 where the folder is of another job, and `store of other module` was
/// written; 15 where memory ran out. A folder without a job is at checkpoint 0, with no entries.
pub fn statefun_audit<Y: Source, I: Ingress, D: Disk, O: Sink>(
    alloc: Global,
    words: &[String],
    module: &mut Y,
    ingress: &mut I,
    disk: &mut D,
    out: &mut O,
) -> u8
    // What the words ask for was done.
    ensures ran { IsRun audit_command (map string_bytes words.now)
        (outside (Y.left «module».old) (Y.faults «module».old) (I.lists ingress.old) (I.faults ingress.old) (D.moments disk.old) (D.faults disk.old))
        (outside (Y.left «module».new) (Y.faults «module».new) (I.lists ingress.new) (I.faults ingress.new) (D.moments disk.new) (D.faults disk.new))
        (output (O.written out.old) (O.faults out.old)) (output (O.written out.new) (O.faults out.new)) result }

    // Right words ask for the audit of a folder, and so they never give 2.
    ensures right { (first file folder : List ℕ) → map string_bytes words.now ≡ first ∷ file ∷ folder ∷ [] → IsPlain file → IsPlain folder → IsWorkRun audit_command
        (outside (Y.left «module».old) (Y.faults «module».old) (I.lists ingress.old) (I.faults ingress.old) (D.moments disk.old) (D.faults disk.old))
        (outside (Y.left «module».new) (Y.faults «module».new) (I.lists ingress.new) (I.faults ingress.new) (D.moments disk.new) (D.faults disk.new))
        (output (O.written out.old) (O.faults out.old)) (output (O.written out.new) (O.faults out.new)) result }

    // `-h` and `--help` ask for help, whose text is written, and nothing else is touched.
    ensures help { AsksForHelp (map string_bytes words.now) → IsHelpRun audit_command
        (outside (Y.left «module».old) (Y.faults «module».old) (I.lists ingress.old) (I.faults ingress.old) (D.moments disk.old) (D.faults disk.old))
        (outside (Y.left «module».new) (Y.faults «module».new) (I.lists ingress.new) (I.faults ingress.new) (D.moments disk.new) (D.faults disk.new))
        (output (O.written out.old) (O.faults out.old)) (output (O.written out.new) (O.faults out.new)) result }

    // 2 is given only where clap refuses the words; 3, 9 and 10 only where that object failed, and 11 exactly where a write failed.
    ensures usage { result ≡ 2 → IsWrong audit_app (map string_bytes words.now) }
    ensures module_fault { result ≡ 3 → Rose (Y.faults «module».old) (Y.faults «module».new) }
    ensures ingress_fault { result ≡ 9 → Rose (I.faults ingress.old) (I.faults ingress.new) }
    ensures disk_fault { result ≡ 10 → Rose (D.faults disk.old) (D.faults disk.new) }
    ensures write_fault { result ≡ 11 → Rose (O.faults out.old) (O.faults out.new) }
    ensures written { result ≢ 11 → O.faults out.new ≡ O.faults out.old }

    // The lists of the ingress only grow. Each outcome of a crash, at any moment of the call, stands for what an outcome at first
    // stood for.
    ensures grows { Grows (I.lists ingress.old) (I.lists ingress.new) }
    ensures meanwhile { Since (D.moments disk.old) (D.moments disk.new) Stays }
{
    let end = audit_end(alloc, words, module, ingress, disk);
    tell_made(out, end.text(alloc), end.status())
}

/// Does what the words ask for.
fn audit_end<Y: Source, I: Ingress, D: Disk>(
    alloc: Global,
    words: &[String],
    module: &mut Y,
    ingress: &mut I,
    disk: &mut D,
) -> AuditEnd
    ensures ends { Ends audit_command (map string_bytes words.now)
        (outside (Y.left «module».old) (Y.faults «module».old) (I.lists ingress.old) (I.faults ingress.old) (D.moments disk.old) (D.faults disk.old))
        (outside (Y.left «module».new) (Y.faults «module».new) (I.lists ingress.new) (I.faults ingress.new) (D.moments disk.new) (D.faults disk.new)) result }
    ensures grows { Grows (I.lists ingress.old) (I.lists ingress.new) }
    ensures meanwhile { Since (D.moments disk.old) (D.moments disk.new) Stays }
{
    match read_audit_words(alloc, words) {
        Ok(Asked::Work) => audit_file(alloc, module, ingress, disk),
        Ok(Asked::Help) => AuditEnd::Help,
        Ok(Asked::Usage) => AuditEnd::Usage,
        Err(_) => AuditEnd::OutOfMemory,
    }
}

/// Reads a module file to its end, and audits the folder as one of its job.
fn audit_file<Y: Source, I: Ingress, D: Disk>(
    alloc: Global,
    module: &mut Y,
    ingress: &mut I,
    disk: &mut D,
) -> AuditEnd
    ensures audited { IsAudited
        (outside (Y.left «module».old) (Y.faults «module».old) (I.lists ingress.old) (I.faults ingress.old) (D.moments disk.old) (D.faults disk.old))
        (outside (Y.left «module».new) (Y.faults «module».new) (I.lists ingress.new) (I.faults ingress.new) (D.moments disk.new) (D.faults disk.new)) result }
    ensures grows { Grows (I.lists ingress.old) (I.lists ingress.new) }
    ensures meanwhile { Since (D.moments disk.old) (D.moments disk.new) Stays }
{
    match read_up_to(alloc, module, LIMIT) {
        Ok(bytes) => audit_bytes(alloc, bytes.as_slice(), ingress, disk),
        Err(Fault::Failed) => AuditEnd::ModuleFault,
        Err(Fault::OutOfMemory) => AuditEnd::OutOfMemory,
    }
}

/// Audits a folder as one of the job that the bytes of a module file mean.
fn audit_bytes<I: Ingress, D: Disk>(
    alloc: Global,
    bytes: &[u8],
    ingress: &mut I,
    disk: &mut D,
) -> AuditEnd
    ensures audited { IsBytesAudited bytes.now (D.moments disk.old) (I.lists ingress.new) (I.faults ingress.old) (I.faults ingress.new) (D.faults disk.old) (D.faults disk.new) result }
    ensures grows { Grows (I.lists ingress.old) (I.lists ingress.new) }
    ensures meanwhile { Since (D.moments disk.old) (D.moments disk.new) Stays }
{
    match read_module(alloc, bytes) {
        Ok(job) => audit_job(alloc, job, ingress, disk),
        Err(
            ModuleFault::Refused {
                document,
                line,
                kind,
            },
        ) => {
            AuditEnd::ModuleRefused {
                document,
                line,
                kind,
            }
        }
        Err(ModuleFault::OutOfMemory) => AuditEnd::OutOfMemory,
    }
}

/// Audits a folder as one of a job.
fn audit_job<I: Ingress, D: Disk>(
    alloc: Global,
    job: Module,
    ingress: &mut I,
    disk: &mut D,
) -> AuditEnd
    requires routable { IsTrue (is_routable job) }
    ensures audited { IsJobAudited job (D.moments disk.old) (I.lists ingress.new) (I.faults ingress.old) (I.faults ingress.new) (D.faults disk.old) (D.faults disk.new) result }
    ensures grows { Grows (I.lists ingress.old) (I.lists ingress.new) }
    ensures meanwhile { Since (D.moments disk.old) (D.moments disk.new) Stays }
{
    match found_of(alloc, &job, disk) {
        Ok(Found::Nothing) => AuditEnd::Yes {
            checkpoint: 0,
            entries: 0,
        },
        Ok(Found::Other) => AuditEnd::StoreOfOther,
        Ok(Found::Record { entries, loaded }) => audit_record(
            alloc, job, &entries, &loaded, ingress,
        ),
        Err(StoreFault::DiskFault) => AuditEnd::DiskFault,
        Err(StoreFault::NotAStore { file, place }) => AuditEnd::NotAStore { file, place },
        Err(StoreFault::StoreOfOther { .. }) => AuditEnd::StoreOfOther,
        Err(StoreFault::OutOfMemory) => AuditEnd::OutOfMemory,
    }
}

/// Audits a record against the newest checkpoint.
fn audit_record<I: Ingress>(
    alloc: Global,
    job: Module,
    entries: &List<Entry>,
    loaded: &Loaded,
    ingress: &mut I,
) -> AuditEnd
    requires routable { IsTrue (is_routable job) }
    requires cells { HaveCells (states_in loaded.now.pieces) }
    ensures audited { IsRecordAudited job entries.now loaded.now (I.lists ingress.new) (I.faults ingress.old) (I.faults ingress.new) result }
    ensures grows { Grows (I.lists ingress.old) (I.lists ingress.new) }
{
    match judged(alloc, job, entries, loaded, ingress) {
        Ok(end) => end,
        Err(ReplayFault::IngressFault) => AuditEnd::IngressFault,
        Err(ReplayFault::OutOfMemory) => AuditEnd::OutOfMemory,
    }
}
