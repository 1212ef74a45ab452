//! The command `statefun show`: what was committed to egress.
ghost use Rattle.std.specs.Prelude.{◌≡◌, ◌≢◌, [], ◌∷◌, ℕ, List, IfOk, IfErr, map};
ghost use Rattle.std.specs.String.{string_bytes};
ghost use Rattle.sf_outside.specs.Told.{Rose};
ghost use Rattle.sf_disk.specs.Moments.{Moment, Since, WhereTold};
ghost use Rattle.store_faults.specs.Faults.{HasStoreCause};
ghost use Rattle.snapshot_files.specs.Opening.{seen};
ghost use Rattle.command_io.specs.Words.{AsksForHelp, IsPlain, IsWrong};
ghost use Rattle.command_io.specs.Telling.{output};
ghost use Rattle.command_io.specs.Folders.{Stays, disk_state};
ghost use Rattle.command_io.specs.Runs.{Ends, IsHelpRun, IsRun, IsWorkRun};
ghost use Rattle.folder_commands.specs.ShowWords.{show_app};
ghost use Rattle.folder_commands.specs.Show.{IsNoFolder, IsText, RefusesShow, Works, end_status, end_text, show_command};

use crate::read_show_words;
use crate::show_help::show_help;
use crate::show_text::outlet_text;
use command_io::{Asked, not_a_store_line, tell_made};
use egress_commit::Outlet;
use proto_wire::{Bytes, Mem};
use sf_disk::Disk;
use sf_outside::Sink;
use snapshot_files::Store;
use std::alloc::Global;
use store_faults::StoreFault;

/// How a showing ends.
#[derive(Drop)]
pub enum ShowEnd {
    /// These lines are those of the committed records.
    Shown(Bytes),
    /// The text of help.
    Help,
    /// The line `usage`, since the words are wrong.
    Usage,
    /// The line `disk fault`.
    DiskFault,
    /// The line `not a store file F place P`: the bytes of a file break its form at that place.
    NotAStore { file: u32, place: u64 },
    /// Nothing, since memory ran out.
    OutOfMemory,
}

/// Writes what the folder of checkpoints on a disk committed to egress: a line `EPOCH SENDER EGRESS TYPENAME HEX` for each record, in
/// order, with `none` in place of HEX where there is no value. Nothing is written to a folder but what opening its logs writes.
///
/// The words are `show FOLDER`, as `clap` reads them; the disk is the caller's to open. Answers the status: 0 where the lines, or those
/// of `--help`, were written; 2 where the words are wrong, and `usage` was written; 10 where the disk failed, and `disk fault` was
/// written; 11 where a write failed; 13 where `not a store file F place P` was written; 15 where memory ran out.
pub fn statefun_show<D: Disk, O: Sink>(
    alloc: Global,
    words: &[String],
    disk: &mut D,
    out: &mut O,
) -> u8
    // What the words ask for was done.
    ensures ran { IsRun show_command (map string_bytes words.now) (disk_state (D.moments disk.old) (D.faults disk.old)) (disk_state (D.moments disk.new) (D.faults disk.new))
        (output (O.written out.old) (O.faults out.old)) (output (O.written out.new) (O.faults out.new)) result }

    // Right words ask for the lines of a folder, and so they never give 2.
    ensures right { (first folder : List ℕ) → map string_bytes words.now ≡ first ∷ folder ∷ [] → IsPlain folder
        → IsWorkRun show_command (disk_state (D.moments disk.old) (D.faults disk.old)) (disk_state (D.moments disk.new) (D.faults disk.new))
        (output (O.written out.old) (O.faults out.old)) (output (O.written out.new) (O.faults out.new)) result }

    // `-h` and `--help` ask for help, whose text is written, and the disk is not touched.
    ensures help { AsksForHelp (map string_bytes words.now)
        → IsHelpRun show_command (disk_state (D.moments disk.old) (D.faults disk.old)) (disk_state (D.moments disk.new) (D.faults disk.new))
        (output (O.written out.old) (O.faults out.old)) (output (O.written out.new) (O.faults out.new)) result }

    // 2 is given only where clap refuses the words, 10 only where the disk failed, 11 exactly where a write failed, and 13 only where
    // the folder has not its form.
    ensures usage { result ≡ 2 → IsWrong show_app (map string_bytes words.now) }
    ensures disk_fault { result ≡ 10 → Rose (D.faults disk.old) (D.faults disk.new) }
    ensures write_fault { result ≡ 11 → Rose (O.faults out.old) (O.faults out.new) }
    ensures written { result ≢ 11 → O.faults out.new ≡ O.faults out.old }
    ensures no_store { result ≡ 13 → WhereTold (D.moments disk.old) (λ now. (file : ℕ) × (place : ℕ) × IsNoFolder (seen now) file place) }

    // Each outcome of a crash, at any moment of the call, stands for what an outcome at first stood for.
    ensures meanwhile { Since (D.moments disk.old) (D.moments disk.new) Stays }
{
    let end = show_end(alloc, words, disk);
    let status = end.status();
    tell_made(out, text_of(alloc, end), status)
}

/// Does what the words ask for.
fn show_end<D: Disk>(alloc: Global, words: &[String], disk: &mut D) -> ShowEnd
    ensures ends { Ends show_command (map string_bytes words.now) (disk_state (D.moments disk.old) (D.faults disk.old)) (disk_state (D.moments disk.new) (D.faults disk.new)) result }
    ensures meanwhile { Since (D.moments disk.old) (D.moments disk.new) Stays }
{
    match read_show_words(alloc, words) {
        Ok(Asked::Work) => folder_end(alloc, disk),
        Ok(Asked::Help) => ShowEnd::Help,
        Ok(Asked::Usage) => ShowEnd::Usage,
        Err(_) => ShowEnd::OutOfMemory,
    }
}

/// Reads what a folder committed to egress.
fn folder_end<D: Disk>(alloc: Global, disk: &mut D) -> ShowEnd
    ensures works { Works (disk_state (D.moments disk.old) (D.faults disk.old)) (disk_state (D.moments disk.new) (D.faults disk.new)) result }
    ensures meanwhile { Since (D.moments disk.old) (D.moments disk.new) Stays }
{
    let shown = folder_text(alloc, disk);
    end_of(shown)
}

/// The lines of what a folder committed to egress.
fn folder_text<D: Disk>(alloc: Global, disk: &mut D) -> Result<Bytes, StoreFault>
    ensures text { IfOk result (IsText (D.moments disk.old)) }
    ensures refuses { IfErr result (RefusesShow (D.moments disk.old)) }
    ensures cause { HasStoreCause (D.faults disk.old) (D.faults disk.new) result }
    ensures meanwhile { Since (D.moments disk.old) (D.moments disk.new) Stays }
{
    let _store = Store::open_kept(alloc, disk)?;
    let outlet = Outlet::open_outlet(alloc, disk)?;
    outlet_text(alloc, disk, &outlet)
}

/// What lines, or the fault in place of them, make of a showing.
fn end_of(shown: Result<Bytes, StoreFault>) -> ShowEnd
    ensures { (moments : List Moment) (before now : ℕ) → IfOk shown (IsText moments) → IfErr shown (RefusesShow moments) → HasStoreCause before now shown
        → (later : List Moment) → Works (disk_state moments before) (disk_state later now) result }
{
    match shown {
        Ok(text) => ShowEnd::Shown(text),
        Err(StoreFault::DiskFault) => ShowEnd::DiskFault,
        Err(StoreFault::NotAStore { file, place }) => ShowEnd::NotAStore { file, place },
        Err(StoreFault::StoreOfOther { .. }) => ShowEnd::OutOfMemory,
        Err(StoreFault::OutOfMemory) => ShowEnd::OutOfMemory,
    }
}

impl ShowEnd {
    /// The status of the command.
    fn status(&self) -> u8
        ensures { result ≡ end_status self.now }
    {
        match self {
            ShowEnd::Shown(_) => 0,
            ShowEnd::Help => 0,
            ShowEnd::Usage => 2,
            ShowEnd::DiskFault => 10,
            ShowEnd::NotAStore { .. } => 13,
            ShowEnd::OutOfMemory => 15,
        }
    }
}

/// The text of an end.
fn text_of(alloc: Global, end: ShowEnd) -> Mem<Bytes>
    ensures { IfOk result (λ text. text ≡ end_text end) }
{
    match end {
        ShowEnd::Shown(text) => Ok(text),
        ShowEnd::Help => Bytes::copy_of(alloc, show_help().as_bytes()),
        ShowEnd::Usage => Bytes::copy_of(alloc, b"usage\n"),
        ShowEnd::DiskFault => Bytes::copy_of(alloc, b"disk fault\n"),
        ShowEnd::NotAStore { file, place } => not_a_store_line(alloc, file, place),
        ShowEnd::OutOfMemory => Ok(Bytes::new(alloc)),
    }
}
