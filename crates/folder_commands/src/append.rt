//! The command `statefun append`: records for the log of a split.
ghost use Rattle.std.specs.Prelude.{◌≡◌, ◌≢◌, ◌⊎◌, ◌≤◌, ◌<◌, ◌^◌, [], ◌∷◌, ◌++◌, ℕ, List, IfOk, map};
ghost use Rattle.std.specs.String.{string_bytes};
ghost use Rattle.std.specs.Fmt.{decimal};
ghost use Rattle.sf_outside.specs.Told.{Rose};
ghost use Rattle.command_io.specs.Words.{AsksForHelp, IsPlain, IsWrong};
ghost use Rattle.command_io.specs.Telling.{output};
ghost use Rattle.command_io.specs.Runs.{Ends, IsHelpRun, IsRun, IsWorkRun};
ghost use Rattle.folder_commands.specs.AppendWords.{append_app};
ghost use Rattle.folder_commands.specs.Append.{IsAdded, IsAppended, IsPut, append_command, end_status, end_text, outside};

use crate::append_help::append_help;
use crate::append_lines::{Appended, LIMIT, append_text};
use crate::read_append_words;
use command_io::{Asked, read_up_to, tell_made, write_whole};
use message_text::put_decimal;
use proto_wire::{Bytes, Mem};
use sf_outside::{Fault, Sink, Source};
use std::alloc::Global;

/// How an appending ends.
#[derive(Clone, Copy, Debug)]
pub enum AppendEnd {
    /// So many records were appended.
    Appended { records: u64 },
    /// This line is bad, counted from 1; nothing of it or behind it was appended.
    BadLine { line: u64 },
    /// The text of help.
    Help,
    /// The line `usage`, since the words are wrong.
    Usage,
    /// The line `read fault`, since a read failed.
    ReadFault,
    /// Nothing, since the log failed.
    LogFault,
    /// Nothing, since memory ran out.
    OutOfMemory,
}

/// Appends a record to the log of a split for each line KEY, tab, TEXT of an input, with TEXT as a string value, and writes how many.
///
/// The words are `append FOLDER SPLIT`, as `clap` reads them; the log is the caller's to open, and to be written at its end. Lines end
/// at a line feed, which the last one may lack unless it is empty, and KEY goes up to the first tab. A line is bad that has no tab, is not
/// UTF-8, or ends past byte 67,108,864 of the input; the lines before it are appended, and nothing of it or behind it. Answers the
/// status: 0 where `appended N`, or the text of `--help`, was written; 2 where the words are wrong, and `usage` was written; 4 where
/// `bad line N` was written; 9 where a read failed, and `read fault` was written; 11 where a write to the log or to `out` failed; 15
/// where memory ran out.
pub fn statefun_append<S: Source, K: Sink, O: Sink>(
    alloc: Global,
    words: &[String],
    input: &mut S,
    log: &mut K,
    out: &mut O,
) -> u8
    // What the words ask for was done.
    ensures ran { IsRun append_command (map string_bytes words.now)
        (outside (S.left input.old) (S.faults input.old) (K.written log.old) (K.faults log.old)) (outside (S.left input.new) (S.faults input.new) (K.written log.new) (K.faults log.new))
        (output (O.written out.old) (O.faults out.old)) (output (O.written out.new) (O.faults out.new)) result }

    // Right words ask for the appending, and so they never give 2.
    ensures right { (first folder : List ℕ) (split : ℕ) → map string_bytes words.now ≡ first ∷ folder ∷ decimal split ∷ [] → IsPlain folder → split < 32 → IsWorkRun append_command
        (outside (S.left input.old) (S.faults input.old) (K.written log.old) (K.faults log.old)) (outside (S.left input.new) (S.faults input.new) (K.written log.new) (K.faults log.new))
        (output (O.written out.old) (O.faults out.old)) (output (O.written out.new) (O.faults out.new)) result }

    // `-h` and `--help` ask for help, whose text is written, and neither the input nor the log is touched.
    ensures help { AsksForHelp (map string_bytes words.now) → IsHelpRun append_command
        (outside (S.left input.old) (S.faults input.old) (K.written log.old) (K.faults log.old)) (outside (S.left input.new) (S.faults input.new) (K.written log.new) (K.faults log.new))
        (output (O.written out.old) (O.faults out.old)) (output (O.written out.new) (O.faults out.new)) result }

    // 2 is given only where clap refuses the words, 9 only where a read failed, and 11 only where a write failed.
    ensures usage { result ≡ 2 → IsWrong append_app (map string_bytes words.now) }
    ensures read_fault { result ≡ 9 → Rose (S.faults input.old) (S.faults input.new) }
    ensures write_fault { result ≡ 11 → Rose (K.faults log.old) (K.faults log.new) ⊎ Rose (O.faults out.old) (O.faults out.new) }
    ensures written { result ≢ 11 → O.faults out.new ≡ O.faults out.old }
{
    let end = append_end(alloc, words, input, log);
    tell_made(out, end.text(alloc), end.status())
}

/// Does what the words ask for.
fn append_end<S: Source, K: Sink>(
    alloc: Global,
    words: &[String],
    input: &mut S,
    log: &mut K,
) -> AppendEnd
    ensures { Ends append_command (map string_bytes words.now)
        (outside (S.left input.old) (S.faults input.old) (K.written log.old) (K.faults log.old)) (outside (S.left input.new) (S.faults input.new) (K.written log.new) (K.faults log.new)) result }
{
    match read_append_words(alloc, words) {
        Ok(Asked::Work) => append_input(alloc, input, log),
        Ok(Asked::Help) => AppendEnd::Help,
        Ok(Asked::Usage) => AppendEnd::Usage,
        Err(_) => AppendEnd::OutOfMemory,
    }
}

/// Appends the records of the lines of an input.
fn append_input<S: Source, K: Sink>(alloc: Global, input: &mut S, log: &mut K) -> AppendEnd
    ensures { IsAppended (outside (S.left input.old) (S.faults input.old) (K.written log.old) (K.faults log.old))
        (outside (S.left input.new) (S.faults input.new) (K.written log.new) (K.faults log.new)) result }
{
    match read_up_to(alloc, input, LIMIT) {
        Ok(bytes) => append_heard(alloc, bytes.as_slice(), log),
        Err(Fault::Failed) => AppendEnd::ReadFault,
        Err(Fault::OutOfMemory) => AppendEnd::OutOfMemory,
    }
}

/// Appends the records of the lines that were heard.
fn append_heard<K: Sink>(alloc: Global, heard: &[u8], log: &mut K) -> AppendEnd
    ensures { IsAdded heard.now (output (K.written log.old) (K.faults log.old)) (output (K.written log.new) (K.faults log.new)) result }
{
    match append_text(alloc, heard) {
        Ok(made) => append_made(&made, log),
        Err(_) => AppendEnd::OutOfMemory,
    }
}

/// Appends what was made of lines.
fn append_made<K: Sink>(made: &Appended, log: &mut K) -> AppendEnd
    requires { made.now.records ≤ 2 ^ 63 }
    ensures { IsPut made.now.log made.now.records made.now.bad (output (K.written log.old) (K.faults log.old)) (output (K.written log.new) (K.faults log.new)) result }
{
    match write_whole(log, made.log.as_slice()) {
        Ok(()) => {
            if made.bad {
                AppendEnd::BadLine {
                    line: made.records + 1,
                }
            } else {
                AppendEnd::Appended {
                    records: made.records,
                }
            }
        }
        Err(Fault::Failed) => AppendEnd::LogFault,
        Err(Fault::OutOfMemory) => AppendEnd::OutOfMemory,
    }
}

impl AppendEnd {
    /// The status of the command.
    fn status(&self) -> u8
        ensures { result ≡ end_status self.now }
    {
        match self {
            AppendEnd::Appended { .. } => 0,
            AppendEnd::BadLine { .. } => 4,
            AppendEnd::Help => 0,
            AppendEnd::Usage => 2,
            AppendEnd::ReadFault => 9,
            AppendEnd::LogFault => 11,
            AppendEnd::OutOfMemory => 15,
        }
    }

    /// What is written of it.
    fn text(&self, alloc: Global) -> Mem<Bytes>
        ensures { IfOk result (λ text. text ≡ end_text self.now) }
    {
        match self {
            AppendEnd::Appended { records } => counted_line(alloc, b"appended ", *records),
            AppendEnd::BadLine { line } => counted_line(alloc, b"bad line ", *line),
            AppendEnd::Help => Bytes::copy_of(alloc, append_help().as_bytes()),
            AppendEnd::Usage => Bytes::copy_of(alloc, b"usage\n"),
            AppendEnd::ReadFault => Bytes::copy_of(alloc, b"read fault\n"),
            AppendEnd::LogFault => Ok(Bytes::new(alloc)),
            AppendEnd::OutOfMemory => Ok(Bytes::new(alloc)),
        }
    }
}

/// Words, a number and a line feed.
fn counted_line(alloc: Global, words: &[u8], number: u64) -> Mem<Bytes>
    ensures { IfOk result (λ line. line ≡ words.now ++ (decimal number ++ 10 ∷ [])) }
{
    let mut line = Bytes::copy_of(alloc, words)?;
    put_decimal(&mut line, number)?;
    line.push(b'\n')?;
    Ok(line)
}
