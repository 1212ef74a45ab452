//! The command `statefun check`: what a module file is made of.
ghost use Rattle.std.specs.Prelude.{◌≡◌, ◌≢◌, [], ◌∷◌, ◌++◌, List, Some, ℕ, map, IfOk, OnOk, OnErr};
ghost use Rattle.std.specs.String.{string_bytes};
ghost use Rattle.sf_outside.specs.Told.{HasCause, Rose};
ghost use Rattle.typed_values.specs.Escape.{StartsAs};
ghost use Rattle.statefun_cli.specs.CheckWords.{IsWrong};
ghost use Rattle.statefun_cli.specs.Outside.{Tells, outside};
ghost use Rattle.statefun_cli.specs.Decode.{AsksForHelp};
ghost use Rattle.statefun_cli.specs.Check.{IsAnswered, IsAskedRun, IsCheckRun, IsChecked, IsHelpRun, IsPlain, IsRightRun, check_end, check_status, check_text, refused_line};

use crate::check_help::check_help;
use crate::input::read_up_to;
use crate::output::tell;
use crate::{CheckAsk, read_check_words};
use address_routing::job_text;
use message_text::put_decimal;
use module_yaml::{ModuleFault, read_module};
use proto_wire::{Bytes, Mem, ModuleKind};
use sf_outside::{Fault, Sink, Source};
use std::alloc::Global;

/// What a check comes to.
#[derive(Clone, Copy, Debug)]
pub enum CheckEnd {
    /// The text of the module.
    Accepted,
    /// The line of the first refusal.
    Refused,
    /// The text of help.
    Help,
    /// The line `usage`, since the words are wrong.
    Usage,
    /// The line `module fault`, since a read failed.
    ModuleFault,
}

/// The most bytes of a module file.
const LIMIT: usize = 1_048_576;

/// Writes what the module file is made of that is read from `file`, to its end, as the text of its module to `out`.
///
/// The words are `check MODULE`, as `clap` reads them; the file that MODULE names is the caller's to open. At most 1,048,577
/// bytes are read. Answers the status: 0 where the text of the module, or that of `--help`, was written; 2 where the words
/// are wrong, and `usage` was written; 3 where a read failed, and `module fault` was written; 4 where
/// `module refused document D line L kind NAME` was written, for the first refusal; 11 where a write failed; 15 where memory
/// ran out.
pub fn statefun_check<S: Source, O: Sink>(
    alloc: Global,
    words: &[String],
    file: &mut S,
    out: &mut O,
) -> u8
    // What the words ask for was done.
    ensures ran { IsCheckRun (map string_bytes words.now) (outside (S.left file.old) (S.faults file.old) (O.written out.old) (O.faults out.old))
        (outside (S.left file.new) (S.faults file.new) (O.written out.new) (O.faults out.new)) result }

    // Right words ask for the text of a module file, and so they never give 2.
    ensures right { (first path : List ℕ) → map string_bytes words.now ≡ first ∷ path ∷ [] → IsPlain path
        → IsRightRun (outside (S.left file.old) (S.faults file.old) (O.written out.old) (O.faults out.old))
        (outside (S.left file.new) (S.faults file.new) (O.written out.new) (O.faults out.new)) result }

    // `-h` and `--help` ask for help, whose text is written, and nothing is read.
    ensures help { AsksForHelp (map string_bytes words.now) → IsHelpRun (outside (S.left file.old) (S.faults file.old) (O.written out.old) (O.faults out.old))
        (outside (S.left file.new) (S.faults file.new) (O.written out.new) (O.faults out.new)) result }

    // 2 is given only where clap refuses the words, 3 only where a read failed, and 11 exactly where a write failed.
    ensures usage { result ≡ 2 → IsWrong (map string_bytes words.now) }
    ensures module_fault { result ≡ 3 → Rose (S.faults file.old) (S.faults file.new) }
    ensures write_fault { result ≡ 11 → Rose (O.faults out.old) (O.faults out.new) }
    ensures written { result ≢ 11 → O.faults out.new ≡ O.faults out.old }
{
    status(&end_of_words(alloc, words, file, out))
}

fn status(end: &Result<CheckEnd, Fault>) -> u8
    ensures { result ≡ check_status end.now }
{
    match end {
        Ok(CheckEnd::Accepted) => 0,
        Ok(CheckEnd::Help) => 0,
        Ok(CheckEnd::Usage) => 2,
        Ok(CheckEnd::ModuleFault) => 3,
        Ok(CheckEnd::Refused) => 4,
        Err(Fault::Failed) => 11,
        Err(Fault::OutOfMemory) => 15,
    }
}

fn end_of_words<S: Source, O: Sink>(
    alloc: Global,
    words: &[String],
    file: &mut S,
    out: &mut O,
) -> Result<CheckEnd, Fault>
    ensures ran { IsAskedRun (map string_bytes words.now) (outside (S.left file.old) (S.faults file.old) (O.written out.old) (O.faults out.old))
        (outside (S.left file.new) (S.faults file.new) (O.written out.new) (O.faults out.new)) result }
{
    let ask = read_check_words(alloc, words)?;
    answer(alloc, ask, file, out)
}

fn answer<S: Source, O: Sink>(
    alloc: Global,
    ask: CheckAsk,
    file: &mut S,
    out: &mut O,
) -> Result<CheckEnd, Fault>
    ensures answered { IsAnswered (Some ask) (outside (S.left file.old) (S.faults file.old) (O.written out.old) (O.faults out.old))
        (outside (S.left file.new) (S.faults file.new) (O.written out.new) (O.faults out.new)) result }
    ensures cause { HasCause (O.faults out.old) (O.faults out.new) result }
{
    match ask {
        CheckAsk::Module => check_file(alloc, file, out),
        CheckAsk::Help => tell(out, CheckEnd::Help, check_help().as_bytes()),
        CheckAsk::Usage => tell(out, CheckEnd::Usage, b"usage\n"),
    }
}

/// Reads a module file to the end, and tells what it is made of.
fn check_file<S: Source, O: Sink>(
    alloc: Global,
    file: &mut S,
    out: &mut O,
) -> Result<CheckEnd, Fault>
    ensures checked { IsChecked (outside (S.left file.old) (S.faults file.old) (O.written out.old) (O.faults out.old))
        (outside (S.left file.new) (S.faults file.new) (O.written out.new) (O.faults out.new)) result }
    ensures cause { HasCause (O.faults out.old) (O.faults out.new) result }
{
    match read_up_to(alloc, file, LIMIT) {
        Ok(bytes) => tell_module(alloc, bytes.as_slice(), out),
        Err(Fault::Failed) => tell(out, CheckEnd::ModuleFault, b"module fault\n"),
        Err(Fault::OutOfMemory) => Err(Fault::OutOfMemory),
    }
}

/// Tells the text of the bytes of a module file.
fn tell_module<O: Sink>(alloc: Global, bytes: &[u8], out: &mut O) -> Result<CheckEnd, Fault>
    ensures told { Tells (O.written out.old) (O.written out.new) (check_text bytes.now) (check_end bytes.now) result }
    ensures cause { HasCause (O.faults out.old) (O.faults out.new) result }
{
    match read_module(alloc, bytes) {
        Ok(job) => {
            let text = job_text(alloc, &job)?;
            tell(out, CheckEnd::Accepted, text.as_bytes())
        }
        Err(
            ModuleFault::Refused {
                document,
                line,
                kind,
            },
        ) => {
            let text = refused_line(alloc, document, line, kind)?;
            tell(out, CheckEnd::Refused, text.as_slice())
        }
        Err(ModuleFault::OutOfMemory) => Err(Fault::OutOfMemory),
    }
}

/// The line of a refusal.
fn refused_line(alloc: Global, document: u32, line: u32, kind: ModuleKind) -> Mem<Bytes>
    ensures { IfOk result (λ text. text ≡ refused_line (document, record { line = line; kind = kind })) }
{
    let mut text = Bytes::new(alloc);
    put_refused(&mut text, document, line, kind)?;
    Ok(text)
}

/// Adds the line of a refusal. An `Err` leaves what stood there with a part of the line behind it.
pub(crate) fn put_refused(into: &mut Bytes, document: u32, line: u32, kind: ModuleKind) -> Mem<()>
    ensures ok { OnOk result (into.new ≡ into.old ++ refused_line (document, record { line = line; kind = kind })) }
    ensures err { OnErr result (StartsAs into.old into.new) }
{
    into.append(b"module refused document ")?;
    put_decimal(into, u64::from(document))?;
    into.append(b" line ")?;
    put_decimal(into, u64::from(line))?;
    into.append(b" kind ")?;
    into.append(kind.name().as_bytes())?;
    into.push(b'\n')?;
    Ok(())
}
