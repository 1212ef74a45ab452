//! The command `statefun decode`: a message as lines.
ghost use Rattle.std.specs.Prelude.{◌≡◌, ◌≢◌, [], ◌∷◌, ℕ, List, Some, map};
ghost use Rattle.std.specs.String.{string_bytes};
ghost use Rattle.sf_outside.specs.Told.{HasCause, Rose};
ghost use Rattle.statefun_cli.specs.declared.decode_words.MessageKind.{MessageKind};
ghost use Rattle.statefun_cli.specs.Kinds.{word_of};
ghost use Rattle.statefun_cli.specs.DecodeWords.{IsWrong};
ghost use Rattle.statefun_cli.specs.Decode.{AsksForHelp, IsAnswered, IsAskedRun, IsDecodeRun, IsDecoded, IsHelpRun, IsRightRun, decode_end, decode_status, decode_text};
ghost use Rattle.statefun_cli.specs.Outside.{Tells, outside};

use crate::decode_help::help_text;
use crate::input::read_up_to;
use crate::message_lines::{LIMIT, put_message};
use crate::output::tell;
use crate::{DecodeAsk, MessageKind, read_decode_words};
use proto_wire::Bytes;
use sf_outside::{Fault, Sink, Source};
use std::alloc::Global;

/// What a decoding comes to.
#[derive(Clone, Copy, Debug)]
pub enum DecodeEnd {
    /// The lines of the message.
    Decoded,
    /// The line of the first fault of the bytes.
    Faulty,
    /// The text of help.
    Help,
    /// The line `usage`, since the words are wrong.
    Usage,
    /// The line `read fault`, since a read failed.
    ReadFault,
}

/// Writes the message that is read from `input`, to its end, as lines to `out`.
///
/// The words are `decode to` for a request to a function and `decode from` for an answer from one, as `clap` reads them.
/// Answers the status: 0 where the lines of the message, or those of `--help`, were written; 2 where the words are wrong,
/// and `usage` was written; 4 where `fault NAME at PLACE` was written, for the first fault of the bytes or for more than
/// 8,388,608 of them; 9 where a read failed, and `read fault` was written; 11 where a write failed; 15 where memory ran out.
pub fn statefun_decode<S: Source, O: Sink>(
    alloc: Global,
    words: &[String],
    input: &mut S,
    out: &mut O,
) -> u8
    // What the words ask for was done.
    ensures ran { IsDecodeRun (map string_bytes words.now) (outside (S.left input.old) (S.faults input.old) (O.written out.old) (O.faults out.old))
        (outside (S.left input.new) (S.faults input.new) (O.written out.new) (O.faults out.new)) result }

    // Right words ask for the lines of a message of their kind, and so they never give 2.
    ensures right { (kind : MessageKind) (first : List ℕ) → map string_bytes words.now ≡ first ∷ word_of kind ∷ []
        → IsRightRun kind (outside (S.left input.old) (S.faults input.old) (O.written out.old) (O.faults out.old))
        (outside (S.left input.new) (S.faults input.new) (O.written out.new) (O.faults out.new)) result }

    // `-h` and `--help` ask for help, whose text is written, and nothing is read.
    ensures help { AsksForHelp (map string_bytes words.now) → IsHelpRun (outside (S.left input.old) (S.faults input.old) (O.written out.old) (O.faults out.old))
        (outside (S.left input.new) (S.faults input.new) (O.written out.new) (O.faults out.new)) result }

    // 2 is given only where clap refuses the words, 9 only where a read failed, and 11 exactly where a write failed.
    ensures usage { result ≡ 2 → IsWrong (map string_bytes words.now) }
    ensures read_fault { result ≡ 9 → Rose (S.faults input.old) (S.faults input.new) }
    ensures write_fault { result ≡ 11 → Rose (O.faults out.old) (O.faults out.new) }
    ensures written { result ≢ 11 → O.faults out.new ≡ O.faults out.old }
{
    status(&end_of_words(alloc, words, input, out))
}

fn status(end: &Result<DecodeEnd, Fault>) -> u8
    ensures { result ≡ decode_status end.now }
{
    match end {
        Ok(DecodeEnd::Decoded) => 0,
        Ok(DecodeEnd::Help) => 0,
        Ok(DecodeEnd::Usage) => 2,
        Ok(DecodeEnd::Faulty) => 4,
        Ok(DecodeEnd::ReadFault) => 9,
        Err(Fault::Failed) => 11,
        Err(Fault::OutOfMemory) => 15,
    }
}

fn end_of_words<S: Source, O: Sink>(
    alloc: Global,
    words: &[String],
    input: &mut S,
    out: &mut O,
) -> Result<DecodeEnd, Fault>
    ensures ran { IsAskedRun (map string_bytes words.now) (outside (S.left input.old) (S.faults input.old) (O.written out.old) (O.faults out.old))
        (outside (S.left input.new) (S.faults input.new) (O.written out.new) (O.faults out.new)) result }
{
    let ask = read_decode_words(alloc, words)?;
    answer(alloc, ask, input, out)
}

fn answer<S: Source, O: Sink>(
    alloc: Global,
    ask: DecodeAsk,
    input: &mut S,
    out: &mut O,
) -> Result<DecodeEnd, Fault>
    ensures answered { IsAnswered (Some ask) (outside (S.left input.old) (S.faults input.old) (O.written out.old) (O.faults out.old))
        (outside (S.left input.new) (S.faults input.new) (O.written out.new) (O.faults out.new)) result }
    ensures cause { HasCause (O.faults out.old) (O.faults out.new) result }
{
    match ask {
        DecodeAsk::Lines(kind) => decode_input(alloc, kind, input, out),
        DecodeAsk::Help => tell(out, DecodeEnd::Help, help_text().as_bytes()),
        DecodeAsk::Usage => tell(out, DecodeEnd::Usage, b"usage\n"),
    }
}

/// Reads a message to the end, and tells it.
fn decode_input<S: Source, O: Sink>(
    alloc: Global,
    kind: MessageKind,
    input: &mut S,
    out: &mut O,
) -> Result<DecodeEnd, Fault>
    ensures decoded { IsDecoded kind (outside (S.left input.old) (S.faults input.old) (O.written out.old) (O.faults out.old))
        (outside (S.left input.new) (S.faults input.new) (O.written out.new) (O.faults out.new)) result }
    ensures cause { HasCause (O.faults out.old) (O.faults out.new) result }
{
    match read_up_to(alloc, input, LIMIT) {
        Ok(bytes) => tell_message(alloc, kind, bytes.as_slice(), out),
        Err(Fault::Failed) => tell(out, DecodeEnd::ReadFault, b"read fault\n"),
        Err(Fault::OutOfMemory) => Err(Fault::OutOfMemory),
    }
}

/// Tells the text of the bytes of a message.
fn tell_message<O: Sink>(
    alloc: Global,
    kind: MessageKind,
    bytes: &[u8],
    out: &mut O,
) -> Result<DecodeEnd, Fault>
    ensures told { Tells (O.written out.old) (O.written out.new) (decode_text kind bytes.now) (decode_end kind bytes.now) result }
    ensures cause { HasCause (O.faults out.old) (O.faults out.new) result }
{
    let mut text = Bytes::new(alloc);
    let told = put_message(alloc, &mut text, kind, bytes)?;
    tell(out, told, text.as_slice())
}
