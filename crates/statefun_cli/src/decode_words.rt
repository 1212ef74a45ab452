//! The words of `statefun decode`.
ghost use Rattle.std.specs.Prelude.{◌≡◌, ◌≢◌, IfOk, map};
ghost use Rattle.std.specs.String.{string_bytes};
ghost use Rattle.clap.specs.Words.{kind_of};
ghost use Rattle.statefun_cli.specs.Kinds.{IsNamed};
ghost use Rattle.statefun_cli.specs.DecodeWords.{AsksFor, IsAskOf};

use clap::error::ErrorKind;
use clap::{Arg, ArgAction, Command, Error};
use proto_wire::{Mem, OutOfMemory};
use std::alloc::Global;
use std::str::FromStr;

/// A kind of message between the runtime and its functions.
#[derive(Clone, Copy, Debug)]
pub enum MessageKind {
    /// A request, which goes to a function.
    Request,
    /// An answer, which comes from a function.
    Answer,
}

/// A word that names no kind of message.
#[derive(Clone, Copy, Debug)]
pub struct UnknownKind;

impl FromStr for MessageKind {
    type Err = UnknownKind;

    ghost from_str_gives = { IsNamed };

    fn from_str(word: &str) -> Result<MessageKind, UnknownKind> {
        if word == "to" {
            Ok(MessageKind::Request)
        } else if word == "from" {
            Ok(MessageKind::Answer)
        } else {
            Err(UnknownKind)
        }
    }
}

/// What the words ask for.
#[derive(Drop)]
pub enum DecodeAsk {
    /// The lines of a message of this kind.
    Lines(MessageKind),
    /// Help on the command.
    Help,
    /// How the command is used, since they are wrong.
    Usage,
}

/// The words for the kinds.
static KINDS: [&str; 2] = ["to", "from"];

/// What `clap` reads in the words `decode KIND`, of which KIND is `to` or `from`. The first word is not looked at.
pub fn read_decode_words(alloc: Global, words: &[String]) -> Mem<DecodeAsk>
    ensures { IfOk result (λ ask. AsksFor (map string_bytes words.now) ask) }
{
    let kind = Arg::new(alloc, "KIND")
        .required(true)
        .action(ArgAction::Set)
        .value_parser(KINDS.as_slice());
    let command = Command::new(alloc, "decode").arg(kind)?;
    match command.try_get_matches_from(words) {
        Ok(matches) => match matches.get_one::<MessageKind>("KIND") {
            Some(kind) => Ok(DecodeAsk::Lines(kind)),
            None => unreachable!(),
        },
        Err(error) => refusal(&error),
    }
}

/// What words ask for that `clap` refuses.
fn refusal(error: &Error) -> Mem<DecodeAsk>
    ensures { IfOk result (λ ask. IsAskOf (kind_of error.now) ask) }
{
    let cause = error.kind();
    if cause == ErrorKind::OutOfMemory {
        return Err(OutOfMemory);
    }
    if cause == ErrorKind::DisplayHelp {
        return Ok(DecodeAsk::Help);
    }
    Ok(DecodeAsk::Usage)
}
