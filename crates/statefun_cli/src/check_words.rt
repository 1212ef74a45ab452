//! The words of `statefun check`.
ghost use Rattle.std.specs.Prelude.{◌≡◌, ◌≢◌, IfOk, map};
ghost use Rattle.std.specs.String.{string_bytes};
ghost use Rattle.clap.specs.Words.{kind_of};
ghost use Rattle.statefun_cli.specs.CheckWords.{AsksFor, IsAskOf};

use clap::error::ErrorKind;
use clap::{Arg, ArgAction, Command, Error};
use proto_wire::{Mem, OutOfMemory};
use std::alloc::Global;

/// What the words ask for.
#[derive(Clone, Copy, Debug)]
pub enum CheckAsk {
    /// The text of a module file.
    Module,
    /// Help on the command.
    Help,
    /// How the command is used, since they are wrong.
    Usage,
}

/// What `clap` reads in the words `check MODULE`. The first word is not looked at, and the second is the caller's to open.
pub fn read_check_words(alloc: Global, words: &[String]) -> Mem<CheckAsk>
    ensures { IfOk result (λ ask. AsksFor (map string_bytes words.now) ask) }
{
    let file = Arg::new(alloc, "MODULE")
        .required(true)
        .action(ArgAction::Set);
    let command = Command::new(alloc, "check").arg(file)?;
    match command.try_get_matches_from(words) {
        Ok(_) => Ok(CheckAsk::Module),
        Err(error) => refusal(&error),
    }
}

/// What words ask for that `clap` refuses.
fn refusal(error: &Error) -> Mem<CheckAsk>
    ensures { IfOk result (λ ask. IsAskOf (kind_of error.now) ask) }
{
    let cause = error.kind();
    if cause == ErrorKind::OutOfMemory {
        return Err(OutOfMemory);
    }
    if cause == ErrorKind::DisplayHelp {
        return Ok(CheckAsk::Help);
    }
    Ok(CheckAsk::Usage)
}
