//! The words of `statefun serve`, as `clap` reads them.
ghost use Rattle.std.specs.Prelude.{◌≡◌, ◌≢◌, IfOk, map};
ghost use Rattle.std.specs.String.{string_bytes};
ghost use Rattle.clap.specs.Words.{kind_of};
ghost use Rattle.serve_words.specs.Words.{AsksFor, IsAskOf};

use clap::error::ErrorKind;
use clap::{Arg, ArgAction, Command, Error, value_parser};
use proto_wire::{Mem, OutOfMemory};
use std::alloc::Global;

/// What the words ask for.
#[derive(Clone, Copy, Debug, PartialEq, Eq)]
pub enum ServeAsk {
    /// The demonstration functions on this port, which is at least 1.
    Port(u16),
    /// Help on the command.
    Help,
    /// How the command is used, since they are wrong.
    Usage,
}

/// What `clap` reads in the words `serve PORT`, of which PORT is a number from 1 to 65535. The first word is not looked at.
pub fn read_serve_words(alloc: Global, words: &[String]) -> Mem<ServeAsk>
    ensures { IfOk result (λ ask. AsksFor (map string_bytes words.now) ask) }
{
    let port = Arg::new(alloc, "PORT")
        .required(true)
        .action(ArgAction::Set)
        .value_parser(value_parser!(u16).range(1..));
    let command = Command::new(alloc, "serve").arg(port)?;
    match command.try_get_matches_from(words) {
        Ok(matches) => match matches.get_one::<u16>("PORT") {
            Some(port) => Ok(ServeAsk::Port(port)),
            None => unreachable!(),
        },
        Err(error) => refusal(&error),
    }
}

/// What words ask for that `clap` refuses.
fn refusal(error: &Error) -> Mem<ServeAsk>
    ensures { IfOk result (λ ask. IsAskOf (kind_of error.now) ask) }
{
    let cause = error.kind();
    if cause == ErrorKind::OutOfMemory {
        return Err(OutOfMemory);
    }
    if cause == ErrorKind::DisplayHelp {
        return Ok(ServeAsk::Help);
    }
    Ok(ServeAsk::Usage)
}
