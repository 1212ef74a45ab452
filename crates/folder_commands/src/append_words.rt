//! The words of `statefun append`.
ghost use Rattle.std.specs.Prelude.{◌≡◌, IfOk, map};
ghost use Rattle.std.specs.String.{string_bytes};
ghost use Rattle.command_io.specs.Words.{AsksFor};
ghost use Rattle.folder_commands.specs.AppendWords.{append_app};

use clap::{Arg, ArgAction, Command, value_parser};
use command_io::{Asked, refusal};
use proto_wire::Mem;
use std::alloc::Global;

/// What `clap` reads in the words `append FOLDER SPLIT`, of which SPLIT is a number from 0 to 31. The first word is not looked at,
/// and the log that the others name is the caller's to open.
pub fn read_append_words(alloc: Global, words: &[String]) -> Mem<Asked>
    ensures { IfOk result (λ asked. AsksFor append_app (map string_bytes words.now) asked) }
{
    let folder = Arg::new(alloc, "FOLDER")
        .required(true)
        .action(ArgAction::Set);
    let split = Arg::new(alloc, "SPLIT")
        .required(true)
        .action(ArgAction::Set)
        .value_parser(value_parser!(u8).range(0..32));
    let command = Command::new(alloc, "append").arg(folder)?.arg(split)?;
    match command.try_get_matches_from(words) {
        Ok(_) => Ok(Asked::Work),
        Err(error) => refusal(&error),
    }
}
