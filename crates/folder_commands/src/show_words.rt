//! The words of `statefun show`.
ghost use Rattle.std.specs.Prelude.{◌≡◌, IfOk, map};
ghost use Rattle.std.specs.String.{string_bytes};
ghost use Rattle.command_io.specs.Words.{AsksFor};
ghost use Rattle.folder_commands.specs.ShowWords.{show_app};

use clap::{Arg, ArgAction, Command};
use command_io::{Asked, refusal};
use proto_wire::Mem;
use std::alloc::Global;

/// What `clap` reads in the words `show FOLDER`. The first word is not looked at, and the second is the caller's to open.
pub fn read_show_words(alloc: Global, words: &[String]) -> Mem<Asked>
    ensures { IfOk result (λ asked. AsksFor show_app (map string_bytes words.now) asked) }
{
    let folder = Arg::new(alloc, "FOLDER")
        .required(true)
        .action(ArgAction::Set);
    let command = Command::new(alloc, "show").arg(folder)?;
    match command.try_get_matches_from(words) {
        Ok(_) => Ok(Asked::Work),
        Err(error) => refusal(&error),
    }
}
