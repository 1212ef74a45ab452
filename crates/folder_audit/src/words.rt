//! The words of `statefun audit`.
ghost use Rattle.std.specs.Prelude.{◌≡◌, IfOk, map};
ghost use Rattle.std.specs.String.{string_bytes};
ghost use Rattle.command_io.specs.Words.{AsksFor};
ghost use Rattle.folder_audit.specs.Words.{audit_app};

use clap::{Arg, ArgAction, Command};
use command_io::{Asked, refusal};
use proto_wire::Mem;
use std::alloc::Global;

/// What `clap` reads in the words `audit MODULE FOLDER`. The first word is not looked at, and the others are the caller's to open.
pub fn read_audit_words(alloc: Global, words: &[String]) -> Mem<Asked>
    ensures { IfOk result (λ asked. AsksFor audit_app (map string_bytes words.now) asked) }
{
    let file = Arg::new(alloc, "MODULE")
        .required(true)
        .action(ArgAction::Set);
    let folder = Arg::new(alloc, "FOLDER")
        .required(true)
        .action(ArgAction::Set);
    let command = Command::new(alloc, "audit").arg(file)?.arg(folder)?;
    match command.try_get_matches_from(words) {
        Ok(_) => Ok(Asked::Work),
        Err(error) => refusal(&error),
    }
}
