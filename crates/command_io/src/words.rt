//! What the words of a command ask for, as `clap` reads them.
ghost use Rattle.std.specs.Prelude.{◌≡◌, List, ℕ, IfOk};
ghost use Rattle.clap.specs.Words.{App, HasKind, fault_of, kind_of};
ghost use Rattle.command_io.specs.Words.{AsksFor, IsAskOf};

use clap::Error;
use clap::error::ErrorKind;
use proto_wire::{Mem, OutOfMemory};

/// What the words of a command ask for.
#[derive(Clone, Copy, Debug, PartialEq, Eq)]
pub enum Asked {
    /// What the command does.
    Work,
    /// Help on the command.
    Help,
    /// How the command is used, since they are wrong.
    Usage,
}

/// What words ask for that `clap` refuses.
pub fn refusal(error: &Error) -> Mem<Asked>
    ensures { (app : App) (words : List (List ℕ)) → HasKind (fault_of app words) error.now → IfOk result (λ asked. AsksFor app words asked) }
{
    let cause = error.kind();
    asked_by(cause)
}

/// What is asked for by words that are refused for a cause.
fn asked_by(cause: ErrorKind) -> Mem<Asked>
    ensures { IfOk result (λ asked. IsAskOf cause asked) }
{
    if cause == ErrorKind::OutOfMemory {
        return Err(OutOfMemory);
    }
    if cause == ErrorKind::DisplayHelp {
        return Ok(Asked::Help);
    }
    Ok(Asked::Usage)
}
