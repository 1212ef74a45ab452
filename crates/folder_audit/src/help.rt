//! The help on `statefun audit`.
ghost use Rattle.std.specs.Prelude.{◌≡◌};
ghost use Rattle.folder_audit.specs.Ends.{audit_help};

/// What is written where help is asked for.
#[tactic(auto, unfolding(crate::specs::Ends::audit_help))]
pub(crate) fn audit_help() -> &'static str
    ensures { result.now ≡ audit_help }
{
    "Replays the stored record of a folder and compares what it leads to with the newest checkpoint

Usage: statefun audit <MODULE> <FOLDER>

Arguments:
  <MODULE>  The module file
  <FOLDER>  The folder of the logs and the checkpoints

Options:
  -h, --help  Print help
"
}
