//! The help on `statefun show`.
ghost use Rattle.std.specs.Prelude.{◌≡◌};
ghost use Rattle.folder_commands.specs.Show.{show_help};

/// What is written where help is asked for.
#[tactic(auto, unfolding(crate::specs::Show::show_help))]
pub(crate) fn show_help() -> &'static str
    ensures { result.now ≡ show_help }
{
    "Writes what was committed to egress, a line for each record

Usage: statefun show <FOLDER>

Arguments:
  <FOLDER>  The folder of the checkpoints

Options:
  -h, --help  Print help
"
}
