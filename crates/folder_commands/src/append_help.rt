//! The help on `statefun append`.
ghost use Rattle.std.specs.Prelude.{◌≡◌};
ghost use Rattle.folder_commands.specs.Append.{append_help};

/// What is written where help is asked for.
#[tactic(auto, unfolding(crate::specs::Append::append_help))]
pub(crate) fn append_help() -> &'static str
    ensures { result.now ≡ append_help }
{
    "Reads lines KEY, tab, TEXT from standard input and appends a record for each to the log of a split

Usage: statefun append <FOLDER> <SPLIT>

Arguments:
  <FOLDER>  The folder of the logs
  <SPLIT>   The number of the split, 0 to 31

Options:
  -h, --help  Print help
"
}
