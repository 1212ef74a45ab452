//! The help on `statefun check`.
ghost use Rattle.std.specs.Prelude.{◌≡◌};
ghost use Rattle.statefun_cli.specs.Check.{check_help};

/// What is written where help is asked for.
#[tactic(auto, unfolding(crate::specs::Check::check_help))]
pub(crate) fn check_help() -> &'static str
    ensures { result.now ≡ check_help }
{
    "Reads a module file and writes what it is made of, or its first refusal

Usage: statefun check <MODULE>

Arguments:
  <MODULE>  The module file

Options:
  -h, --help  Print help
"
}
