//! The help on `statefun decode`.
ghost use Rattle.std.specs.Prelude.{◌≡◌};
ghost use Rattle.statefun_cli.specs.Decode.{help_text};

/// What is written where help is asked for.
#[tactic(auto, unfolding(crate::specs::Decode::help_text))]
pub(crate) fn help_text() -> &'static str
    ensures { result.now ≡ help_text }
{
    "Reads a message from standard input and writes it as lines

Usage: statefun decode <KIND>

Arguments:
  <KIND>  What is decoded: a request to a function or an answer from one [possible values: to, from]

Options:
  -h, --help  Print help
"
}
