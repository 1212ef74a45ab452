//! The help that is shown beside wrong words.

/// The commands, in one screen.
const COMMANDS: &str = "The commands of statefun:

  statefun run MODULE --turns N
      Runs the job of the module file MODULE over the logs split-0.log, split-1.log .. of this folder.
      N          the most turns, 1 to 1000000000

  statefun decode to|from
      Prints the request (to) or the answer (from) that the bytes of standard input spell,
      at most 8388608 of them.

  statefun check MODULE
      Prints what the module file MODULE is made of, or its first fault.

  statefun serve PORT
      Serves the functions com.example/greeter and com.example/total on 127.0.0.1.

The line `usage word I` names the first wrong word, counted from 0; where it is the number
of words, one is missing.
";

/// Writes the help to standard error. That it cannot be written changes nothing.
pub(crate) fn show(rt: &HostRuntime) {
    let _ = rt.eprintln(COMMANDS);
}
