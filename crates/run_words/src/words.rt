//! What the words of a run ask for.
ghost use Rattle.std.specs.Prelude.{◌≡◌, ◌≤◌, map, IfOk, IfErr};
ghost use Rattle.std.specs.String.{string_bytes};
ghost use Rattle.run_words.specs.Words.{AsksFor, IsFirstWrong, words_asked};

use crate::reading::Reading;

/// What the words of a run ask for, beside its module file and its folder.
#[derive(Clone, Copy, Debug, PartialEq, Eq)]
pub struct RunWords {
    /// A checkpoint is taken every so many legs, from 1 to 1,000,000.
    pub every: u64,
    /// The most legs, from 1 to 1,000,000,000.
    pub turns: u64,
    /// Whether the run ends once nothing is left.
    pub drain: bool,
}

/// Words that are wrong.
#[derive(Clone, Copy, Debug, PartialEq, Eq)]
pub struct WordsFault {
    /// The first word with which they no longer begin right words, counted from 0, or their number where something is missing.
    pub word: u32,
}

/// Reads the words `run MODULE FOLDER` and behind them, in any order, `--partitions 1`, `--every K` and `--turns N`, each once,
/// and `--drain` at most once; `--every=K` is one word of the same meaning, and so with the others. MODULE and FOLDER are not
/// empty and do not begin with `-`; K, from 1 to 1,000,000, and N, from 1 to 1,000,000,000, are decimal digits without a
/// leading zero. The fault is the first word with which the words no longer begin right ones, or their number where something
/// is missing.
pub fn read_run_words(words: &[String]) -> Result<RunWords, WordsFault>
    ensures reads { AsksFor (words_asked (map string_bytes words.now)) result }
    ensures first { IfErr result (λ fault. IsFirstWrong (map string_bytes words.now) fault.word) }
    ensures bounds { IfOk result (λ asked. (1 ≤ asked.every) × (asked.every ≤ 1000000) × (1 ≤ asked.turns) × (asked.turns ≤ 1000000000)) }
{
    match words_asked(words) {
        Ok(asked) => Ok(asked),
        Err(fault) => Err(fault),
    }
}

#[tactic(auto, unfolding(crate::specs::Words::words_asked))]
fn words_asked(words: &[String]) -> Result<RunWords, WordsFault>
    ensures { AsksFor (words_asked (map string_bytes words.now)) result }
{
    let mut reading = Reading::new();
    let mut word: u32 = 0;
    for next in words {
        match reading.read(next.as_str()) {
            Some(behind) => reading = behind,
            None => return Err(WordsFault { word }),
        }
        word += 1;
    }
    match reading.asked() {
        Some(asked) => Ok(asked),
        None => Err(WordsFault { word }),
    }
}
