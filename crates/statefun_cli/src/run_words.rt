//! The words of `statefun run`.
ghost use Rattle.std.specs.Prelude.{◌≡◌, ◌↔◌, ◌≤◌, ◌<◌, slice_index, slice_get, codes, map, Ok, Err, IfOk, IfErr, IfSome, IsTrue};
ghost use Rattle.std.specs.Option.{option_copied};
ghost use Rattle.std.specs.String.{string_bytes};
ghost use Rattle.statefun_cli.specs.RunWords.{AsksFor, IsFirstWrong, Reads, command_in, file_in, is_at, joined_turns_in, read_at, turns_asked, turns_in, turns_of, turns_within};

use crate::WordsFault;

/// What the words of a run ask for, beside the file of its module.
#[derive(Clone, Copy, Debug)]
pub struct RunWords {
    /// The most turns, from 1 to 1,000,000,000.
    pub turns: u64,
}

/// Reads the words `run MODULE --turns N`, or with `--turns=N` as one word. MODULE is not empty and does not begin with `-`;
/// N is decimal digits without a leading zero, from 1 to 1,000,000,000. `Usage` exactly at wrong words, with the first
/// word with which they no longer begin right words, or their number where something is missing.
pub fn read_run_words(words: &[String]) -> Result<RunWords, WordsFault>
    ensures reads { AsksFor (turns_asked (map string_bytes words.now)) result }
    ensures first { IfErr result (λ fault. IsFirstWrong (map string_bytes words.now) fault.word) }
    ensures turns { IfOk result (λ asked. (1 ≤ asked.turns) × (asked.turns ≤ 1000000000)) }
{
    match turns_asked(words) {
        Ok(turns) => Ok(RunWords { turns }),
        Err(fault) => Err(fault),
    }
}

#[tactic(auto, unfolding(crate::specs::RunWords::turns_asked))]
fn turns_asked(words: &[String]) -> Result<u64, WordsFault>
    ensures reads { Reads (turns_asked (map string_bytes words.now)) result }
    ensures bound { IfOk result (λ turns. (1 ≤ turns) × (turns ≤ 1000000000)) }
{
    let _command = command_at(words)?;
    let _file = file_at(words)?;
    turns_of(words)
}

/// The fault of words that are wrong from a place on.
fn usage(place: usize) -> WordsFault
    requires { place < 8 }
    ensures { result.word ≡ place }
{
    WordsFault { word: place as u32 }
}

/// The word at a place.
fn word_at(words: &[String], place: usize) -> Option<&str>
    ensures { option_copied result ≡ slice_get (map string_bytes words.now) place }
{
    match words.get(place) {
        Some(word) => Some(word.as_str()),
        None => None,
    }
}

#[tactic(auto, unfolding(crate::specs::RunWords::read_at))]
fn command_at(words: &[String]) -> Result<&str, WordsFault>
    ensures ok { IfOk result (λ word. read_at command_in (map string_bytes words.now) 0 ≡ Ok word.now) }
    ensures wrong { IfErr result (λ fault. read_at command_in (map string_bytes words.now) 0 ≡ Err fault.word) }
{
    match word_at(words, 0) {
        Some(word) if word == "run" => Ok(word),
        _ => Err(usage(0)),
    }
}

#[tactic(auto, unfolding(crate::specs::RunWords::read_at))]
fn file_at(words: &[String]) -> Result<&str, WordsFault>
    ensures ok { IfOk result (λ word. read_at file_in (map string_bytes words.now) 1 ≡ Ok word.now) }
    ensures wrong { IfErr result (λ fault. read_at file_in (map string_bytes words.now) 1 ≡ Err fault.word) }
{
    match word_at(words, 1) {
        Some(word) => match file_in(word) {
            Some(file) => Ok(file),
            None => Err(usage(1)),
        },
        None => Err(usage(1)),
    }
}

/// A word that is not empty and does not begin with `-`.
fn file_in(word: &str) -> Option<&str>
    ensures { option_copied result ≡ file_in word.now }
{
    match word.as_bytes() {
        [first, ..] => { if *first == b'-' { None } else { Some(word) } }
        [] => None,
    }
}

/// The number of turns, from place 2 on, with nothing behind it.
#[tactic(auto, unfolding(crate::specs::RunWords::turns_of))]
fn turns_of(words: &[String]) -> Result<u64, WordsFault>
    ensures reads { Reads (turns_of (map string_bytes words.now)) result }
    ensures bound { IfOk result (λ turns. (1 ≤ turns) × (turns ≤ 1000000000)) }
{
    if is_turns_at(words) {
        let turns = turns_at(words)?;
        match word_at(words, 4) {
            None => Ok(turns),
            Some(_) => Err(usage(4)),
        }
    } else {
        let turns = joined_turns_at(words)?;
        match word_at(words, 3) {
            None => Ok(turns),
            Some(_) => Err(usage(3)),
        }
    }
}

fn is_turns_at(words: &[String]) -> bool
    ensures { result ≡ is_at (map string_bytes words.now) 2 (codes "--turns") }
{
    match word_at(words, 2) {
        Some(word) => word == "--turns",
        None => false,
    }
}

#[tactic(auto, unfolding(crate::specs::RunWords::read_at))]
fn turns_at(words: &[String]) -> Result<u64, WordsFault>
    ensures reads { Reads (read_at turns_in (map string_bytes words.now) 3) result }
    ensures bound { IfOk result (λ turns. (1 ≤ turns) × (turns ≤ 1000000000)) }
{
    match word_at(words, 3) {
        Some(word) => match turns_in(word) {
            Some(turns) => Ok(turns),
            None => Err(usage(3)),
        },
        None => Err(usage(3)),
    }
}

#[tactic(auto, unfolding(crate::specs::RunWords::read_at))]
fn joined_turns_at(words: &[String]) -> Result<u64, WordsFault>
    ensures reads { Reads (read_at joined_turns_in (map string_bytes words.now) 2) result }
    ensures bound { IfOk result (λ turns. (1 ≤ turns) × (turns ≤ 1000000000)) }
{
    match word_at(words, 2) {
        Some(word) => match joined_turns_in(word) {
            Some(turns) => Ok(turns),
            None => Err(usage(2)),
        },
        None => Err(usage(2)),
    }
}

const MOST_TURNS: u64 = 1_000_000_000;

/// A number of turns: decimal digits without a leading zero, from 1 to 1,000,000,000.
fn turns_in(word: &str) -> Option<u64>
    ensures value { result ≡ turns_in word.now }
    ensures bound { IfSome result (λ turns. (1 ≤ turns) × (turns ≤ 1000000000)) }
{
    if !is_led(word) {
        return None;
    }
    match word.parse::<u64>() {
        Ok(turns) => turns_within(turns),
        Err(_) => None,
    }
}

/// Whether the first byte is a digit and not 0.
fn is_led(word: &str) -> bool
    ensures { IsTrue result ↔ (49 ≤ slice_index word.now 0) × (slice_index word.now 0 ≤ 57) }
{
    match word.as_bytes() {
        [first, ..] => b'1' <= *first && *first <= b'9',
        [] => false,
    }
}

fn turns_within(turns: u64) -> Option<u64>
    ensures value { result ≡ turns_within turns }
    ensures bound { IfSome result (λ turns. (1 ≤ turns) × (turns ≤ 1000000000)) }
{
    if 1 <= turns && turns <= MOST_TURNS {
        Some(turns)
    } else {
        None
    }
}

/// `--turns=N` as one word.
fn joined_turns_in(word: &str) -> Option<u64>
    ensures value { result ≡ joined_turns_in word.now }
    ensures bound { IfSome result (λ turns. (1 ≤ turns) × (turns ≤ 1000000000)) }
{
    match word.strip_prefix("--turns=") {
        Some(number) => turns_in(number),
        None => None,
    }
}
