//! Reading the words of a run one by one.
ghost use Rattle.std.specs.Prelude.{◌≡◌, bytes_eq, codes};
ghost use Rattle.std.specs.Option.{option_copied};
ghost use Rattle.run_words.specs.Words.{asked_by, asked_with, at, goes_on, is_name, joined_in, key_in, most_of, names, nothing, option_of, read_drain, read_key, read_keyed, read_value, read_word, value_of, with_value};
ghost use Rattle.run_words.specs.declared.reading.Place.TheVariants.{Command as CommandPlace, Options as OptionsPlace, Value as ValuePlace};

use crate::numbers::number_in;
use crate::words::RunWords;

/// An option with a value.
#[derive(Clone, Copy, Debug, PartialEq, Eq)]
pub(crate) enum Key {
    Partitions,
    Every,
    Turns,
}

/// What the next word is to be.
#[derive(Clone, Copy, Debug, PartialEq, Eq)]
pub(crate) enum Place {
    Command,
    Module,
    Folder,
    /// An option, or none.
    Options,
    /// The value of an option.
    Value(Key),
}

/// What was asked for so far.
#[derive(Clone, Copy, Debug, PartialEq, Eq)]
pub(crate) struct Asked {
    pub(crate) partitions: Option<u64>,
    pub(crate) every: Option<u64>,
    pub(crate) turns: Option<u64>,
    pub(crate) drain: bool,
}

/// How far words were read.
#[derive(Clone, Copy, Debug, PartialEq, Eq)]
pub(crate) struct Reading {
    pub(crate) place: Place,
    pub(crate) asked: Asked,
}

impl Key {
    fn option(self) -> &'static str
        ensures { result.now ≡ option_of self }
    {
        match self {
            Key::Partitions => "--partitions",
            Key::Every => "--every",
            Key::Turns => "--turns",
        }
    }

    /// The value behind `--option=` in one word.
    fn joined_in(self, word: &str) -> Option<&str>
        ensures { option_copied result ≡ joined_in self word.now }
    {
        match self {
            Key::Partitions => word.strip_prefix("--partitions="),
            Key::Every => word.strip_prefix("--every="),
            Key::Turns => word.strip_prefix("--turns="),
        }
    }

    fn most(self) -> u64
        ensures { result ≡ most_of self }
    {
        match self {
            Key::Partitions => 1,
            Key::Every => 1_000_000,
            Key::Turns => 1_000_000_000,
        }
    }

    /// Whether a word is this option, with its value or without.
    fn is_named(self, word: &str) -> bool
        ensures { result ≡ names self word.now }
    {
        word == self.option() || self.joined_in(word).is_some()
    }
}

#[tactic(auto, unfolding(crate::specs::Words::key_in))]
fn key_in(word: &str) -> Option<Key>
    ensures { result ≡ key_in word.now }
{
    if Key::Partitions.is_named(word) {
        return Some(Key::Partitions);
    }
    if Key::Every.is_named(word) {
        return Some(Key::Every);
    }
    if Key::Turns.is_named(word) {
        return Some(Key::Turns);
    }
    None
}

impl Asked {
    fn value_of(self, key: Key) -> Option<u64>
        ensures { result ≡ value_of key self }
    {
        match key {
            Key::Partitions => self.partitions,
            Key::Every => self.every,
            Key::Turns => self.turns,
        }
    }

    fn with_value(self, key: Key, value: u64) -> Asked
        ensures { result ≡ with_value key value self }
    {
        match key {
            Key::Partitions => Asked {
                partitions: Some(value),
                ..self
            },
            Key::Every => Asked {
                every: Some(value),
                ..self
            },
            Key::Turns => Asked {
                turns: Some(value),
                ..self
            },
        }
    }

    fn at(self, place: Place) -> Reading
        ensures { result ≡ at place self }
    {
        Reading { place, asked: self }
    }

    fn go_on(self, is_right: bool, place: Place) -> Option<Reading>
        ensures { result ≡ goes_on is_right place self }
    {
        if is_right { Some(self.at(place)) } else { None }
    }

    fn read_value(self, key: Key, word: &str) -> Option<Reading>
        ensures { result ≡ read_value key self word.now }
    {
        match number_in(key.most(), word) {
            Some(value) => Some(self.with_value(key, value).at(Place::Options)),
            None => None,
        }
    }

    /// Reads an option that stands once.
    #[tactic(auto, unfolding(crate::specs::Words::read_key))]
    fn read_key(self, key: Key, word: &str) -> Option<Reading>
        ensures { result ≡ read_key key self word.now }
    {
        if self.value_of(key).is_some() {
            return None;
        }
        if word == key.option() {
            return Some(self.at(Place::Value(key)));
        }
        match key.joined_in(word) {
            Some(value) => self.read_value(key, value),
            None => None,
        }
    }

    fn read_drain(self, word: &str) -> Option<Reading>
        ensures { result ≡ read_drain self word.now }
    {
        if word == "--drain" && !self.drain {
            Some(Asked {
                drain: true,
                ..self
            }
            .at(Place::Options))
        } else {
            None
        }
    }

    fn read_option(self, word: &str) -> Option<Reading>
        ensures { result ≡ read_keyed self word.now (key_in word.now) }
    {
        match key_in(word) {
            Some(key) => self.read_key(key, word),
            None => self.read_drain(word),
        }
    }
}

impl Asked {
    fn words(self) -> Option<RunWords>
        ensures { result ≡ asked_with self.partitions self.every self.turns self.drain }
    {
        let _partitions = self.partitions?;
        let every = self.every?;
        let turns = self.turns?;
        Some(RunWords {
            every,
            turns,
            drain: self.drain,
        })
    }
}

/// A word that is not empty and does not begin with `-`.
fn is_name(word: &str) -> bool
    ensures { result ≡ is_name word.now }
{
    match word.as_bytes() {
        [first, ..] => *first != b'-',
        [] => false,
    }
}

impl Reading {
    pub(crate) fn new() -> Reading
        ensures { result ≡ at CommandPlace nothing }
    {
        let asked = Asked {
            partitions: None,
            every: None,
            turns: None,
            drain: false,
        };
        asked.at(Place::Command)
    }

    /// Where reading goes on behind a word; `None` where it is wrong.
    #[tactic(auto, unfolding(crate::specs::Words::read_word))]
    pub(crate) fn read(self, word: &str) -> Option<Reading>
        ensures { result ≡ read_word self word.now }
    {
        match self.place {
            Place::Command => self.asked.go_on(word == "run", Place::Module),
            Place::Module => self.asked.go_on(is_name(word), Place::Folder),
            Place::Folder => self.asked.go_on(is_name(word), Place::Options),
            Place::Options => self.asked.read_option(word),
            Place::Value(key) => self.asked.read_value(key, word),
        }
    }

    /// What was asked for where no word follows; `None` where something is missing.
    #[tactic(auto, unfolding(crate::specs::Words::asked_by))]
    pub(crate) fn asked(self) -> Option<RunWords>
        ensures { result ≡ asked_by self }
    {
        match self.place {
            Place::Options => self.asked.words(),
            Place::Command | Place::Module | Place::Folder | Place::Value(_) => None,
        }
    }
}
