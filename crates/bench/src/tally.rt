//! What the rounds of a work made.

/// What the rounds of a work made.
#[derive(Clone, Copy, Debug, PartialEq, Eq)]
pub(crate) struct Tally {
    /// How many bytes one round encodes.
    pub(crate) bytes: usize,
    /// Whether each round encoded the bytes that it had decoded.
    pub(crate) same: bool,
}

impl Tally {
    /// Whether all rounds were the same, as a word.
    pub(crate) fn word(&self) -> &'static str {
        if self.same { "yes" } else { "no" }
    }
}
