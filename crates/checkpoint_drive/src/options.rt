//! How a run over a folder goes.

/// How a run over a folder goes.
#[derive(Clone, Copy, Debug, PartialEq, Eq)]
pub struct Options {
    /// A checkpoint is taken every so many legs of the run, at least 1.
    pub every: u64,
    /// The most legs of the run.
    pub legs: u64,
    /// Whether the run ends once nothing is left and all is in a checkpoint.
    pub drain: bool,
}
