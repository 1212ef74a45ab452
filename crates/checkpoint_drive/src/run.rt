//! A run over a folder, between two legs.
ghost use Rattle.std.specs.Prelude.{◌≡◌, ◌≤◌, ◌<◌, ◌+◌, ◌^◌};
ghost use Rattle.checkpoint_drive.specs.Drives.{is_asked, is_held};
ghost use Rattle.checkpoint_drive.specs.Begins.{rest_of};
ghost use Rattle.snapshot_files.specs.Stores.{newest};
ghost use Rattle.statefun_driver.specs.Work.{here};

use crate::Options;
use checkpoint_storage::CheckpointStorage;
use statefun_driver::{Job, Progress};
use std::alloc::Global;

/// A run over a folder. It is for one disk and one outside alone.
#[derive(Drop)]
pub(crate) struct Run {
    pub(crate) alloc: Global,
    pub(crate) job: Job,
    pub(crate) options: Options,
    pub(crate) storage: CheckpointStorage,
    pub(crate) progress: Progress,
    /// The most legs.
    pub(crate) most: u64,
    /// How many legs were made.
    pub(crate) legs: u64,
    /// The leg before ended with nothing left, and not all of it is in a checkpoint.
    pub(crate) unheld: bool,
}

impl Run {
    ghost use Rattle.statefun_driver.specs.Turns.{Origin};

    /// Whether a checkpoint is taken behind the next leg.
    pub(crate) fn is_asked(&self) -> bool
        requires every { 1 ≤ self.now.options.every }
        requires few { self.now.legs + 1 < 2 ^ 64 }
        ensures { (origin : Origin) → result ≡ is_asked self.now.options (rest_of origin self.now) }
    {
        self.unheld || (self.legs + 1) % self.options.every == 0
    }

    /// Whether all steps are in a checkpoint, and there is one.
    pub(crate) fn is_held(&self) -> bool
        ensures { result ≡ is_held (newest self.now.storage.store) (here self.now.progress) }
    {
        self.storage.newest() > 0 && self.progress.is_cut()
    }
}
