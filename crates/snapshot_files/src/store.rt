//! A store that is open.
ghost use Rattle.std.specs.Prelude.{◌≡◌, ◌≤◌, ◌<◌, ◌^◌, length, IsFalse, vec_len};
ghost use Rattle.snapshot_files.specs.Logs.{AreFiles, AreUsable};

use crate::slot::Slot;
use block_log::BlockLog;
use folder_form::Shape;
use proto_wire::{List, Text};
use std::alloc::Global;

/// The number of the manifest.
pub(crate) const MANIFEST: u32 = 0;

/// The number of the first partition's file; those of the others stand behind it.
pub(crate) const PIECES: u32 = 2;

/// How many partitions there are at most, and files for them.
pub(crate) const PARTITIONS: u32 = 16;

/// A folder of checkpoints that is open. It is for one disk alone, and nobody else writes its files.
#[derive(Drop)]
pub struct Store {
    pub(crate) manifest: BlockLog,
    /// The logs of files 2 to 17.
    pub(crate) logs: Vec<BlockLog>,
    /// What was put for each partition since the newest checkpoint.
    pub(crate) slots: Vec<Slot>,
    /// The text of its job.
    pub(crate) text: Text,
    pub(crate) shape: Shape,
    /// Where the block of each checkpoint stands in the manifest.
    pub(crate) completes: List<u64>,
    /// The greatest leg of a run or a checkpoint, 0 for none.
    pub(crate) stored_leg: u64,
    /// A call that writes has answered a fault.
    pub(crate) spent: bool,
    pub(crate) alloc: Global,
    ghost file: { manifest.file ≡ 0 },
    ghost files: { AreFiles 2 logs.items },
    ghost logs_len: { vec_len logs ≡ 16 },
    ghost slots_len: { vec_len slots ≡ 16 },
    ghost some: { 1 ≤ shape.partitions },
    ghost most: { shape.partitions ≤ 16 },
    ghost order: { length completes ≤ stored_leg },
    ghost ready: { IsFalse spent → IsFalse manifest.spent },
    ghost usable: { IsFalse spent → AreUsable logs.items },
}

impl Store {
    ghost use Rattle.std.specs.Prelude.{◌&&◌};
    ghost use Rattle.snapshot_files.specs.Stores.{newest};
    ghost use Rattle.snapshot_files.specs.Usable.{has_piece, has_letters, latest_put};

    /// The number of the newest checkpoint, 0 for none. It is never above the stored leg.
    pub fn newest(&self) -> u64
        ensures newest { result ≡ newest self.now }
        ensures order { result ≤ self.now.stored_leg }
        ensures few { result < 2 ^ 62 }
    {
        self.completes.as_slice().len() as u64
    }

    /// The greatest leg of a run that was begun or of a checkpoint, 0 for none.
    pub fn stored_leg(&self) -> u64
        ensures { result ≡ self.now.stored_leg }
    {
        self.stored_leg
    }

    /// The text of the folder's job.
    pub fn kept_text(&self) -> &Text
        ensures { result.now ≡ self.now.text }
    {
        &self.text
    }

    /// Over how many partitions its addresses are spread, and how many splits its job reads.
    pub fn shape(&self) -> Shape
        ensures { result ≡ self.now.shape }
    {
        self.shape
    }

    /// Whether a call that writes has answered a fault. Then the folder is opened again.
    pub fn spent(&self) -> bool
        ensures { result ≡ self.now.spent }
    {
        self.spent
    }

    /// Whether both the piece and the letters of a partition were put since the newest checkpoint, or since opening.
    pub fn placed(&self, partition: u32) -> bool
        requires { partition < self.now.shape.partitions }
        ensures { result ≡ (has_piece self.now partition && has_letters self.now partition) }
    {
        let slot = &self.slots[partition as usize];
        slot.piece.is_some() && slot.letters.is_some()
    }

    /// The greatest moment in the piece that was put for a partition, in milliseconds; 0 for none.
    pub fn latest(&self, partition: u32) -> u64
        requires { partition < self.now.shape.partitions }
        ensures { result ≡ latest_put self.now partition }
    {
        self.slots[partition as usize].latest
    }
}
