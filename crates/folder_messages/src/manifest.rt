//! What a manifest says: its job, the runs that were opened, and the checkpoints that are complete.
use proto_wire::{List, Text};
use run_record::Entry;

/// One message of a manifest.
#[derive(Drop)]
pub enum Manifest {
    /// Field 1: what the folder is for.
    Job(Job),
    /// Field 2: a run was opened.
    Opening(Opening),
    /// Field 3: a checkpoint is complete.
    Complete(Complete),
}

/// What a folder is for.
#[derive(Drop)]
pub struct Job {
    /// Field 1: the version of the folder's form.
    pub version: u32,
    /// Field 2: the job's text.
    pub text: Text,
}

/// A run was opened.
#[derive(Drop)]
pub struct Opening {
    /// Field 1: the limit of its legs.
    pub leg: u64,
}

/// A checkpoint is complete.
#[derive(Drop)]
pub struct Complete {
    /// Field 1: its number, from 1.
    pub number: u64,
    /// Field 2: the leg in which it was made.
    pub leg: u64,
    /// Field 3: the moment of that leg, in milliseconds.
    pub moment: u64,
    /// Field 4: how many records of each split were taken, by split.
    pub taken: List<Taken>,
    /// Field 5: the entries that took them since the checkpoint before.
    pub takes: List<Entry>,
    /// Field 6: where the piece and the letters of each partition stand, by partition.
    pub places: List<Place>,
}

/// How many records of a split were taken.
#[derive(Drop)]
pub struct Taken {
    /// Field 1.
    pub count: u64,
}

/// Where a partition's part of a checkpoint stands, as positions in the partition's file.
#[derive(Drop)]
pub struct Place {
    /// Field 1: the position of its piece.
    pub piece: u64,
    /// Field 2: the position of its letters on the way.
    pub feedback: u64,
}
