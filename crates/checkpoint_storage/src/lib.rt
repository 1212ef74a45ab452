//! A folder of checkpoints together with its file of committed egress.
//!
//! A checkpoint's egress is committed behind it, so that the egress file is one epoch behind at most, whenever a crash comes.
#![tactic(auto)]

mod saving;
mod storage;

pub use storage::CheckpointStorage;
