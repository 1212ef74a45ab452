//! Disks that are read ahead, in large reads.
#![tactic(auto)]

mod ahead;
mod bytes;
mod slots;
mod window;
mod within;

pub use ahead::ReadAhead;
