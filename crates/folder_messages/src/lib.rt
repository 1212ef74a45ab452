//! The messages of a folder: the entries of a run's record, and what the manifest says of its checkpoints.
//!
//! Each encoder gives the canonical spelling, and decoding that gives the message again. Each decoder answers `Ok` exactly where the bytes spell a message, else
//! their first fault. A number of 32 bits above its range is OverLimit, at the first byte of the number, also where a later record takes its place. Where a
//! part is absent that the message needs, and no other fault came, the fault is NoMember, at the input's length.
#![tactic(auto)]

mod call;
mod complete;
mod due_step;
mod entry;
mod manifest;
mod manifest_message;
mod manifest_parts;
mod parts;
mod reply;
mod shorts;

pub use call::{decode_call, encode_call};
pub use complete::{decode_complete, encode_complete, entries_size, with_entries};
pub use due_step::{DueStep, decode_due_step, encode_due_step};
pub use entry::{EntryRead, decode_entry, encode_entry};
pub use manifest::{Complete, Job, Manifest, Opening, Place, Taken};
pub use manifest_message::{decode_manifest, encode_manifest};
pub use manifest_parts::{
    decode_job, decode_opening, decode_place, decode_taken, encode_job, encode_opening,
    encode_place, encode_taken,
};
pub use parts::{Parts, all_whole, decoded_whole};
pub use reply::{PickRead, decode_reply, encode_reply};
pub use shorts::with_short;

#[cfg(test)]
mod tests;
