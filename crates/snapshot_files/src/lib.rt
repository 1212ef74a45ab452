//! Folders of checkpoints: a manifest, and for each partition a file of pieces and of letters that were on the way.
//!
//! A checkpoint is complete when its block stands in the manifest: its pieces were synced before. So a crash at any moment leaves the checkpoints that were
//! complete, and of the one that is written all or nothing.
#![tactic(auto)]

mod completing;
mod job;
mod laws;
mod loading;
mod logs;
mod opening;
mod parts;
mod putting;
mod reading;
mod slot;
mod store;
mod texts;

pub use folder_form::{Loaded, Mark, Shape};
pub use laws::{
    a_folder_stands_for_one_thing, an_open_store_stands_for_its_contents, what_was_put_is_there,
};
pub use store::Store;
pub use store_faults::StoreFault;
