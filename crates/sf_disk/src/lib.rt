//! Disks: numbered files, what a read gives, and what a crash may leave of them.
#![tactic(auto)]

mod call_count;
mod change;
mod disk;
mod files;
mod folder_disk;
mod image;
mod memory_disk;
mod names;
mod open_folder;
mod system_file;

pub use disk::Disk;
pub use folder_disk::FolderDisk;
pub use memory_disk::MemoryDisk;
