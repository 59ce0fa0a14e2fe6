//! The disk model: what a crash at any moment may leave of a disk, and a disk in memory that keeps to it.
#![tactic(auto)]

mod call;
mod changed;
mod disk;
mod images;
mod memory_disk;
mod synced;

pub use call::Call;
pub use disk::Disk;
pub use memory_disk::MemoryDisk;
pub use synced::{cut_and_sync, write_and_sync};
