//! A disk over a file that stands in its folder.
#![tactic(auto)]

mod folder_disk;

pub use folder_disk::FolderDisk;
