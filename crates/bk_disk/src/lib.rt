//! Disks: what a read gives, and what a crash may leave.
#![tactic(auto)]

mod change;
mod disk;
mod file_disk;
mod mem_disk;
mod stop_disk;

pub use change::Change;
pub use disk::{Disk, MAX_LENGTH};
pub use enq_base::Failed;
pub use file_disk::FileDisk;
pub use mem_disk::MemDisk;
pub use stop_disk::StopDisk;
