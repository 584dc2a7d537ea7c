//! The backup file: the locks of units whose update is still to come, which outlive the lock table (Standalone Enqueue
//! Server, backup file).
#![tactic(auto)]

mod backup;
mod compact_log;
mod compacting;
mod fault;
mod file_log;
mod gates;
mod handed;
mod ids;
mod laws;
mod lists;
mod log_records;
mod numbers;
mod opening;
mod places;
mod plan;
mod reading;
mod slot_bytes;
mod texts;
mod unit_set;
mod writing;

pub use backup::{Backup, ReadyHand};
pub use fault::{BackFault, WriteFault};
pub use handed::{Handed, Record};
pub use laws::one_meaning;
pub use places::{Place, Slot, Slots, Which};
