//! Logs that grow by records behind gates, on a disk that may crash.
//!
//! A log begins with its name. Then come records, each behind a gate of one byte, which is open where it is 1. What
//! stands behind the first closed gate isn't read. A record is written behind the closed gate before that is opened.
#![tactic(auto)]

mod adding;
mod fault;
mod opening;
mod through;

pub use adding::add_record;
pub use fault::LogFault;
pub use opening::{make_new, read_all};
pub use through::{cut_through, write_through};
