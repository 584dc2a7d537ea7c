//! Sessions, the administrator and workers as threads: their work, each at a desk of its own, and what they leave.
#![tactic(auto)]

mod actor;
mod last_desk;
mod working;

pub use actor::{Actor, Deed};
pub use last_desk::LastDesk;
pub use working::{Leavings, gather, work_all};
