//! The texts of the monitors: SM12 for the lock table, SM13 for update records, SNRO for intervals, AUDIT.
#![tactic(auto)]

mod lines;
mod monitor;
mod shown;
mod views;

pub use monitor::{Bytes, audit, sm12, sm13, snro};
pub use views::ServerView;
