//! A keeper of rows: what a call does to them, and what a crash may leave.
#![tactic(auto)]

mod fault;
mod keeper;
mod rows;

pub use fault::KeepFault;
pub use keeper::Keeper;
pub use rows::{Bytes, Change, Row};
