//! A checker of lock coverage: which reads and writes of a script aren't covered by locks.
#![tactic(auto)]

mod cover;
mod holding;
mod lack;
mod lengths;
mod lines;
mod locks;
mod session;
mod sessions;
mod tally;
mod texts;
mod values;

pub use cover::Cover;
pub use lack::Lack;
