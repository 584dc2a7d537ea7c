//! The words `cover`: where the reads and writes of a script aren't covered by locks, told line by line.
#![tactic(auto)]

mod cover;
mod lines;
mod texts;

pub use cover::write_cover;
