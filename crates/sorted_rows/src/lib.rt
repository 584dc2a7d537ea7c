//! Rows in numbered tables, kept in order in memory, and a batch that waits for its turn.
#![tactic(auto)]

mod copies;
mod sorted_rows;
mod table;
mod tables;

pub use sorted_rows::SortedRows;
