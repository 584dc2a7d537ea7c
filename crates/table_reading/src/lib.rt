//! All rows of a keeper's table, read page by page.
#![tactic(auto)]

mod tables;

pub use tables::read_table;
