//! A lock table whose entries are found by what they lock and by their owners, and a replica of one.
#![tactic(auto)]

mod asks;
mod changes;
mod converts;
mod finding;
mod index_link;
mod index_table;
mod key;
mod lists;
mod loads;
mod looking;
mod members;
mod notes;
mod owners;
mod places;
mod readmits;
mod replica;
mod search;
mod shelf;

pub use index_link::IndexLink;
pub use index_table::IndexTable;
