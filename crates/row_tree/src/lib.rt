//! Rows in numbered tables, kept in a tree in memory, and a batch that waits for its turn. A batch costs what its
//! changes cost, however many rows there are.
#![tactic(auto)]

mod batches;
mod places;
mod row_key;
mod row_tree;
mod steps;

pub use batches::are_distinct;
pub use row_tree::RowTree;
