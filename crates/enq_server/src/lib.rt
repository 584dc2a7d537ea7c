//! The lock table, its backup file and its replica, kept in agreement (Standalone Enqueue Server).
#![tactic(auto)]

mod fault;
mod laws;
mod places;
mod recovery;
mod replica;
mod server;
mod shipping;
mod wreck;

pub use fault::{OpenFault, OverFault, ServerFault};
pub use laws::{entries_follow_lists, one_user_is_kept, what_a_table_held_stands_together};
pub use server::EnqServer;
