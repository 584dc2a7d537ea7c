//! Laws of the orders of workers: what a history tells of them, and that no unit waits where all workers rest.
#![tactic(auto)]

mod laws;

pub use laws::{none_waits_at_rest, orders_are_done, orders_are_told};
