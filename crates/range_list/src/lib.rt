//! The intervals of a landscape over the levels that a store has, each found by its name, and the numbers that sessions
//! draw from them.
#![tactic(auto)]

mod range_id;
mod range_places;
mod ranges;
mod starting;

pub use ranges::Ranges;
