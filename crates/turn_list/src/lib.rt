//! The order in which units wait: a list of turns.
#![tactic(auto)]

mod counts;
mod turns;

pub use turns::Turns;
