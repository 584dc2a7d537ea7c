//! Laws of numbers that sessions draw from stocks beside the hall: what each call leaves of a stock, and when its
//! numbers may be committed.
#![tactic(auto)]

mod laws;

pub use laws::{levels_are_reserved, lots_stay, stocks_may_be_committed};
