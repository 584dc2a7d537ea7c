//! What covered scripts keep: no row that a unit has read changes before the unit is posted or refused.
#![tactic(auto)]

mod laws;

pub use laws::covered_are_safe;
