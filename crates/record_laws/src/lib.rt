//! What holds of units, their marks and the rows of both, whatever function makes them.
#![tactic(auto)]

mod laws;

pub use laws::marks_add_their_numbers;
