//! What holds of the verdict of each call, and of the lists that a call changes: what the code of the calls and the
//! laws over whole histories both stand on.
#![tactic(auto)]

mod laws;

pub use laws::barred_calls_are_refused;
