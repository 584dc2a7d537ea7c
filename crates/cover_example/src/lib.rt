//! A history of a script that lacks nothing: the premises of `cover_laws` can be met.
#![tactic(auto)]

mod laws;

pub use laws::a_covered_history;
