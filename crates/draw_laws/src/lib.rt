//! What stays right of the numbers that sessions draw: laws that no function needs, and that a caller cites.
#![tactic(auto)]

mod laws;

pub use laws::{
    draws_follow_sessions, draws_may_be_stored, draws_outlast_sessions, draws_stay_right,
    rows_fit_by_name,
};
