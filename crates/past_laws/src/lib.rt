//! A history that is full: which calls find it so, and how long it is.
#![tactic(auto)]

mod laws;

pub use laws::{histories_end, posts_are_not_idle};
