//! A script that is read as a whole before any of it is done.
#![tactic(auto)]

mod script;

pub use script::{Script, read_script};
