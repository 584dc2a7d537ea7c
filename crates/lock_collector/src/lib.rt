//! The lock container: requests that are collected, to be asked for in one call.
#![tactic(auto)]

mod collector;

pub use collector::{CollectFault, Collector};
