//! The calls of a hall one by one, each of them what `serve` answers to its command.
#![tactic(auto)]

mod calls;

pub use calls::SingleCalls;
