//! Whole starts over a journal that is cut, damaged or left by a stop.
#![tactic(auto)]

#[cfg(test)]
mod starts;

/// Does nothing: the crate is its tests.
fn main() {}
