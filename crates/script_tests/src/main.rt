//! Tests of scripts that look at more than their replies and what they leave: at the history, at what is read of a
//! device, at a hall that is handed in, at the images that a crash may leave, and at the texts of replies and around a script. All
//! others are text, in `script_rows`.
#![tactic(auto)]

#[cfg(test)]
mod ends;
#[cfg(test)]
mod handover;
#[cfg(test)]
mod limits;
#[cfg(test)]
mod loads;
#[cfg(test)]
mod replies;
#[cfg(test)]
mod runs;
#[cfg(test)]
mod texts;

/// Does nothing: the crate is its tests.
fn main() {}
