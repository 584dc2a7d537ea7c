//! Clients of the ticket lock, the number stock and the gauges: threads that note numbers in one history, threads that
//! draw and look while another holds the turn, and readings that are seen to rise.
#![tactic(auto)]

mod actor;
#[cfg(test)]
mod actors;
#[cfg(test)]
mod drawing;
#[cfg(test)]
mod held;
mod notes;
#[cfg(test)]
mod opened;
#[cfg(test)]
mod pair;
#[cfg(test)]
mod parting;
#[cfg(test)]
mod readings;
#[cfg(test)]
mod rising;
#[cfg(test)]
mod tests;

pub use actor::Actor;
pub use notes::{NoteNumber, Notes, note};
