//! The landscape: the lock objects and the number ranges of a system, read from a TOML document.
#![tactic(auto)]

mod document;
mod land_fault;
mod landscape;
mod object;
mod parts;
mod range;
mod read;
mod rule_fault;
mod shape;
mod tables;

pub use land_fault::LandFault;
pub use landscape::Landscape;
pub use read::read_landscape;
