//! Runs of scripts by threads: actors that wait for one another, many of them, devices that fail on the way, numbers
//! of stocks, and what a worker sees at the gauges.
#![tactic(auto)]

#[cfg(test)]
mod again;
#[cfg(test)]
mod crowds;
#[cfg(test)]
mod drafting;
#[cfg(test)]
mod faults;
#[cfg(test)]
mod gates;
#[cfg(test)]
mod halls;
#[cfg(test)]
mod numbers;
#[cfg(test)]
mod runs;
#[cfg(test)]
mod servers;
#[cfg(test)]
mod watching;

/// Does nothing: the crate is its tests.
fn main() {}
