//! Tests of the sending of remote calls.
#![tactic(auto)]

#[cfg(test)]
mod noting;
#[cfg(test)]
mod refused;
#[cfg(test)]
mod reports;
#[cfg(test)]
mod rows;
#[cfg(test)]
mod sending;
#[cfg(test)]
mod stops;
