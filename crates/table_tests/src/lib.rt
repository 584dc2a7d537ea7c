//! Tests of the lock table and of its replica.
#![tactic(auto)]

#[cfg(test)]
mod beside;
#[cfg(test)]
mod replicas;
#[cfg(test)]
mod steps;
#[cfg(test)]
mod tables;
