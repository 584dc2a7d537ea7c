//! Tests of a target of remote calls.
#![tactic(auto)]

#[cfg(test)]
mod bad_rows;
#[cfg(test)]
mod calls;
#[cfg(test)]
mod carried;
#[cfg(test)]
mod stops;
#[cfg(test)]
mod targets;
