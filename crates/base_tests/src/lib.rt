//! Tests of the crates below the hall: words and lines, variables, bytes from outside and to it, the texts that users read
//! and the document that they write, modes and locks, effects, intervals and update records.
#![tactic(auto)]

#[cfg(test)]
mod effects;
#[cfg(test)]
mod entries;
#[cfg(test)]
mod forms;
#[cfg(test)]
mod intervals;
#[cfg(test)]
mod landscapes;
#[cfg(test)]
mod modes;
#[cfg(test)]
mod objects;
#[cfg(test)]
mod records;
#[cfg(test)]
mod scripts;
#[cfg(test)]
mod streams;
#[cfg(test)]
mod variables;
#[cfg(test)]
mod views;
#[cfg(test)]
mod words;
