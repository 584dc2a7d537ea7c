//! Tests of the books of update records, and of the stores that they are opened over.
#![tactic(auto)]

#[cfg(test)]
mod books;
#[cfg(test)]
mod lines;
#[cfg(test)]
mod openings;
