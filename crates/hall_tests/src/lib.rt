//! Tests of the calls of the hall.
#![tactic(auto)]

#[cfg(test)]
mod calls;
#[cfg(test)]
mod drafts;
#[cfg(test)]
mod many_rows;
