//! Tests of a link over a wire that loses, repeats and reorders packets.
#![tactic(auto)]

#[cfg(test)]
mod lossy;
#[cfg(test)]
mod many;
#[cfg(test)]
mod plans;
#[cfg(test)]
mod replica;
#[cfg(test)]
mod rounds;
