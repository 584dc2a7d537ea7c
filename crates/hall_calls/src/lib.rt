//! The code of the calls: what is present, which is the state without its history and the devices, and what each call
//! does to it.
#![tactic(auto)]

mod barring;
mod drafting;
mod locks;
mod numbers;
mod orders;
mod present;
mod remaking;
mod sessions;
mod shown;
mod units;
mod writing;

pub use present::{HISTORY_LIMIT, Limits, Present};
