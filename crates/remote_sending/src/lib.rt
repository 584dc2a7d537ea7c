//! The sending side of remote calls: an outbox, from which each call is sent until its outcome is known.
#![tactic(auto)]

mod asking;
mod collecting;
mod fault;
mod outbox;
mod report;
mod sending;

pub use sending::{TrfcEnded, TrfcWhy, trfc_main};
