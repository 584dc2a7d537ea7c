//! What the system is: its commands and its state, and in specs/ what each call comes to.
#![tactic(auto)]

mod command;

pub use command::{After, Answer, Command, PastEntry, Reply, Session, Who};
