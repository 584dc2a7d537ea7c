//! A script done by threads: each session, the administrator and so many workers, over one hall behind one turn; and
//! what is written of it: the history, the answers beside it, the monitors.
#![tactic(auto)]

mod answers;
mod callers;
mod equipping;
mod hiring;
mod joining;
mod last_look;
mod report;
mod running;
mod stocking;

pub use running::run;
