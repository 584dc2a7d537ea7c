//! What is written of a script once all of it was done: the history, the answers of other lines, and the monitors.
#![tactic(auto)]

mod report;

pub use report::write_report;
