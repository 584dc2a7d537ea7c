//! Business rows that are kept in memory, each with its text (Updates in the SAP System).
#![tactic(auto)]

mod business_key;
mod business_rows;

pub use business_rows::{BusinessRows, copy_spots};
