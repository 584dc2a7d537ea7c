//! The rows of a whole store, read back into the records that they spell.
#![tactic(auto)]

mod business;
mod counts;
mod fault;
mod interval_id;
mod laws;
mod ledger;
mod level_rule;
mod lock_id;
mod lock_names;
mod mark_rule;
mod numbers;
mod part_id;
mod parts;
mod post_rule;
mod reading;
mod row_id;
mod rules;
mod store_rule;
mod text_id;
mod texts;
mod unit_rows;
mod unit_rule;
mod units;

pub use fault::ReadingFault;
pub use laws::{
    places_are_first, right_levels_are_lawful, right_marks_are_lawful, right_records_are_lawful,
    stores_tell_one_answer,
};
pub use ledger::{StoredLedger, read_ledger};
pub use level_rule::level_fault;
pub use mark_rule::mark_fault;
pub use post_rule::{post_fault, wrong_post};
pub use reading::{StoredRecords, read_records};
pub use rules::{Place, meta_fault, number_fault};
pub use store_rule::store_fault;
pub use unit_rule::unit_fault;
