//! What a lawful ledger promises, in the words of those who book by it: laws that no function needs, and that a caller
//! cites.
#![tactic(auto)]

mod laws;

pub use laws::{lawful_books_are_right, rows_stand_for_one_ledger, views_tell_refusals};
