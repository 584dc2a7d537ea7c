//! The books of update units over a keeper of rows (Updates in the SAP System).
#![tactic(auto)]

mod batch;
mod books;
mod draft;
mod interval_list;
mod mirror;
mod opening;
mod prepared;
mod register;
mod restoring;
mod sameness;
mod settling;
mod spots;
mod viewing;

pub use books::Books;
pub use draft::{Draft, Worked};
pub use opening::BooksFault;
pub use prepared::Prepared;
pub use settling::{Reread, SettleFault, Unlike};
pub use update_records::StoredInterval;
