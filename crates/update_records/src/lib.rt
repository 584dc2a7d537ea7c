//! The records of update units, the rows that stand for them, and what a store of such rows means.
#![tactic(auto)]

mod business;
mod bytes;
mod decode;
mod fields;
mod laws;
mod levels;
mod mark_rows;
mod marks;
mod numbers;
mod parts;
mod plain_rows;
mod records;
mod step_rows;
mod stored;
pub mod tables;
mod unit_rows;
mod units;
mod view;

pub use business::encode_business;
pub use byte_fields::ReadFault;
pub use decode::decode_row;
pub use laws::{rows_tell_records, units_are_records};
pub use levels::encode_level;
pub use marks::{encode_mark, encode_meta};
pub use records::{Mark, MarkKind, Unit};
pub use stored::{Interval, Record, StoredInterval};
pub use units::encode_unit;
pub use view::UnitView;
