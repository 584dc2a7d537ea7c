//! Number range intervals, their blocks, and the numbers that are drawn from them (Number Range Objects).
#![tactic(auto)]

mod block;
mod interval;
mod range;

pub use block::{code, next_block};
pub use interval::{Code, DrawFault, Interval};
pub use range::Range;
