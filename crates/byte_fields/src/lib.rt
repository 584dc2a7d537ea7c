//! Fields that are read from the front of bytes: how many bytes each takes, and what they stand for.
#![tactic(auto)]

mod fault;
mod fields;

pub use fault::ReadFault;
pub use fields::{bytes_at, u16_at, u32_at, u64_at};
