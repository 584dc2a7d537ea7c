//! The texts of `trfcd`: the line that tells why it ended, and those that tell how it is called.
#![tactic(auto)]

mod end_line;
mod usage;

pub use end_line::{EndLine, RefusalLine};
pub use usage::{help_text, usage_text, version_text};
