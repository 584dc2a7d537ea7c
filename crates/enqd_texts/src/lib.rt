//! The texts of `enqd`: the line that tells why it ended, and those that tell how it is called; and what its programs do
//! with them before a script and behind it.
#![tactic(auto)]

mod console;
mod end_line;
mod usage;

pub use console::{answer_option, refuse_words, tell_end, words};
pub use end_line::EndLine;
pub use usage::{help_text, usage_text, version_text};
