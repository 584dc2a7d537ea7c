//! The lines of a session or of the administrator, done where the calls go to a desk, which also draws numbers.
#![tactic(auto)]

mod actor;
mod asking;
mod desk;
mod drawing;
mod line;
mod texts;
mod uncommitted;

pub use actor::{Said, actor_lines};
pub use desk::Desk;
pub use drawing::Drawing;
pub use line::{Doer, NumberedLine, doer_of, is_done_by};
pub use texts::text_of_reply;
pub use uncommitted::{Settling, settles, settling_of};
