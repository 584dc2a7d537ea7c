//! What a ledger's next step is and what it leaves, and the intervals of a landscape over its levels.
#![tactic(auto)]

mod part;
mod range;
mod step;

pub use part::Part;
pub use range::{LevelFault, NumberRange};
pub use step::{Outcome, Step};
