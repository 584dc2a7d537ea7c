//! What a session keeps to itself between its calls: its variables, the effects of its unit, and the container of its
//! lock requests.
#![tactic(auto)]

mod dialogue;
mod filling;
mod variables;

pub use dialogue::Dialogue;
pub use filling::Resolved;
pub use variables::Variable;
