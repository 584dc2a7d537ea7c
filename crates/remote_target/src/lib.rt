//! Remote calls that a second system executes once each, however often they are sent and whatever is lost or stopped.
#![tactic(auto)]

mod call;
mod carrier;
mod execute;
mod fault;
mod form;
mod laws;
mod mem_carrier;
mod reading;
mod rows;
mod target;

pub use call::{CallAnswer, CallOutcome};
pub use carrier::Carrier;
pub use fault::TargetFault;
pub use form::text_if;
pub use io_edge::Fate;
pub use laws::{changes_make_the_rows_after_a_call, each_call_is_executed_once};
pub use mem_carrier::MemCarrier;
pub use rows::{outcome_coded, outcome_codes};
pub use target::Target;
