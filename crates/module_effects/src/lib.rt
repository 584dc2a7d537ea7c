//! What the effects of an update module do to the business rows that they touch (Updates in the SAP System).
#![tactic(auto)]

mod effects;
mod fault;
mod integer;
mod row;
mod spot;

pub use effects::apply;
pub use fault::EffectFault;
pub use integer::read_integer;
pub use spot::{Spot, covers};
