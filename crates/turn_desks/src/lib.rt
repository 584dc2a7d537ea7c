//! The hall behind one turn, the desks at which sessions, the administrator and workers make their calls of it, and the
//! gauges at which workers look between.
#![tactic(auto)]

mod caller;
mod drawing;
mod gate;
mod glance;
mod handing;
mod names;
mod noting;
mod served;
mod serving;
mod shown_hall;
mod stocked_hall;
mod stocks;
mod turn_desk;

pub use caller::{Caller, Notes};
pub use gate::{Gate, HoldGate, NoGate};
pub use glance::Glance;
pub use names::LockName;
pub use noting::Note;
pub use served::{Origin, ServedHall};
pub use serving::Serving;
pub use shown_hall::ShownHall;
pub use stocked_hall::StockedHall;
pub use stocks::IntervalStock;
pub use turn_desk::TurnDesk;
