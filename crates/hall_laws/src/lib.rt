//! What holds of the model: laws of each call, of a first state and of whole histories, which a caller cites.
#![tactic(auto)]

mod laws;

pub use laws::calls_keep_order;
