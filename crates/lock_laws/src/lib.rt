//! What hangs on no order of a lock list: the laws that no function of a table needs, and that a server's opening does.
#![tactic(auto)]

mod laws;

pub use laws::soundness_has_no_order;
