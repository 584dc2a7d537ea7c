//! What a good store has: the laws that no function needs, and that tell a reader what a refusal means.
#![tactic(auto)]

mod laws;

pub use laws::good_stores_have_no_fault;
