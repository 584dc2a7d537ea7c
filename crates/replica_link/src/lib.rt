//! A replica of the lock table: what is shipped to it, and what it gives back (Standalone Enqueue Server).
#![tactic(auto)]

mod fault;
mod laws;
mod link;
mod mem_link;
mod operation;

pub use fault::LinkFault;
pub use laws::{
    drops_free_the_owner, one_operation_frees_one, puts_grant, puts_readmit, turns_convert,
};
pub use link::Link;
pub use mem_link::MemLink;
pub use operation::{TableOp, apply_op};
