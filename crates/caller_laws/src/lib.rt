//! Laws of the one history of threads: whose calls it has, of each actor those of its lines, of each worker those of its
//! loop; when workers rest in the end, and that no unit waits then; and of which device's failure a doubt is told.
#![tactic(auto)]

mod doubting;
mod laws;
mod resting;

pub use doubting::doubts_have_causes;
pub use laws::{
    callers_are_distinct, calls_are_own, history_is_of_callers, numbers_come_from_stocks,
    worker_goes_on,
};
pub use resting::workers_rest;
