ghost use Rattle.std.specs.Prelude.{◌≡◌, true};
ghost use Rattle.order_workers.specs.Orders.{Made, is_of_worker, made};

use hall_model::{Command, Reply};

/// What a worker sees of one of its calls.
#[derive(Drop)]
pub struct Look {
    pub reply: Reply,
    /// Whether the lock server was up behind the call.
    pub is_up: bool,
    /// How long the history is behind the call.
    pub past: u64,
}

/// Where a worker makes its calls.
pub trait OrderDesk {
    /// One call, from a state of the desk to the next.
    ghost leads: { Self → Made → Self → Type 0 };

    /// Makes a call of the worker of this number. It stands in no line of a script.
    fn order(&mut self, worker: u8, command: Command) -> Look
        requires own { is_of_worker worker command ≡ true }
        ensures leads { leads self.old (made command result) self.new };
}
