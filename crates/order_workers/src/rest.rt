ghost use Rattle.std.specs.Prelude.{◌≡◌, ℕ};

/// How a worker passes the time while there are no orders.
pub trait Rest {
    /// One rest, behind a history of this length.
    ghost rests: { Self → ℕ → Self → Type 0 };

    /// Rests until the history may be longer than this, or for a while.
    fn rest(&mut self, past: u64)
        ensures rests { rests self.old past self.new };
}

/// The rest of a worker that goes on alone: nobody else makes orders, so it has none.
#[derive(Clone, Copy, Debug)]
pub struct NoRest;

impl Rest for NoRest {
    ghost rests = { λ r past s. s ≡ r };

    fn rest(&mut self, _past: u64) {}
}
