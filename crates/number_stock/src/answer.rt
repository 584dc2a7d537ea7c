ghost use Rattle.std.specs.Prelude.{◌≡◌};

/// A number that was drawn, and whose ticket lay below the limit.
#[derive(Drop)]
pub struct Drawn {
    pub(crate) number: u64,
}

impl Drawn {
    ghost use Rattle.number_stock.specs.Seats.{number_of};

    /// The number. Takes no memory.
    pub fn number(&self) -> u64
        ensures { result ≡ number_of self.now }
    {
        self.number
    }
}

/// A ticket that was drawn and didn't lie below the limit: the buffered numbers ran out. Ask again with it once the
/// limit is raised.
#[derive(Drop)]
pub struct Dry {
    pub(crate) ticket: u64,
}

impl Dry {
    ghost use Rattle.number_stock.specs.Seats.{ticket_of};

    /// The ticket that waits: its number may be had once the limit is above it.
    pub fn ticket(&self) -> u64
        ensures { result ≡ ticket_of self.now }
    {
        self.ticket
    }
}
