ghost use Rattle.std.specs.Prelude.{◌≡◌};
ghost use Rattle.turn_desks.specs.Stocks.{number_told};

use enq_base::Name;
use hall_model::{PastEntry, Reply};
use std::snapshot::Snapshot;
use turn_lock::{History, Pass};

/// What a desk notes of a drawing.
#[derive(Drop)]
pub struct Note<S: History<Entry = PastEntry>> {
    pub line: u32,
    pub object: Name,
    pub nr: [u8; 2],
    /// The number, if one was drawn.
    pub number: Option<u64>,
    pub(crate) reply: Snapshot<Reply>,
    // The pass before the drawing, and behind it.
    pub(crate) was: Snapshot<Pass<S>>,
    pub(crate) is: Snapshot<Pass<S>>,
    ghost tells: { number ≡ number_told reply.value },
}
