use enq_base::{Items, Num, Reason, UnitKey};
use update_records::{MarkKind, StoredInterval, Unit};

/// What a prepared change adds.
#[derive(Drop)]
pub enum Step {
    /// Another start number.
    Start(u32),
    /// One more unit, and its mark, with the intervals of its numbers.
    Record {
        unit: Unit,
        levels: Items<StoredInterval>,
    },
    /// One more mark.
    Note {
        unit: UnitKey,
        kind: MarkKind,
    },
    /// A mark of numbers alone, with their intervals.
    Draw {
        unit: UnitKey,
        numbers: Items<Num>,
        levels: Items<StoredInterval>,
    },
    /// An interval whose level is stored anew.
    Level(StoredInterval),
}

/// What became of a part.
#[derive(Clone, Copy, Debug, PartialEq, Eq)]
pub enum Outcome {
    Done,
    /// The first effect that is refused, counted from 1.
    Refused { index: u32, reason: Reason },
}
