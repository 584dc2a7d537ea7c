use number_ranges::Interval;

/// An interval of the landscape, and the number that memory hands out next where the interval is buffered.
#[derive(Clone, Copy, Debug, PartialEq, Eq)]
pub struct NumberRange {
    /// As the landscape has it: the level is the one before its first number.
    pub interval: Interval,
    pub next: u64,
}

/// Why the levels of a store aren't taken over.
#[derive(Clone, Copy, Debug, PartialEq, Eq)]
pub enum LevelFault {
    /// The stored interval in this row, counted from 1 in the order of the rows' keys, is none of the landscape.
    Unfit { row: u64 },
}
