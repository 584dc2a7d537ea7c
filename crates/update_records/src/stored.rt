use crate::records::Mark;
use enq_base::{Effect, Items, Key, Name, Num, Pattern, Text, UnitKey};
use lock_entry::Mode;

/// What one row of the store says.
#[derive(Drop)]
pub enum Record {
    /// The start number, and how many marks there are.
    Meta {
        start: u32,
        marks: u64,
    },
    /// A unit: its user, how many effects its parts have, how many locks it holds, and the numbers that it drew.
    Header {
        unit: UnitKey,
        user: Name,
        v1: u16,
        v2: u16,
        locks: u32,
        numbers: Items<Num>,
    },
    /// How many effects part 1 or 2 of a unit has.
    Module {
        unit: UnitKey,
        part: u8,
        count: u16,
    },
    /// An effect of part 1 or 2 of a unit, counted from 1.
    Step {
        unit: UnitKey,
        part: u8,
        index: u16,
        effect: Effect,
    },
    Mark(Mark),
    /// An interval of numbers, and the last number that was drawn from it.
    Level {
        object: Name,
        nr: [u8; 2],
        from: u64,
        to: u64,
        level: u64,
        buffered: bool,
    },
    /// A row of a business table.
    Business {
        table: Name,
        key: Key,
        text: Text,
    },
    /// A lock of a unit, counted from 1.
    Lock {
        unit: UnitKey,
        index: u32,
        table: Name,
        mode: Mode,
        count: u16,
        pattern: Pattern,
    },
}

/// Which numbers an interval has, the last one that was drawn from it, and whether sessions draw from buffers.
#[derive(Clone, Copy, Debug, PartialEq, Eq)]
pub struct Interval {
    pub from: u64,
    pub to: u64,
    pub level: u64,
    pub buffered: bool,
}

/// An interval as it is stored: its object, its two digits, and what `Interval` tells of it.
#[derive(Clone, Copy, Debug, PartialEq, Eq)]
pub struct StoredInterval {
    pub object: Name,
    pub nr: [u8; 2],
    pub from: u64,
    pub to: u64,
    pub level: u64,
    pub buffered: bool,
}
