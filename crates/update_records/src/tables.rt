//! The tables of a store.

/// The start number, and how many marks there are.
pub const META: u8 = 0;

/// The headers of units.
pub const HEADERS: u8 = 1;

/// How many effects a part of a unit has.
pub const MODULES: u8 = 2;

/// The effects of units.
pub const STEPS: u8 = 3;

/// The marks of units.
pub const MARKS: u8 = 4;

/// The stored intervals.
pub const LEVELS: u8 = 5;

/// The rows of the business tables.
pub const BUSINESS: u8 = 6;

/// The locks of units.
pub const LOCKS: u8 = 7;
