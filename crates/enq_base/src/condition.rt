use crate::owner::UnitKey;

/// The condition of the lock server (Standalone Enqueue Server).
#[derive(Clone, Copy, Debug, PartialEq, Eq)]
pub enum Condition {
    Up,
    NoServer,
    /// In doubt since the command of this number met a fault.
    Doubt(u64),
}

/// Counts of the system at one moment.
#[derive(Clone, Copy, Debug, PartialEq, Eq)]
pub struct Readings {
    /// The entries of the history.
    pub past: u64,
    /// The open units.
    pub waiting: u64,
    /// The posted units.
    pub posted: u64,
    /// The entries of the lock table.
    pub locks: u64,
    /// 0 for up, 1 for no server, 2 for in doubt.
    pub condition: u64,
}

/// How a backup file disagrees with the store.
#[derive(Clone, Copy, Debug, PartialEq, Eq)]
pub enum BackupBad {
    /// The bytes stand for nothing, from this place on.
    Bytes { at: u64 },
    /// The list of a unit differs from its lock rows, first at this place, counted from 1.
    Missing { unit: UnitKey, at: u32 },
    /// Two entries of the lists clash, by their places, counted from 1.
    Clash { first: u32, second: u32 },
}

/// What is wrong with the contents of a device.
#[derive(Clone, Copy, Debug, PartialEq, Eq)]
pub enum Bad {
    /// A table of the store, and the row where the check stopped.
    Store { table: u8, row: u64 },
    Backup(BackupBad),
    /// Two entries of the replica's list clash, by their places, counted from 1.
    Replica { first: u32, second: u32 },
}
