ghost use Rattle.std.specs.Prelude.{◌≡◌};
ghost use Rattle.store_reading.specs.declared.fault.ReadingFault.TheVariants.{NoMemory};

use std::alloc::{AllocError, AllocFailed};

/// Why a store isn't read.
#[derive(Clone, Copy, Debug, PartialEq, Eq)]
pub enum ReadingFault {
    /// The keeper failed.
    Failed,
    /// This row of this table, counted from 1, is outside the grammar.
    Bad { table: u8, row: u64 },
    NoMemory,
}

impl From<AllocError> for ReadingFault {
    ghost from_gives = { λ _ e. e ≡ NoMemory };

    fn from(_e: AllocError) -> ReadingFault {
        ReadingFault::NoMemory
    }
}

impl<T: Drop> From<AllocFailed<T>> for ReadingFault {
    ghost from_gives = { λ _ e. e ≡ NoMemory };

    fn from(_e: AllocFailed<T>) -> ReadingFault {
        ReadingFault::NoMemory
    }
}
