use crate::entry::Entry;
use enq_base::NoMemory;
use std::alloc::{AllocError, AllocFailed};

/// Why a call is refused.
#[derive(Clone, Copy, Debug, PartialEq, Eq)]
pub enum AskFault {
    /// The oldest entry that stands in the way of the first request that is barred.
    Foreign(Entry),
    /// More entries would stand than the limit; `used` of them stand.
    Full { used: u32, limit: u32 },
    /// A count would exceed 9,999.
    Count,
    /// An optimistic lock is no longer held.
    Lost,
    NoMemory,
}

/// Why a list makes no table.
#[derive(Clone, Copy, Debug, PartialEq, Eq)]
pub enum LoadFault {
    /// The places, from 1, of two entries that may not stand together; one place twice where its count alone is wrong.
    Clash { first: u32, second: u32 },
    NoMemory,
}

impl From<AllocError> for AskFault {
    ghost use Rattle.std.specs.Prelude.{◌≡◌};
    ghost use Rattle.lock_entry.specs.declared.fault.AskFault.{AskFault};

    ghost from_gives = { λ _ f. f ≡ AskFault.NoMemory };

    fn from(_error: AllocError) -> AskFault {
        AskFault::NoMemory
    }
}

impl<T: Drop> From<AllocFailed<T>> for AskFault {
    ghost use Rattle.std.specs.Prelude.{◌≡◌};
    ghost use Rattle.lock_entry.specs.declared.fault.AskFault.{AskFault};

    ghost from_gives = { λ _ f. f ≡ AskFault.NoMemory };

    fn from(_error: AllocFailed<T>) -> AskFault {
        AskFault::NoMemory
    }
}

impl From<NoMemory> for AskFault {
    ghost use Rattle.std.specs.Prelude.{◌≡◌};
    ghost use Rattle.lock_entry.specs.declared.fault.AskFault.{AskFault};

    ghost from_gives = { λ _ f. f ≡ AskFault.NoMemory };

    fn from(_error: NoMemory) -> AskFault {
        AskFault::NoMemory
    }
}
