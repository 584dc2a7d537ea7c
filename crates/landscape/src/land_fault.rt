ghost use Rattle.std.specs.Prelude.{◌≡◌, ◌+◌};
ghost use Rattle.landscape.specs.Broken.{IsBad};
ghost use Rattle.landscape.specs.declared.land_fault.LandFault.TheVariants.{NoMemory};

use std::alloc::{AllocError, AllocFailed};

/// Why a landscape is not read.
#[derive(Clone, Copy, Debug, PartialEq, Eq)]
pub enum LandFault {
    /// The first rule that the document breaks, and the object or the range that breaks it, counted from 1; 0 where a
    /// rule is on the whole document.
    Bad { rule: u8, place: u32 },
    /// The source failed.
    Failed,
    NoMemory,
}

impl From<AllocError> for LandFault {
    ghost from_gives = { λ _ e. e ≡ NoMemory };

    fn from(_e: AllocError) -> LandFault {
        LandFault::NoMemory
    }
}

impl<T: Drop> From<AllocFailed<T>> for LandFault {
    ghost from_gives = { λ _ e. e ≡ NoMemory };

    fn from(_e: AllocFailed<T>) -> LandFault {
        LandFault::NoMemory
    }
}

/// A broken rule at the object or the range behind so many. No document has 2^32 of them.
pub(crate) fn bad_place(rule: u8, before: usize) -> LandFault
    ensures { IsBad result rule (before + 1) }
{
    match u32::try_from(before) {
        Ok(before) if before < u32::MAX => LandFault::Bad {
            rule,
            place: before + 1,
        },
        _ => LandFault::NoMemory,
    }
}
