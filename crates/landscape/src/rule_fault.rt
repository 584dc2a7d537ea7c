ghost use Rattle.std.specs.Prelude.{◌≡◌};
ghost use Rattle.landscape.specs.declared.rule_fault.RuleFault.TheVariants.{NoMemory};

use std::alloc::{AllocError, AllocFailed};

/// Why an object of a landscape is not read.
#[derive(Clone, Copy, Debug, PartialEq, Eq)]
pub(crate) enum RuleFault {
    /// The first rule that it breaks.
    Broken(u8),
    NoMemory,
}

impl From<AllocError> for RuleFault {
    ghost from_gives = { λ _ e. e ≡ NoMemory };

    fn from(_e: AllocError) -> RuleFault {
        RuleFault::NoMemory
    }
}

impl<T: Drop> From<AllocFailed<T>> for RuleFault {
    ghost from_gives = { λ _ e. e ≡ NoMemory };

    fn from(_e: AllocFailed<T>) -> RuleFault {
        RuleFault::NoMemory
    }
}
