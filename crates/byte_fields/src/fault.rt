ghost use Rattle.std.specs.Prelude.{◌≡◌};
ghost use Rattle.byte_fields.specs.declared.fault.ReadFault.TheVariants.{NoMemory};

use std::alloc::{AllocError, AllocFailed};

/// Why bytes give no value.
#[derive(Clone, Copy, Debug, PartialEq, Eq)]
pub enum ReadFault {
    /// The bytes are outside their grammar.
    Bad,
    NoMemory,
}

impl From<AllocError> for ReadFault {
    ghost from_gives = { λ _ e. e ≡ NoMemory };

    fn from(_e: AllocError) -> ReadFault {
        ReadFault::NoMemory
    }
}

impl<T: Drop> From<AllocFailed<T>> for ReadFault {
    ghost from_gives = { λ _ e. e ≡ NoMemory };

    fn from(_e: AllocFailed<T>) -> ReadFault {
        ReadFault::NoMemory
    }
}
