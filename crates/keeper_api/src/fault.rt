ghost use Rattle.std.specs.Prelude.{◌≡◌};
ghost use Rattle.keeper_api.specs.declared.fault.KeepFault.TheVariants.{NoMemory};

use enq_base::NoMemory;
use std::alloc::{AllocError, AllocFailed};
use thiserror::Error;

/// Why a call of a keeper gave up.
#[derive(Clone, Copy, Debug, PartialEq, Eq, Error)]
pub enum KeepFault {
    /// The device failed.
    #[error("the keeper failed")]
    Failed,
    #[error("no memory")]
    NoMemory,
}

impl From<AllocError> for KeepFault {
    ghost from_gives = { λ _ e. e ≡ NoMemory };

    fn from(_e: AllocError) -> KeepFault {
        KeepFault::NoMemory
    }
}

impl<T: Drop> From<AllocFailed<T>> for KeepFault {
    ghost from_gives = { λ _ e. e ≡ NoMemory };

    fn from(_e: AllocFailed<T>) -> KeepFault {
        KeepFault::NoMemory
    }
}

impl From<NoMemory> for KeepFault {
    ghost from_gives = { λ _ e. e ≡ NoMemory };

    fn from(_e: NoMemory) -> KeepFault {
        KeepFault::NoMemory
    }
}
