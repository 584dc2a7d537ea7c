ghost use Rattle.std.specs.Prelude.{◌≡◌};
ghost use Rattle.gate_log.specs.declared.fault.LogFault.TheVariants as faults;

use enq_base::{Failed, NoMemory};
use std::alloc::AllocError;

/// Why a log could not be read.
#[derive(Clone, Copy, Debug, PartialEq, Eq)]
pub enum LogFault {
    /// The disk failed.
    Failed,
    NoMemory,
}

impl From<Failed> for LogFault {
    ghost from_gives = { λ _ e. e ≡ faults.Failed };

    fn from(_e: Failed) -> LogFault {
        LogFault::Failed
    }
}

impl From<NoMemory> for LogFault {
    ghost from_gives = { λ _ e. e ≡ faults.NoMemory };

    fn from(_e: NoMemory) -> LogFault {
        LogFault::NoMemory
    }
}

impl From<AllocError> for LogFault {
    ghost from_gives = { λ _ e. e ≡ faults.NoMemory };

    fn from(_e: AllocError) -> LogFault {
        LogFault::NoMemory
    }
}
