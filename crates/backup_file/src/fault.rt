ghost use Rattle.std.specs.Prelude.{◌≡◌};
ghost use Rattle.backup_file.specs.declared.fault.BackFault.TheVariants as faults;
ghost use Rattle.backup_file.specs.declared.fault.WriteFault.TheVariants as write_faults;

use gate_log::LogFault;
use std::alloc::{AllocError, AllocFailed};

/// Why a backup file could not be opened.
#[derive(Clone, Copy, Debug, PartialEq, Eq)]
pub enum BackFault {
    /// The disk failed.
    Failed,
    /// The bytes stand for nothing: they break at this offset.
    Bad(u64),
    NoMemory,
}

impl From<enq_base::Failed> for BackFault {
    ghost from_gives = { λ _ e. e ≡ faults.Failed };

    fn from(_e: enq_base::Failed) -> BackFault {
        BackFault::Failed
    }
}

impl From<enq_base::NoMemory> for BackFault {
    ghost from_gives = { λ _ e. e ≡ faults.NoMemory };

    fn from(_e: enq_base::NoMemory) -> BackFault {
        BackFault::NoMemory
    }
}

impl From<LogFault> for BackFault {
    ghost use Rattle.backup_file.specs.Opening.{fault_of};

    ghost from_gives = { λ f e. e ≡ fault_of f };

    fn from(fault: LogFault) -> BackFault {
        match fault {
            LogFault::Failed => BackFault::Failed,
            LogFault::NoMemory => BackFault::NoMemory,
        }
    }
}

impl From<AllocError> for BackFault {
    ghost from_gives = { λ _ e. e ≡ faults.NoMemory };

    fn from(_e: AllocError) -> BackFault {
        BackFault::NoMemory
    }
}

impl<T: Drop> From<AllocFailed<T>> for BackFault {
    ghost from_gives = { λ _ e. e ≡ faults.NoMemory };

    fn from(_e: AllocFailed<T>) -> BackFault {
        BackFault::NoMemory
    }
}

/// Why a list could not be written.
#[derive(Clone, Copy, Debug, PartialEq, Eq)]
pub enum WriteFault {
    Failed,
    NoMemory,
}

impl From<enq_base::Failed> for WriteFault {
    ghost from_gives = { λ _ e. e ≡ write_faults.Failed };

    fn from(_e: enq_base::Failed) -> WriteFault {
        WriteFault::Failed
    }
}

impl From<enq_base::NoMemory> for WriteFault {
    ghost from_gives = { λ _ e. e ≡ write_faults.NoMemory };

    fn from(_e: enq_base::NoMemory) -> WriteFault {
        WriteFault::NoMemory
    }
}

impl From<LogFault> for WriteFault {
    ghost use Rattle.backup_file.specs.Opening.{write_fault_of};

    ghost from_gives = { λ f e. e ≡ write_fault_of f };

    fn from(fault: LogFault) -> WriteFault {
        match fault {
            LogFault::Failed => WriteFault::Failed,
            LogFault::NoMemory => WriteFault::NoMemory,
        }
    }
}

impl From<AllocError> for WriteFault {
    ghost from_gives = { λ _ e. e ≡ write_faults.NoMemory };

    fn from(_e: AllocError) -> WriteFault {
        WriteFault::NoMemory
    }
}

impl<T: Drop> From<AllocFailed<T>> for WriteFault {
    ghost from_gives = { λ _ e. e ≡ write_faults.NoMemory };

    fn from(_e: AllocFailed<T>) -> WriteFault {
        WriteFault::NoMemory
    }
}
