use enq_base::NoMemory;
use keeper_api::KeepFault;
use std::alloc::{AllocError, AllocFailed};
use thiserror::Error;

/// Why a case isn't played.
#[derive(Clone, Copy, Debug, PartialEq, Eq, Error)]
pub(crate) enum CaseFault {
    #[error("a line without a form")]
    NoForm,
    #[error("no number")]
    NoNumber,
    #[error("no document of this name")]
    NoDocument,
    #[error("a backslash with nothing that it stands for")]
    NoEscape,
    #[error("a text that doesn't stand just once in the landscape")]
    NotOnce,
    #[error("a text without its end")]
    NoEnd,
    #[error("a place past the end of the backup file")]
    NoPlace,
    #[error("a store that can't be read or written")]
    Store,
    #[error("no memory")]
    NoMemory,
}

/// The line of standard input at which a case breaks off, and why.
#[derive(Clone, Copy, Debug, PartialEq, Eq, Error)]
#[error("line {line}: {fault}")]
pub(crate) struct Refusal {
    pub(crate) line: usize,
    pub(crate) fault: CaseFault,
}

impl From<AllocError> for CaseFault {
    fn from(_e: AllocError) -> CaseFault {
        CaseFault::NoMemory
    }
}

impl<T: Drop> From<AllocFailed<T>> for CaseFault {
    fn from(_e: AllocFailed<T>) -> CaseFault {
        CaseFault::NoMemory
    }
}

impl From<NoMemory> for CaseFault {
    fn from(_e: NoMemory) -> CaseFault {
        CaseFault::NoMemory
    }
}

impl From<KeepFault> for CaseFault {
    fn from(fault: KeepFault) -> CaseFault {
        match fault {
            KeepFault::Failed => CaseFault::Store,
            KeepFault::NoMemory => CaseFault::NoMemory,
        }
    }
}
