ghost use Rattle.std.specs.Prelude.{◌≡◌};
ghost use Rattle.enq_server.specs.declared.fault.OpenFault.TheVariants as opening;
ghost use Rattle.enq_server.specs.declared.fault.ServerFault.TheVariants as server;
ghost use Rattle.enq_server.specs.Faults.{opening_fault, refusal};
ghost use Rattle.enq_server.specs.Replica.{over_fault};

use backup_file::BackFault;
use enq_base::{BackupBad, Failed, NoMemory};
use lock_entry::AskFault;
use replica_link::LinkFault;
use std::alloc::{AllocError, AllocFailed};

/// Why a server isn't opened.
#[derive(Clone, Copy, Debug, PartialEq, Eq)]
pub enum OpenFault {
    /// The disk failed.
    Failed,
    /// The file stands for nothing, or it disagrees with the units.
    Bad(BackupBad),
    NoMemory,
}

/// Why a call of a server is refused.
#[derive(Clone, Copy, Debug, PartialEq, Eq)]
pub enum ServerFault {
    /// The table's refusal.
    Ask(AskFault),
    /// The disk failed.
    Failed,
    NoMemory,
}

/// Why no table is taken over from a replica.
#[derive(Clone, Copy, Debug, PartialEq, Eq)]
pub enum OverFault {
    /// No replica follows.
    NotAttached,
    /// The link failed.
    Link,
    /// Two entries of the replica's list can't stand together.
    Clash { first: u32, second: u32 },
    NoMemory,
}

impl From<BackFault> for OpenFault {
    ghost from_gives = { λ f e. e ≡ opening_fault f };

    fn from(fault: BackFault) -> OpenFault {
        match fault {
            BackFault::Failed => OpenFault::Failed,
            BackFault::Bad(at) => OpenFault::Bad(BackupBad::Bytes { at }),
            BackFault::NoMemory => OpenFault::NoMemory,
        }
    }
}

impl From<AllocError> for OpenFault {
    ghost from_gives = { λ _ e. e ≡ opening.NoMemory };

    fn from(_e: AllocError) -> OpenFault {
        OpenFault::NoMemory
    }
}

impl<T: Drop> From<AllocFailed<T>> for OpenFault {
    ghost from_gives = { λ _ e. e ≡ opening.NoMemory };

    fn from(_e: AllocFailed<T>) -> OpenFault {
        OpenFault::NoMemory
    }
}

impl From<LinkFault> for OverFault {
    ghost from_gives = { λ f e. e ≡ over_fault f };

    fn from(fault: LinkFault) -> OverFault {
        match fault {
            LinkFault::Failed => OverFault::Link,
            LinkFault::NoMemory => OverFault::NoMemory,
        }
    }
}

impl From<AskFault> for ServerFault {
    ghost from_gives = { λ f e. e ≡ refusal f };

    fn from(fault: AskFault) -> ServerFault {
        match fault {
            AskFault::NoMemory => ServerFault::NoMemory,
            fault => ServerFault::Ask(fault),
        }
    }
}

impl From<Failed> for ServerFault {
    ghost from_gives = { λ _ e. e ≡ server.Failed };

    fn from(_e: Failed) -> ServerFault {
        ServerFault::Failed
    }
}

impl From<NoMemory> for ServerFault {
    ghost from_gives = { λ _ e. e ≡ server.NoMemory };

    fn from(_e: NoMemory) -> ServerFault {
        ServerFault::NoMemory
    }
}
