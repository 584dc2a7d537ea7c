ghost use Rattle.std.specs.Prelude.{◌≡◌};
ghost use Rattle.remote_target.specs.Targets.{target_fault};

use enq_base::NoMemory;
use keeper_api::KeepFault;
use thiserror::Error;

/// Why a call of a target gave up.
#[derive(Clone, Copy, Debug, PartialEq, Eq, Error)]
pub enum TargetFault {
    /// The keeper failed; only `reopen` is allowed then.
    #[error("the target's store failed")]
    StoreFault,
    /// The first row that is outside the target's rows, by table and by place in the order of keys, counted from 1.
    #[error("row {row} of table {table} is bad")]
    BadRow { table: u8, row: u64 },
    /// No place is left for a call more.
    #[error("the target is full")]
    Full,
    #[error("no memory")]
    NoMemory,
}

impl From<KeepFault> for TargetFault {
    ghost from_gives = { λ e f. f ≡ target_fault e };

    fn from(e: KeepFault) -> TargetFault {
        match e {
            KeepFault::Failed => TargetFault::StoreFault,
            KeepFault::NoMemory => TargetFault::NoMemory,
        }
    }
}

impl From<NoMemory> for TargetFault {
    ghost use Rattle.remote_target.specs.declared.fault.TargetFault.TheVariants as fault;

    ghost from_gives = { λ _ f. f ≡ fault.NoMemory };

    fn from(_e: NoMemory) -> TargetFault {
        TargetFault::NoMemory
    }
}
