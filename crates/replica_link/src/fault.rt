ghost use Rattle.std.specs.Prelude.{◌≡◌};
ghost use Rattle.replica_link.specs.declared.fault.LinkFault.TheVariants as fault;

use enq_base::NoMemory;
use thiserror::Error;

/// Why a call of a link gave up.
#[derive(Clone, Copy, Debug, PartialEq, Eq, Error)]
pub enum LinkFault {
    #[error("the link failed")]
    Failed,
    #[error("no memory")]
    NoMemory,
}

impl From<NoMemory> for LinkFault {
    ghost from_gives = { λ _ e. e ≡ fault.NoMemory };

    fn from(_e: NoMemory) -> LinkFault {
        LinkFault::NoMemory
    }
}
