ghost use Rattle.std.specs.Prelude.{◌≡◌};
ghost use Rattle.module_effects.specs.declared.fault.EffectFault.TheVariants as effect_fault;
ghost use Rattle.module_effects.specs.declared.fault.DeedFault.TheVariants as deed_fault;

use enq_base::{NoMemory, Reason};
use thiserror::Error;

/// Why effects are not applied.
#[derive(Clone, Copy, Debug, PartialEq, Eq, Error)]
pub enum EffectFault {
    /// The first effect that is refused, counted from 1.
    #[error("effect {index} is refused: {reason}")]
    Refused { index: u32, reason: Reason },
    #[error("no memory")]
    NoMemory,
}

/// Why a deed is not done.
#[derive(Clone, Copy, Debug, PartialEq, Eq, Error)]
pub enum DeedFault {
    #[error("{0}")]
    Refused(Reason),
    #[error("no memory")]
    NoMemory,
}

impl DeedFault {
    ghost use Rattle.module_effects.specs.Effects.{fault_at};

    /// The fault of the effect with this number. One that is past 2^32 - 1 counts as want of memory.
    pub fn at(self, index: usize) -> EffectFault
        ensures { result ≡ fault_at index self }
    {
        match self {
            DeedFault::Refused(reason) if index <= u32::MAX as usize => EffectFault::Refused {
                index: index as u32,
                reason,
            },
            _ => EffectFault::NoMemory,
        }
    }
}

impl From<NoMemory> for EffectFault {
    ghost from_gives = { λ _ e. e ≡ effect_fault.NoMemory };

    fn from(_e: NoMemory) -> EffectFault {
        EffectFault::NoMemory
    }
}

impl From<NoMemory> for DeedFault {
    ghost from_gives = { λ _ e. e ≡ deed_fault.NoMemory };

    fn from(_e: NoMemory) -> DeedFault {
        DeedFault::NoMemory
    }
}
