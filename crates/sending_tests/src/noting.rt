use enq_base::{Key, NoMemory, Text};
use keeper_mem::MemKeeper;
use remote_target::{CallAnswer, Carrier, MemCarrier, Target};
use std::alloc::Global;

/// A carrier in memory that notes the identifier of each call that it is asked to send.
#[derive(Drop)]
pub struct Noting {
    carrier: MemCarrier<MemKeeper>,
    turns: Vec<u8>,
}

impl Noting {
    pub fn new(alloc: Global, carrier: MemCarrier<MemKeeper>) -> Noting {
        Noting {
            carrier,
            turns: Vec::new(alloc),
        }
    }

    /// The identifiers of all turns, each with a space behind it.
    pub fn turns(&self) -> &[u8] {
        self.turns.as_slice()
    }

    pub fn forget(&mut self) {
        self.turns.clear();
    }

    pub fn into_target(self) -> Target<MemKeeper> {
        let Noting { carrier, turns } = self;
        drop(turns);
        carrier.into_target()
    }
}

impl Carrier for Noting {
    ghost use Rattle.keeper_mem.specs.Memory.{held_rows};
    ghost use Rattle.remote_target.specs.Carrying.{executed_by};

    ghost misses = { λ c. c.carrier.misses };

    ghost executed = { λ c. executed_by held_rows c.carrier.line };

    fn turn(
        &mut self,
        alloc: Global,
        tid: &Key,
        text: &Text,
    ) -> Result<Option<CallAnswer>, NoMemory> {
        self.turns.extend_from_slice(tid.bytes())?;
        self.turns.push(b' ')?;
        self.carrier.turn(alloc, tid, text)
    }
}
