ghost use Rattle.std.specs.Prelude.{◌≡◌};
ghost use Rattle.store_reading.specs.Ids.{lock_id};

use enq_base::{ARGUMENT_BYTES, Name, Pattern, ShortBytes, UnitId, UnitKey, id_of};
use mode_rules::{Mode, mode_number};

/// The name of a lock of a unit.
#[derive(Clone, Copy, Debug, Hash)]
pub struct LockId {
    pub unit: UnitId,
    pub table: Name,
    pub pattern: ShortBytes<ARGUMENT_BYTES>,
    pub mode: u8,
}

impl PartialEq for LockId {
    ghost use Rattle.store_reading.specs.Ids.{same_lock};
    ghost use Rattle.store_reading.specs.Sameness.{locks_partial};

    ghost eq = { same_lock };

    ghost laws = { locks_partial };

    fn eq(&self, other: &LockId) -> bool {
        self.unit == other.unit
            && (self.table.bytes() == other.table.bytes()
                && self.pattern.bytes() == other.pattern.bytes()
                && self.mode == other.mode)
    }
}

impl Eq for LockId {
    ghost use Rattle.store_reading.specs.Sameness.{locks_equiv};

    ghost laws = { locks_equiv };
}

pub fn lock_id(unit: &UnitKey, table: &Name, mode: Mode, pattern: &Pattern) -> LockId
    ensures { result ≡ lock_id unit.now (record { table = table.now; pattern = pattern.now; mode = mode }) }
{
    let Some(pattern) = ShortBytes::new(pattern.bytes()) else {
        unreachable!();
    };
    LockId {
        unit: id_of(unit),
        table: *table,
        pattern,
        mode: mode_number(mode),
    }
}
