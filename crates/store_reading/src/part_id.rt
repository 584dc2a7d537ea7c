ghost use Rattle.std.specs.Prelude.{◌≡◌};
ghost use Rattle.store_reading.specs.Ids.{part_id};

use enq_base::{UnitId, UnitKey, id_of};

/// A part of a unit.
#[derive(Clone, Copy, Debug, Hash)]
pub struct PartId {
    pub unit: UnitId,
    pub part: u8,
}

impl PartialEq for PartId {
    ghost use Rattle.store_reading.specs.Ids.{same_part};
    ghost use Rattle.store_reading.specs.Sameness.{parts_partial};

    ghost eq = { same_part };

    ghost laws = { parts_partial };

    fn eq(&self, other: &PartId) -> bool {
        self.unit == other.unit && self.part == other.part
    }
}

impl Eq for PartId {
    ghost use Rattle.store_reading.specs.Sameness.{parts_equiv};

    ghost laws = { parts_equiv };
}

pub fn part_id(unit: &UnitKey, part: u8) -> PartId
    ensures { result ≡ part_id unit.now part }
{
    PartId {
        unit: id_of(unit),
        part,
    }
}
