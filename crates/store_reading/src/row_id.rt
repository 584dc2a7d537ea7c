ghost use Rattle.std.specs.Prelude.{◌≡◌, ◌&&◌, ◌==◌};
ghost use Rattle.std.proofs.Common.{rules};
ghost use Rattle.std.specs.Cmp.Rules.{comparing};
ghost use Rattle.store_reading.specs.Ids.{row_id};

use enq_base::UnitKey;

/// A row of a unit: a module row by its part and how many effects that has, an effect by its part and its place, a lock
/// by part 0 and its place.
#[derive(Clone, Copy, Debug, Hash)]
pub struct RowId {
    pub start: u32,
    pub session: u32,
    pub luw: u32,
    pub part: u8,
    pub number: u32,
}

impl PartialEq for RowId {
    ghost eq = { λ a b. (((a.start == b.start && a.session == b.session) && a.luw == b.luw) && a.part == b.part)
        && a.number == b.number };

    ghost laws = { Prim.search (comparing, rules) };

    fn eq(&self, other: &RowId) -> bool {
        self.start == other.start
            && self.session == other.session
            && self.luw == other.luw
            && self.part == other.part
            && self.number == other.number
    }
}

impl Eq for RowId {
    ghost laws = { Prim.search (comparing, rules) };
}

pub fn row_id(unit: &UnitKey, part: u8, number: u32) -> RowId
    ensures { result ≡ row_id unit.now part number }
{
    RowId {
        start: unit.start,
        session: unit.session,
        luw: unit.luw,
        part,
        number,
    }
}
