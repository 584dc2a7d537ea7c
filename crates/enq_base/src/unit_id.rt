ghost use Rattle.std.specs.Prelude.{◌≡◌};
ghost use Rattle.enq_base.specs.Ids.{id_of};

use crate::owner::UnitKey;

/// The key of a unit, as maps and sets look it up.
#[derive(Clone, Copy, Debug, Hash)]
pub struct UnitId {
    pub start: u32,
    pub session: u32,
    pub luw: u32,
}

impl PartialEq for UnitId {
    ghost use Rattle.enq_base.specs.Ids.{ids_partial, same_id};

    ghost eq = { same_id };

    ghost laws = { ids_partial };

    fn eq(&self, other: &UnitId) -> bool {
        self.start == other.start && self.session == other.session && self.luw == other.luw
    }
}

impl Eq for UnitId {
    ghost use Rattle.enq_base.specs.Ids.{ids_equiv};

    ghost laws = { ids_equiv };
}

/// The key, as maps and sets look it up.
pub fn id_of(key: &UnitKey) -> UnitId
    ensures { result ≡ id_of key.now }
{
    UnitId {
        start: key.start,
        session: key.session,
        luw: key.luw,
    }
}
