ghost use Rattle.std.specs.Prelude.{◌≡◌};
ghost use Rattle.store_reading.specs.Ids.{interval_id};

use enq_base::Name;

/// The name of an interval: its object and its two digits.
#[derive(Clone, Copy, Debug, Hash)]
pub struct IntervalId {
    pub object: Name,
    pub nr: [u8; 2],
}

impl PartialEq for IntervalId {
    ghost use Rattle.store_reading.specs.Ids.{same_interval};
    ghost use Rattle.store_reading.specs.Sameness.{intervals_partial};

    ghost eq = { same_interval };

    ghost laws = { intervals_partial };

    fn eq(&self, other: &IntervalId) -> bool {
        self.object.bytes() == other.object.bytes() && self.nr.as_slice() == other.nr.as_slice()
    }
}

impl Eq for IntervalId {
    ghost use Rattle.store_reading.specs.Sameness.{intervals_equiv};

    ghost laws = { intervals_equiv };
}

pub fn interval_id(object: &Name, nr: [u8; 2]) -> IntervalId
    ensures { result ≡ interval_id (object.now, nr) }
{
    IntervalId {
        object: *object,
        nr,
    }
}
