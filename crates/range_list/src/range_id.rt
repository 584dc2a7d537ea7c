ghost use Rattle.std.specs.Prelude.{◌≡◌};
ghost use Rattle.range_list.specs.RangePlaces.{range_id};

use enq_base::Name;

/// The name of an interval, its object and its two digits, as maps look it up.
#[derive(Clone, Copy, Debug, Hash)]
pub struct RangeId {
    pub object: Name,
    pub nr: [u8; 2],
}

impl PartialEq for RangeId {
    ghost use Rattle.range_list.specs.RangePlaces.{same_range};
    ghost use Rattle.range_list.specs.Sameness.{ranges_partial};

    ghost eq = { same_range };

    ghost laws = { ranges_partial };

    fn eq(&self, other: &RangeId) -> bool {
        self.object.bytes() == other.object.bytes() && self.nr.as_slice() == other.nr.as_slice()
    }
}

impl Eq for RangeId {
    ghost use Rattle.range_list.specs.Sameness.{ranges_equiv};

    ghost laws = { ranges_equiv };
}

pub fn range_id(object: &Name, nr: [u8; 2]) -> RangeId
    ensures { result ≡ range_id object.now nr }
{
    RangeId {
        object: *object,
        nr,
    }
}
