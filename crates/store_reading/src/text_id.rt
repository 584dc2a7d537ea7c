ghost use Rattle.std.specs.Prelude.{◌≡◌};
ghost use Rattle.store_reading.specs.Ids.{text_id};

use enq_base::{KEY_BYTES, Key, Name, ShortBytes};
use std::cmp::Ordering;

/// The name of a business row: its table and its key. In the order of the keys of table 6.
#[derive(Clone, Copy, Debug)]
pub struct TextId {
    pub table: Name,
    pub key: ShortBytes<KEY_BYTES>,
}

impl PartialEq for TextId {
    ghost use Rattle.store_reading.specs.Ids.{same_text};
    ghost use Rattle.store_reading.specs.Sameness.{texts_partial};

    ghost eq = { same_text };

    ghost laws = { texts_partial };

    fn eq(&self, other: &TextId) -> bool {
        self.cmp(other).is_eq()
    }
}

impl Eq for TextId {
    ghost use Rattle.store_reading.specs.Ids.{same_text};
    ghost use Rattle.store_reading.specs.Sameness.{texts_equiv};

    ghost laws = { texts_equiv };
}

impl Ord for TextId {
    ghost use Rattle.std.proofs.Common.{refl};
    ghost use Rattle.store_reading.specs.Ids.{text_cmp};
    ghost use Rattle.store_reading.specs.Sameness.{texts_total};

    ghost cmp = { text_cmp };

    ghost total = { texts_total };

    ghost matches_partial_cmp = { λ a b. refl };

    ghost matches_eq = { λ a b. refl };

    fn cmp(&self, other: &TextId) -> Ordering {
        let (own, others) = (self.table.bytes(), other.table.bytes());
        own.len()
            .cmp(&others.len())
            .then(own.cmp(others))
            .then(self.key.bytes().cmp(other.key.bytes()))
    }
}

impl PartialOrd for TextId {
    ghost use Rattle.std.specs.Ordering.{as_partial_cmp};
    ghost use Rattle.store_reading.specs.Ids.{text_cmp};
    ghost use Rattle.store_reading.specs.Sameness.{texts_order};

    ghost partial_cmp = { as_partial_cmp text_cmp };

    ghost laws = { texts_order };

    fn partial_cmp(&self, other: &TextId) -> Option<Ordering> {
        Some(self.cmp(other))
    }
}

pub fn text_id(table: &Name, key: &Key) -> TextId
    ensures { result ≡ text_id (table.now, key.now) }
{
    let Some(key) = ShortBytes::new(key.bytes()) else {
        unreachable!();
    };
    TextId { table: *table, key }
}
