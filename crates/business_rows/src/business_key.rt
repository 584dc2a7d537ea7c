ghost use Rattle.std.specs.Prelude.{◌≡◌};
ghost use Rattle.business_rows.specs.Keys.{key_of};

use enq_base::{KEY_BYTES, Key, Name, ShortBytes};

/// The name of a business row: its table and its key.
#[derive(Clone, Copy, Debug, Hash)]
pub struct BusinessKey {
    pub table: Name,
    pub key: ShortBytes<KEY_BYTES>,
}

impl PartialEq for BusinessKey {
    ghost use Rattle.business_rows.specs.Keys.{same_key};
    ghost use Rattle.business_rows.specs.Sameness.{keys_partial};

    ghost eq = { same_key };

    ghost laws = { keys_partial };

    fn eq(&self, other: &BusinessKey) -> bool {
        self.table.bytes() == other.table.bytes() && self.key.bytes() == other.key.bytes()
    }
}

impl Eq for BusinessKey {
    ghost use Rattle.business_rows.specs.Sameness.{keys_equiv};

    ghost laws = { keys_equiv };
}

pub fn key_of(table: &Name, key: &Key) -> BusinessKey
    ensures { result ≡ key_of (table.now, key.now) }
{
    let Some(key) = ShortBytes::new(key.bytes()) else {
        unreachable!();
    };
    BusinessKey { table: *table, key }
}
