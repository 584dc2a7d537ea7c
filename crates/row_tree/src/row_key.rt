ghost use Rattle.std.specs.Prelude.{◌≡◌, IfOk};
ghost use Rattle.row_tree.specs.Keys.{key_at};

use enq_base::{Items, NoMemory};
use keeper_api::Bytes;
use std::alloc::Global;
use std::cmp::Ordering;

/// A table and a key in it, in the order of the tables and then of the keys' bytes.
#[derive(Drop)]
pub struct RowKey {
    pub table: u8,
    pub key: Bytes,
}

impl PartialEq for RowKey {
    ghost use Rattle.row_tree.specs.Keys.{same_key, keys_partial};

    ghost eq = { same_key };

    ghost laws = { keys_partial };

    fn eq(&self, other: &RowKey) -> bool {
        self.cmp(other).is_eq()
    }
}

impl Eq for RowKey {
    ghost use Rattle.row_tree.specs.Keys.{same_key, keys_equiv};

    ghost laws = { keys_equiv };
}

impl Ord for RowKey {
    ghost use Rattle.std.proofs.Common.{refl};
    ghost use Rattle.row_tree.specs.Keys.{key_cmp, keys_total};

    ghost cmp = { key_cmp };

    ghost total = { keys_total };

    ghost matches_partial_cmp = { λ a b. refl };

    ghost matches_eq = { λ a b. refl };

    fn cmp(&self, other: &RowKey) -> Ordering {
        self.table
            .cmp(&other.table)
            .then(self.key.as_slice().cmp(other.key.as_slice()))
    }
}

impl PartialOrd for RowKey {
    ghost use Rattle.std.specs.Ordering.{as_partial_cmp};
    ghost use Rattle.row_tree.specs.Keys.{key_cmp, keys_order};

    ghost partial_cmp = { as_partial_cmp key_cmp };

    ghost laws = { keys_order };

    fn partial_cmp(&self, other: &RowKey) -> Option<Ordering> {
        Some(self.cmp(other))
    }
}

pub fn copy_bytes(alloc: Global, bytes: &[u8]) -> Result<Bytes, NoMemory>
    ensures { IfOk result (λ copy. copy ≡ bytes.now) }
{
    Ok(Items::from_vec(Vec::from_slice(alloc, bytes)?))
}

pub fn key_of(alloc: Global, table: u8, key: &[u8]) -> Result<RowKey, NoMemory>
    ensures { IfOk result (λ at. at ≡ key_at (table, key.now)) }
{
    Ok(RowKey {
        table,
        key: copy_bytes(alloc, key)?,
    })
}
