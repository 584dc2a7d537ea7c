ghost use Rattle.std.specs.Prelude.{◌≡◌, ◌↔◌, true, not, cond, map, IsTrue, IfOk, OnOk};
ghost use Rattle.std.specs.List.{IsDistinct};
ghost use Rattle.std.specs.BTreeSet.{contains};
ghost use Rattle.keeper_api.specs.Batch.{spot_of, is_same_spot};
ghost use Rattle.keeper_api.specs.Rows.{Spot};
ghost use Rattle.row_tree.specs.Keys.{key_at, key_cmp};

use crate::row_key::{RowKey, key_of};
use enq_base::NoMemory;
use keeper_api::Change;
use std::alloc::Global;
use std::collections::BTreeSet;

fn key_in(alloc: Global, change: &Change) -> Result<RowKey, NoMemory>
    ensures { IfOk result (λ key. key ≡ key_at (spot_of change.now)) }
{
    match change {
        Change::Put { table, key, .. } => key_of(alloc, *table, key.as_slice()),
        Change::Del { table, key } => key_of(alloc, *table, key.as_slice()),
    }
}

/// Adds the key of a change, and says whether it is new.
fn add_key(alloc: Global, seen: &mut BTreeSet<RowKey>, change: &Change) -> Result<bool, NoMemory>
    ensures new { IfOk result (λ new. new ≡ not (contains key_cmp seen.old (key_at (spot_of change.now)))) }
    ensures seen { OnOk result ((s : Spot) → contains key_cmp seen.new (key_at s)
        ≡ cond (is_same_spot (spot_of change.now) s) true (contains key_cmp seen.old (key_at s))) }
{
    Ok(seen.insert(key_in(alloc, change)?)?)
}

/// Whether no row is changed twice, by an ordered set of the keys.
pub fn are_distinct(alloc: Global, batch: &[Change]) -> Result<bool, NoMemory>
    ensures { IfOk result (λ yes. IsTrue yes ↔ IsDistinct is_same_spot (map spot_of batch.now)) }
{
    let mut seen: BTreeSet<RowKey> = BTreeSet::new(alloc);
    let mut rest = batch;
    while let Some((first, after)) = rest.split_first() {
        if !add_key(alloc, &mut seen, first)? {
            return Ok(false);
        }
        rest = after;
    }
    Ok(true)
}
