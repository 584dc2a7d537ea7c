ghost use Rattle.std.specs.Prelude.{◌≡◌, ◌↔◌, ◌≤◌, length, IsTrue, IfOk, OnOk};
ghost use Rattle.std.specs.List.{AllByRecursion};
ghost use Rattle.keeper_api.specs.Batch.{changed, spot_of, IsBatch};
ghost use Rattle.keeper_wal.specs.Journal.{IsLegal};

use enq_base::NoMemory;
use keeper_api::Change;
use row_tree::{RowTree, are_distinct};
use std::alloc::Global;

/// Whether the batch has a change, no empty key, and no row that is changed twice.
pub fn is_legal(alloc: Global, batch: &[Change]) -> Result<bool, NoMemory>
    ensures { IfOk result (λ legal. IsTrue legal ↔ IsLegal batch.now) }
{
    if batch.is_empty() || !have_keys(batch) {
        return Ok(false);
    }
    are_distinct(alloc, batch)
}

fn key_of(change: &Change) -> &[u8]
    ensures { result.now ≡ (spot_of change.now).1 }
{
    match change {
        Change::Put { key, .. } => key.as_slice(),
        Change::Del { key, .. } => key.as_slice(),
    }
}

fn have_keys(batch: &[Change]) -> bool
    ensures { IsTrue result ↔ AllByRecursion (λ change. 1 ≤ length (spot_of change).1) batch.now }
{
    let mut rest = batch;
    while let [first, after @ ..] = rest {
        if key_of(first).is_empty() {
            return false;
        }
        rest = after;
    }
    true
}

/// Makes the changes of a batch.
pub fn make_batch(alloc: Global, rows: &mut RowTree, batch: &[Change]) -> Result<(), NoMemory>
    requires { IsBatch batch.now }
    ensures { OnOk result (rows.new.rows ≡ changed batch.now rows.old.rows) }
{
    rows.room(alloc, batch)?;
    rows.make();
    Ok(())
}
