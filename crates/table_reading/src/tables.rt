ghost use Rattle.std.specs.Prelude.{◌≡◌, [], IfSome, IfOk, is_some};
ghost use Rattle.keeper_api.specs.Keeping.{HasFaultCause, IsWithin, Stays, UnlessFailed};
ghost use Rattle.keeper_api.specs.Rows.{RiseFrom};
ghost use Rattle.table_reading.specs.Tables.{last_key, rows_in};

use keeper_api::{KeepFault, Keeper, Row};
use std::alloc::Global;

// The most rows that a keeper gives at once.
const PAGE: u32 = 1000;

fn last_key(rows: &[Row]) -> &[u8]
    ensures { result.now ≡ last_key [] rows.now }
{
    match rows.last() {
        Some(row) => row.key.as_slice(),
        None => &[],
    }
}

/// All rows of a table whose keys have at least one byte, in the order of their keys.
///
/// They are read by pages, up to the first page that isn't full. A keeper that doesn't tell its rows might give full
/// pages for ever: after 2^32 - 1 of them the answer is `NoMemory`. After `Failed` only `reopen` is allowed.
pub fn read_table<K: Keeper>(
    alloc: Global,
    keeper: &mut K,
    table: u8,
) -> Result<Vec<Row>, KeepFault>
    requires { K.is_open keeper.old }
    ensures rows { IfOk result (λ all. IfSome (K.held keeper.old) (λ rows. all.items ≡ rows_in rows table)) }
    ensures rise { IfOk result (λ all. RiseFrom [] all.items) }
    ensures stays { UnlessFailed result (Stays K.held K.is_open K.has_room keeper.old keeper.new) }
    ensures told { is_some (K.held keeper.new) ≡ is_some (K.held keeper.old) }
    ensures crash { IsWithin (K.may_leave keeper.new) (K.may_leave keeper.old) }
    ensures cause { HasFaultCause (K.faults keeper.old) (K.faults keeper.new) result }
{
    let mut all = Vec::new(alloc);
    for _ in 0..u32::MAX {
        let mut page = keeper.page(alloc, table, last_key(all.as_slice()), PAGE)?;
        let is_last = page.len() < PAGE as usize;
        all.append(&mut page)?;
        if is_last {
            return Ok(all);
        }
    }
    Err(KeepFault::NoMemory)
}
