ghost use Rattle.std.specs.Prelude.{◌≡◌, IfOk};

use enq_base::{Items, NoMemory};
use keeper_api::{Bytes, Change, Row};
use std::alloc::Global;
use std::collections::VecDeque;

pub fn copy_bytes(alloc: Global, bytes: &[u8]) -> Result<Bytes, NoMemory>
    ensures { IfOk result (λ copy. copy ≡ bytes.now) }
{
    Ok(Items::from_vec(Vec::from_slice(alloc, bytes)?))
}

fn copy_row(alloc: Global, row: &Row) -> Result<Row, NoMemory>
    ensures { IfOk result (λ copy. copy ≡ row.now) }
{
    Ok(Row {
        key: copy_bytes(alloc, row.key.as_slice())?,
        value: copy_bytes(alloc, row.value.as_slice())?,
    })
}

pub fn copy_rows(alloc: Global, rows: &[Row]) -> Result<Vec<Row>, NoMemory>
    ensures { IfOk result (λ copy. copy.items ≡ rows.now) }
{
    let mut copy = Vec::with_capacity(alloc, rows.len())?;
    for row in rows {
        copy.push(copy_row(alloc, row)?)?;
    }
    Ok(copy)
}

fn copy_change(alloc: Global, change: &Change) -> Result<Change, NoMemory>
    ensures { IfOk result (λ copy. copy ≡ change.now) }
{
    match change {
        Change::Put { table, key, value } => Ok(Change::Put {
            table: *table,
            key: copy_bytes(alloc, key.as_slice())?,
            value: copy_bytes(alloc, value.as_slice())?,
        }),
        Change::Del { table, key } => Ok(Change::Del {
            table: *table,
            key: copy_bytes(alloc, key.as_slice())?,
        }),
    }
}

pub fn copy_batch(alloc: Global, batch: &[Change]) -> Result<VecDeque<Change>, NoMemory>
    ensures { IfOk result (λ copy. copy.items ≡ batch.now) }
{
    let mut copy = VecDeque::with_capacity(alloc, batch.len())?;
    for change in batch {
        copy.push_back(copy_change(alloc, change)?)?;
    }
    Ok(copy)
}
