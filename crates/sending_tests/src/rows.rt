ghost use Rattle.std.specs.Prelude.{OnOk};
ghost use Rattle.keeper_api.specs.Batch.{IsBatch};
ghost use Rattle.keeper_mem.specs.Memory.{IsSettled};

use enq_base::Items;
use keeper_api::{Change, Keeper};
use keeper_mem::MemKeeper;
use std::alloc::Global;
use std::test::Fail;

/// A row of a store: its table, its key and its value.
pub type Row = (u8, &'static [u8], &'static [u8]);

fn commit(alloc: Global, keeper: &mut MemKeeper, batch: &[Change]) -> Result<(), Fail>
    requires opened { IsSettled keeper.old }
    requires batch { IsBatch batch.now }
    ensures { OnOk result (IsSettled keeper.new) }
{
    keeper.room(alloc, batch)?;
    let Ok(()) = keeper.commit(batch) else {
        return Err(Fail::from("a commit"));
    };
    Ok(())
}

fn put_at(
    alloc: Global,
    keeper: &mut MemKeeper,
    table: u8,
    key: &[u8],
    value: &[u8],
) -> Result<(), Fail>
    requires { IsSettled keeper.old }
    ensures { OnOk result (IsSettled keeper.new) }
{
    if key.is_empty() {
        return Err(Fail::from("a key"));
    }
    let change = Change::Put {
        table,
        key: Items::from_vec(Vec::from_slice(alloc, key)?),
        value: Items::from_vec(Vec::from_slice(alloc, value)?),
    };
    let batch = vec![in alloc; change]?;
    commit(alloc, keeper, batch.as_slice())
}

fn put_all(alloc: Global, keeper: &mut MemKeeper, rows: &[Row]) -> Result<(), Fail>
    requires { IsSettled keeper.old }
    ensures { OnOk result (IsSettled keeper.new) }
{
    for row in rows {
        let (table, key, value) = row;
        put_at(alloc, keeper, *table, key, value)?;
    }
    Ok(())
}

/// A keeper with these rows.
pub fn filled(alloc: Global, rows: &[Row]) -> Result<MemKeeper, Fail> {
    let mut keeper = MemKeeper::new(alloc, Vec::new(alloc), Vec::new(alloc))?;
    match keeper.reopen(alloc) {
        Ok(()) => {}
        Err(_) => return Err(Fail::from("not opened")),
    }
    put_all(alloc, &mut keeper, rows)?;
    Ok(keeper)
}

fn put_line(lines: &mut Vec<u8>, table: u8, key: &[u8], value: &[u8]) -> Result<(), Fail> {
    lines.push(table)?;
    for part in [key, b"=", value, b"\n"] {
        lines.extend_from_slice(part)?;
    }
    Ok(())
}

fn lines_of(alloc: Global, rows: &[Row]) -> Result<Vec<u8>, Fail> {
    let mut lines = Vec::new(alloc);
    for row in rows {
        let (table, key, value) = row;
        put_line(&mut lines, *table, key, value)?;
    }
    Ok(lines)
}

fn put_table(
    alloc: Global,
    lines: &mut Vec<u8>,
    keeper: &mut MemKeeper,
    table: u8,
) -> Result<(), Fail> {
    match keeper.reopen(alloc) {
        Ok(()) => {}
        Err(_) => return Err(Fail::from("not opened")),
    }
    for row in keeper.page(alloc, table, b"", 1000)?.as_slice() {
        put_line(lines, table, row.key.as_slice(), row.value.as_slice())?;
    }
    Ok(())
}

/// Whether a keeper has just these rows, which stand in their order. No call of it fails.
pub fn has_rows(alloc: Global, keeper: &mut MemKeeper, rows: &[Row]) -> Result<bool, Fail> {
    let mut lines = Vec::new(alloc);
    for table in 0..10 {
        put_table(alloc, &mut lines, keeper, table)?;
    }
    Ok(lines.as_slice() == lines_of(alloc, rows)?.as_slice())
}
