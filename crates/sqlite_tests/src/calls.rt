ghost use Rattle.std.specs.Prelude.{◌≡◌, true, IfOk, OnOk};

use enq_base::{Items, Short};
use keeper_api::{Change, Keeper, Row};
use keeper_sqlite::SqliteKeeper;
use std::alloc::Global;
use std::fs;
use std::test::Fail;

/// A row of a table by its key, and its value where there is one.
pub type Kept = (u8, &'static [u8], Option<&'static [u8]>);

/// A page: its table, the key that it comes behind, how many rows are asked for, and the keys of its rows.
pub type Page = (u8, &'static [u8], u32, &'static [&'static [u8]]);

pub fn put(alloc: Global, table: u8, key: &[u8], value: &[u8]) -> Result<Change, Fail> {
    Ok(Change::Put {
        table,
        key: Items::from_vec(key.to_vec(alloc)?),
        value: Items::from_vec(value.to_vec(alloc)?),
    })
}

pub fn delete(alloc: Global, table: u8, key: &[u8]) -> Result<Change, Fail> {
    Ok(Change::Del {
        table,
        key: Items::from_vec(key.to_vec(alloc)?),
    })
}

fn change_to(alloc: Global, row: &Kept) -> Result<Change, Fail> {
    let (table, key, value) = *row;
    match value {
        Some(value) => put(alloc, table, key, value),
        None => delete(alloc, table, key),
    }
}

fn batch_of(alloc: Global, rows: &[Kept]) -> Result<Vec<Change>, Fail> {
    let mut batch = Vec::new(alloc);
    for row in rows {
        batch.push(change_to(alloc, row)?)?;
    }
    Ok(batch)
}

/// Makes the rows what the list says, in one batch.
pub fn commit(keeper: &mut SqliteKeeper, alloc: Global, rows: &[Kept]) -> Result<(), Fail>
    requires { keeper.old.is_open ≡ true }
    ensures { OnOk result (keeper.new.is_open ≡ true) }
{
    let batch = batch_of(alloc, rows)?;
    match keeper.commit(batch.as_slice()) {
        Ok(()) => Ok(()),
        Err(fault) => Err(Fail::from(fault)),
    }
}

/// Whether a row has this value, or isn't there.
pub fn has(keeper: &mut SqliteKeeper, alloc: Global, row: &Kept) -> Result<bool, Fail>
    requires { keeper.old.is_open ≡ true }
    ensures { OnOk result (keeper.new.is_open ≡ true) }
{
    let (table, key, value) = *row;
    match keeper.get(alloc, table, key) {
        Ok(found) => Ok(found.as_ref().map(|v| v.as_slice()) == value),
        Err(fault) => Err(Fail::from(fault)),
    }
}

/// The rows of a page, which has at least one and at most 1,000.
pub fn page_of(
    keeper: &mut SqliteKeeper,
    alloc: Global,
    table: u8,
    after: &[u8],
    n: u32,
) -> Result<Vec<Row>, Fail>
    requires { keeper.old.is_open ≡ true }
    ensures { OnOk result (keeper.new.is_open ≡ true) }
{
    if n == 0 || n > 1000 {
        return Err(Fail::from("the length of a page"));
    }
    match keeper.page(alloc, table, after, n) {
        Ok(page) => Ok(page),
        Err(fault) => Err(Fail::from(fault)),
    }
}

pub fn is_row(row: Option<&Row>, key: &[u8], value: &[u8]) -> bool {
    match row {
        Some(row) => row.key.as_slice() == key && row.value.as_slice() == value,
        None => false,
    }
}

pub fn keeper_at(rt: HostRuntime, path: &str) -> Result<SqliteKeeper, Fail> {
    Ok(SqliteKeeper::new(rt, Short::new(path.as_bytes()).ok_or("a path")?))
}

pub fn opened(rt: HostRuntime, path: &str) -> Result<SqliteKeeper, Fail>
    ensures { IfOk result (λ keeper. keeper.is_open ≡ true) }
{
    let mut keeper = keeper_at(rt, path)?;
    match keeper.reopen(rt.alloc()) {
        Ok(()) => Ok(keeper),
        Err(fault) => Err(Fail::from(fault)),
    }
}

pub fn wants(holds: bool, what: &'static str) -> Result<(), Fail> {
    if holds { Ok(()) } else { Err(Fail::from(what)) }
}

/// Makes a folder anew.
pub fn emptied(rt: &HostRuntime, folder: &str) -> Result<(), Fail> {
    let _ = fs::remove_dir_all(rt, folder);
    Ok(fs::create_dir(rt, folder)?)
}
