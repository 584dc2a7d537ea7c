ghost use Rattle.std.specs.Prelude.{◌≡◌, pos, [], ◌∷◌, true, IsTrue, IfOk, OnOk, OnErr};
ghost use Rattle.sqlite.specs.Order.{column};
ghost use Rattle.sqlite.specs.declared.types.Value.TheVariants.{Int, Blob};
ghost use Rattle.sqlite.specs.State.{HasCleanDisk, Survives, QueriesRow, Shown, ExecutesInside, KeepsCommit};
ghost use Rattle.sqlite.specs.Held.{state};
ghost use Rattle.keeper_sqlite.specs.Texts.{get_text, page_text, put_text, delete_text};
ghost use Rattle.keeper_sqlite.specs.Batches.{text_for, params_for, MakesAll, CommitsAll};

use crate::asks::Told;
use enq_base::Items;
use keeper_api::{Change, Row};
use sqlite::types::ValueRef;
use sqlite::{Alter, Connection, Error, ErrorCode, Transaction};
use std::alloc::Global;

const MAKE: &str =
    "CREATE TABLE IF NOT EXISTS kept (number INTEGER NOT NULL, key BLOB NOT NULL, value BLOB NOT NULL, PRIMARY KEY (number, key)) STRICT";

const GET: &str = "SELECT value FROM kept WHERE number = ?1 AND key = ?2";

const PAGE: &str =
    "SELECT key, value FROM kept WHERE number = ?1 AND key > ?2 ORDER BY key LIMIT ?3";

const PUT: &str =
    "INSERT INTO kept (number, key, value) VALUES (?1, ?2, ?3) ON CONFLICT (number, key) DO UPDATE SET value = excluded.value";

const DELETE: &str = "DELETE FROM kept WHERE number = ?1 AND key = ?2";

/// Makes the table, where it isn't there.
fn make_table<S: Alter>(conn: &mut Connection<S>) -> Result<usize, Error> {
    conn.execute(MAKE, &[])
}

/// Compiles a statement. The connection keeps it for the calls to come.
fn prepare<S: Alter>(conn: &mut Connection<S>, sql: &str) -> Result<(), Error> {
    let _statement = conn.prepare(sql)?;
    Ok(())
}

/// Makes the table where it isn't there, and prepares the four statements, which a table of this name with other
/// columns refuses.
pub fn prepare_all<S: Alter>(conn: &mut Connection<S>) -> Result<(), Error> {
    make_table(conn)?;
    prepare(conn, GET)?;
    prepare(conn, PAGE)?;
    prepare(conn, PUT)?;
    prepare(conn, DELETE)
}

fn row_with<S: Alter>(conn: &mut Connection<S>, table: u8, key: &[u8]) -> Result<sqlite::Row, Error>
    ensures { HasCleanDisk (state S.Store conn.new)
        → QueriesRow get_text (Int (pos table) ∷ Blob key.now ∷ []) (state S.Store conn.old) (state S.Store conn.new)
        result }
{
    conn.query_row(GET, &[ValueRef::Int(i64::from(table)), ValueRef::Blob(key)])
}

/// The value of a row, where there is one.
pub fn value_of<S: Alter>(conn: &mut Connection<S>, table: u8, key: &[u8]) -> Result<Told, Error> {
    match row_with(conn, table, key) {
        Ok(row) => first_in(&row),
        Err(Error::QueryReturnedNoRows) => Ok(Told::Value(None)),
        Err(error) => Err(error),
    }
}

fn first_in(row: &sqlite::Row) -> Result<Told, Error> {
    Ok(Told::Value(Some(Items::from_vec(row.get(0)?))))
}

fn rows_with<S: Alter>(
    conn: &mut Connection<S>,
    table: u8,
    after: &[u8],
    n: u32,
) -> Result<Vec<sqlite::Row>, Error>
    ensures { HasCleanDisk (state S.Store conn.new)
        → IfOk result (λ rows. Shown page_text (Int (pos table) ∷ Blob after.now ∷ Int (pos n) ∷ [])
        (state S.Store conn.old) (state S.Store conn.new) rows.items) }
{
    let params = [
        ValueRef::Int(i64::from(table)),
        ValueRef::Blob(after),
        ValueRef::Int(i64::from(n)),
    ];
    conn.query_all(PAGE, &params)
}

fn row_of(row: &sqlite::Row) -> Result<Row, Error>
    ensures key { IfOk result (λ it. column row.now 0 ≡ Blob it.key) }
    ensures value { IfOk result (λ it. column row.now 1 ≡ Blob it.value) }
{
    Ok(Row {
        key: Items::from_vec(row.get(0)?),
        value: Items::from_vec(row.get(1)?),
    })
}

/// The first `n` rows of a table behind a key, as the connection answers them.
pub fn rows_behind<S: Alter>(
    alloc: Global,
    conn: &mut Connection<S>,
    table: u8,
    after: &[u8],
    n: u32,
) -> Result<Told, Error> {
    let found = rows_with(conn, table, after, n)?;
    rows_of(alloc, found.as_slice())
}

fn rows_of(alloc: Global, found: &[sqlite::Row]) -> Result<Told, Error> {
    let mut rows = Vec::with_capacity(alloc, found.len())?;
    for row in found {
        rows.push(row_of(row)?)?;
    }
    Ok(Told::Rows(rows))
}

fn put<'v, S: Alter>(
    tx: &mut Transaction<'_, S>,
    table: u8,
    key: &'v [u8],
    value: &'v [u8],
) -> Result<usize, Error>
    ensures same_reference { tx.new.conn.ghost_name ≡ tx.old.conn.ghost_name }
    ensures runs { HasCleanDisk (state S.Store tx.new.conn.now) → IsTrue tx.old.conn.now.in_transaction
        → ExecutesInside 0 put_text (Int (pos table) ∷ Blob key.now ∷ Blob value.now ∷ [])
        (state S.Store tx.old.conn.now) (state S.Store tx.new.conn.now) result }
    ensures survives { Survives (state S.Store tx.old.conn.now) (state S.Store tx.new.conn.now) (λ _. ⊥) }
{
    let params = [
        ValueRef::Int(i64::from(table)),
        ValueRef::Blob(key),
        ValueRef::Blob(value),
    ];
    tx.execute(PUT, &params)
}

fn delete<S: Alter>(tx: &mut Transaction<'_, S>, table: u8, key: &[u8]) -> Result<usize, Error>
    ensures same_reference { tx.new.conn.ghost_name ≡ tx.old.conn.ghost_name }
    ensures runs { HasCleanDisk (state S.Store tx.new.conn.now) → IsTrue tx.old.conn.now.in_transaction
        → ExecutesInside 0 delete_text (Int (pos table) ∷ Blob key.now ∷ []) (state S.Store tx.old.conn.now)
        (state S.Store tx.new.conn.now) result }
    ensures survives { Survives (state S.Store tx.old.conn.now) (state S.Store tx.new.conn.now) (λ _. ⊥) }
{
    tx.execute(
        DELETE,
        &[ValueRef::Int(i64::from(table)), ValueRef::Blob(key)],
    )
}

fn make_change<S: Alter>(tx: &mut Transaction<'_, S>, change: &Change) -> Result<usize, Error>
    ensures same_reference { tx.new.conn.ghost_name ≡ tx.old.conn.ghost_name }
    ensures runs { HasCleanDisk (state S.Store tx.new.conn.now) → IsTrue tx.old.conn.now.in_transaction
        → ExecutesInside 0 (text_for change.now) (params_for change.now) (state S.Store tx.old.conn.now)
        (state S.Store tx.new.conn.now) result }
    ensures survives { Survives (state S.Store tx.old.conn.now) (state S.Store tx.new.conn.now) (λ _. ⊥) }
{
    match change {
        Change::Put { table, key, value } => put(tx, *table, key.as_slice(), value.as_slice()),
        Change::Del { table, key } => delete(tx, *table, key.as_slice()),
    }
}

fn make_all<S: Alter>(tx: &mut Transaction<'_, S>, batch: &[Change]) -> Result<(), Error>
    requires { IsTrue tx.old.conn.now.in_transaction }
    ensures same_reference { tx.new.conn.ghost_name ≡ tx.old.conn.ghost_name }
    ensures made { HasCleanDisk (state S.Store tx.new.conn.now)
        → OnOk result (MakesAll S.Store batch.now tx.old.conn.now tx.new.conn.now) }
    ensures kept { HasCleanDisk (state S.Store tx.new.conn.now)
        → KeepsCommit (state S.Store tx.old.conn.now) (state S.Store tx.new.conn.now) }
    ensures mode { HasCleanDisk (state S.Store tx.new.conn.now) → OnOk result (IsTrue tx.new.conn.now.in_transaction) }
    ensures survives { Survives (state S.Store tx.old.conn.now) (state S.Store tx.new.conn.now) (λ _. ⊥) }
{
    for change in batch {
        make_change(tx, change)?;
    }
    Ok(())
}

/// Makes all the changes in one transaction, or none, and over a crash too.
pub fn write_batch<S: Alter>(conn: &mut Connection<S>, batch: &[Change]) -> Result<(), Error>
    ensures all { HasCleanDisk (state S.Store conn.new)
        → OnOk result (CommitsAll S.Store batch.now conn.old (state S.Store conn.new).committed) }
    ensures none { HasCleanDisk (state S.Store conn.new) → IsTrue (state S.Store conn.new).is_open
        → OnErr result (((state S.Store conn.new).now ≡ (state S.Store conn.old).now)
        × ((state S.Store conn.new).committed ≡ (state S.Store conn.old).committed)) }
    ensures crash { Survives (state S.Store conn.old) (state S.Store conn.new)
        (λ trees. (db : _) × CommitsAll S.Store batch.now conn.old db × (trees ≡ db.trees)) }
{
    if !conn.is_autocommit() {
        return Err(Error::SqliteFailure(ErrorCode::TransactionState));
    }
    let mut tx = conn.transaction();
    make_all(&mut tx, batch)?;
    tx.commit()
}
