ghost use Rattle.std.specs.Prelude.{◌≡◌, ◌<◌, ◌+◌, ℕ, List, [], length, not, OnOk};
ghost use Rattle.std.specs.List.{filter};
ghost use Rattle.std.specs.Ordering.{eq_by_cmp};
ghost use Rattle.std.specs.FinMap.{find, put};
ghost use Rattle.std.specs.FinMap.Entries.{where_key};
ghost use Rattle.keeper_api.specs.Batch.{changed, changed_once, spot_of};
ghost use Rattle.keeper_api.specs.Rows.{spot_cmp, is_behind};
ghost use Rattle.keeper_api.specs.declared.rows.Change.{Change};
ghost use Rattle.sorted_rows.specs.Places.{AreSorted, entries_in};
ghost use Rattle.sorted_rows.specs.Tables.{entries_from, rows_of, HasPlace, HasRoom};

use crate::table::{put_row, remove_row};
use enq_base::NoMemory;
use keeper_api::{Bytes, Change, Row};
use std::alloc::Global;
use std::collections::VecDeque;

/// The tables by their numbers.
type Tables = Vec<Vec<Row>>;

/// The rows of a table, or none.
pub fn rows_in(tables: &[Vec<Row>], table: u8) -> &[Row]
    ensures sorted { AreSorted (entries_from 0 tables.now) → AreSorted (entries_in table result.now) }
    ensures values { (key : List ℕ)
        → find spot_cmp (table, key) (entries_from 0 tables.now) ≡ find spot_cmp (table, key)
        (entries_in table result.now) }
    ensures behind { (after : List ℕ)
        → filter (is_behind table after) (entries_from 0 tables.now) ≡ filter (is_behind table after)
        (entries_in table result.now) }
{
    let number = table as usize;
    if number >= tables.len() {
        return &[];
    }
    tables[number].as_slice()
}

/// Puts a row into a table that has room for one.
fn put_into(tables: &mut Tables, table: u8, key: Bytes, value: Bytes)
    requires sorted { AreSorted (entries_from 0 tables.old.items) }
    requires room { HasPlace 1 table tables.old.items }
    ensures put { entries_from 0 tables.new.items ≡ put spot_cmp (table, key) value (entries_from 0 tables.old.items) }
    ensures room { (n other : ℕ) → HasPlace (n + 1) other tables.old.items → HasPlace n other tables.new.items }
{
    let number = table as usize;
    put_row(&mut tables[number], key, value);
}

fn remove_from(tables: &mut Tables, table: u8, key: &[u8])
    requires sorted { AreSorted (entries_from 0 tables.old.items) }
    requires room { HasPlace 1 table tables.old.items }
    ensures gone { entries_from 0 tables.new.items ≡ where_key spot_cmp
        (λ k. not (eq_by_cmp spot_cmp (table, key.now) k)) (entries_from 0 tables.old.items) }
    ensures room { (n other : ℕ) → HasPlace (n + 1) other tables.old.items → HasPlace n other tables.new.items }
{
    let number = table as usize;
    remove_row(&mut tables[number], key);
}

fn make_change(tables: &mut Tables, change: Change)
    requires sorted { AreSorted (entries_from 0 tables.old.items) }
    requires room { HasPlace 1 (spot_of change).0 tables.old.items }
    ensures sorted { AreSorted (entries_from 0 tables.new.items) }
    ensures made { rows_of tables.new.items ≡ changed_once change (rows_of tables.old.items) }
    ensures room { (n other : ℕ) → HasPlace (n + 1) other tables.old.items → HasPlace n other tables.new.items }
{
    match change {
        Change::Put { table, key, value } => put_into(tables, table, key, value),
        Change::Del { table, key } => remove_from(tables, table, key.as_slice()),
    }
}

/// Makes the changes for which there is room.
pub fn make_all(tables: &mut Tables, waiting: &mut VecDeque<Change>)
    requires sorted { AreSorted (entries_from 0 tables.old.items) }
    requires room { HasRoom (length waiting.old.items) waiting.old.items tables.old.items }
    ensures sorted { AreSorted (entries_from 0 tables.new.items) }
    ensures made { rows_of tables.new.items ≡ changed waiting.old.items (rows_of tables.old.items) }
    ensures none { waiting.new.items ≡ [] }
{
    while let Some(change) = waiting.pop_front() {
        make_change(tables, change);
    }
}

/// Adds tables up to a number.
fn open_table(alloc: Global, tables: &mut Tables, table: u8) -> Result<(), NoMemory>
    ensures there { OnOk result (table < length tables.new.items) }
    ensures same { entries_from 0 tables.new.items ≡ entries_from 0 tables.old.items }
    ensures room { (n other : ℕ) → HasPlace n other tables.old.items → HasPlace n other tables.new.items }
{
    while tables.len() <= table as usize {
        tables.push(Vec::new(alloc))?;
    }
    Ok(())
}

fn make_place(alloc: Global, tables: &mut Tables, table: u8, n: usize) -> Result<(), NoMemory>
    ensures place { OnOk result (HasPlace n table tables.new.items) }
    ensures same { entries_from 0 tables.new.items ≡ entries_from 0 tables.old.items }
    ensures room { (m other : ℕ) → HasPlace m other tables.old.items → HasPlace m other tables.new.items }
{
    open_table(alloc, tables, table)?;
    let number = table as usize;
    tables[number].reserve(n)?;
    Ok(())
}

fn table_of(change: &Change) -> u8
    ensures { result ≡ (spot_of change.now).0 }
{
    match change {
        Change::Put { table, .. } => *table,
        Change::Del { table, .. } => *table,
    }
}

/// Takes the memory for the rows of a batch.
pub fn make_room(alloc: Global, tables: &mut Tables, batch: &[Change]) -> Result<(), NoMemory>
    ensures taken { OnOk result (HasRoom (length batch.now) batch.now tables.new.items) }
    ensures same { entries_from 0 tables.new.items ≡ entries_from 0 tables.old.items }
    ensures room { (n other : ℕ) → HasPlace n other tables.old.items → HasPlace n other tables.new.items }
{
    for change in batch {
        make_place(alloc, tables, table_of(change), batch.len())?;
    }
    Ok(())
}
