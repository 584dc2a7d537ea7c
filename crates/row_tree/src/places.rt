ghost use Rattle.std.specs.Prelude.{◌≡◌, ◌≤◌, ◌+◌, ◌++◌, ℕ, List, [], length, take, false, Some, None, IsTrue, IfOk, OnOk, MatchOption, is_some};
ghost use Rattle.std.specs.BTreeMap.Range.{is_past_end, IsLeBy, IsLtBy};
ghost use Rattle.std.specs.FinMap.{insert, remove, get};
ghost use Rattle.std.specs.Range.Bound.{IsForward};
ghost use Rattle.std.specs.declared.ops.Bound.TheVariants.{Excluded};
ghost use Rattle.keeper_api.specs.Rows.{Spot, is_behind};
ghost use Rattle.row_tree.specs.Keys.{spot, key_at, key_cmp};
ghost use Rattle.row_tree.specs.Places.{AreInOrder, place_at, rows_of, held, with_value, behind};

use crate::row_key::{RowKey, copy_bytes, key_of};
use enq_base::{Items, NoMemory};
use keeper_api::{Bytes, Row};
use std::alloc::Global;
use std::collections::BTreeMap;
use std::ops::Bound;

/// Places in their order, each with a row or kept free.
pub type Places = BTreeMap<RowKey, Option<Bytes>>;

pub fn value_of<'a>(places: &'a Places, key: &RowKey) -> Option<&'a Bytes>
    requires { AreInOrder places.now.entries }
    ensures { MatchOption result (get (rows_of places.now.entries) (spot key.now) ≡ None)
        (λ value. get (rows_of places.now.entries) (spot key.now) ≡ Some value.now) }
{
    match places.get(key) {
        Some(place) => place.as_ref(),
        None => None,
    }
}

/// Keeps a place free for a row that has none.
pub fn keep_place(places: &mut Places, key: RowKey) -> Result<(), NoMemory>
    requires { AreInOrder places.old.entries }
    ensures order { AreInOrder places.new.entries }
    ensures rows { rows_of places.new.entries ≡ rows_of places.old.entries }
    ensures place { OnOk result (IsTrue (is_some (place_at places.new.entries (spot key)))) }
    ensures others { (at : Spot) → IsTrue (is_some (place_at places.old.entries at))
        → IsTrue (is_some (place_at places.new.entries at)) }
{
    if !places.contains_key(&key) {
        places.insert(key, None)?;
    }
    Ok(())
}

/// Gives a place back that is free.
pub fn give_back(places: &mut Places, key: &RowKey)
    requires { AreInOrder places.old.entries }
    ensures order { AreInOrder places.new.entries }
    ensures rows { rows_of places.new.entries ≡ rows_of places.old.entries }
{
    if let Some(None) = places.get(key) {
        places.remove(key);
    }
}

/// Puts a row into its place.
pub fn put_row(places: &mut Places, key: RowKey, value: Bytes)
    requires order { AreInOrder places.old.entries }
    requires place { IsTrue (is_some (place_at places.old.entries (spot key))) }
    ensures order { AreInOrder places.new.entries }
    ensures rows { rows_of places.new.entries ≡ insert (rows_of places.old.entries) (spot key) value }
    ensures others { (at : Spot) → IsTrue (is_some (place_at places.old.entries at))
        → IsTrue (is_some (place_at places.new.entries at)) }
{
    match places.insert(key, Some(value)) {
        Ok(_) => {}
        Err(_) => unreachable!(),
    }
}

/// Takes a row out, with its place.
pub fn remove_row(places: &mut Places, key: &RowKey)
    requires { AreInOrder places.old.entries }
    ensures order { AreInOrder places.new.entries }
    ensures rows { rows_of places.new.entries ≡ remove (rows_of places.old.entries) (spot key.now) }
    ensures others { (at : Spot) → (at ≡ spot key.now → ⊥) → IsTrue (is_some (place_at places.old.entries at))
        → IsTrue (is_some (place_at places.new.entries at)) }
{
    places.remove(key);
}

/// Behind all keys of a table.
fn end_of(alloc: Global, table: u8) -> Bound<RowKey>
    ensures forward { (key : List ℕ)
        → IsForward (IsLeBy key_cmp) (IsLtBy key_cmp) (Excluded (key_at (table, key))) result }
    ensures inside { (key : List ℕ) → is_past_end key_cmp result (key_at (table, key)) ≡ false }
{
    match table.checked_add(1) {
        Some(next) => Bound::Excluded(RowKey {
            table: next,
            key: Items::from_vec(Vec::new(alloc)),
        }),
        None => Bound::Unbounded,
    }
}

fn is_behind(table: u8, after: &[u8], key: &RowKey) -> bool
    ensures { (value : List ℕ) → result ≡ is_behind table after.now (spot key.now, value) }
{
    key.table == table && after.cmp(key.key.as_slice()).is_lt()
}

/// Adds a copy of the row in a place, where there is one behind a key of the table.
fn add_row(
    alloc: Global,
    page: &mut Vec<Row>,
    table: u8,
    after: &[u8],
    key: &RowKey,
    place: &Option<Bytes>,
) -> Result<(), NoMemory>
    ensures added { OnOk result (page.new.items ≡ page.old.items
        ++ behind table after.now (with_value (spot key.now) place.now [])) }
    ensures few { length page.new.items ≤ length page.old.items + 1 }
{
    let Some(value) = place else {
        return Ok(());
    };
    if is_behind(table, after, key) {
        page.push(Row {
            key: copy_bytes(alloc, key.key.as_slice())?,
            value: copy_bytes(alloc, value.as_slice())?,
        })?;
    }
    Ok(())
}

/// Copies of the first `n` rows of a table behind a key.
pub fn page_behind(
    alloc: Global,
    places: &Places,
    table: u8,
    after: &[u8],
    n: u32,
) -> Result<Vec<Row>, NoMemory>
    ensures { IfOk result (λ page. page.items ≡ take n (behind table after.now (held places.now.entries))) }
{
    let start = Bound::Excluded(key_of(alloc, table, after)?);
    let mut page = Vec::new(alloc);
    let mut rest = places.range((start, end_of(alloc, table)));
    while page.len() < n as usize {
        let Some((key, place)) = rest.next() else {
            return Ok(page);
        };
        add_row(alloc, &mut page, table, after, key, place)?;
    }
    Ok(page)
}
