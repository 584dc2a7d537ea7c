ghost use Rattle.std.specs.Prelude.{◌≡◌, ◌<◌, ◌≤◌, ◌+◌, ℕ, true, false, length, take, drop, map, not, vec_len, vec_capacity, IfOk, MatchOption, Some, None};
ghost use Rattle.std.specs.List.{filter};
ghost use Rattle.std.specs.List.Sorted.{IsPartitionedBy, IsPartitionPoint};
ghost use Rattle.std.specs.Ordering.{eq_by_cmp, nat_cmp, is_eq};
ghost use Rattle.std.specs.Cmp.Lexicographic.{slice_cmp};
ghost use Rattle.std.specs.FinMap.{find, put};
ghost use Rattle.std.specs.FinMap.Entries.{where_key};
ghost use Rattle.keeper_api.specs.Rows.{spot_cmp, row_of, is_behind, is_below};
ghost use Rattle.sorted_rows.specs.Places.{place_in, entries_in, AreSorted, IsInside};

use crate::copies::copy_rows;
use enq_base::NoMemory;
use keeper_api::{Bytes, Row};
use std::alloc::Global;

/// Where a key stands among sorted rows, or before which row it belongs.
#[derive(Clone, Copy, Debug, PartialEq, Eq)]
pub enum Place {
    At(usize),
    Before(usize),
}

fn is_before(row: &Row, key: &[u8]) -> bool
    ensures { result ≡ is_below row.now.key key.now }
{
    row.key.as_slice().cmp(key).is_lt()
}

fn is_at(row: &Row, key: &[u8]) -> bool
    ensures { result ≡ is_eq (slice_cmp nat_cmp row.now.key key.now) }
{
    row.key.as_slice().cmp(key).is_eq()
}

/// How many rows stand before a key, found by halves.
fn count_before(rows: &[Row], key: &[u8]) -> usize
    ensures within { result ≤ length rows.now }
    ensures parted { IsPartitionedBy (λ row. is_below row.key key.now) rows.now
        → IsPartitionPoint (λ row. is_below row.key key.now ≡ true)
        (λ row. is_below row.key key.now ≡ false) rows.now result }
{
    rows.partition_point(|row| is_before(row, key))
}

fn place_of(rows: &[Row], key: &[u8]) -> Place
    ensures place { (table : ℕ) → AreSorted (entries_in table rows.now)
        → result ≡ place_in (table, key.now) (entries_in table rows.now) }
    ensures inside { IsInside (length rows.now) result }
{
    let count = count_before(rows, key);
    if count >= rows.len() {
        return Place::Before(count);
    }
    if is_at(&rows[count], key) {
        Place::At(count)
    } else {
        Place::Before(count)
    }
}

pub fn value_of<'a>(rows: &'a [Row], key: &[u8]) -> Option<&'a [u8]>
    ensures { (table : ℕ) → AreSorted (entries_in table rows.now) → MatchOption result
        (find spot_cmp (table, key.now) (entries_in table rows.now) ≡ None)
        (λ value. find spot_cmp (table, key.now) (entries_in table rows.now) ≡ Some value.now) }
{
    match place_of(rows, key) {
        Place::At(i) => Some(rows[i].value.as_slice()),
        Place::Before(_) => None,
    }
}

/// How many rows stand at a key or before it.
fn count_through(rows: &[Row], key: &[u8]) -> usize
    ensures within { result ≤ length rows.now }
    ensures rest { (table : ℕ) → AreSorted (entries_in table rows.now)
        → map row_of (filter (is_behind table key.now) (entries_in table rows.now)) ≡ drop result rows.now }
{
    match place_of(rows, key) {
        Place::At(i) => i + 1,
        Place::Before(i) => i,
    }
}

/// The first `n` rows behind a key.
pub fn page_behind(alloc: Global, rows: &[Row], after: &[u8], n: u32) -> Result<Vec<Row>, NoMemory>
    ensures { (table : ℕ) → AreSorted (entries_in table rows.now)
        → IfOk result (λ page. page.items ≡ take n
        (map row_of (filter (is_behind table after.now) (entries_in table rows.now)))) }
{
    let behind = &rows[count_through(rows, after)..];
    if behind.len() <= n as usize {
        return copy_rows(alloc, behind);
    }
    copy_rows(alloc, &behind[..n as usize])
}

/// Puts a row for which there is room.
pub fn put_row(rows: &mut Vec<Row>, key: Bytes, value: Bytes)
    requires { vec_len rows.old < vec_capacity rows.old }
    ensures put { (table : ℕ) → AreSorted (entries_in table rows.old.items)
        → entries_in table rows.new.items ≡ put spot_cmp (table, key) value (entries_in table rows.old.items) }
    ensures one { vec_len rows.new ≤ vec_len rows.old + 1 }
    ensures room { vec_capacity rows.old ≤ vec_capacity rows.new }
{
    match place_of(rows.as_slice(), key.as_slice()) {
        Place::At(i) => rows[i].value = value,
        Place::Before(i) => {
            let _ = rows.insert(i, Row { key, value });
        }
    }
}

pub fn remove_row(rows: &mut Vec<Row>, key: &[u8])
    ensures gone { (table : ℕ) → AreSorted (entries_in table rows.old.items)
        → entries_in table rows.new.items ≡ where_key spot_cmp
        (λ k. not (eq_by_cmp spot_cmp (table, key.now) k)) (entries_in table rows.old.items) }
    ensures less { vec_len rows.new ≤ vec_len rows.old }
    ensures room { vec_capacity rows.old ≤ vec_capacity rows.new }
{
    if let Place::At(i) = place_of(rows.as_slice(), key) {
        rows.remove(i);
    }
}
