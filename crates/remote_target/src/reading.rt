ghost use Rattle.std.specs.Prelude.{◌≡◌, ◌+◌, ◌++◌, ◌∷◌, ◌≤◌, true, List, not, option_map, ◌||◌, length, take, [], position, Option, Some, None, IfOk, IfErr, IfSome, OnOk, is_some};
ghost use Rattle.std.specs.List.{list_all, find};
ghost use Rattle.keeper_api.specs.declared.rows.Row.{Row as RowOf};
ghost use Rattle.byteorder.specs.Endian.{big_bytes, big_number};
ghost use Rattle.enq_base.specs.Grammar.{is_key, is_name, is_text, is_text_byte};
ghost use Rattle.keeper_api.specs.Keeping.{IsWithin, Stays};
ghost use Rattle.remote_target.specs.Reading as reading;
ghost use Rattle.remote_target.specs.Reading.{AreAllSpelled, AreSpelled, IsCheckFault, IsSpelled, MayOpen, OnBadRow};
ghost use Rattle.remote_target.specs.Reading.{bad_place, bad_place_in};
ghost use Rattle.remote_target.specs.Rows.{IsCount};
ghost use Rattle.table_reading.specs.Tables.{rows_in};
ghost use Rattle.remote_target.specs.Targets.{HasCalls, HasTargetCause, UnlessStoreFault};

use crate::fault::TargetFault;
use crate::rows::{CALLS, COUNT, COUNT_KEY, LIMIT, TEXTS, outcome_in};
use byteorder::{BigEndian, ByteOrder};
use enq_base::{Key, NoMemory, read_name};
use keeper_api::{Keeper, Row};
use std::alloc::Global;
use std::collections::HashSet;
use table_reading::read_table;

fn are_text_bytes(bytes: &[u8]) -> bool
    ensures { result ≡ list_all is_text_byte bytes.now }
{
    bytes.iter().all(|b| *b >= 32 && *b <= 126)
}

fn is_text(bytes: &[u8]) -> bool
    ensures { result ≡ is_text bytes.now }
{
    are_text_bytes(bytes) && bytes.len() >= 1 && bytes.len() <= 512
}

fn is_key(bytes: &[u8]) -> bool
    ensures { result ≡ is_key bytes.now }
{
    Key::new(bytes).is_some()
}

fn is_name(bytes: &[u8]) -> bool
    ensures { result ≡ is_name bytes.now }
{
    read_name(bytes).is_some()
}

fn is_counting(row: &Row) -> bool
    ensures { result ≡ reading.is_counting row.now }
{
    row.key.as_slice() == [COUNT_KEY].as_slice()
}

fn counting_row(counts: &[Row]) -> Option<&Row>
    ensures { option_map (λ row. row.now) result ≡ find reading.is_counting counts.now }
{
    counts.iter().find(|row| is_counting(row))
}

/// The number in the first eight bytes, which are then those of this number.
fn number_in(value: &[u8]) -> u64
    requires { 8 ≤ length value.now }
    ensures number { result ≡ big_number 8 value.now }
    ensures bytes { big_bytes 8 result ≡ take 8 value.now }
{
    BigEndian::read_u64(value)
}

fn count_in(row: &Row) -> Option<u64>
    ensures number { result ≡ reading.count_in (Some row.now) }
    ensures bytes { IfSome result (IsCount (Some row.now.value)) }
{
    let value = row.value.as_slice();
    if value.len() == 8 {
        return Some(number_in(value));
    }
    None
}

/// The stored number of calls. None comes where its row is bad; without one it is 0.
fn stored_count(counts: &[Row]) -> Option<u64>
    ensures number { result ≡ reading.stored_count counts.now }
    ensures bytes { IfSome result (IsCount (reading.value_if (find reading.is_counting counts.now))) }
{
    match counting_row(counts) {
        None => Some(0),
        Some(row) => count_in(row),
    }
}

fn is_number(stored: Option<u64>, number: usize) -> bool
    ensures { result ≡ reading.is_number stored number }
{
    match stored {
        None => false,
        Some(count) => count == number as u64,
    }
}

fn is_within(stored: Option<u64>, place: u64) -> bool
    ensures { result ≡ reading.is_within stored place }
{
    match stored {
        None => place >= 1,
        Some(count) => place >= 1 && place <= count,
    }
}

fn is_call(row: &Row) -> bool
    ensures call { result ≡ reading.is_call row.now }
    ensures long { result ≡ true → 8 ≤ length row.now.value }
{
    let value = row.value.as_slice();
    is_key(row.key.as_slice()) && outcome_in(value).is_some() && is_text(&value[10..])
}

fn is_row_key(key: &[u8]) -> bool
    ensures { result ≡ reading.is_row_key key.now }
{
    match key {
        [] => false,
        [len, rest @ ..] => {
            let len = *len as usize;
            len <= rest.len() && is_name(&rest[..len]) && is_key(&rest[len..])
        }
    }
}

fn is_text_row(row: &Row) -> bool
    ensures { result ≡ reading.is_text_row row.now }
{
    is_row_key(row.key.as_slice()) && is_text(row.value.as_slice())
}

fn place_in(row: &Row) -> u64
    requires { 8 ≤ length row.now.value }
    ensures place { result ≡ reading.place_in row.now }
    ensures spelled { IsSpelled row.now }
{
    number_in(row.value.as_slice())
}

/// Whether a row is a call whose place none before it has; the place is then among those seen.
fn is_call_behind(stored: Option<u64>, seen: &mut HashSet<u64>, row: &Row) -> Result<bool, NoMemory>
    ensures answer { IfOk result
        (λ good. (before : List RowOf) → reading.AreSeen seen.old before
        → good ≡ reading.is_call_behind stored before row.now) }
    ensures seen { IfOk result
        (λ good. (before : List RowOf) → reading.AreSeen seen.old before → good ≡ true
        → reading.AreSeen seen.new (before ++ row.now ∷ [])) }
    ensures spelled { IfOk result
        (λ good. (before : List RowOf) → AreAllSpelled before → good ≡ true → AreAllSpelled (before ++ row.now ∷ [])) }
{
    if !is_call(row) {
        return Ok(false);
    }
    let place = place_in(row);
    if !is_within(stored, place) || seen.contains(&place) {
        return Ok(false);
    }
    seen.insert(place)?;
    Ok(true)
}

/// The place of the first row that isn't a call whose place from 1 to the stored number no row before it has.
fn first_bad_call(alloc: Global, stored: Option<u64>, rows: &[Row]) -> Result<Option<u64>, NoMemory>
    ensures bad { IfOk result (λ bad. bad ≡ reading.first_bad_call stored [] rows.now) }
    ensures spelled { IfOk result (λ bad. bad ≡ None → AreAllSpelled rows.now) }
{
    let mut seen: HashSet<u64> = HashSet::new(alloc);
    for (i, row) in rows.iter().enumerate() {
        if !is_call_behind(stored, &mut seen, row)? {
            return Ok(Some(i as u64 + 1));
        }
    }
    Ok(None)
}

fn first_bad_text(rows: &[Row]) -> Option<usize>
    ensures { result ≡ position (λ row. not (reading.is_text_row row)) rows.now }
{
    rows.iter().position(|row| !is_text_row(row))
}

fn first_bad_count(stored: Option<u64>, calls: usize, rows: &[Row]) -> Option<usize>
    ensures { result ≡ position (λ row. not (reading.is_count_row stored calls row)) rows.now }
{
    rows.iter()
        .position(|row| !(is_counting(row) && is_number(stored, calls)))
}

/// How many calls the rows have, or their first bad row. More than a target executes count as want of memory.
fn check(alloc: Global, calls: &[Row], texts: &[Row], counts: &[Row]) -> Result<u64, TargetFault>
    ensures good { IfOk result (λ n. (bad_place calls.now texts.now counts.now ≡ None) × (n ≡ length calls.now)) }
    ensures bad { IfErr result
        (λ fault. OnBadRow fault (λ table row. bad_place calls.now texts.now counts.now ≡ Some (table, row))) }
    ensures few { IfOk result (λ n. n ≤ 9223372036854775807) }
    ensures spelled { OnOk result (AreSpelled calls.now counts.now) }
    ensures fault { IfErr result IsCheckFault }
{
    let stored = stored_count(counts);
    if let Some(row) = first_bad_call(alloc, stored, calls)? {
        return Err(TargetFault::BadRow { table: CALLS, row });
    }
    if let Some(i) = first_bad_text(texts) {
        return Err(TargetFault::BadRow {
            table: TEXTS,
            row: i as u64 + 1,
        });
    }
    if let Some(i) = first_bad_count(stored, calls.len(), counts) {
        return Err(TargetFault::BadRow {
            table: COUNT,
            row: i as u64 + 1,
        });
    }
    let number = calls.len() as u64;
    if number > LIMIT {
        return Err(TargetFault::NoMemory);
    }
    Ok(number)
}

/// Opens a keeper and reads its rows: how many calls they have, or the first bad one.
pub fn open_rows<K: Keeper>(alloc: Global, keeper: &mut K) -> Result<u64, TargetFault>
    ensures opened { OnOk result (K.is_open keeper.new) }
    ensures good { IfOk result
        (λ n. IfSome (K.held keeper.new) (λ rows. (bad_place_in rows ≡ None) × (n ≡ length (rows_in rows 0)))) }
    ensures calls { IfOk result (λ n. IfSome (K.held keeper.new) (λ rows. HasCalls rows n)) }
    ensures few { IfOk result (λ n. n ≤ 9223372036854775807) }
    ensures found { OnOk result (IfSome (K.held keeper.new) (K.may_leave keeper.old)) }
    ensures bad { IfErr result
        (λ fault. OnBadRow fault
        (λ table row. IfSome (K.held keeper.new) (λ rows. bad_place_in rows ≡ Some (table, row)))) }
    ensures refusal { IfErr result MayOpen }
    ensures told { is_some (K.held keeper.new) ≡ is_some (K.held keeper.old) }
    ensures left { IsWithin (K.may_leave keeper.new) (K.may_leave keeper.old) }
    ensures cause { HasTargetCause (K.faults keeper.old) (K.faults keeper.new) result }
{
    keeper.reopen(alloc)?;
    read_rows(alloc, keeper)
}

/// How many calls the rows have, or their first bad row.
fn read_rows<K: Keeper>(alloc: Global, keeper: &mut K) -> Result<u64, TargetFault>
    requires { K.is_open keeper.old }
    ensures good { IfOk result
        (λ n. IfSome (K.held keeper.old) (λ rows. (bad_place_in rows ≡ None) × (n ≡ length (rows_in rows 0)))) }
    ensures calls { IfOk result (λ n. IfSome (K.held keeper.old) (λ rows. HasCalls rows n)) }
    ensures few { IfOk result (λ n. n ≤ 9223372036854775807) }
    ensures bad { IfErr result
        (λ fault. OnBadRow fault
        (λ table row. IfSome (K.held keeper.old) (λ rows. bad_place_in rows ≡ Some (table, row)))) }
    ensures refusal { IfErr result MayOpen }
    ensures stays { UnlessStoreFault result (Stays K.held K.is_open K.has_room keeper.old keeper.new) }
    ensures told { is_some (K.held keeper.new) ≡ is_some (K.held keeper.old) }
    ensures left { IsWithin (K.may_leave keeper.new) (K.may_leave keeper.old) }
    ensures cause { HasTargetCause (K.faults keeper.old) (K.faults keeper.new) result }
{
    let calls = read_table(alloc, keeper, CALLS)?;
    let texts = read_table(alloc, keeper, TEXTS)?;
    let counts = read_table(alloc, keeper, COUNT)?;
    check(alloc, calls.as_slice(), texts.as_slice(), counts.as_slice())
}
