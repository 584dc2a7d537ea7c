ghost use Rattle.std.specs.Prelude.{◌≡◌, ◌++◌, IfOk, OnOk};
ghost use Rattle.byteorder.specs.Endian.{big_bytes};
ghost use Rattle.keeper_api.specs.Batch.{IsBatch};
ghost use Rattle.keeper_api.specs.declared.rows.Change.TheVariants as change;
ghost use Rattle.module_effects.specs.Spots.{row_at};
ghost use Rattle.remote_target.specs.Rows as rows;

use crate::call::CallOutcome;
use byteorder::{BigEndian, ByteOrder};
use enq_base::{Items, Key, Name, NoMemory, Reason, Text};
use keeper_api::Change;
use module_effects::Spot;
use std::alloc::Global;

/// The executed calls under their identifiers.
pub const CALLS: u8 = 0;
/// The business rows under table and key.
pub const TEXTS: u8 = 1;
/// The number of calls, in one row.
pub const COUNT: u8 = 2;
/// The key of that row.
pub const COUNT_KEY: u8 = b'S';
/// The most calls that a target executes.
pub const LIMIT: u64 = 9_223_372_036_854_775_807;

fn reason_byte(reason: Reason) -> u8
    ensures { result ≡ rows.reason_byte reason }
{
    match reason {
        Reason::Duplicate => 1,
        Reason::Missing => 2,
        Reason::NotNumber => 3,
        Reason::Overflow => 4,
    }
}

/// The two bytes of an outcome.
pub fn outcome_codes(outcome: CallOutcome) -> (u8, u8)
    ensures { result ≡ rows.outcome_codes outcome }
{
    match outcome {
        CallOutcome::Done => (1, 0),
        CallOutcome::BadText => (2, 0),
        CallOutcome::Refused(reason) => (3, reason_byte(reason)),
    }
}

fn reason_coded(byte: u8) -> Option<Reason>
    ensures { result ≡ rows.reason_coded byte }
{
    match byte {
        1 => Some(Reason::Duplicate),
        2 => Some(Reason::Missing),
        3 => Some(Reason::NotNumber),
        4 => Some(Reason::Overflow),
        _ => None,
    }
}

/// The outcome that two bytes stand for.
pub fn outcome_coded(number: u8, reason: u8) -> Option<CallOutcome>
    ensures { result ≡ rows.outcome_coded number reason }
{
    if number == 3 {
        return Some(CallOutcome::Refused(reason_coded(reason)?));
    }
    if reason != 0 {
        return None;
    }
    match number {
        1 => Some(CallOutcome::Done),
        2 => Some(CallOutcome::BadText),
        _ => None,
    }
}

/// The outcome in a call's value.
pub fn outcome_in(value: &[u8]) -> Option<CallOutcome>
    ensures { result ≡ rows.outcome_in value.now }
{
    let number = value.get(8)?;
    let reason = value.get(9)?;
    outcome_coded(*number, *reason)
}

fn push_u64(out: &mut Vec<u8>, number: u64) -> Result<(), NoMemory>
    ensures { OnOk result (out.new.items ≡ out.old.items ++ big_bytes 8 number) }
{
    let mut bytes = [0; 8];
    BigEndian::write_u64(&mut bytes, number);
    Ok(out.extend_from_slice(&bytes)?)
}

fn call_value(
    alloc: Global,
    place: u64,
    outcome: CallOutcome,
    text: &Text,
) -> Result<Vec<u8>, NoMemory>
    ensures { IfOk result (λ value. value.items ≡
        big_bytes 8 place ++ rows.outcome_bytes outcome text.now) }
{
    let (number, reason) = outcome_codes(outcome);
    let mut value = Vec::new(alloc);
    push_u64(&mut value, place)?;
    value.push(number)?;
    value.push(reason)?;
    value.extend_from_slice(text.bytes())?;
    Ok(value)
}

/// The key of a business row: the table with its length in front, and the key.
pub fn row_key(alloc: Global, table: &Name, key: &Key) -> Result<Vec<u8>, NoMemory>
    ensures { IfOk result (λ place. place.items ≡ rows.row_key (table.now, key.now)) }
{
    let mut place = Vec::new(alloc);
    place.push(table.bytes().len() as u8)?;
    place.extend_from_slice(table.bytes())?;
    place.extend_from_slice(key.bytes())?;
    Ok(place)
}

fn row_left(alloc: Global, spot: &Spot) -> Result<Change, NoMemory>
    ensures { IfOk result (λ change. change ≡ rows.row_left (row_at spot.now) spot.now.text) }
{
    let key = Items::from_vec(row_key(alloc, &spot.table, &spot.key)?);
    let Some(text) = &spot.text else {
        return Ok(Change::Del { table: TEXTS, key });
    };
    let value = Items::from_vec(Vec::from_slice(alloc, text.bytes())?);
    Ok(Change::Put {
        table: TEXTS,
        key,
        value,
    })
}

fn call_row(
    alloc: Global,
    place: u64,
    tid: &Key,
    outcome: CallOutcome,
    text: &Text,
) -> Result<Change, NoMemory>
    ensures { IfOk result (λ row. row ≡ change.Put 0 tid.now
        (rows.call_value place (record { tid = tid.now; text = text.now; outcome = outcome }))) }
{
    let value = call_value(alloc, place, outcome, text)?;
    Ok(Change::Put {
        table: CALLS,
        key: Items::from_vec(Vec::from_slice(alloc, tid.bytes())?),
        value: Items::from_vec(value),
    })
}

fn count_row(alloc: Global, count: u64) -> Result<Change, NoMemory>
    ensures { IfOk result (λ row. row ≡ change.Put 2 rows.count_key (big_bytes 8 count)) }
{
    let mut key = Vec::new(alloc);
    key.push(COUNT_KEY)?;
    let mut value = Vec::new(alloc);
    push_u64(&mut value, count)?;
    Ok(Change::Put {
        table: COUNT,
        key: Items::from_vec(key),
        value: Items::from_vec(value),
    })
}

fn row_list(alloc: Global, row: &Option<Spot>) -> Result<Vec<Change>, NoMemory>
    ensures { IfOk result (λ batch. batch.items ≡ rows.spot_changes row.now) }
{
    let mut batch = Vec::new(alloc);
    if let Some(spot) = row {
        batch.push(row_left(alloc, spot)?)?;
    }
    Ok(batch)
}

/// The change of a business row that a call leaves, if any.
pub fn row_changes(alloc: Global, row: &Option<Spot>) -> Result<Vec<Change>, NoMemory>
    ensures rows { IfOk result (λ batch. batch.items ≡ rows.spot_changes row.now) }
    ensures batch { IfOk result (λ batch. IsBatch batch.items) }
{
    row_list(alloc, row)
}

fn rows_of(
    alloc: Global,
    place: u64,
    tid: &Key,
    text: &Text,
    outcome: CallOutcome,
    row: &Option<Spot>,
) -> Result<Vec<Change>, NoMemory>
    ensures { IfOk result (λ batch. batch.items ≡ rows.written_at place
        (record { tid = tid.now; text = text.now; outcome = outcome }) (rows.spot_changes row.now)) }
{
    let mut batch = Vec::new(alloc);
    batch.push(call_row(alloc, place, tid, outcome, text)?)?;
    batch.push(count_row(alloc, place)?)?;
    let mut changes = row_changes(alloc, row)?;
    batch.append(&mut changes)?;
    Ok(batch)
}

/// The changes that execute a call: its row at this place, the count, and the business row that it changes, if any.
pub fn call_batch(
    alloc: Global,
    place: u64,
    tid: &Key,
    text: &Text,
    outcome: CallOutcome,
    row: &Option<Spot>,
) -> Result<Vec<Change>, NoMemory>
    ensures rows { IfOk result (λ batch. batch.items ≡ rows.written_at place
        (record { tid = tid.now; text = text.now; outcome = outcome }) (rows.spot_changes row.now)) }
    ensures batch { IfOk result (λ batch. IsBatch batch.items) }
{
    let _key = tid.bytes();
    rows_of(alloc, place, tid, text, outcome, row)
}
