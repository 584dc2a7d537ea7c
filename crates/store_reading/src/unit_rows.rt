ghost use Rattle.std.specs.Prelude.{◌≡◌, ℕ, ◌||◌, ◌&&◌, List, OnOk, IfOk};
ghost use Rattle.std.specs.HashSet.{contains};
ghost use Rattle.enq_base.specs.declared.owner.UnitKey.{UnitKey};
ghost use Rattle.store_reading.specs.Ids.{row_in, row_id, same_row};
ghost use Rattle.enq_base.specs.Ids.{id_of, same_id};
ghost use Rattle.store_reading.specs.Standings.{lists_part, lists_row, lists_rows, AreRecorded, AreRows};
ghost use Rattle.store_reading.specs.Units.{is_row, records_unit};
ghost use Rattle.update_records.specs.declared.stored.Record.{Record};

use crate::row_id::{RowId, row_id};
use enq_base::{NoMemory, UnitId, UnitKey, id_of};
use std::alloc::Global;
use std::collections::HashSet;
use update_records::{MarkKind, Record};

fn row_of(stored: &Record) -> Option<RowId>
    ensures { result ≡ row_in stored.now }
{
    match stored {
        Record::Module { unit, part, count } => Some(row_id(unit, *part, *count as u32)),
        Record::Step {
            unit,
            part,
            index,
            ..
        } => Some(row_id(unit, *part, *index as u32)),
        Record::Lock { unit, index, .. } => Some(row_id(unit, 0, *index)),
        _ => None,
    }
}

fn add_row(rows: &mut HashSet<RowId>, stored: &Record) -> Result<(), NoMemory>
    ensures { OnOk result ((key : UnitKey) (part n : ℕ) → contains same_row rows.new (row_id key part n)
        ≡ (contains same_row rows.old (row_id key part n) || is_row key part n stored.now)) }
{
    if let Some(row) = row_of(stored) {
        rows.insert(row)?;
    }
    Ok(())
}

/// The rows of a table, by unit, part and number.
pub fn rows_of(alloc: Global, records: &[Record]) -> Result<HashSet<RowId>, NoMemory>
    ensures { IfOk result (λ rows. AreRows rows records.now) }
{
    let mut rows = HashSet::new(alloc);
    for stored in records {
        add_row(&mut rows, stored)?;
    }
    Ok(rows)
}

fn has_row(rows: &HashSet<RowId>, key: &UnitKey, part: u8, number: u32) -> bool
    ensures { result ≡ lists_row rows.now key.now part number }
{
    rows.contains(&row_id(key, part, number))
}

/// Whether the rows 1 to `count` stand.
pub fn has_rows(rows: &HashSet<RowId>, key: &UnitKey, part: u8, count: u32) -> bool
    ensures { result ≡ lists_rows rows.now key.now part count }
{
    for number in 0..count {
        if !has_row(rows, key, part, number + 1) {
            return false;
        }
    }
    true
}

/// Whether a part of so many effects has its module row and the row of each effect.
pub fn has_part(
    modules: &HashSet<RowId>,
    steps: &HashSet<RowId>,
    key: &UnitKey,
    part: u8,
    count: u16,
) -> bool
    ensures { result ≡ lists_part modules.now steps.now key.now part count }
{
    count == 0
        || (has_row(modules, key, part, count as u32) && has_rows(steps, key, part, count as u32))
}

fn add_recorded(recorded: &mut HashSet<UnitId>, stored: &Record) -> Result<(), NoMemory>
    ensures { OnOk result ((key : UnitKey) → contains same_id recorded.new (id_of key)
        ≡ (contains same_id recorded.old (id_of key) || records_unit key stored.now)) }
{
    if let Record::Mark(mark) = stored {
        if matches!(mark.kind, MarkKind::Rec) {
            recorded.insert(id_of(&mark.unit))?;
        }
    }
    Ok(())
}

/// The units that were recorded.
pub fn recorded_units(alloc: Global, marks: &[Record]) -> Result<HashSet<UnitId>, NoMemory>
    ensures { IfOk result (λ recorded. AreRecorded recorded marks.now) }
{
    let mut recorded = HashSet::new(alloc);
    for stored in marks {
        add_recorded(&mut recorded, stored)?;
    }
    Ok(recorded)
}
