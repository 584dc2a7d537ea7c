ghost use Rattle.std.specs.Prelude.{◌≡◌, ◌+◌, ◌&&◌, nat_le, [], List, IfOk};
ghost use Rattle.store_reading.specs.First.{first_wrong};
ghost use Rattle.store_reading.specs.Standings.{lists_parts, looks_whole, AreCounts, AreRecorded, IsIndex};
ghost use Rattle.store_reading.specs.Units.{has_few, is_counted, is_recorded_header, is_right_unit, unit_fault};
ghost use Rattle.update_records.specs.declared.stored.Record.{Record};

use crate::counts::{Counts, counts_for, counts_of, is_counted};
use crate::lock_names::twins_of;
use crate::row_id::RowId;
use crate::rules::Place;
use crate::unit_rows::{has_part, has_rows, recorded_units, rows_of};
use enq_base::{NoMemory, UnitId, UnitKey, id_of};
use std::alloc::Global;
use std::collections::{HashMap, HashSet};
use update_records::{MarkKind, Record, tables};

const MOST_EFFECTS: u32 = 200;

const MOST_NUMBERS: usize = 64;

/// What is known of the units of a store, by their keys.
#[derive(Drop)]
struct UnitIndex {
    counts: HashMap<UnitId, Counts>,
    modules: HashSet<RowId>,
    steps: HashSet<RowId>,
    locks: HashSet<RowId>,
    twins: HashSet<UnitId>,
}

impl UnitIndex {
    fn new(
        alloc: Global,
        headers: &[Record],
        modules: &[Record],
        steps: &[Record],
        locks: &[Record],
    ) -> Result<UnitIndex, NoMemory>
        ensures { IfOk result
            (λ index. IsIndex index.counts index.modules index.steps index.locks index.twins headers.now modules.now
            steps.now locks.now) }
    {
        let counts = counts_of(alloc, headers)?;
        let twins = twins_of(alloc, &counts, locks)?;
        Ok(UnitIndex {
            counts,
            modules: rows_of(alloc, modules)?,
            steps: rows_of(alloc, steps)?,
            locks: rows_of(alloc, locks)?,
            twins,
        })
    }

    fn has_parts(&self, key: &UnitKey, counts: &Counts) -> bool
        ensures { result ≡ lists_parts self.now.modules self.now.steps key.now counts.now }
    {
        has_part(&self.modules, &self.steps, key, 1, counts.v1)
            && has_part(&self.modules, &self.steps, key, 2, counts.v2)
    }

    fn is_whole(&self, key: &UnitKey) -> bool
        ensures { result ≡ looks_whole self.now.counts self.now.modules self.now.steps self.now.locks self.now.twins
            key.now }
    {
        let counts = counts_for(&self.counts, key);
        has_few(&counts)
            && (self.has_parts(key, &counts)
                && (has_rows(&self.locks, key, 0, counts.locks)
                    && !self.twins.contains(&id_of(key))))
    }

    fn is_right(&self, stored: &Record) -> bool
        ensures { (headers modules steps locks : List Record)
            → IsIndex self.now.counts self.now.modules self.now.steps self.now.locks self.now.twins headers modules
            steps locks
            → result ≡ is_right_unit headers modules steps locks stored.now }
    {
        match stored {
            Record::Mark(mark) => match &mark.kind {
                MarkKind::Rec => self.is_whole(&mark.unit),
                MarkKind::Num(numbers) => are_few(numbers.as_slice().len()),
                _ => true,
            },
            _ => true,
        }
    }

    fn wrong_mark(&self, marks: &[Record]) -> Option<Place>
        ensures { (headers modules steps locks : List Record)
            → IsIndex self.now.counts self.now.modules self.now.steps self.now.locks self.now.twins headers modules
            steps locks
            → result ≡ first_wrong (λ before. is_right_unit headers modules steps locks) 4 [] marks.now }
    {
        let mut row = 1;
        for stored in marks {
            if !self.is_right(stored) {
                return Some(Place {
                    table: tables::MARKS,
                    row,
                });
            }
            row += 1;
        }
        None
    }
}

fn has_few(counts: &Counts) -> bool
    ensures { result ≡ has_few counts.now }
{
    let effects = counts.v1 as u32 + counts.v2 as u32;
    effects >= 1 && (effects <= MOST_EFFECTS && counts.numbers <= MOST_NUMBERS)
}

fn are_few(numbers: usize) -> bool
    ensures { result ≡ (nat_le 1 numbers && nat_le numbers 64) }
{
    numbers >= 1 && numbers <= MOST_NUMBERS
}

fn is_recorded_header(recorded: &HashSet<UnitId>, stored: &Record) -> bool
    ensures { (marks : List Record) → AreRecorded recorded.now marks → result ≡ is_recorded_header marks stored.now }
{
    match stored {
        Record::Header { unit, .. } => recorded.contains(&id_of(unit)),
        _ => false,
    }
}

fn unrecorded_header(recorded: &HashSet<UnitId>, headers: &[Record]) -> Option<Place>
    ensures { (marks : List Record) → AreRecorded recorded.now marks
        → result ≡ first_wrong (λ before. is_recorded_header marks) 1 [] headers.now }
{
    let mut row = 1;
    for stored in headers {
        if !is_recorded_header(recorded, stored) {
            return Some(Place {
                table: tables::HEADERS,
                row,
            });
        }
        row += 1;
    }
    None
}

fn uncounted_row(counts: &HashMap<UnitId, Counts>, table: u8, records: &[Record]) -> Option<Place>
    ensures { (headers : List Record) → AreCounts counts.now headers
        → result ≡ first_wrong (λ before. is_counted headers) table [] records.now }
{
    let mut row = 1;
    for stored in records {
        if !is_counted(counts, stored) {
            return Some(Place { table, row });
        }
        row += 1;
    }
    None
}

/// The first row that breaks the rule on units, of tables 1, 2, 3, 4 and 7.
///
/// A mark is wrong where its unit lacks a row that the header counts; a row that no header counts is named only where
/// no mark is wrong.
pub fn unit_fault(
    alloc: Global,
    headers: &[Record],
    modules: &[Record],
    steps: &[Record],
    marks: &[Record],
    locks: &[Record],
) -> Result<Option<Place>, NoMemory>
    ensures { IfOk result (λ fault. fault ≡ unit_fault headers.now modules.now steps.now marks.now locks.now) }
{
    let index = UnitIndex::new(alloc, headers, modules, steps, locks)?;
    let recorded = recorded_units(alloc, marks)?;
    Ok(
        index
            .wrong_mark(marks)
            .or(unrecorded_header(&recorded, headers))
            .or(uncounted_row(&index.counts, tables::MODULES, modules))
            .or(uncounted_row(&index.counts, tables::STEPS, steps))
            .or(uncounted_row(&index.counts, tables::LOCKS, locks)),
    )
}
