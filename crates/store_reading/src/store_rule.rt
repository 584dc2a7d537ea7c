ghost use Rattle.std.specs.Prelude.{◌≡◌, ◌≤◌, ◌<◌, IfOk, IfSome};
ghost use Rattle.store_reading.specs.Stores.{is_bare, rule_fault, start_in, store_fault};

use crate::level_rule::level_fault;
use crate::mark_rule::mark_fault;
use crate::post_rule::post_fault;
use crate::reading::StoredRecords;
use crate::rules::{Place, meta_fault, number_fault};
use crate::unit_rule::unit_fault;
use enq_base::NoMemory;
use std::alloc::Global;
use update_records::{Record, tables};

/// The start number that the meta row tells, or 0.
pub fn start_in(meta: &[Record]) -> u32
    ensures { result ≡ start_in meta.now }
{
    match meta.first() {
        Some(Record::Meta { start, .. }) => *start,
        _ => 0,
    }
}

fn is_bare(records: &StoredRecords) -> bool
    ensures { result ≡ is_bare records.now }
{
    for table in 0..8 {
        if !records.table(table).is_empty() {
            return false;
        }
    }
    true
}

/// The first place where a rule is broken, in the order of the rules: each is asked only where those before it name
/// none.
fn rule_fault(alloc: Global, records: &StoredRecords) -> Result<Option<Place>, NoMemory>
    ensures { IfOk result (λ place. place ≡ rule_fault records.now) }
{
    let (meta, headers) = (records.table(tables::META), records.table(tables::HEADERS));
    let (steps, marks) = (records.table(tables::STEPS), records.table(tables::MARKS));
    if let Some(place) = meta_fault(meta, marks) {
        return Ok(Some(place));
    }
    if let Some(place) = number_fault(marks) {
        return Ok(Some(place));
    }
    if let Some(place) = mark_fault(alloc, start_in(meta), headers, marks)? {
        return Ok(Some(place));
    }
    let (modules, locks) = (records.table(tables::MODULES), records.table(tables::LOCKS));
    if let Some(place) = unit_fault(alloc, headers, modules, steps, marks, locks)? {
        return Ok(Some(place));
    }
    if let Some(place) = post_fault(alloc, steps, marks, records.table(tables::BUSINESS))? {
        return Ok(Some(place));
    }
    level_fault(alloc, headers, marks, records.table(tables::LEVELS))
}

/// The first place where the records of a store break a rule, in the order of the rules. A store without rows breaks
/// none.
pub fn store_fault(alloc: Global, records: &StoredRecords) -> Result<Option<Place>, NoMemory>
    ensures fault { IfOk result (λ place. place ≡ store_fault records.now) }
    ensures place { IfOk result (λ place. IfSome place (λ p. (p.table < 8) × (1 ≤ p.row))) }
{
    if is_bare(records) {
        return Ok(None);
    }
    rule_fault(alloc, records)
}
