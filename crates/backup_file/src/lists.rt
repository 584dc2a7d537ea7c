ghost use Rattle.std.specs.Prelude.{◌≡◌, ◌↔◌, ◌∷◌, [], List, reverse, OnOk, IfOk, IsTrue};
ghost use Rattle.std.specs.List.{fold};
ghost use Rattle.lock_entry.specs.Names.{has_distinct_names};
ghost use Rattle.backup_file.specs.Lists as kept;
ghost use Rattle.backup_file.specs.Lists.{AreTouched, AreUnits};
ghost use Rattle.backup_file.specs.declared.handed.Handed.{Handed};
ghost use Rattle.backup_file.specs.declared.handed.Record.{Record};

use crate::handed::{Handed, Record};
use crate::ids::{LockId, lock_id};
use crate::unit_set::{add, forget, holds};
use enq_base::{NoMemory, UnitId, UnitKey};
use lock_entry::Entry;
use std::alloc::Global;
use std::collections::HashSet;

/// Notes what the record does to the units whose lists stand.
pub fn follow(units: &mut HashSet<UnitId>, step: &Record) -> Result<(), NoMemory>
    ensures { (l : List Handed) → AreUnits units.old.keys l
        → OnOk result (AreUnits units.new.keys (kept.after l step.now)) }
{
    match step {
        Record::Hand(handed) => add(units, &handed.unit)?,
        Record::Free(unit) => forget(units, unit),
    }
    Ok(())
}

/// Whether the record may follow, where the lists of these units stand.
pub fn may_follow(alloc: Global, units: &HashSet<UnitId>, step: &Record) -> Result<bool, NoMemory>
    ensures { (l : List Handed) → AreUnits units.now.keys l
        → IfOk result (λ may. IsTrue may ↔ kept.IsLegal l step.now) }
{
    match step {
        Record::Hand(handed) => are_distinct(alloc, handed.entries.as_slice()),
        Record::Free(unit) => Ok(holds(units, unit)),
    }
}

/// Whether each entry has a name of its own.
pub fn are_distinct(alloc: Global, entries: &[Entry]) -> Result<bool, NoMemory>
    ensures { IfOk result (λ distinct. distinct ≡ has_distinct_names entries.now) }
{
    let mut seen: HashSet<LockId> = HashSet::new(alloc);
    let mut left = entries.len();
    while left > 0 {
        left -= 1;
        let name = lock_id(&entries[left]);
        if seen.contains(&name) {
            return Ok(false);
        }
        seen.insert(name)?;
    }
    Ok(true)
}

/// Notes a record before those that were read, the last first: a hand's list stands where none of these is of its unit.
fn read_back(
    seen: &mut HashSet<UnitId>,
    lists: &mut Vec<Handed>,
    step: Record,
) -> Result<(), NoMemory>
    ensures { (later : List Record) → AreTouched seen.old.keys later → reverse lists.old.items ≡ kept.hands later
        → OnOk result (AreTouched seen.new.keys (step ∷ later)
        × (reverse lists.new.items ≡ kept.hands (step ∷ later))) }
{
    match step {
        Record::Hand(handed) => put_first(seen, lists, handed),
        Record::Free(unit) => add(seen, &unit),
    }
}

fn put_first(
    seen: &mut HashSet<UnitId>,
    lists: &mut Vec<Handed>,
    handed: Handed,
) -> Result<(), NoMemory>
    ensures { (later : List Record) → AreTouched seen.old.keys later → reverse lists.old.items ≡ kept.hands later
        → OnOk result (AreTouched seen.new.keys (Record.Hand handed ∷ later)
        × (reverse lists.new.items ≡ kept.hands (Record.Hand handed ∷ later))) }
{
    let unit: UnitKey = handed.unit;
    if !holds(seen, &unit) {
        lists.push(handed)?;
    }
    add(seen, &unit)
}

/// The lists that stand after these records.
pub fn lists_of(alloc: Global, records: Vec<Record>) -> Result<Vec<Handed>, NoMemory>
    ensures { IfOk result (λ lists. lists.items ≡ fold kept.after [] records.items) }
{
    let mut records = records;
    let mut seen = HashSet::new(alloc);
    let mut lists = Vec::new(alloc);
    while let Some(step) = records.pop() {
        read_back(&mut seen, &mut lists, step)?;
    }
    lists.reverse();
    Ok(lists)
}
