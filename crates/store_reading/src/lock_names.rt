ghost use Rattle.std.specs.Prelude.{◌≡◌, ◌&&◌, ◌||◌, ◌++◌, List, OnOk, IfOk};
ghost use Rattle.std.specs.HashSet.{contains};
ghost use Rattle.std.specs.List.{flat_map};
ghost use Rattle.lock_entry.specs.declared.entry.LockName.{LockName};
ghost use Rattle.store_reading.specs.Ids.{same_lock};
ghost use Rattle.enq_base.specs.Ids.{same_id};
ghost use Rattle.store_reading.specs.Standings.{AreCounts, AreNames, AreTwins};
ghost use Rattle.store_reading.specs.Units.{names_in};
ghost use Rattle.store_reading.specs.declared.lock_id.LockId.{LockId};
ghost use Rattle.enq_base.specs.declared.unit_id.UnitId.{UnitId};
ghost use Rattle.update_records.specs.declared.stored.Record.{Record};

use crate::counts::{Counts, is_counted};
use crate::lock_id::{LockId, lock_id};
use enq_base::{NoMemory, UnitId};
use std::alloc::Global;
use std::collections::{HashMap, HashSet};
use update_records::Record;

/// Notes a name, and its unit where the name came before.
fn add_name(
    seen: &mut HashSet<LockId>,
    twins: &mut HashSet<UnitId>,
    name: LockId,
) -> Result<(), NoMemory>
    ensures seen { OnOk result
        ((other : LockId) → contains same_lock seen.new
        other ≡ (contains same_lock seen.old other || same_lock name other)) }
    ensures twins { OnOk result ((other : UnitId) → contains same_id twins.new other
        ≡ (contains same_id twins.old other || (contains same_lock seen.old name && same_id name.unit other))) }
{
    if seen.contains(&name) {
        twins.insert(name.unit)?;
    }
    seen.insert(name)?;
    Ok(())
}

fn add_lock(
    counts: &HashMap<UnitId, Counts>,
    seen: &mut HashSet<LockId>,
    twins: &mut HashSet<UnitId>,
    stored: &Record,
) -> Result<(), NoMemory>
    ensures { (headers : List Record) (names : List LockName) → AreCounts counts.now headers → AreNames seen.old names
        → AreTwins twins.old names
        → OnOk result (AreNames seen.new (names ++ names_in headers stored.now)
        × AreTwins twins.new (names ++ names_in headers stored.now)) }
{
    if let Record::Lock {
        unit,
        table,
        mode,
        pattern,
        ..
    } = stored
    {
        if is_counted(counts, stored) {
            add_name(seen, twins, lock_id(unit, table, *mode, pattern))?;
        }
    }
    Ok(())
}

/// The units of which two locks that their headers count have one name.
pub fn twins_of(
    alloc: Global,
    counts: &HashMap<UnitId, Counts>,
    locks: &[Record],
) -> Result<HashSet<UnitId>, NoMemory>
    ensures { (headers : List Record) → AreCounts counts.now headers
        → IfOk result (λ twins. AreTwins twins (flat_map (names_in headers) locks.now)) }
{
    let mut seen = HashSet::new(alloc);
    let mut twins = HashSet::new(alloc);
    for stored in locks {
        add_lock(counts, &mut seen, &mut twins, stored)?;
    }
    Ok(twins)
}
