ghost use Rattle.std.specs.Prelude.{◌≡◌, ◌||◌, Option, Some, OnOk, IfOk, if◌then◌else◌};
ghost use Rattle.std.specs.HashMap.{get};
ghost use Rattle.enq_base.specs.Owners.{same_unit};
ghost use Rattle.enq_base.specs.declared.owner.UnitKey.{UnitKey};
ghost use Rattle.enq_base.specs.Ids.{id_of, same_id};
ghost use Rattle.backup_file.specs.Lists.{is_known};
ghost use Rattle.enq_server.specs.Recovery.{AreKnown, ArePlaces, entries_at};

use backup_file::Handed;
use enq_base::{NoMemory, UnitId, UnitKey, id_of};
use lock_entry::{Entry, UnitLocks};
use std::alloc::Global;
use std::collections::{HashMap, HashSet};

fn put(places: &mut HashMap<UnitId, usize>, unit: &UnitKey, place: usize) -> Result<(), NoMemory>
    ensures { OnOk result
        ((other : UnitKey) → get same_id places.new
        (id_of other) ≡ (if same_unit unit.now other then Some place else get same_id places.old (id_of other))) }
{
    places.insert(id_of(unit), place)?;
    Ok(())
}

/// Where the list of each unit stands.
pub fn places_of(alloc: Global, lists: &[Handed]) -> Result<HashMap<UnitId, usize>, NoMemory>
    ensures { IfOk result (λ places. ArePlaces places lists.now lists.now) }
{
    let mut places = HashMap::new(alloc);
    let mut left = lists.len();
    while left > 0 {
        left -= 1;
        put(&mut places, &lists[left].unit, left)?;
    }
    Ok(places)
}

fn place_of(places: &HashMap<UnitId, usize>, unit: &UnitKey) -> Option<usize>
    ensures { result ≡ get same_id places.now (id_of unit.now) }
{
    places.get(&id_of(unit)).copied()
}

/// The entries of the unit's list, none where no list of it stands.
pub fn entries_of<'a>(
    lists: &'a [Handed],
    places: &HashMap<UnitId, usize>,
    unit: &UnitKey,
) -> &'a [Entry]
    ensures { result.now ≡ entries_at lists.now (get same_id places.now (id_of unit.now)) }
{
    let Some(place) = place_of(places, unit) else {
        return &[];
    };
    match lists.get(place) {
        Some(handed) => handed.entries.as_slice(),
        None => &[],
    }
}

fn add(known: &mut HashSet<UnitId>, unit: &UnitKey) -> Result<(), NoMemory>
    ensures { OnOk result
        ((other : UnitKey) → is_known other
        known.new.keys ≡ (same_unit unit.now other || is_known other known.old.keys)) }
{
    known.insert(id_of(unit))?;
    Ok(())
}

/// The units.
pub fn known_units(alloc: Global, units: &[UnitLocks]) -> Result<HashSet<UnitId>, NoMemory>
    ensures { IfOk result (λ known. AreKnown known.keys units.now) }
{
    let mut known = HashSet::new(alloc);
    for one in units {
        add(&mut known, &one.unit)?;
    }
    Ok(known)
}

/// Whether the unit is among these.
pub fn is_known(known: &HashSet<UnitId>, unit: &UnitKey) -> bool
    ensures { result ≡ is_known unit.now known.now.keys }
{
    known.contains(&id_of(unit))
}
