ghost use Rattle.std.specs.Prelude.{◌≡◌, ◌++◌, ◌∷◌, [], true, List, Some, IsSome, IfOk, OnOk, if◌then◌else◌};
ghost use Rattle.std.specs.HashMap.{get};
ghost use Rattle.std.specs.List.{find, flat_map};
ghost use Rattle.std.specs.Option.{option_or};
ghost use Rattle.enq_base.specs.Owners.{same_unit};
ghost use Rattle.enq_base.specs.declared.owner.UnitKey.{UnitKey};
ghost use Rattle.store_reading.specs.Gathered.{entries_for, key_in, user_in, AreEntries, AreUnitsTold, AreUsers};
ghost use Rattle.store_reading.specs.Posting.{AreParts};
ghost use Rattle.store_reading.specs.Rules.{marks_in};
ghost use Rattle.store_reading.specs.Standings.{ArePlaces};
ghost use Rattle.store_reading.specs.Stores.{entry_in, is_header, unit_in, units_in, user_at};
ghost use Rattle.store_reading.specs.Told.{records_in};
ghost use Rattle.store_reading.specs.Units.{is_recorded};
ghost use Rattle.enq_base.specs.Ids.{id_of, same_id};
ghost use Rattle.update_records.specs.declared.stored.Record.{Record};

use crate::numbers::{numbers_there, place_of, places_of};
use crate::part_id::PartId;
use crate::parts::{effects_for, parts_of};
use crate::reading::StoredRecords;
use enq_base::{Effect, Items, Name, NoMemory, Num, Owner, Parts, UnitId, UnitKey, id_of};
use lock_entry::Entry;
use std::alloc::Global;
use std::collections::HashMap;
use update_records::{Mark, MarkKind, Record, Unit, tables};

/// What the rows of the units tell, by the keys of the units.
#[derive(Drop)]
struct UnitsTold {
    users: HashMap<UnitId, Name>,
    places: HashMap<UnitId, usize>,
    parts: HashMap<PartId, Vec<Effect>>,
    locks: HashMap<UnitId, Vec<Entry>>,
}

fn add_user(users: &mut HashMap<UnitId, Name>, stored: &Record) -> Result<(), NoMemory>
    ensures { OnOk result
        ((key : UnitKey) → get same_id users.new (id_of key) ≡ option_or (get same_id users.old (id_of key))
        (user_in key stored.now)) }
{
    if let Record::Header { unit, user, .. } = stored {
        users.entry(id_of(unit))?.or_insert(*user);
    }
    Ok(())
}

fn users_of(alloc: Global, headers: &[Record]) -> Result<HashMap<UnitId, Name>, NoMemory>
    ensures { IfOk result (λ users. AreUsers users headers.now) }
{
    let mut users = HashMap::new(alloc);
    for stored in headers {
        add_user(&mut users, stored)?;
    }
    Ok(users)
}

fn push_lock(
    alloc: Global,
    locks: &mut HashMap<UnitId, Vec<Entry>>,
    unit: &UnitKey,
    entry: Entry,
) -> Result<(), NoMemory>
    ensures { OnOk result ((key : UnitKey) → entries_for locks.new key
        ≡ (if same_unit unit.now key then entries_for locks.old key ++ entry ∷ [] else entries_for locks.old key)) }
{
    let list = locks.entry(id_of(unit))?.or_insert(Vec::new(alloc));
    list.push(entry)?;
    Ok(())
}

fn add_lock(
    alloc: Global,
    locks: &mut HashMap<UnitId, Vec<Entry>>,
    users: &HashMap<UnitId, Name>,
    stored: &Record,
) -> Result<(), NoMemory>
    ensures { OnOk result
        ((headers : List Record) → AreUsers users.now headers → (key : UnitKey) → IsSome (find (is_header key) headers)
        → entries_for locks.new key ≡ entries_for locks.old key ++ entry_in (user_at headers key) key stored.now) }
{
    let Record::Lock {
        unit,
        table,
        mode,
        count,
        pattern,
        ..
    } = stored
    else {
        return Ok(());
    };
    let Some(user) = users.get(&id_of(unit)).copied() else {
        return Ok(());
    };
    let entry = Entry {
        owner: Owner::Upd(*unit),
        user,
        table: *table,
        pattern: *pattern,
        mode: *mode,
        count: *count,
        handed: true,
    };
    push_lock(alloc, locks, unit, entry)
}

/// The locks of each unit that has a user, in the order of their rows.
fn locks_of(
    alloc: Global,
    users: &HashMap<UnitId, Name>,
    locks: &[Record],
) -> Result<HashMap<UnitId, Vec<Entry>>, NoMemory>
    ensures { IfOk result
        (λ lists. (headers : List Record) → AreUsers users.now headers → AreEntries lists headers locks.now) }
{
    let mut lists = HashMap::new(alloc);
    for stored in locks {
        add_lock(alloc, &mut lists, users, stored)?;
    }
    Ok(lists)
}

fn entries_for<'a>(locks: &'a HashMap<UnitId, Vec<Entry>>, key: &UnitKey) -> &'a [Entry]
    ensures { result.now ≡ entries_for locks.now key.now }
{
    match locks.get(&id_of(key)) {
        Some(list) => list.as_slice(),
        None => &[],
    }
}

fn copy_effects(alloc: Global, effects: &[Effect]) -> Result<Vec<Effect>, NoMemory>
    ensures { IfOk result (λ copies. copies.items ≡ effects.now) }
{
    let mut copies = Vec::new(alloc);
    for effect in effects {
        copies.push(effect.copy(alloc)?)?;
    }
    Ok(copies)
}

/// The unit that a mark records.
fn key_in(stored: &Record) -> Option<UnitKey>
    ensures { result ≡ key_in stored.now }
{
    match stored {
        Record::Mark(mark) if matches!(mark.kind, MarkKind::Rec) => Some(mark.unit),
        _ => None,
    }
}

/// The unit of a key that has a user.
fn unit_for(
    alloc: Global,
    headers: &[Record],
    told: &UnitsTold,
    key: &UnitKey,
    user: Name,
) -> Result<Unit, NoMemory>
    requires user { get same_id told.now.users (id_of key.now) ≡ Some user }
    ensures { IfOk result
        (λ unit. (steps locks : List Record) → AreUnitsTold told.now headers.now steps locks
        → unit ≡ unit_in headers.now steps locks key.now) }
{
    let numbers = numbers_there(headers, place_of(&told.places, key));
    Ok(Unit {
        key: *key,
        user,
        numbers: Items::from_vec(Vec::from_slice(alloc, numbers)?),
        parts: Parts {
            v1: Items::from_vec(copy_effects(alloc, effects_for(&told.parts, key, 1))?),
            v2: Items::from_vec(copy_effects(alloc, effects_for(&told.parts, key, 2))?),
        },
        entries: Items::from_vec(Vec::from_slice(alloc, entries_for(&told.locks, key))?),
    })
}

fn units_told(
    alloc: Global,
    headers: &[Record],
    steps: &[Record],
    locks: &[Record],
) -> Result<UnitsTold, NoMemory>
    ensures { IfOk result (λ told. AreUnitsTold told headers.now steps.now locks.now) }
{
    let users = users_of(alloc, headers)?;
    let locks = locks_of(alloc, &users, locks)?;
    Ok(UnitsTold {
        users,
        places: places_of(alloc, headers)?,
        parts: parts_of(alloc, steps)?,
        locks,
    })
}

/// The units that the marks record, in order, each with what its rows tell.
pub fn units_in(alloc: Global, records: &StoredRecords) -> Result<Vec<Unit>, NoMemory>
    requires headers { (key : UnitKey) → is_recorded (records_in records.now 4) key ≡ true
        → IsSome (find (is_header key) (records_in records.now 1)) }
    ensures { IfOk result (λ units. units.items ≡ units_in records.now) }
{
    let headers = records.table(tables::HEADERS);
    let told = units_told(
        alloc,
        headers,
        records.table(tables::STEPS),
        records.table(tables::LOCKS),
    )?;
    let mut units = Vec::new(alloc);
    for stored in records.table(tables::MARKS) {
        if let Some(key) = key_in(stored) {
            let Some(user) = told.users.get(&id_of(&key)).copied() else {
                unreachable!();
            };
            units.push(unit_for(alloc, headers, &told, &key, user)?)?;
        }
    }
    Ok(units)
}

/// The marks of a store, in order.
pub fn marks_in(alloc: Global, records: &StoredRecords) -> Result<Vec<Mark>, NoMemory>
    ensures { IfOk result (λ marks. marks.items ≡ marks_in (records_in records.now 4)) }
{
    let mut marks = Vec::new(alloc);
    for stored in records.table(tables::MARKS) {
        if let Record::Mark(mark) = stored {
            marks.push(mark.copy(alloc)?)?;
        }
    }
    Ok(marks)
}
