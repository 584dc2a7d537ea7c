ghost use Rattle.std.specs.Prelude.{◌≡◌, ◌<◌, ◌≤◌, length, vec_len, IfSome, map};
ghost use Rattle.std.specs.List as lists;
ghost use Rattle.std.specs.Vec.{vec_capacity};
ghost use Rattle.lock_entry.specs.Names as names;
ghost use Rattle.lock_entry.specs.Freeing as freeing;
ghost use Rattle.lock_entry.specs.Turning as turning;

use crate::entry::{Asked, Entry, LockName};
use enq_base::{Name, Owner, Pattern, UnitKey};
use mode_rules::Mode;

const MOST: u16 = 9999;

/// Whether an entry of this name stands.
pub fn stands(entries: &[Entry], name: &LockName) -> bool
    ensures { result ≡ names.stands entries.now name.now }
{
    entries.iter().any(|e| e.has_name(name))
}

/// Where the entry of this name stands, from 0.
pub fn place_of(entries: &[Entry], name: &LockName) -> Option<usize>
    ensures place { result ≡ lists.position (names.has_name name.now) entries.now }
    ensures within { IfSome result (λ i. i < length entries.now) }
{
    entries.iter().position(|e| e.has_name(name))
}

/// The entry of this name.
pub fn find_entry(entries: &[Entry], name: &LockName) -> Option<Entry>
    ensures { result ≡ lists.find (names.has_name name.now) entries.now }
{
    match place_of(entries, name) {
        Some(place) => Some(entries[place]),
        None => None,
    }
}

/// Removes the owner's entries. It takes no memory, as none of these functions does.
pub fn free_owner(entries: &mut Vec<Entry>, owner: &Owner)
    ensures after { entries.new.items ≡ freeing.freed_owner entries.old.items owner.now }
    ensures fewer { vec_len entries.new ≤ vec_len entries.old }
    ensures room { vec_capacity entries.new ≡ vec_capacity entries.old }
{
    entries.retain(|e| !e.is_of(owner));
}

/// Removes the entry of this name.
pub fn drop_entry(entries: &mut Vec<Entry>, name: &LockName)
    ensures { entries.new.items ≡ freeing.without entries.old.items name.now }
{
    entries.retain(|e| !e.has_name(name));
}

/// Flags the unit's S, E and X entries as handed, and removes its O entries.
pub fn hand_over(entries: &mut Vec<Entry>, unit: &UnitKey)
    ensures { entries.new.items ≡ freeing.handed_over entries.old.items unit.now }
{
    let owner = Owner::Upd(*unit);
    drop_optimistic(entries, &owner);
    flag_all(entries.as_mut_slice(), &owner);
}

fn drop_optimistic(entries: &mut Vec<Entry>, owner: &Owner)
    ensures { entries.new.items ≡ freeing.without_optimistic entries.old.items owner.now }
{
    entries.retain(|e| !(e.is_of(owner) && e.mode.is(Mode::O)));
}

fn flag_all(entries: &mut [Entry], owner: &Owner)
    ensures { entries.new ≡ map (freeing.flagged owner.now) entries.old }
{
    for e in entries.iter_mut() {
        flag(e, owner);
    }
}

fn flag(entry: &mut Entry, owner: &Owner)
    ensures { entry.new ≡ freeing.flagged owner.now entry.old }
{
    if entry.is_of(owner) {
        entry.handed = true;
    }
}

/// Turns the owner's O entry at this table and argument into an E entry, or, where the owner has that already, adds its
/// count there, up to 9,999, and removes it.
pub fn turn(entries: &mut Vec<Entry>, owner: &Owner, table: &Name, pattern: &Pattern)
    ensures { entries.new.items ≡ turning.turned entries.old.items (turning.is_at owner.now table.now pattern.now) }
{
    let optimistic = name_at(Mode::O, owner, table, pattern);
    let exclusive = name_at(Mode::E, owner, table, pattern);
    let Some(entry) = find_entry(entries.as_slice(), &optimistic) else {
        return;
    };
    if stands(entries.as_slice(), &exclusive) {
        drop_entry(entries, &optimistic);
        add_counts(entries.as_mut_slice(), &exclusive, &entry);
    } else {
        set_exclusive(entries.as_mut_slice(), &optimistic);
    }
}

fn name_at(mode: Mode, owner: &Owner, table: &Name, pattern: &Pattern) -> LockName
    ensures { result ≡ turning.name_at mode owner.now table.now pattern.now }
{
    LockName {
        owner: *owner,
        asked: Asked {
            table: *table,
            pattern: *pattern,
            mode,
        },
    }
}

fn add_counts(entries: &mut [Entry], name: &LockName, other: &Entry)
    ensures { entries.new ≡ map (turning.joined name.now other.now) entries.old }
{
    for e in entries.iter_mut() {
        add_count(e, name, other);
    }
}

fn add_count(entry: &mut Entry, name: &LockName, other: &Entry)
    ensures { entry.new ≡ turning.joined name.now other.now entry.old }
{
    if entry.has_name(name) {
        entry.count = entry.count.saturating_add(other.count).min(MOST);
    }
}

fn set_exclusive(entries: &mut [Entry], name: &LockName)
    ensures { entries.new ≡ map (turning.made_exclusive name.now) entries.old }
{
    for e in entries.iter_mut() {
        make_exclusive(e, name);
    }
}

fn make_exclusive(entry: &mut Entry, name: &LockName)
    ensures { entry.new ≡ turning.made_exclusive name.now entry.old }
{
    if entry.has_name(name) {
        entry.mode = Mode::E;
    }
}
