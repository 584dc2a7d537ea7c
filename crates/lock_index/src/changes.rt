ghost use Rattle.std.specs.Prelude.{◌≡◌, ◌≤◌, ◌+◌, ◌++◌, suc, OnOk, OnErr, IfSome, IfNone, false, None, Some, IsTrue, length, map, filter, not, min, nat_eq, cond, ℕ, take, drop, slice_set};
ghost use Rattle.std.specs.List.{list_all, list_any};
ghost use Rattle.lock_entry.specs.Names as spec;
ghost use Rattle.lock_entry.specs.Freeing as freeing;
ghost use Rattle.lock_index.specs.Granted as granted;
ghost use Rattle.lock_index.specs.Keys.{has_key};
ghost use Rattle.lock_entry.specs.Turning as turning;
ghost use Rattle.lock_entry.specs.declared.entry.Entry.{Entry};
ghost use Rattle.lock_index.specs.Slots.{slot_at, live, is_lengths, IsFirst};

use crate::finding::{name_in, stands};
use crate::key::{Key, owner_key};
use crate::lists::{live_entries, shelf_of};
use crate::shelf::Shelf;
use enq_base::{NoMemory, Owner};
use lock_entry::{Asked, Entry, LockName, Mode};
use std::alloc::Global;

/// So many empty places are never worth a walk.
const LEAST_PLACES: usize = 64;

const MOST: u16 = 9999;

/// Takes out what stands at the place, if anything does.
fn clear_at(shelf: &mut Shelf, place: usize)
    ensures { shelf.new ≡ slice_set shelf.old place None }
{
    match shelf.entry(place) {
        Some(entry) => shelf.clear(place, &entry),
        None => {}
    }
}

/// Takes out what stands at the places.
pub fn clear_places(shelf: &mut Shelf, places: &[usize])
    ensures long { length shelf.new ≡ length shelf.old }
    ensures cleared { (i : ℕ) → slot_at shelf.new i ≡ cond (list_any (nat_eq i) places.now) None (slot_at shelf.old i) }
{
    for place in places {
        clear_at(shelf, *place);
    }
}

/// Takes out what stands at this place and behind it.
fn clear_from(shelf: &mut Shelf, start: usize)
    requires { start ≤ length shelf.old }
    ensures { live shelf.new ≡ live (take start shelf.old) }
{
    for place in start..shelf.slots().len() {
        clear_at(shelf, place);
    }
}

/// Puts the entries last, all or none. Where most places are empty, the others are moved together first.
pub fn append(alloc: Global, shelf: &mut Shelf, added: &[Entry]) -> Result<(), NoMemory>
    ensures added { OnOk result (live shelf.new ≡ live shelf.old ++ added.now) }
    ensures unchanged { OnErr result (live shelf.new ≡ live shelf.old) }
{
    make_dense(alloc, shelf)?;
    push_all(alloc, shelf, added)
}

/// Puts the entries last, in place of those of the owner, all or none.
pub fn replace(
    alloc: Global,
    shelf: &mut Shelf,
    owner: &Owner,
    given: &[Entry],
) -> Result<(), NoMemory>
    ensures replaced { OnOk result (live shelf.new ≡ freeing.freed_owner (live shelf.old) owner.now ++ given.now) }
    ensures unchanged { OnErr result (live shelf.new ≡ live shelf.old) }
{
    make_dense(alloc, shelf)?;
    swap(alloc, shelf, &owner_key(owner), given)
}

/// Puts the entries last, in place of those with the key, all or none.
fn swap(alloc: Global, shelf: &mut Shelf, key: &Key, given: &[Entry]) -> Result<(), NoMemory>
    requires { is_lengths key.now ≡ false }
    ensures replaced { OnOk result
        (live shelf.new ≡ filter (λ e. not (has_key key.now e)) (live shelf.old) ++ given.now) }
    ensures unchanged { OnErr result (live shelf.new ≡ live shelf.old) }
{
    let places = Vec::from_slice(alloc, shelf.places_of(key))?;
    push_all(alloc, shelf, given)?;
    clear_places(shelf, places.as_slice());
    Ok(())
}

/// Where most places are empty, the entries are moved together.
fn make_dense(alloc: Global, shelf: &mut Shelf) -> Result<(), NoMemory>
    ensures { live shelf.new ≡ live shelf.old }
{
    if is_sparse(shelf) {
        pack(alloc, shelf)?;
    }
    Ok(())
}

fn is_sparse(shelf: &Shelf) -> bool {
    shelf.slots().len() / 2 > shelf.len().saturating_add(LEAST_PLACES)
}

/// Moves the entries together.
fn pack(alloc: Global, shelf: &mut Shelf) -> Result<(), NoMemory>
    ensures { live shelf.new ≡ live shelf.old }
{
    let list = live_entries(alloc, shelf.slots())?;
    let packed = shelf_of(alloc, list.as_slice())?;
    *shelf = packed;
    Ok(())
}

/// Puts the entries last, all or none.
fn push_all(alloc: Global, shelf: &mut Shelf, added: &[Entry]) -> Result<(), NoMemory>
    ensures pushed { OnOk result (shelf.new ≡ shelf.old ++ map (λ (e : Entry). Some e) added.now) }
    ensures added { OnOk result (live shelf.new ≡ live shelf.old ++ added.now) }
    ensures unchanged { OnErr result (live shelf.new ≡ live shelf.old) }
{
    let start = shelf.slots().len();
    for entry in added {
        match shelf.push(alloc, entry) {
            Ok(()) => {}
            Err(error) => {
                clear_from(shelf, start);
                return Err(error);
            }
        }
    }
    Ok(())
}

/// The entry of this name, and its place.
pub fn named(shelf: &Shelf, name: &LockName) -> Option<(usize, Entry)>
    ensures none { IfNone result (spec.stands (live shelf.now) name.now ≡ false) }
    ensures some { IfSome result (λ p. IsFirst (spec.has_name name.now) shelf.now p.0 p.1) }
{
    match shelf.place_of(name) {
        Some(place) => match shelf.entry(place) {
            Some(entry) => Some((place, entry)),
            None => None,
        },
        None => None,
    }
}

/// The entry of this name rises by one.
fn raise(shelf: &mut Shelf, name: &LockName)
    requires { IsTrue (spec.has_distinct_names (live shelf.old)) }
    ensures { live shelf.new ≡ map (granted.risen name.now) (live shelf.old) }
{
    match named(shelf, name) {
        Some((place, entry)) => shelf.recount(place, &entry, entry.count.saturating_add(1)),
        None => {}
    }
}

/// Each name raises its entry by one.
pub fn raise_all(shelf: &mut Shelf, names: &[LockName])
    requires small { IsTrue (list_all granted.is_small (live shelf.old)) }
    requires distinct { IsTrue (spec.has_distinct_names (live shelf.old)) }
    ensures { live shelf.new ≡ map (granted.all_risen names.now) (live shelf.old) }
{
    for name in names {
        raise(shelf, name);
    }
}

/// The entry of this name takes the other's count, up to 9,999.
fn join(shelf: &mut Shelf, name: &LockName, other: &Entry)
    requires { IsTrue (spec.has_distinct_names (live shelf.old)) }
    ensures { live shelf.new ≡ map (turning.joined name.now other.now) (live shelf.old) }
{
    match named(shelf, name) {
        Some((place, entry)) => shelf.recount(place, &entry, sum(entry.count, other.count)),
        None => {}
    }
}

fn sum(count: u16, more: u16) -> u16
    ensures { result ≡ min 9999 (count + more) }
{
    count.saturating_add(more).min(MOST)
}

/// Turns the owner's O entry at the table and the argument into an E entry, or, where the owner has that already, adds
/// its count there, up to 9,999, and takes it out. It takes no memory.
pub fn turn(shelf: &mut Shelf, owner: &Owner, asked: &Asked)
    requires { IsTrue (spec.has_distinct_names (live shelf.old)) }
    ensures turned { live shelf.new ≡ turning.turned (live shelf.old)
        (turning.is_at owner.now asked.now.table asked.now.pattern) }
    ensures distinct { IsTrue (spec.has_distinct_names (live shelf.new)) }
{
    let optimistic = name_in(Mode::O, owner, asked);
    let exclusive = name_in(Mode::E, owner, asked);
    let Some((place, entry)) = named(shelf, &optimistic) else {
        return;
    };
    if stands(shelf, &exclusive) {
        shelf.clear(place, &entry);
        join(shelf, &exclusive, &entry);
    } else {
        shelf.make_exclusive(place, &entry);
    }
}

/// Takes one from the entry of this name, which goes at 0. Tells whether it stood.
pub fn free_one(shelf: &mut Shelf, name: &LockName) -> bool
    ensures stood { result ≡ spec.stands (live shelf.old) name.now }
    ensures after { live shelf.new ≡ freeing.freed (live shelf.old) name.now }
{
    match named(shelf, name) {
        Some((place, entry)) => {
            lower(shelf, place, &entry);
            true
        }
        None => false,
    }
}

fn lower(shelf: &mut Shelf, place: usize, entry: &Entry)
    requires { slot_at shelf.old place ≡ Some entry.now }
    ensures { live shelf.new ≡ live
        (take place shelf.old) ++ (freeing.lowered entry.now ++ live (drop (suc place) shelf.old)) }
{
    if entry.count <= 1 {
        shelf.clear(place, entry);
    } else {
        shelf.recount(place, entry, entry.count - 1);
    }
}
