ghost use Rattle.std.specs.Prelude.{◌≡◌, ◌||◌, ◌&&◌, ℕ, [], Some, None, OnOk, IfSome, IfNone, true, false, cond, nat_eq, length, option_copied};
ghost use Rattle.std.specs.List.{list_any, position};
ghost use Rattle.std.specs.Option.{option_map};
ghost use Rattle.lock_entry.specs.Names as names;
ghost use Rattle.lock_index.specs.Searches as searches;
ghost use Rattle.lock_index.specs.Slots.{slot_at, on_some, is_lengths, is_unhanded, handed, IsShown};
ghost use Rattle.lock_index.specs.Keys.{has_key};
ghost use Rattle.lock_index.specs.Members.{is_under};
ghost use Rattle.indexmap.specs.IndexSet.{contains};

use crate::key::{Key, lengths_key, literal, spot_key, stretch_key};
use crate::members::{NumberMap, members};
use crate::search::Search;
use enq_base::NoMemory;
use indexmap::IndexSet;
use lock_entry::{Entry, LockName};

/// The entry at the place.
pub fn slot(slots: &[Option<Entry>], place: usize) -> Option<Entry>
    ensures { result ≡ slot_at slots.now place }
{
    match slots.get(place) {
        Some(slot) => *slot,
        None => None,
    }
}

/// The entry at the place, where it stands.
pub fn standing(slots: &[Option<Entry>], place: usize) -> Option<&Entry>
    ensures { option_copied result ≡ slot_at slots.now place }
{
    match slots.get(place) {
        Some(Some(entry)) => Some(entry),
        _ => None,
    }
}

/// The place of the oldest entry that is looked for. It goes over the numbers of literal bytes that arguments of the
/// table have, and looks up the entries under each.
pub fn oldest(slots: &[Option<Entry>], map: &NumberMap, search: &Search) -> Option<usize>
    ensures { IsShown slots.now map.now → result ≡ position (on_some (searches.finds search.now)) slots.now }
{
    let lengths = members(map, &lengths_key(search.table()));
    oldest_over(slots, map, search, lengths)
}

/// The place of the entry of this name. It goes over the entries of the table with the same literal bytes.
pub fn place_of(slots: &[Option<Entry>], map: &NumberMap, name: &LockName) -> Option<usize>
    ensures { IsShown slots.now map.now → result ≡ position (on_some (names.has_name name.now)) slots.now }
{
    let pattern = &name.asked.pattern;
    let key = spot_key(&name.asked.table, pattern, literal(pattern));
    oldest_of(slots, members(map, &key), &Search::Named { name }, None)
}

fn oldest_over(
    slots: &[Option<Entry>],
    map: &NumberMap,
    search: &Search,
    lengths: &[usize],
) -> Option<usize>
    ensures { result ≡ searches.oldest_over slots.now map.now search.now None lengths.now }
{
    let mut best = None;
    for length in lengths {
        best = oldest_under(slots, map, search, *length, best);
    }
    best
}

fn oldest_under(
    slots: &[Option<Entry>],
    map: &NumberMap,
    search: &Search,
    count: usize,
    best: Option<usize>,
) -> Option<usize>
    ensures { result ≡ searches.oldest_under slots.now map.now search.now best
        (searches.candidates (searches.place_of search.now) count) }
{
    match candidates(search, count) {
        Some(key) => oldest_of(slots, members(map, &key), search, best),
        None => best,
    }
}

/// The key of the entries with so many literal bytes that may meet what is asked for.
fn candidates(search: &Search, count: usize) -> Option<Key>
    ensures { result ≡ searches.candidates (searches.place_of search.now) count }
{
    let pattern = search.pattern();
    if count > pattern.bytes().len() {
        return None;
    }
    if count <= literal(pattern) {
        return Some(spot_key(search.table(), pattern, count));
    }
    Some(stretch_key(search.table(), count))
}

fn oldest_of(
    slots: &[Option<Entry>],
    places: &[usize],
    search: &Search,
    best: Option<usize>,
) -> Option<usize>
    ensures { result ≡ searches.oldest_of slots.now search.now best places.now }
{
    let mut best = best;
    for place in places {
        best = earlier(best, is_found(slots, *place, search), *place);
    }
    best
}

fn is_found(slots: &[Option<Entry>], place: usize, search: &Search) -> bool
    ensures { result ≡ on_some (searches.finds search.now) (slot_at slots.now place) }
{
    match slots.get(place) {
        Some(Some(entry)) => search.finds(entry),
        _ => false,
    }
}

fn earlier(best: Option<usize>, found: bool, place: usize) -> Option<usize>
    ensures { result ≡ searches.earlier best found place }
{
    if !found {
        return best;
    }
    match best {
        Some(best) => Some(best.min(place)),
        None => Some(place),
    }
}

/// Puts the places of all entries that are looked for among those found.
pub fn add_found(
    slots: &[Option<Entry>],
    map: &NumberMap,
    search: &Search,
    found: &mut IndexSet<usize>,
) -> Result<(), NoMemory>
    ensures { OnOk result
        (IsShown slots.now map.now → (i : ℕ)
        → contains nat_eq found.new
        i ≡ (contains nat_eq found.old i || on_some (searches.finds search.now) (slot_at slots.now i))) }
{
    let lengths = members(map, &lengths_key(search.table()));
    add_found_over(slots, map, search, lengths, found)
}

fn add_found_over(
    slots: &[Option<Entry>],
    map: &NumberMap,
    search: &Search,
    lengths: &[usize],
    found: &mut IndexSet<usize>,
) -> Result<(), NoMemory>
    ensures { OnOk result
        ((i : ℕ) → contains nat_eq found.new
        i ≡ (contains nat_eq found.old
        i || (list_any (λ n. is_under map.now (searches.candidates (searches.place_of search.now) n) i)
        lengths.now && on_some (searches.finds search.now) (slot_at slots.now i)))) }
{
    for length in lengths {
        add_found_under(slots, map, search, *length, found)?;
    }
    Ok(())
}

fn add_found_under(
    slots: &[Option<Entry>],
    map: &NumberMap,
    search: &Search,
    count: usize,
    found: &mut IndexSet<usize>,
) -> Result<(), NoMemory>
    ensures { OnOk result
        ((i : ℕ) → contains nat_eq found.new
        i ≡ (contains nat_eq found.old
        i || (is_under map.now (searches.candidates (searches.place_of search.now) count) i && on_some
        (searches.finds search.now) (slot_at slots.now i)))) }
{
    match candidates(search, count) {
        Some(key) => add_found_of(slots, members(map, &key), search, found),
        None => Ok(()),
    }
}

fn add_found_of(
    slots: &[Option<Entry>],
    places: &[usize],
    search: &Search,
    found: &mut IndexSet<usize>,
) -> Result<(), NoMemory>
    ensures { OnOk result
        ((i : ℕ) → contains nat_eq found.new
        i ≡ (contains nat_eq found.old
        i || (list_any (nat_eq i) places.now && on_some (searches.finds search.now) (slot_at slots.now i)))) }
{
    for place in places {
        add_if(found, *place, is_found(slots, *place, search))?;
    }
    Ok(())
}

fn add_if(found: &mut IndexSet<usize>, place: usize, is_wanted: bool) -> Result<(), NoMemory>
    ensures { OnOk result
        ((i : ℕ) → contains nat_eq found.new i ≡ (contains nat_eq found.old i || (is_wanted && nat_eq i place))) }
{
    if is_wanted {
        found.insert(place)?;
        Ok(())
    } else {
        Ok(())
    }
}

/// Some entry with the key, and its place.
pub fn any_of(slots: &[Option<Entry>], map: &NumberMap, key: &Key) -> Option<(usize, Entry)>
    ensures none { IfNone result
        (IsShown slots.now map.now → is_lengths key.now ≡ false → (i : ℕ)
        → on_some (has_key key.now) (slot_at slots.now i) ≡ false) }
    ensures stands { IfSome result (λ p. slot_at slots.now p.0 ≡ Some p.1) }
    ensures passes { IfSome result
        (λ p. IsShown slots.now map.now → is_lengths key.now ≡ false → has_key key.now p.1 ≡ true) }
{
    match first_of(members(map, key)) {
        Some(place) => match slot(slots, place) {
            Some(entry) => Some((place, entry)),
            None => None,
        },
        None => None,
    }
}

fn first_of(places: &[usize]) -> Option<usize>
    ensures none { IfNone result (places.now ≡ []) }
    ensures some { IfSome result (λ i. list_any (nat_eq i) places.now ≡ true) }
{
    match places {
        [] => None,
        [place, ..] => Some(*place),
    }
}

/// Whether an entry at one of the places wasn't handed over.
pub fn has_unhanded(slots: &[Option<Entry>], places: &[usize]) -> bool
    ensures { result ≡ list_any (λ i. on_some is_unhanded (slot_at slots.now i)) places.now }
{
    places.iter().any(|place| is_unhanded(slots, *place))
}

fn is_unhanded(slots: &[Option<Entry>], place: usize) -> bool
    ensures { result ≡ on_some is_unhanded (slot_at slots.now place) }
{
    match slots.get(place) {
        Some(Some(entry)) => !entry.handed,
        _ => false,
    }
}

/// Flags the entries at the places as handed.
pub fn flag_places(slots: &mut Vec<Option<Entry>>, places: &[usize])
    ensures long { length slots.new.items ≡ length slots.old.items }
    ensures flagged { (i : ℕ)
        → slot_at slots.new.items i ≡ cond (list_any (nat_eq i) places.now)
        (option_map handed (slot_at slots.old.items i)) (slot_at slots.old.items i) }
{
    for place in places {
        flag_at(slots, *place);
    }
}

fn flag_at(slots: &mut Vec<Option<Entry>>, place: usize)
    ensures long { length slots.new.items ≡ length slots.old.items }
    ensures flagged { (i : ℕ)
        → slot_at slots.new.items i ≡ cond (nat_eq place i) (option_map handed (slot_at slots.old.items i))
        (slot_at slots.old.items i) }
{
    match slot(slots.as_slice(), place) {
        Some(entry) => {
            slots[place] = Some(handed(&entry));
        }
        None => {}
    }
}

fn handed(entry: &Entry) -> Entry
    ensures { result ≡ handed entry.now }
{
    Entry {
        handed: true,
        ..*entry
    }
}
