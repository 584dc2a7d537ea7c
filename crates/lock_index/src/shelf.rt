ghost use Rattle.std.specs.Prelude.{◌≡◌, ◌||◌, ◌&&◌, not, nat_eq, ◌++◌, ◌∷◌, [], None, Some, ℕ, true, false, IfOk, IfSome, IfNone, OnOk, OnErr, count_by, length, map, option_copied, slice_set};
ghost use Rattle.std.specs.List.{filter, list_any, position};
ghost use Rattle.mode_rules.specs.declared.Mode.TheVariants.{E, O};
ghost use Rattle.lock_entry.specs.Names as names;
ghost use Rattle.lock_entry.specs.declared.entry.Entry.{Entry};
ghost use Rattle.lock_index.specs.Searches as searches;
ghost use Rattle.indexmap.specs.IndexSet.{contains};
ghost use Rattle.lock_index.specs.Slots.{slot_at, live, on_some, is_lengths, flag_slot};
ghost use Rattle.lock_index.specs.Keys.{has_key};

use crate::key::Key;
use crate::looking;
use crate::members::{NumberMap, members, no_numbers};
use crate::notes::{forget, forget_optimistic, note};
use crate::places::entries_at;
use crate::search::Search;
use enq_base::NoMemory;
use indexmap::IndexSet;
use lock_entry::{Entry, LockName, Mode};
use std::alloc::Global;
use std::marker::Model;

/// Entries at places in order of granting, of which those that went are empty, and what they are found by.
#[derive(Drop)]
pub struct Shelf {
    slots: Vec<Option<Entry>>,
    map: NumberMap,
    len: usize,
}

impl Model for Shelf {
    ghost use Rattle.std.specs.Prelude.{List, Option};
    ghost use Rattle.lock_entry.specs.declared.entry.Entry.{Entry};
    ghost use Rattle.lock_index.specs.Slots.{IsShelf};

    ghost Value = { List (Option Entry) };

    ghost view = { λ s. s.slots.items };

    ghost invariant = { λ s. IsShelf s.slots.items s.map s.len };
}

impl Shelf {
    /// No entry. It takes no memory.
    pub fn new(alloc: Global) -> Shelf
        ensures { result ≡ [] }
    {
        Shelf {
            slots: Vec::new(alloc),
            map: no_numbers(alloc),
            len: 0,
        }
    }

    /// How many entries stand.
    pub fn len(&self) -> usize
        ensures { result ≡ length (live self.now) }
    {
        self.len
    }

    /// The places, also the empty ones.
    pub fn slots(&self) -> &[Option<Entry>]
        ensures { result.now ≡ self.now }
    {
        self.slots.as_slice()
    }

    /// The entry at the place.
    pub fn entry(&self, place: usize) -> Option<Entry>
        ensures { result ≡ slot_at self.now place }
    {
        looking::slot(self.slots.as_slice(), place)
    }

    /// The entry at the place, where it stands.
    pub fn standing(&self, place: usize) -> Option<&Entry>
        ensures { option_copied result ≡ slot_at self.now place }
    {
        looking::standing(self.slots.as_slice(), place)
    }

    /// The place of the oldest entry that is looked for.
    pub fn oldest(&self, search: &Search) -> Option<usize>
        ensures { result ≡ position (on_some (searches.finds search.now)) self.now }
    {
        looking::oldest(self.slots.as_slice(), &self.map, search)
    }

    /// Puts the places of all entries that are looked for among those found.
    pub fn add_found(&self, search: &Search, found: &mut IndexSet<usize>) -> Result<(), NoMemory>
        ensures { OnOk result
            ((i : ℕ) → contains nat_eq found.new
            i ≡ (contains nat_eq found.old i || on_some (searches.finds search.now) (slot_at self.now i))) }
    {
        looking::add_found(self.slots.as_slice(), &self.map, search, found)
    }

    /// The place of the entry of this name.
    pub fn place_of(&self, name: &LockName) -> Option<usize>
        ensures { result ≡ position (on_some (names.has_name name.now)) self.now }
    {
        looking::place_of(self.slots.as_slice(), &self.map, name)
    }

    /// Some entry with the key, and its place.
    pub fn any_of(&self, key: &Key) -> Option<(usize, Entry)>
        requires { is_lengths key.now ≡ false }
        ensures none { IfNone result ((i : ℕ) → on_some (has_key key.now) (slot_at self.now i) ≡ false) }
        ensures stands { IfSome result (λ p. slot_at self.now p.0 ≡ Some p.1) }
        ensures passes { IfSome result (λ p. has_key key.now p.1 ≡ true) }
    {
        looking::any_of(self.slots.as_slice(), &self.map, key)
    }

    /// How many entries have the key.
    pub fn count_of(&self, key: &Key) -> usize
        requires { is_lengths key.now ≡ false }
        ensures { result ≡ count_by (has_key key.now) (live self.now) }
    {
        members(&self.map, key).len()
    }

    /// Whether an entry with the key wasn't handed over.
    pub fn has_unhanded(&self, key: &Key) -> bool
        requires { is_lengths key.now ≡ false }
        ensures { result ≡ list_any (λ e. has_key key.now e && not e.handed) (live self.now) }
    {
        looking::has_unhanded(self.slots.as_slice(), members(&self.map, key))
    }

    /// Where the entries with the key stand, in no certain order.
    pub fn places_of(&self, key: &Key) -> &[usize]
        requires { is_lengths key.now ≡ false }
        ensures { (i : ℕ) → list_any (nat_eq i) result.now ≡ on_some (has_key key.now) (slot_at self.now i) }
    {
        members(&self.map, key)
    }

    /// The entries with the key, in order of granting.
    pub fn entries_of(&self, alloc: Global, key: &Key) -> Result<Vec<Entry>, NoMemory>
        requires { is_lengths key.now ≡ false }
        ensures { IfOk result (λ v. v.items ≡ filter (has_key key.now) (live self.now)) }
    {
        entries_at(alloc, self.slots.as_slice(), members(&self.map, key))
    }

    /// Puts an entry last.
    pub fn push(&mut self, alloc: Global, entry: &Entry) -> Result<(), NoMemory>
        ensures pushed { OnOk result (self.new ≡ self.old ++ Some entry.now ∷ []) }
        ensures unchanged { OnErr result (self.new ≡ self.old) }
    {
        let place = self.slots.len();
        self.slots.reserve(1)?;
        note(alloc, &mut self.map, entry, place)?;
        self.slots.push(Some(*entry))?;
        self.len += 1;
        Ok(())
    }

    /// Takes out the entry at the place. It takes no memory.
    pub fn clear(&mut self, place: usize, entry: &Entry)
        requires { slot_at self.old place ≡ Some entry.now }
        ensures { self.new ≡ slice_set self.old place None }
    {
        forget(&mut self.map, entry, place);
        self.slots[place] = None;
        self.len -= 1;
    }

    /// Writes the count of the entry at the place.
    pub fn recount(&mut self, place: usize, entry: &Entry, count: u16)
        requires { slot_at self.old place ≡ Some entry.now }
        ensures { self.new ≡ slice_set self.old place (Some (record entry.now { count = count })) }
    {
        self.slots[place] = Some(Entry { count, ..*entry });
    }

    /// Writes another entry of the same name over the one at the place. It takes no memory.
    pub fn rewrite(&mut self, place: usize, entry: &Entry, other: &Entry)
        requires stands { slot_at self.old place ≡ Some entry.now }
        requires same { names.has_name (names.name_of other.now) entry.now ≡ true }
        ensures { self.new ≡ slice_set self.old place (Some other.now) }
    {
        let _ = entry;
        self.slots[place] = Some(*other);
    }

    /// Makes the optimistic entry at the place exclusive. It takes no memory.
    pub fn make_exclusive(&mut self, place: usize, entry: &Entry)
        requires stands { slot_at self.old place ≡ Some entry.now }
        requires optimistic { entry.now.mode ≡ O }
        ensures { self.new ≡ slice_set self.old place (Some (record entry.now { mode = E })) }
    {
        forget_optimistic(&mut self.map, entry, place);
        self.slots[place] = Some(Entry {
            mode: Mode::E,
            ..*entry
        });
    }

    /// Flags the entries with the key as handed.
    pub fn flag_all(&mut self, key: &Key)
        requires { is_lengths key.now ≡ false }
        ensures { self.new ≡ map (flag_slot key.now) self.old }
    {
        looking::flag_places(&mut self.slots, members(&self.map, key));
    }
}
