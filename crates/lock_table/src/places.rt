ghost use Rattle.std.specs.Prelude.{◌≡◌, ◌<◌, ◌++◌, suc, length, take, drop, count_by, slice_index_or, IfOk};
ghost use Rattle.std.specs.List.{filter};
ghost use Rattle.lock_entry.specs.Names.{count_at, is_of, stands};
ghost use Rattle.lock_entry.specs.Freeing.{freed, has_unhanded, lowered};
ghost use Rattle.lock_entry.specs.Table.{entry_at};
ghost use Rattle.lock_entry.specs.declared.entry.Entry.{Entry};

use enq_base::Owner;
use lock_entry::{Entry, LockName, find_entry, place_of};
use std::alloc::{AllocError, Global};

/// How many entries the owner has.
pub fn count_of(entries: &[Entry], owner: &Owner) -> usize
    ensures { result ≡ count_by (is_of owner.now) entries.now }
{
    entries.iter().filter(|e| e.is_of(owner)).count()
}

/// The owner's entries, in order.
pub fn entries_of(alloc: Global, entries: &[Entry], owner: &Owner) -> Result<Vec<Entry>, AllocError>
    ensures { IfOk result (λ v. v.items ≡ filter (is_of owner.now) entries.now) }
{
    entries
        .iter()
        .filter(|e| e.is_of(owner))
        .copied()
        .collect(alloc)
}

/// Whether the owner has an entry that wasn't handed over.
pub fn has_unhanded(entries: &[Entry], owner: &Owner) -> bool
    ensures { result ≡ has_unhanded owner.now entries.now }
{
    entries.iter().any(|e| e.is_of(owner) && !e.handed)
}

/// The count of the entry of this name, or 0.
pub fn count_at(entries: &[Entry], name: &LockName) -> u16
    ensures { result ≡ count_at entries.now name.now }
{
    match find_entry(entries, name) {
        Some(entry) => entry.count,
        None => 0,
    }
}

/// The entry at this place, counted from 1.
pub fn entry_at(entries: &[Entry], place: u32) -> Option<Entry>
    ensures { result ≡ entry_at entries.now place }
{
    if place == 0 {
        return None;
    }
    entries.get(place as usize - 1).copied()
}

/// Takes one from the entry of this name, which goes at 0. Tells whether it stood.
pub fn free_one(entries: &mut Vec<Entry>, name: &LockName) -> bool
    ensures stood { result ≡ stands entries.old.items name.now }
    ensures after { entries.new.items ≡ freed entries.old.items name.now }
{
    match place_of(entries.as_slice(), name) {
        Some(place) => {
            lower_at(entries, place);
            true
        }
        None => false,
    }
}

/// Takes one from the entry at the place, which goes at 0.
fn lower_at(entries: &mut Vec<Entry>, place: usize)
    requires { place < length entries.old.items }
    ensures { (d : Entry)
        → entries.new.items ≡ take place
        entries.old.items ++ (lowered (slice_index_or entries.old.items place d) ++ drop (suc place)
        entries.old.items) }
{
    let entry = entries[place];
    if entry.count <= 1 {
        let _ = entries.remove(place);
    } else {
        entries[place] = Entry {
            count: entry.count - 1,
            ..entry
        };
    }
}
