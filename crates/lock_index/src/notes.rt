ghost use Rattle.std.specs.Prelude.{◌≡◌, ◌++◌, ◌∷◌, [], List, Option, None, Some, OnOk, OnErr, length, slice_set};
ghost use Rattle.mode_rules.specs.declared.Mode.TheVariants.{E, O};
ghost use Rattle.lock_entry.specs.declared.entry.Entry.{Entry};
ghost use Rattle.lock_index.specs.Slots.{slot_at, IsShown};

use crate::key::{Key, keys_of, lengths_key, literal, optimistic_key_of};
use crate::members::{NumberMap, add, add_all, take, take_all};
use enq_base::{NoMemory, Owner};
use lock_entry::Entry;
use std::alloc::Global;

/// Notes an entry that goes last, at this place.
pub fn note(alloc: Global, map: &mut NumberMap, entry: &Entry, place: usize) -> Result<(), NoMemory>
    ensures noted { OnOk result
        ((slots : List (Option Entry)) → IsShown slots map.old → length slots ≡ place
        → IsShown (slots ++ Some entry.now ∷ []) map.new) }
    ensures unchanged { OnErr result
        ((slots : List (Option Entry)) → IsShown slots map.old → length slots ≡ place → IsShown slots map.new) }
{
    let keys = keys_of(entry);
    let lengths = lengths_key(&entry.table);
    add(alloc, map, &lengths, literal(&entry.pattern))?;
    match add_all(alloc, map, &keys, place) {
        Ok(()) => Ok(()),
        Err(error) => {
            take_all(map, &keys, place);
            Err(error)
        }
    }
}

/// Forgets the entry at this place. It takes no memory.
pub fn forget(map: &mut NumberMap, entry: &Entry, place: usize)
    ensures { (slots : List (Option Entry)) → IsShown slots map.old → slot_at slots place ≡ Some entry.now
        → IsShown (slice_set slots place None) map.new }
{
    take_all(map, &keys_of(entry), place);
}

/// Forgets that the entry at this place is optimistic. It takes no memory.
pub fn forget_optimistic(map: &mut NumberMap, entry: &Entry, place: usize)
    ensures { (slots : List (Option Entry)) → IsShown slots map.old → slot_at slots place ≡ Some entry.now
        → entry.now.mode ≡ O → IsShown (slice_set slots place (Some (record entry.now { mode = E }))) map.new }
{
    match &entry.owner {
        Owner::Dlg { .. } => {}
        Owner::Upd(unit) => take(map, &optimistic_key_of(unit), place),
    }
}
