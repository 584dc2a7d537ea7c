ghost use Rattle.std.specs.Prelude.{◌≡◌, IfOk, false, not, count_by};
ghost use Rattle.std.specs.List.{filter};
ghost use Rattle.enq_base.specs.declared.owner.Owner.TheVariants.{Upd};
ghost use Rattle.lock_entry.specs.Freeing as freeing;
ghost use Rattle.lock_entry.specs.Names.{is_of};
ghost use Rattle.lock_index.specs.Keys.{has_key};
ghost use Rattle.lock_index.specs.Slots.{live, is_lengths};

use crate::key::{Key, optimistic_key_of, owner_key};
use crate::shelf::Shelf;
use enq_base::{NoMemory, Owner, UnitKey};
use lock_entry::Entry;
use std::alloc::Global;

/// Takes out all entries with the key.
fn clear_all(shelf: &mut Shelf, key: &Key)
    requires { is_lengths key.now ≡ false }
    ensures { live shelf.new ≡ filter (λ e. not (has_key key.now e)) (live shelf.old) }
{
    'clearing: while let Some((place, entry)) = shelf.any_of(key) {
        shelf.clear(place, &entry);
    }
}

/// The owner's entries, in order of granting.
pub fn entries_of(alloc: Global, shelf: &Shelf, owner: &Owner) -> Result<Vec<Entry>, NoMemory>
    ensures { IfOk result (λ v. v.items ≡ filter (is_of owner.now) (live shelf.now)) }
{
    shelf.entries_of(alloc, &owner_key(owner))
}

/// Whether the owner has an entry that wasn't handed over.
pub fn has_unhanded(shelf: &Shelf, owner: &Owner) -> bool
    ensures { result ≡ freeing.has_unhanded owner.now (live shelf.now) }
{
    shelf.has_unhanded(&owner_key(owner))
}

/// Takes out the owner's entries. Tells how many there were.
pub fn free_owner(shelf: &mut Shelf, owner: &Owner) -> usize
    ensures count { result ≡ count_by (is_of owner.now) (live shelf.old) }
    ensures after { live shelf.new ≡ freeing.freed_owner (live shelf.old) owner.now }
{
    let key = owner_key(owner);
    let count = shelf.count_of(&key);
    clear_all(shelf, &key);
    count
}

/// Flags the unit's S, E and X entries as handed, and takes out its O entries. Tells how many entries it had.
pub fn hand(shelf: &mut Shelf, unit: &UnitKey) -> usize
    ensures count { result ≡ count_by (is_of (Upd unit.now)) (live shelf.old) }
    ensures after { live shelf.new ≡ freeing.handed_over (live shelf.old) unit.now }
{
    let key = owner_key(&Owner::Upd(*unit));
    let count = shelf.count_of(&key);
    clear_all(shelf, &optimistic_key_of(unit));
    shelf.flag_all(&key);
    count
}
