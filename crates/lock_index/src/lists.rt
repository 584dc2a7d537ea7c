ghost use Rattle.std.specs.Prelude.{◌≡◌, ◌++◌, [], IfOk, IsTrue, OnOk, length, slice_get};
ghost use Rattle.std.specs.List.{cons_option};
ghost use Rattle.lock_entry.specs.Table.{entry_at};
ghost use Rattle.lock_index.specs.Slots.{live};

use crate::shelf::Shelf;
use enq_base::NoMemory;
use lock_entry::Entry;
use std::alloc::Global;

/// The entries that stand, in order.
pub fn live_entries(alloc: Global, slots: &[Option<Entry>]) -> Result<Vec<Entry>, NoMemory>
    ensures { IfOk result (λ v. v.items ≡ live slots.now) }
{
    let mut list = Vec::new(alloc);
    for slot in slots {
        push_slot(&mut list, slot)?;
    }
    Ok(list)
}

fn push_slot(list: &mut Vec<Entry>, slot: &Option<Entry>) -> Result<(), NoMemory>
    ensures { OnOk result (list.new.items ≡ list.old.items ++ cons_option slot.now []) }
{
    match slot {
        Some(entry) => {
            list.push(*entry)?;
        }
        None => {}
    }
    Ok(())
}

/// The entry at this place, counted from 1 over those that stand.
pub fn entry_at(shelf: &Shelf, place: u32) -> Option<Entry>
    ensures { result ≡ entry_at (live shelf.now) place }
{
    if place == 0 {
        return None;
    }
    entry_behind(shelf, place as usize - 1)
}

/// The entry behind so many others. Only where places are empty it is walked to.
fn entry_behind(shelf: &Shelf, count: usize) -> Option<Entry>
    ensures { result ≡ slice_get (live shelf.now) count }
{
    if is_dense(shelf) {
        shelf.entry(count)
    } else {
        nth(shelf.slots(), count)
    }
}

/// Whether no place is empty.
fn is_dense(shelf: &Shelf) -> bool
    ensures { IsTrue result → length (live shelf.now) ≡ length shelf.now }
{
    shelf.len() == shelf.slots().len()
}

fn nth(slots: &[Option<Entry>], count: usize) -> Option<Entry>
    ensures { result ≡ slice_get (live slots.now) count }
{
    let mut left = count;
    for slot in slots {
        match slot {
            Some(entry) => {
                if left == 0 {
                    return Some(*entry);
                }
                left -= 1;
            }
            None => {}
        }
    }
    None
}

/// A shelf of just these entries.
pub fn shelf_of(alloc: Global, entries: &[Entry]) -> Result<Shelf, NoMemory>
    ensures { IfOk result (λ s. live s ≡ entries.now) }
{
    let mut shelf = Shelf::new(alloc);
    for entry in entries {
        shelf.push(alloc, entry)?;
    }
    Ok(shelf)
}
