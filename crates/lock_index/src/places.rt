ghost use Rattle.std.specs.Prelude.{◌≡◌, ℕ, Bool, IfOk, nat_eq, filter};
ghost use Rattle.std.specs.List.{IsDistinct, filter_map, list_any};
ghost use Rattle.std.specs.List.Sorted.{IsNonDecreasing, IsPermutation};
ghost use Rattle.lock_entry.specs.declared.entry.Entry.{Entry};
ghost use Rattle.lock_index.specs.Slots.{slot_at, live, on_some};

use crate::looking::slot;
use enq_base::NoMemory;
use lock_entry::Entry;
use std::alloc::{AllocError, Global};

/// The entries at the places, in order of granting. The places are sorted for it.
pub fn entries_at(
    alloc: Global,
    slots: &[Option<Entry>],
    places: &[usize],
) -> Result<Vec<Entry>, NoMemory>
    ensures { IfOk result
        (λ v. (q : Entry → Bool) → IsDistinct nat_eq places.now
        → ((i : ℕ) → list_any (nat_eq i) places.now ≡ on_some q (slot_at slots.now i))
        → v.items ≡ filter q (live slots.now)) }
{
    let sorted = sorted(alloc, places)?;
    Ok(read(alloc, slots, sorted.as_slice())?)
}

/// The same numbers, the lowest first.
fn sorted(alloc: Global, numbers: &[usize]) -> Result<Vec<usize>, AllocError>
    ensures moved { IfOk result (λ v. IsPermutation numbers.now v.items) }
    ensures rising { IfOk result (λ v. IsNonDecreasing v.items) }
{
    let mut list = Vec::from_slice(alloc, numbers)?;
    list.sort_unstable();
    Ok(list)
}

/// What stands at the places, in their order.
fn read(alloc: Global, slots: &[Option<Entry>], places: &[usize]) -> Result<Vec<Entry>, AllocError>
    ensures { IfOk result (λ v. v.items ≡ filter_map (slot_at slots.now) places.now) }
{
    places
        .iter()
        .filter_map(|place| slot(slots, *place))
        .collect(alloc)
}
