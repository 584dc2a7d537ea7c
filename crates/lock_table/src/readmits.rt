ghost use Rattle.std.specs.Prelude.{◌≡◌, ◌≤◌, ◌++◌, length, map, cond, is_some, Some, None, IsTrue, IfOk, IfErr, OnOk, OnErr, Ok, Err};
ghost use Rattle.std.specs.List.{list_all};
ghost use Rattle.lock_entry.specs.Names.{asked_of, is_of};
ghost use Rattle.lock_entry.specs.Granting.{first_bar, newcomers, readmitted};
ghost use Rattle.lock_entry.specs.Freeing.{freed_owner};

use crate::asks::is_full;
use crate::halves::look;
use enq_base::{NoMemory, Owner};
use lock_entry::{AskFault, Asker, Entry, free_owner};

/// Why the given entries, which are the update owner's, may not be granted as they are in place of the ones it has.
pub fn test(limit: u32, entries: &[Entry], asker: &Asker, given: &[Entry]) -> Result<(), AskFault>
    requires within { length entries.now ≤ limit }
    requires owners { IsTrue (list_all (is_of asker.now.update) given.now) }
    ensures granted { OnOk result
        (readmitted (record { entries = entries.now; limit = limit }) asker.now given.now ≡ Ok
        (freed_owner entries.now asker.now.update ++ given.now)) }
    ensures refused { IfErr result
        (λ f. readmitted (record { entries = entries.now; limit = limit }) asker.now given.now ≡ Err f) }
{
    match count_new(entries, asker, given) {
        Err(entry) => Err(AskFault::Foreign(entry)),
        Ok(added) => {
            if is_full(limit, entries.len(), added) {
                return Err(AskFault::Full {
                    used: entries.len() as u32,
                    limit,
                });
            }
            Ok(())
        }
    }
}

/// How many of the given entries have new names, or else the oldest entry that bars the first that is barred.
fn count_new(entries: &[Entry], asker: &Asker, given: &[Entry]) -> Result<usize, Entry>
    requires { IsTrue (list_all (is_of asker.now.update) given.now) }
    ensures free { OnOk result (first_bar entries.now asker.now (map asked_of given.now) ≡ None) }
    ensures count { IfOk result (λ n. n ≡ length (newcomers entries.now given.now)) }
    ensures barred { IfErr result (λ e. first_bar entries.now asker.now (map asked_of given.now) ≡ Some e) }
{
    let mut added = 0;
    for e in given {
        match look(entries, asker, &e.asked()) {
            Err(entry) => return Err(entry),
            Ok(places) => added += one_unless(places.update),
        }
    }
    Ok(added)
}

fn one_unless(place: Option<usize>) -> usize
    ensures { result ≡ cond (is_some place) 0 1 }
{
    if place.is_some() { 0 } else { 1 }
}

/// The given entries go last, in place of those of the owner.
pub fn replace(entries: &mut Vec<Entry>, owner: &Owner, given: &[Entry]) -> Result<(), NoMemory>
    ensures replaced { OnOk result (entries.new.items ≡ freed_owner entries.old.items owner.now ++ given.now) }
    ensures unchanged { OnErr result (entries.new.items ≡ entries.old.items) }
{
    entries.reserve(given.len())?;
    free_owner(entries, owner);
    entries.extend_from_slice(given)?;
    Ok(())
}
