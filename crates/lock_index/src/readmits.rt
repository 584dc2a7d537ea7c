ghost use Rattle.std.specs.Prelude.{◌≡◌, ◌≤◌, ◌++◌, length, map, not, count_by, option_copied, IfErr, OnOk, Ok, Err};
ghost use Rattle.lock_entry.specs.Names.{asked_of};
ghost use Rattle.lock_entry.specs.Names as names;
ghost use Rattle.lock_entry.specs.Granting.{first_bar, newcomers, readmitted};
ghost use Rattle.lock_entry.specs.Freeing.{freed_owner};
ghost use Rattle.lock_index.specs.Slots.{live};

use crate::asks::is_full;
use crate::finding::{bar, stands};
use crate::shelf::Shelf;
use lock_entry::{AskFault, Asker, Entry};

/// Why the given entries may not be granted as they are in place of the ones that the update owner has.
pub fn test(limit: u32, shelf: &Shelf, asker: &Asker, given: &[Entry]) -> Result<(), AskFault>
    requires { length (live shelf.now) ≤ limit }
    ensures granted { OnOk result
        (readmitted (record { entries = live shelf.now; limit = limit }) asker.now given.now ≡ Ok
        (freed_owner (live shelf.now) asker.now.update ++ given.now)) }
    ensures refused { IfErr result
        (λ f. readmitted (record { entries = live shelf.now; limit = limit }) asker.now given.now ≡ Err f) }
{
    match first_given_bar(shelf, asker, given) {
        Some(entry) => return Err(AskFault::Foreign(*entry)),
        None => {}
    }
    if is_full(limit, shelf.len(), count_new(shelf, given)) {
        return Err(AskFault::Full {
            used: shelf.len() as u32,
            limit,
        });
    }
    Ok(())
}

/// The oldest entry that bars the first given entry that is barred.
fn first_given_bar<'a>(shelf: &'a Shelf, asker: &Asker, given: &[Entry]) -> Option<&'a Entry>
    ensures { option_copied result ≡ first_bar (live shelf.now) asker.now (map asked_of given.now) }
{
    for e in given {
        match bar(shelf, asker, &e.asked()) {
            Some(entry) => return Some(entry),
            None => {}
        }
    }
    None
}

/// How many of the given entries have new names.
fn count_new(shelf: &Shelf, given: &[Entry]) -> usize
    ensures { result ≡ length (newcomers (live shelf.now) given.now) }
{
    count_lacking(shelf, given)
}

fn count_lacking(shelf: &Shelf, given: &[Entry]) -> usize
    ensures { result ≡ count_by (λ e. not (names.stands (live shelf.now) (names.name_of e))) given.now }
{
    given.iter().filter(|e| lacks(shelf, e)).count()
}

fn lacks(shelf: &Shelf, entry: &Entry) -> bool
    ensures { result ≡ not (names.stands (live shelf.now) (names.name_of entry.now)) }
{
    !stands(shelf, &entry.name())
}
