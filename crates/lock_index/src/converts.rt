ghost use Rattle.std.specs.Prelude.{◌≡◌, ◌+◌, ◌||◌, ℕ, false, nat_eq, nat_lt, not, option_copied, IsTrue, IfOk, IfErr, OnOk, OnErr, Ok, Err};
ghost use Rattle.std.specs.List.{find, list_any};
ghost use Rattle.mode_rules.specs.declared.Mode.TheVariants.{O};
ghost use Rattle.indexmap.specs.IndexSet.{contains};
ghost use Rattle.lock_entry.specs.Names as names;
ghost use Rattle.lock_entry.specs.Converting as converting;
ghost use Rattle.lock_entry.specs.Turning as turning;
ghost use Rattle.lock_index.specs.Conversions.{exceeds_at};
ghost use Rattle.lock_index.specs.Slots.{live, on_some, slot_at};

use crate::changes::{clear_places, turn};
use crate::finding::{count_at, find_entry, name_in, oldest_entry, stands};
use crate::places::entries_at;
use crate::search::Search;
use crate::shelf::Shelf;
use enq_base::{NoMemory, Owner};
use indexmap::IndexSet;
use lock_entry::{AskFault, Asked, Asker, Entry, Mode};
use std::alloc::Global;

/// Why the pair's O entries at these arguments may not turn. All is found by look-ups.
pub fn test(shelf: &Shelf, asker: &Asker, asked: &[Asked]) -> Result<(), AskFault>
    requires { IsTrue (names.has_distinct_names (live shelf.now)) }
    ensures ok { OnOk result
        (converting.converted (live shelf.now) asker.now asked.now ≡ Ok
        (converting.conversion (live shelf.now) asker.now asked.now)) }
    ensures refused { IfErr result (λ f. converting.converted (live shelf.now) asker.now asked.now ≡ Err f) }
{
    if is_lost(shelf, asker, asked) {
        return Err(AskFault::Lost);
    }
    match first_withstanding(shelf, asker, asked) {
        Some(entry) => return Err(AskFault::Foreign(*entry)),
        None => {}
    }
    if sum_exceeds(shelf, asker, asked) {
        return Err(AskFault::Count);
    }
    Ok(())
}

/// Turns the pair's O entries at these arguments, and takes out those of others that meet one, which it tells. It goes
/// over the entries that are found by the arguments.
pub fn convert(
    alloc: Global,
    shelf: &mut Shelf,
    asker: &Asker,
    asked: &[Asked],
) -> Result<Vec<Entry>, NoMemory>
    requires { IsTrue (names.has_distinct_names (live shelf.old)) }
    ensures after { OnOk result
        (live shelf.new ≡ (converting.conversion (live shelf.old) asker.now asked.now).entries) }
    ensures removed { IfOk result
        (λ v. v.items ≡ (converting.conversion (live shelf.old) asker.now asked.now).removed) }
    ensures unchanged { OnErr result (shelf.new ≡ shelf.old) }
{
    let places = giving_way(alloc, shelf, asker, asked)?;
    let removed = entries_at(alloc, shelf.slots(), places.as_slice())?;
    clear_places(shelf, places.as_slice());
    turn_all(shelf, asker, asked);
    Ok(removed)
}

/// Where the O entries of others stand that meet an argument, in no certain order.
fn giving_way(
    alloc: Global,
    shelf: &Shelf,
    asker: &Asker,
    asked: &[Asked],
) -> Result<IndexSet<usize>, NoMemory>
    ensures { IfOk result
        (λ s. (i : ℕ) → contains nat_eq s i ≡ on_some (converting.gives_way asker.now asked.now)
        (slot_at shelf.now i)) }
{
    let mut places = IndexSet::new(alloc);
    for a in asked {
        let search = Search::GivesWay { asker, asked: a };
        shelf.add_found(&search, &mut places)?;
    }
    Ok(places)
}

fn turn_all(shelf: &mut Shelf, asker: &Asker, asked: &[Asked])
    requires { IsTrue (names.has_distinct_names (live shelf.old)) }
    ensures { live shelf.new ≡ turning.turned (live shelf.old) (converting.turns asker.now asked.now) }
{
    for a in asked {
        turn(shelf, &asker.dialogue, a);
        turn(shelf, &asker.update, a);
    }
}

/// Whether for some argument the pair has no O entry.
fn is_lost(shelf: &Shelf, asker: &Asker, asked: &[Asked]) -> bool
    ensures { result ≡ converting.is_lost (live shelf.now) asker.now asked.now }
{
    asked.iter().any(|a| lacks(shelf, asker, a))
}

fn lacks(shelf: &Shelf, asker: &Asker, asked: &Asked) -> bool
    ensures { result ≡ not (list_any (converting.is_optimistic asker.now asked.now) (live shelf.now)) }
{
    !has_optimistic(shelf, asker, asked)
}

fn has_optimistic(shelf: &Shelf, asker: &Asker, asked: &Asked) -> bool
    ensures { result ≡ list_any (converting.is_optimistic asker.now asked.now) (live shelf.now) }
{
    has_either(shelf, asker, asked)
}

fn has_either(shelf: &Shelf, asker: &Asker, asked: &Asked) -> bool
    ensures { result ≡ (names.stands (live shelf.now)
        (turning.name_at O asker.now.dialogue asked.now.table asked.now.pattern) || names.stands (live shelf.now)
        (turning.name_at O asker.now.update asked.now.table asked.now.pattern)) }
{
    stands(shelf, &name_in(Mode::O, &asker.dialogue, asked))
        || stands(shelf, &name_in(Mode::O, &asker.update, asked))
}

/// The oldest S, E or X entry of others that meets the first argument that such an entry meets.
fn first_withstanding<'a>(shelf: &'a Shelf, asker: &Asker, asked: &[Asked]) -> Option<&'a Entry>
    ensures { option_copied result ≡ converting.first_withstanding (live shelf.now) asker.now asked.now }
{
    for a in asked {
        match oldest_withstanding(shelf, asker, a) {
            Some(entry) => return Some(entry),
            None => {}
        }
    }
    None
}

fn oldest_withstanding<'a>(shelf: &'a Shelf, asker: &Asker, asked: &Asked) -> Option<&'a Entry>
    ensures { option_copied result ≡ find (converting.withstands asker.now asked.now) (live shelf.now) }
{
    oldest_entry(shelf, &Search::Withstands { asker, asked })
}

/// Whether a count would exceed 9,999 where an O entry goes into an E entry.
fn sum_exceeds(shelf: &Shelf, asker: &Asker, asked: &[Asked]) -> bool
    requires { IsTrue (names.has_distinct_names (live shelf.now)) }
    ensures { result ≡ converting.sum_exceeds (live shelf.now) asker.now asked.now }
{
    one_exceeds(shelf, asker, asked)
}

fn one_exceeds(shelf: &Shelf, asker: &Asker, asked: &[Asked]) -> bool
    ensures { result ≡ list_any
        (λ a. exceeds_at (live shelf.now) asker.now.dialogue a || exceeds_at (live shelf.now) asker.now.update a)
        asked.now }
{
    asked.iter().any(|a| exceeds_at(shelf, &asker.dialogue, a)
        || exceeds_at(shelf, &asker.update, a))
}

fn exceeds_at(shelf: &Shelf, owner: &Owner, asked: &Asked) -> bool
    ensures { result ≡ exceeds_at (live shelf.now) owner.now asked.now }
{
    let more = count_at(shelf, &name_in(Mode::O, owner, asked));
    match find_entry(shelf, &name_in(Mode::E, owner, asked)) {
        Some(entry) => exceeds(entry.count, more),
        None => false,
    }
}

fn exceeds(count: u16, more: u16) -> bool
    ensures { result ≡ nat_lt 9999 (count + more) }
{
    count as u32 + more as u32 > 9999
}
