ghost use Rattle.std.specs.Prelude.{◌≡◌, ◌<◌, ◌+◌, ◌&&◌, nat_lt, length, IfOk, IfErr, IfSome, OnOk, Ok, Err, not};
ghost use Rattle.std.specs.List.{find, list_any, position, filter};
ghost use Rattle.mode_rules.specs.Modes.{same_mode};
ghost use Rattle.mode_rules.specs.declared.Mode.TheVariants.{E, O};
ghost use Rattle.lock_entry.specs.Names as names;
ghost use Rattle.lock_entry.specs.Barring.{places_meet};
ghost use Rattle.lock_entry.specs.Converting as converting;
ghost use Rattle.lock_entry.specs.Turning as turning;

use crate::places::count_at;
use lock_entry::{AskFault, Asked, Asker, Entry, LockName, Mode, turn};
use std::alloc::{AllocError, Global};

/// Why the pair's O entries at these arguments may not turn.
pub fn test(entries: &[Entry], asker: &Asker, asked: &[Asked]) -> Result<(), AskFault>
    ensures ok { OnOk result
        (converting.converted entries.now asker.now asked.now ≡ Ok
        (converting.conversion entries.now asker.now asked.now)) }
    ensures refused { IfErr result (λ f. converting.converted entries.now asker.now asked.now ≡ Err f) }
{
    if is_lost(entries, asker, asked) {
        return Err(AskFault::Lost);
    }
    match first_withstanding(entries, asker, asked) {
        Some(entry) => return Err(AskFault::Foreign(entry)),
        None => {}
    }
    if sum_exceeds(entries, asker, asked) {
        return Err(AskFault::Count);
    }
    Ok(())
}

/// The O entries of others that meet an argument.
pub fn giving_way(
    alloc: Global,
    entries: &[Entry],
    asker: &Asker,
    asked: &[Asked],
) -> Result<Vec<Entry>, AllocError>
    ensures { IfOk result (λ v. v.items ≡ filter (converting.gives_way asker.now asked.now) entries.now) }
{
    entries
        .iter()
        .filter(|e| gives_way(e, asker, asked))
        .copied()
        .collect(alloc)
}

/// The pair's O entries at these arguments turn, and those of others that meet an argument go.
pub fn convert(entries: &mut Vec<Entry>, asker: &Asker, asked: &[Asked])
    ensures { entries.new.items ≡ (converting.conversion entries.old.items asker.now asked.now).entries }
{
    turn_all(entries, asker, asked);
    drop_giving_way(entries, asker, asked);
}

fn turn_all(entries: &mut Vec<Entry>, asker: &Asker, asked: &[Asked])
    ensures { entries.new.items ≡ turning.turned entries.old.items (converting.turns asker.now asked.now) }
{
    for a in asked {
        turn(entries, &asker.dialogue, &a.table, &a.pattern);
        turn(entries, &asker.update, &a.table, &a.pattern);
    }
}

fn drop_giving_way(entries: &mut Vec<Entry>, asker: &Asker, asked: &[Asked])
    ensures { entries.new.items ≡ filter (λ e. not (converting.gives_way asker.now asked.now e)) entries.old.items }
{
    entries.retain(|e| !gives_way(e, asker, asked));
}

/// Whether for some argument the pair has no O entry.
fn is_lost(entries: &[Entry], asker: &Asker, asked: &[Asked]) -> bool
    ensures { result ≡ converting.is_lost entries.now asker.now asked.now }
{
    asked.iter().any(|a| lacks(entries, asker, a))
}

fn lacks(entries: &[Entry], asker: &Asker, asked: &Asked) -> bool
    ensures { result ≡ not (list_any (converting.is_optimistic asker.now asked.now) entries.now) }
{
    !has_optimistic(entries, asker, asked)
}

fn has_optimistic(entries: &[Entry], asker: &Asker, asked: &Asked) -> bool
    ensures { result ≡ list_any (converting.is_optimistic asker.now asked.now) entries.now }
{
    entries.iter().any(|e| is_optimistic(e, asker, asked))
}

fn is_optimistic(entry: &Entry, asker: &Asker, asked: &Asked) -> bool
    ensures { result ≡ converting.is_optimistic asker.now asked.now entry.now }
{
    entry.mode.is(Mode::O) && (asker.has(&entry.owner) && asked.same_place(&entry.asked()))
}

/// The oldest S, E or X entry of others that meets the first argument that such an entry meets.
fn first_withstanding(entries: &[Entry], asker: &Asker, asked: &[Asked]) -> Option<Entry>
    ensures { result ≡ converting.first_withstanding entries.now asker.now asked.now }
{
    for a in asked {
        let foreign = oldest_withstanding(entries, asker, a);
        if foreign.is_some() {
            return foreign;
        }
    }
    None
}

fn oldest_withstanding(entries: &[Entry], asker: &Asker, asked: &Asked) -> Option<Entry>
    ensures { result ≡ find (converting.withstands asker.now asked.now) entries.now }
{
    match place_withstanding(entries, asker, asked) {
        Some(place) => Some(entries[place]),
        None => None,
    }
}

fn place_withstanding(entries: &[Entry], asker: &Asker, asked: &Asked) -> Option<usize>
    ensures place { result ≡ position (converting.withstands asker.now asked.now) entries.now }
    ensures within { IfSome result (λ i. i < length entries.now) }
{
    entries.iter().position(|e| withstands(e, asker, asked))
}

fn withstands(entry: &Entry, asker: &Asker, asked: &Asked) -> bool
    ensures { result ≡ converting.withstands asker.now asked.now entry.now }
{
    !asker.has(&entry.owner) && (!entry.mode.is(Mode::O) && entry.meets(asked))
}

/// Whether a count would exceed 9,999 where an O entry goes into an E entry.
fn sum_exceeds(entries: &[Entry], asker: &Asker, asked: &[Asked]) -> bool
    ensures { result ≡ converting.sum_exceeds entries.now asker.now asked.now }
{
    entries
        .iter()
        .any(|e| turns(e, asker, asked) && takes_too_many(entries, e))
}

fn takes_too_many(entries: &[Entry], entry: &Entry) -> bool
    ensures { result ≡ (same_mode entry.now.mode E && nat_lt 9999
        (entry.now.count + names.count_at entries.now (turning.name_in O entry.now))) }
{
    entry.mode.is(Mode::E) && exceeds(entry.count, count_at(entries, &optimistic_name(entry)))
}

fn exceeds(count: u16, more: u16) -> bool
    ensures { result ≡ nat_lt 9999 (count + more) }
{
    count as u32 + more as u32 > 9999
}

fn optimistic_name(entry: &Entry) -> LockName
    ensures { result ≡ turning.name_in O entry.now }
{
    LockName {
        owner: entry.owner,
        asked: Asked {
            table: entry.table,
            pattern: entry.pattern,
            mode: Mode::O,
        },
    }
}

/// Whether the entry is the pair's, with just the table and argument of one of those asked for.
fn turns(entry: &Entry, asker: &Asker, asked: &[Asked]) -> bool
    ensures { result ≡ converting.turns asker.now asked.now entry.now }
{
    asker.has(&entry.owner) && is_asked(&entry.asked(), asked)
}

fn is_asked(place: &Asked, asked: &[Asked]) -> bool
    ensures { result ≡ list_any (λ a. names.same_place a place.now) asked.now }
{
    asked.iter().any(|a| a.same_place(place))
}

fn gives_way(entry: &Entry, asker: &Asker, asked: &[Asked]) -> bool
    ensures { result ≡ converting.gives_way asker.now asked.now entry.now }
{
    !asker.has(&entry.owner) && (entry.mode.is(Mode::O) && meets_one(entry, asked))
}

fn meets_one(entry: &Entry, asked: &[Asked]) -> bool
    ensures { result ≡ list_any (places_meet (names.asked_of entry.now)) asked.now }
{
    asked.iter().any(|a| entry.meets(a))
}
