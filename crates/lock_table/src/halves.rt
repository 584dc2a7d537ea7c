ghost use Rattle.std.specs.Prelude.{◌≡◌, ◌++◌, cond, map, Some, None, IfOk, IfErr, OnOk};
ghost use Rattle.std.specs.List.{find, position};
ghost use Rattle.std.specs.Option.{option_or};
ghost use Rattle.lock_entry.specs.Names.{has_name, named};
ghost use Rattle.lock_entry.specs.Names as names;
ghost use Rattle.lock_entry.specs.Barring as barring;
ghost use Rattle.lock_entry.specs.Granting.{first_bar};
ghost use Rattle.lock_table.specs.Halves.{half_at, IsBar};

use enq_base::NoMemory;
use lock_entry::{AskFault, Asked, Asker, Entry, LockName, Request, bars};
use std::alloc::Global;

/// A half of a request: the name of an entry, where that stands, and its count, or 0.
#[derive(Clone, Copy, Debug)]
pub struct Half {
    pub name: LockName,
    pub place: Option<usize>,
    pub count: u16,
}

/// Where the entries of the two owners stand that have just what is asked for.
#[derive(Clone, Copy, Debug)]
pub struct Places {
    pub dialogue: Option<usize>,
    pub update: Option<usize>,
}

/// Walks once over the entries: the oldest one that bars what is asked for, or else where those of the two owners
/// stand.
pub fn look(entries: &[Entry], asker: &Asker, asked: &Asked) -> Result<Places, Entry>
    ensures free { OnOk result (find (barring.bars asker.now asked.now) entries.now ≡ None) }
    ensures barred { IfErr result (λ e. find (barring.bars asker.now asked.now) entries.now ≡ Some e) }
    ensures dialogue { IfOk result
        (λ p. p.dialogue ≡ position (has_name (named asker.now.dialogue asked.now)) entries.now) }
    ensures update { IfOk result (λ p. p.update ≡ position (has_name (named asker.now.update asked.now)) entries.now) }
{
    let dialogue = LockName {
        owner: asker.dialogue,
        asked: *asked,
    };
    let update = LockName {
        owner: asker.update,
        asked: *asked,
    };
    let mut places = Places {
        dialogue: None,
        update: None,
    };
    for i in 0..entries.len() {
        let entry = entries[i];
        if bars(&entry, asker, asked) {
            return Err(entry);
        }
        places.dialogue = earlier(places.dialogue, entry.has_name(&dialogue), i);
        places.update = earlier(places.update, entry.has_name(&update), i);
    }
    Ok(places)
}

/// The place that was found before, or else this one where it is found now.
fn earlier(before: Option<usize>, found: bool, place: usize) -> Option<usize>
    ensures { result ≡ option_or before (cond found (Some place) None) }
{
    if before.is_some() {
        return before;
    }
    if found { Some(place) } else { None }
}

/// The halves of the requests, in order. Each request takes one walk over the entries.
pub fn halves(
    alloc: Global,
    entries: &[Entry],
    asker: &Asker,
    requests: &[Request],
) -> Result<Vec<Half>, AskFault>
    ensures free { OnOk result (first_bar entries.now asker.now (map (λ r. r.asked) requests.now) ≡ None) }
    ensures halves { IfOk result (λ v. v.items ≡ map (half_at entries.now) (names.halves asker.now requests.now)) }
    ensures refused { IfErr result (λ f. IsBar (first_bar entries.now asker.now (map (λ r. r.asked) requests.now)) f) }
{
    let mut halves = Vec::new(alloc);
    for request in requests {
        match look(entries, asker, &request.asked) {
            Ok(places) => push_halves(&mut halves, entries, asker, request, &places)?,
            Err(entry) => return Err(AskFault::Foreign(entry)),
        }
    }
    Ok(halves)
}

fn push_halves(
    halves: &mut Vec<Half>,
    entries: &[Entry],
    asker: &Asker,
    request: &Request,
    places: &Places,
) -> Result<(), NoMemory>
    requires dialogue { places.now.dialogue ≡ position (has_name (named asker.now.dialogue request.now.asked))
        entries.now }
    requires update { places.now.update ≡ position (has_name (named asker.now.update request.now.asked)) entries.now }
    ensures { OnOk result
        (halves.new.items ≡ halves.old.items ++ map (half_at entries.now) (names.halves_of asker.now request.now)) }
{
    if request.dialogue {
        let name = LockName {
            owner: asker.dialogue,
            asked: request.asked,
        };
        halves.push(half_of(entries, name, places.dialogue))?;
    }
    if request.update {
        let name = LockName {
            owner: asker.update,
            asked: request.asked,
        };
        halves.push(half_of(entries, name, places.update))?;
    }
    Ok(())
}

fn half_of(entries: &[Entry], name: LockName, place: Option<usize>) -> Half
    requires { place ≡ position (has_name name) entries.now }
    ensures { result ≡ half_at entries.now name }
{
    match place {
        Some(i) => Half {
            name,
            place,
            count: entries[i].count,
        },
        None => Half {
            name,
            place,
            count: 0,
        },
    }
}
