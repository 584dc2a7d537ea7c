ghost use Rattle.std.specs.Prelude.{◌≡◌, ◌<◌, ◌≤◌, ◌+◌, ◌++◌, ◌||◌, ◌&&◌, ◌∷◌, [], cond, not, nat_lt, is_some, length, map, false, IsTrue, IfOk, IfErr, OnOk, OnErr, Ok, slice_index_or};
ghost use Rattle.std.specs.List.{list_any};
ghost use Rattle.std.specs.Option.{ForSome};
ghost use Rattle.lock_entry.specs.Names as names;
ghost use Rattle.lock_entry.specs.Granting as granting;
ghost use Rattle.lock_entry.specs.Table.{IsFaultOf};
ghost use Rattle.lock_entry.specs.declared.entry.Entry.{Entry};
ghost use Rattle.lock_table.specs.Halves.{capped_entry, fresh_names, half_at, names_of, raised_at};

use crate::halves::{Half, halves};
use enq_base::{Name, NoMemory};
use lock_entry::{AskFault, Asker, Entry, LockName, Request, stands};
use std::alloc::Global;

const MOST: usize = 9999;

/// What a call that is granted adds: the halves of its requests, whose entries rise, and the new entries.
#[derive(Drop)]
pub struct Plan {
    pub halves: Vec<Half>,
    pub added: Vec<Entry>,
}

/// What the requests add where they are granted, or why they are refused.
pub fn plan_grant(
    alloc: Global,
    limit: u32,
    entries: &[Entry],
    asker: &Asker,
    user: &Name,
    requests: &[Request],
) -> Result<Plan, AskFault>
    requires { length entries.now ≤ limit }
    ensures halves { IfOk result
        (λ p. p.halves.items ≡ map (half_at entries.now) (names.halves asker.now requests.now)) }
    ensures counts { OnOk result (granting.is_over entries.now (names.halves asker.now requests.now) ≡ false) }
    ensures granted { IfOk result
        (λ p. granting.asked (record { entries = entries.now; limit = limit }) asker.now user.now requests.now ≡ Ok
        (map (granting.raised (names.halves asker.now requests.now)) entries.now ++ p.added.items)) }
    ensures refused { IfErr result
        (λ f. IsFaultOf (granting.asked (record { entries = entries.now; limit = limit }) asker.now user.now
        requests.now) f) }
{
    let halves = halves(alloc, entries, asker, requests)?;
    let added = new_entries(alloc, user, halves.as_slice())?;
    if is_full(limit, entries.len(), added.len()) {
        return Err(AskFault::Full {
            used: entries.len() as u32,
            limit,
        });
    }
    if is_over(halves.as_slice()) {
        return Err(AskFault::Count);
    }
    Ok(Plan { halves, added })
}

/// Whether entries are added and more than the limit would stand.
pub fn is_full(limit: u32, standing: usize, added: usize) -> bool
    requires { standing ≤ limit }
    ensures { result ≡ (nat_lt 0 added && nat_lt limit (standing + added)) }
{
    added > 0 && added > limit as usize - standing
}

/// How many of the halves name this entry.
fn times(all: &[Half], name: &LockName) -> usize
    ensures { result ≡ names.times (names_of all.now) name.now }
{
    all.iter().filter(|h| name.is(&h.name)).count()
}

/// Whether the count of some entry would exceed 9,999.
fn is_over(all: &[Half]) -> bool
    ensures { result ≡ list_any (λ h. nat_lt 9999 (h.count + names.times (names_of all.now) h.name)) all.now }
{
    all.iter().any(|h| exceeds(h.count, times(all, &h.name)))
}

fn exceeds(count: u16, more: usize) -> bool
    ensures { result ≡ nat_lt 9999 (count + more) }
{
    count as usize > MOST || more > MOST - count as usize
}

/// The entries that the halves make anew, in order of first naming.
fn new_entries(alloc: Global, user: &Name, all: &[Half]) -> Result<Vec<Entry>, NoMemory>
    ensures { IfOk result (λ v. v.items ≡ map (capped_entry user.now (names_of all.now)) (fresh_names all.now)) }
{
    let mut added = Vec::new(alloc);
    for half in all {
        push_new(&mut added, user, all, half)?;
    }
    Ok(added)
}

fn push_new(added: &mut Vec<Entry>, user: &Name, all: &[Half], half: &Half) -> Result<(), NoMemory>
    ensures { OnOk result
        (added.new.items ≡ added.old.items ++ cond
        (is_some half.now.place || names.stands added.old.items half.now.name) []
        (capped_entry user.now (names_of all.now) half.now.name ∷ [])) }
{
    if !is_known(added.as_slice(), half) {
        added.push(capped_entry(user, all, &half.name))?;
    }
    Ok(())
}

fn is_known(added: &[Entry], half: &Half) -> bool
    ensures { result ≡ (is_some half.now.place || names.stands added.now half.now.name) }
{
    half.place.is_some() || stands(added, &half.name)
}

fn capped_entry(user: &Name, all: &[Half], name: &LockName) -> Entry
    ensures { result ≡ capped_entry user.now (names_of all.now) name.now }
{
    Entry {
        owner: name.owner,
        user: *user,
        table: name.asked.table,
        pattern: name.asked.pattern,
        mode: name.asked.mode,
        count: times(all, name).min(MOST) as u16,
        handed: false,
    }
}

/// The entries that are named rise, and the new ones go last.
pub fn grant(entries: &mut Vec<Entry>, all: &[Half], added: &[Entry]) -> Result<(), NoMemory>
    requires halves { all.now ≡ map (half_at entries.old.items) (names_of all.now) }
    requires distinct { IsTrue (names.has_distinct_names entries.old.items) }
    requires counts { granting.is_over entries.old.items (names_of all.now) ≡ false }
    ensures granted { OnOk result
        (entries.new.items ≡ map (granting.raised (names_of all.now)) entries.old.items ++ added.now) }
    ensures unchanged { OnErr result (entries.new.items ≡ entries.old.items) }
{
    entries.extend_from_slice(added)?;
    for half in all {
        raise(entries, half.place);
    }
    Ok(())
}

/// The entry at the place rises by one, if there is a place.
fn raise(entries: &mut Vec<Entry>, place: Option<usize>)
    requires within { ForSome place (λ i. i < length entries.old.items) }
    requires count { ForSome place (λ i. (d : Entry) → (slice_index_or entries.old.items i d).count < 65535) }
    ensures { (d : Entry) → entries.new.items ≡ raised_at entries.old.items place d }
{
    if let Some(i) = place {
        let entry = &mut entries[i];
        entry.count += 1;
    }
}
