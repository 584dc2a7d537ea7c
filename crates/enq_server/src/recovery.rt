ghost use Rattle.std.specs.Prelude.{◌≡◌, ◌↔◌, ◌-◌, ◌≤◌, ℕ, List, true, false, None, drop, length, IsTrue, IfOk, IfErr, IfSome, OnOk, OnErr, MatchResult};
ghost use Rattle.std.specs.List.{All};
ghost use Rattle.enq_base.specs.Causes.{HasCause};
ghost use Rattle.bk_disk.specs.Disk.{Follows};
ghost use Rattle.lock_entry.specs.Table.{IsLoadFault, IsTable};
ghost use Rattle.backup_file.specs.Backup.{IsReady};
ghost use Rattle.backup_file.specs.Lists.{AreUnits};
ghost use Rattle.backup_file.specs.File.{IsNoOlder};
ghost use Rattle.backup_file.specs.declared.handed.Handed.{Handed};
ghost use Rattle.lock_entry.specs.declared.entry.UnitLocks.{UnitLocks};
ghost use Rattle.enq_server.specs.Faults.{CountsFault, IsOpenFault, IsRecoveryFault, Leaves, OnBytes};
ghost use Rattle.enq_server.specs.Recovery.{Agrees, AreKnown, ArePlaces, FreesOthers, IsFirstDifference, IsMissing, StandsLess, joined, lists_among, locking};
ghost use Rattle.enq_server.specs.Server.{IsFreed, IsRecovered, larger, recovered, replicated};

use crate::fault::OpenFault;
use crate::places::{entries_of, is_known, known_units, places_of};
use backup_file::{Backup, Handed, WriteFault};
use bk_disk::Disk;
use enq_base::{BackupBad, Failed, NoMemory, UnitId, UnitKey};
use lock_entry::{Entry, LoadFault, LockStore, UnitLocks};
use std::alloc::Global;
use std::collections::{HashMap, HashSet};

/// Whether two entries are one.
fn is_same(a: &Entry, b: &Entry) -> bool
    ensures { IsTrue result ↔ (a.now ≡ b.now) }
{
    a.name().is(&b.name()) && (a.user.is(&b.user) && (a.count == b.count && a.handed == b.handed))
}

/// The first place, counted from 1, where two lists of entries differ.
fn first_difference(known: &[Entry], listed: &[Entry]) -> Option<usize>
    ensures same { result ≡ None → known.now ≡ listed.now }
    ensures differ { IfSome result (IsFirstDifference known.now listed.now) }
{
    let mut before = 0;
    while before < known.len() && before < listed.len() {
        if !is_same(&known[before], &listed[before]) {
            return Some(before + 1);
        }
        before += 1;
    }
    if known.len() == listed.len() {
        None
    } else {
        Some(before + 1)
    }
}

/// Whether a list that isn't shorter ends with these entries.
pub fn ends_with(list: &[Entry], entries: &[Entry]) -> bool
    requires { length entries.now ≤ length list.now }
    ensures { IsTrue result ↔ (drop (length list.now - length entries.now) list.now ≡ entries.now) }
{
    let front = list.len() - entries.len();
    match first_difference(&list[front..], entries) {
        None => true,
        Some(_) => false,
    }
}

/// The first unit whose list differs from its entries, and the first place, counted from 1, where it does.
fn first_missing(
    lists: &[Handed],
    places: &HashMap<UnitId, usize>,
    units: &[UnitLocks],
) -> Option<(UnitKey, usize)>
    requires { ArePlaces places.now lists.now lists.now }
    ensures agree { result ≡ None → All (Agrees lists.now) units.now }
    ensures missing { IfSome result (λ m. IsMissing lists.now units.now m.0 m.1) }
{
    for known in units {
        let listed = entries_of(lists, places, &known.unit);
        if let Some(at) = first_difference(known.entries.as_slice(), listed) {
            return Some((known.unit, at));
        }
    }
    None
}

/// The entries of these units, one unit behind the other.
fn joined(alloc: Global, units: &[UnitLocks]) -> Result<Vec<Entry>, NoMemory>
    ensures { IfOk result (λ entries. entries.items ≡ joined units.now) }
{
    let mut entries = Vec::new(alloc);
    for known in units {
        entries.extend_from_slice(known.entries.as_slice())?;
    }
    Ok(entries)
}

/// The larger of the two.
fn larger(limit: u32, count: u32) -> u32
    ensures { result ≡ larger limit count }
{
    if limit <= count { count } else { limit }
}

/// The table of the units' entries, where the lists agree with them, and these units. More entries than 32 bits count
/// are told as want of memory.
fn recover<T: LockStore>(
    alloc: Global,
    limit: u32,
    lists: &[Handed],
    units: &[UnitLocks],
) -> Result<(T, HashSet<UnitId>), OpenFault>
    ensures table { IfOk result (λ found. T.table found.0 ≡ recovered limit units.now) }
    ensures good { IfOk result (λ found. IsTable (T.table found.0)) }
    ensures known { IfOk result (λ found. AreKnown found.1.keys units.now) }
    ensures agree { OnOk result (All (Agrees lists.now) units.now) }
    ensures fault { IfErr result (IsRecoveryFault lists.now units.now) }
{
    let Ok(places) = places_of(alloc, lists) else {
        return Err(OpenFault::NoMemory);
    };
    if let Some((unit, place)) = first_missing(lists, &places, units) {
        let Ok(at) = u32::try_from(place) else {
            return Err(OpenFault::NoMemory);
        };
        return Err(OpenFault::Bad(BackupBad::Missing { unit, at }));
    }
    let Ok(known) = known_units(alloc, units) else {
        return Err(OpenFault::NoMemory);
    };
    match load(alloc, limit, units) {
        Ok(table) => Ok((table, known)),
        Err(fault) => Err(fault),
    }
}

/// The table of the units' entries.
fn load<T: LockStore>(alloc: Global, limit: u32, units: &[UnitLocks]) -> Result<T, OpenFault>
    ensures table { IfOk result (λ table. T.table table ≡ recovered limit units.now) }
    ensures good { IfOk result (λ table. IsTable (T.table table)) }
    ensures fault { (l : List Handed) → All (Agrees l) units.now → IfErr result (IsRecoveryFault l units.now) }
{
    let Ok(entries) = joined(alloc, units) else {
        return Err(OpenFault::NoMemory);
    };
    match load_list(alloc, limit, entries) {
        Ok(table) => Ok(table),
        Err(LoadFault::Clash { first, second }) => {
            Err(OpenFault::Bad(BackupBad::Clash { first, second }))
        }
        Err(LoadFault::NoMemory) => Err(OpenFault::NoMemory),
    }
}

/// The table of a list. More entries than 32 bits count are told as want of memory.
pub fn load_list<T: LockStore>(
    alloc: Global,
    limit: u32,
    entries: Vec<Entry>,
) -> Result<T, LoadFault>
    ensures table { IfOk result (λ table. T.table table ≡ replicated limit entries.items) }
    ensures good { IfOk result (λ table. IsTable (T.table table)) }
    ensures fault { IfErr result (IsLoadFault entries.items) }
{
    let Ok(count) = u32::try_from(entries.len()) else {
        return Err(LoadFault::NoMemory);
    };
    T::load(alloc, larger(limit, count), entries)
}

/// Frees each list in the file whose unit isn't among these.
fn free_others<D: Disk>(
    backup: &mut Backup<D>,
    lists: &[Handed],
    known: &HashSet<UnitId>,
) -> Result<(), Failed>
    requires usable { backup.old.failed ≡ false }
    ensures usable { OnOk result (backup.new.failed ≡ false) }
    ensures failed { OnErr result (backup.new.failed ≡ true) }
    ensures freed { IsTrue D.tells → (units : List UnitLocks) → AreKnown known.now.keys units
        → IsReady D.reads D.may_leave backup.old lists.now
        → OnOk result (IsReady D.reads D.may_leave backup.new (lists_among units lists.now)) }
    ensures known { (units : List UnitLocks) → AreKnown known.now.keys units → AreUnits backup.old.units lists.now
        → OnOk result (AreUnits backup.new.units (lists_among units lists.now)) }
    ensures images { IsTrue D.tells → (units : List UnitLocks) → AreKnown known.now.keys units
        → IsReady D.reads D.may_leave backup.old lists.now
        → (c : List ℕ) → D.may_leave backup.new.disk c → StandsLess units lists.now c }
    ensures worn { IsTrue D.tells → (units : List UnitLocks) → AreKnown known.now.keys units
        → IsReady D.reads D.may_leave backup.old lists.now
        → OnOk result (IsNoOlder (D.reads backup.old.disk) (D.reads backup.new.disk)) }
    ensures cause { HasCause (D.faults backup.old.disk) (D.faults backup.new.disk) result }
{
    for handed in lists {
        if !is_known(known, &handed.unit) && backup.stands(&handed.unit) {
            backup.free(&handed.unit)?;
        }
    }
    Ok(())
}

/// Reads the file anew, also one that failed, and makes the table of the units' entries, with which its lists must
/// agree. Lists of other units are freed, and then the log in force is written anew.
pub fn read_anew<T: LockStore, D: Disk>(
    alloc: Global,
    backup: &mut Backup<D>,
    limit: u32,
    units: &[UnitLocks],
) -> Result<T, OpenFault>
    ensures table { IfOk result (λ table. T.table table ≡ recovered limit units.now) }
    ensures good { IfOk result (λ table. IsTable (T.table table)) }
    ensures usable { OnOk result (backup.new.failed ≡ false) }
    ensures shut { OnErr result (backup.new.failed ≡ true) }
    ensures known { OnOk result (AreKnown backup.new.units (locking units.now)) }
    ensures file { IsTrue D.tells
        → OnOk result (IsRecovered D.reads D.may_leave (D.reads backup.old.disk) units.now backup.new) }
    ensures fault { IsTrue D.tells → IfErr result (IsOpenFault (D.reads backup.old.disk) units.now) }
    ensures bad { IsTrue D.tells
        → IfErr result (λ fault. OnBytes fault (D.reads backup.new.disk ≡ D.reads backup.old.disk)) }
    ensures images { IsTrue D.tells → MatchResult result
        (λ _. Follows (FreesOthers units.now) (D.may_leave backup.old.disk) (D.may_leave backup.new.disk))
        (λ fault. Follows (Leaves units.now fault) (D.may_leave backup.old.disk) (D.may_leave backup.new.disk)) }
    ensures quiet { OnOk result (D.faults backup.new.disk ≡ D.faults backup.old.disk) }
    ensures cause { IfErr result (λ fault. CountsFault fault (D.faults backup.old.disk) (D.faults backup.new.disk)) }
{
    let table = match read_freed(alloc, backup, limit, units) {
        Ok(table) => table,
        Err(fault) => return Err(fault),
    };
    match backup.compact(alloc) {
        Ok(()) => Ok(table),
        Err(WriteFault::Failed) => Err(OpenFault::Failed),
        Err(WriteFault::NoMemory) => {
            backup.shut();
            Err(OpenFault::NoMemory)
        }
    }
}

/// Reads the file anew, also one that failed, and makes the table of the units' entries, with which its lists must
/// agree. Lists of other units are freed.
fn read_freed<T: LockStore, D: Disk>(
    alloc: Global,
    backup: &mut Backup<D>,
    limit: u32,
    units: &[UnitLocks],
) -> Result<T, OpenFault>
    ensures table { IfOk result (λ table. T.table table ≡ recovered limit units.now) }
    ensures good { IfOk result (λ table. IsTable (T.table table)) }
    ensures usable { OnOk result (backup.new.failed ≡ false) }
    ensures shut { OnErr result (backup.new.failed ≡ true) }
    ensures known { OnOk result (AreKnown backup.new.units (locking units.now)) }
    ensures file { IsTrue D.tells
        → OnOk result (IsFreed D.reads D.may_leave (D.reads backup.old.disk) units.now backup.new) }
    ensures worn { IsTrue D.tells → OnOk result (IsNoOlder (D.reads backup.old.disk) (D.reads backup.new.disk)) }
    ensures fault { IsTrue D.tells → IfErr result (IsOpenFault (D.reads backup.old.disk) units.now) }
    ensures bad { IsTrue D.tells
        → IfErr result (λ fault. OnBytes fault (D.reads backup.new.disk ≡ D.reads backup.old.disk)) }
    ensures images { IsTrue D.tells → MatchResult result
        (λ _. Follows (FreesOthers units.now) (D.may_leave backup.old.disk) (D.may_leave backup.new.disk))
        (λ fault. Follows (Leaves units.now fault) (D.may_leave backup.old.disk) (D.may_leave backup.new.disk)) }
    ensures quiet { OnOk result (D.faults backup.new.disk ≡ D.faults backup.old.disk) }
    ensures cause { IfErr result (λ fault. CountsFault fault (D.faults backup.old.disk) (D.faults backup.new.disk)) }
{
    let lists = match backup.reopen(alloc) {
        Ok(lists) => lists,
        Err(fault) => return Err(OpenFault::from(fault)),
    };
    let (table, known) = match recover(alloc, limit, lists.as_slice(), units) {
        Ok(found) => found,
        Err(fault) => {
            backup.shut();
            return Err(fault);
        }
    };
    match free_others(backup, lists.as_slice(), &known) {
        Ok(()) => Ok(table),
        Err(Failed) => Err(OpenFault::Failed),
    }
}
