ghost use Rattle.std.specs.Prelude.{◌≡◌, ◌<◌, ◌+◌, ◌^◌, ◌++◌, ◌∷◌, ℕ, [], List, length, IsTrue, IfOk, IfErr, OnOk, IsErrOf, IsSome};
ghost use Rattle.std.specs.List.{All};
ghost use Rattle.bk_disk.specs.Disk.{AddsNone, FitsDisk, Follows, Only};
ghost use Rattle.gate_log.specs.Causes.{HasLogCause};
ghost use Rattle.gate_log.specs.Gates.{AreShort, IsAtRest};
ghost use Rattle.gate_log.specs.Logs as logs;
ghost use Rattle.backup_file.specs.Handing.{IsList};
ghost use Rattle.backup_file.specs.Lists.{AreUnits};
ghost use Rattle.backup_file.specs.Migrating.{IsOpenedAs};
ghost use Rattle.backup_file.specs.Opening.{OnBad, HasBackCause, StandsLater};
ghost use Rattle.backup_file.specs.ReadLogs.{IsReadAs};
ghost use Rattle.backup_file.specs.Slots.{first_slots, slots_record};
ghost use Rattle.backup_file.specs.File.{IsBad, IsNoOlder, IsShort, IsVersion2, IsWornOut, Keeps, Stands, compact, first_file, front_grammar};
ghost use Rattle.backup_file.specs.declared.handed.Handed.{Handed};

use crate::fault::BackFault;
use crate::file_log::{FileFound, read_versions};
use crate::handed::Handed;
use crate::texts::migration_text;
use bk_disk::Disk;
use enq_base::{Failed, UnitId};
use gate_log::{LogFault, add_record, make_new, read_all};
use std::alloc::Global;
use std::collections::HashSet;

/// What an open file stands for: its lists, the units of these, where its closed gate stands, and whether its log is
/// known to have one hand of each list and no other record.
#[derive(Drop)]
pub struct Opened {
    pub lists: Vec<Handed>,
    pub units: HashSet<UnitId>,
    pub gate: u64,
    pub compact: bool,
}

/// Reads a file of either version, makes it anew where it is of at most 9 bytes, and makes one of version 1 one of
/// version 2.
pub fn open_file<D: Disk>(alloc: Global, disk: &mut D) -> Result<Opened, BackFault>
    ensures lists { IsTrue D.tells → IfOk result (λ found. Stands (D.reads disk.old) found.lists.items) }
    ensures at_rest { IsTrue D.tells → IfOk result
        (λ found. IsOpenedAs (D.reads disk.new) (D.may_leave disk.new) found.gate found.compact found.lists.items) }
    ensures units { IfOk result (λ found. AreUnits found.units.keys found.lists.items) }
    ensures good { IfOk result (λ found. All IsList found.lists.items) }
    ensures anew { IsTrue D.tells → IsShort (D.reads disk.old) → IfOk result (λ _. D.reads disk.new ≡ first_file) }
    ensures stays { IsTrue D.tells → (l : List Handed) → IsVersion2 (D.reads disk.old) l
        → IfOk result (λ _. D.reads disk.new ≡ D.reads disk.old) }
    ensures worn { IsTrue D.tells → IfOk result (λ _. IsNoOlder (D.reads disk.old) (D.reads disk.new)) }
    // Where it stands for nothing the bytes stay, and all of them are on the disk.
    ensures bad { IsTrue D.tells
        → IfErr result (OnBad (λ at. IsBad (D.reads disk.old) at × (D.reads disk.new ≡ D.reads disk.old))) }
    // Each image stands for what an image before the call stands for.
    ensures images { IsTrue D.tells → Follows Keeps (D.may_leave disk.old) (D.may_leave disk.new) }
    ensures lasting { IsTrue D.tells → (l : List Handed) → Stands (D.reads disk.old) l
        → StandsLater (D.may_leave disk.old) (D.may_leave disk.new) l }
    ensures cause { HasBackCause (D.faults disk.old) (D.faults disk.new) result }
{
    let bytes = read_file(alloc, disk)?;
    let text = bytes.as_slice();
    if text.len() <= 9 {
        return open_short(alloc, disk);
    }
    match read_versions(alloc, text) {
        Ok(found) => open_long(alloc, disk, found),
        Err(fault) => Err(fault),
    }
}

/// Makes a file of at most 9 bytes anew, as one of version 2.
fn open_short<D: Disk>(alloc: Global, disk: &mut D) -> Result<Opened, BackFault>
    ensures none { IfOk result (λ found. found.lists.items ≡ []) }
    ensures at_rest { IsTrue D.tells → IfOk result
        (λ found. IsOpenedAs (D.reads disk.new) (D.may_leave disk.new) found.gate found.compact found.lists.items) }
    ensures units { IfOk result (λ found. AreUnits found.units.keys found.lists.items) }
    ensures lists { IfOk result (λ found. All IsList found.lists.items) }
    ensures anew { IsTrue D.tells → IfOk result (λ _. D.reads disk.new ≡ first_file) }
    ensures young { IsTrue D.tells → IfOk result (λ _. IsWornOut (D.reads disk.new) → ⊥) }
    ensures images { IsTrue D.tells → AreShort 9 (D.may_leave disk.old)
        → (c : List ℕ) → D.may_leave disk.new c → Stands c [] }
    ensures not_bad { (at : ℕ) → IsErrOf result (BackFault.Bad at) → ⊥ }
    ensures cause { HasBackCause (D.faults disk.old) (D.faults disk.new) result }
{
    make_new(disk, b"ENQBCK01\0")?;
    let lists = Vec::new(alloc);
    let units = HashSet::new(alloc);
    open_first(alloc, disk, lists, units, 8)
}

/// What was found in a file: one of version 1 becomes one of version 2.
fn open_long<D: Disk>(alloc: Global, disk: &mut D, found: FileFound) -> Result<Opened, BackFault>
    requires { All IsList found.lists.items }
    ensures same { IfOk result (λ opened. opened.lists.items ≡ found.lists.items) }
    ensures units { AreUnits found.units.keys found.lists.items
        → IfOk result (λ opened. AreUnits opened.units.keys opened.lists.items) }
    ensures lists { IfOk result (λ opened. All IsList opened.lists.items) }
    ensures at_rest { IsTrue D.tells
        → IsReadAs (D.reads disk.old) found.place found.gate found.compact found.lists.items
        → Only (D.reads disk.old) (D.may_leave disk.old) → FitsDisk (D.reads disk.old)
        → IfOk result (λ opened. IsOpenedAs (D.reads disk.new) (D.may_leave disk.new) opened.gate opened.compact
        opened.lists.items) }
    ensures stays { IsTrue D.tells → IsSome found.place → IfOk result (λ _. D.reads disk.new ≡ D.reads disk.old) }
    ensures worn { IsTrue D.tells
        → IsReadAs (D.reads disk.old) found.place found.gate found.compact found.lists.items
        → Only (D.reads disk.old) (D.may_leave disk.old) → FitsDisk (D.reads disk.old)
        → IfOk result (λ _. IsNoOlder (D.reads disk.old) (D.reads disk.new)) }
    ensures images { IsTrue D.tells
        → IsReadAs (D.reads disk.old) found.place found.gate found.compact found.lists.items
        → Only (D.reads disk.old) (D.may_leave disk.old) → FitsDisk (D.reads disk.old)
        → (c : List ℕ) → D.may_leave disk.new c → Stands c found.lists.items }
    ensures not_bad { (at : ℕ) → IsErrOf result (BackFault.Bad at) → ⊥ }
    ensures cause { HasBackCause (D.faults disk.old) (D.faults disk.new) result }
{
    let FileFound {
        lists,
        units,
        gate,
        place,
        compact,
    } = found;
    match place {
        Some(_known) => Ok(Opened {
            lists,
            units,
            gate,
            compact,
        }),
        None => open_first(alloc, disk, lists, units, gate),
    }
}

/// Makes a file of version 1, which has these lists and this closed gate, one of version 2.
fn open_first<D: Disk>(
    alloc: Global,
    disk: &mut D,
    lists: Vec<Handed>,
    units: HashSet<UnitId>,
    gate: u64,
) -> Result<Opened, BackFault>
    requires { All IsList lists.items }
    ensures same { IfOk result (λ found. found.lists.items ≡ lists.items) }
    ensures units { AreUnits units.keys lists.items
        → IfOk result (λ found. AreUnits found.units.keys found.lists.items) }
    ensures lists { IfOk result (λ found. All IsList found.lists.items) }
    ensures migrated { IsTrue D.tells → (front : List ℕ) → logs.IsFront front_grammar front lists.items
        → IsAtRest (D.reads disk.old) (D.may_leave disk.old) gate front
        → IfOk result (λ found. IsOpenedAs (D.reads disk.new) (D.may_leave disk.new) found.gate found.compact
        found.lists.items) }
    ensures young { IsTrue D.tells → (front : List ℕ) → logs.IsFront front_grammar front lists.items
        → IsAtRest (D.reads disk.old) (D.may_leave disk.old) gate front
        → IfOk result (λ _. IsWornOut (D.reads disk.new) → ⊥) }
    // Where the closed gate was the last byte the slots, the first log and a closed gate are all that comes.
    ensures grown { IsTrue D.tells → (front : List ℕ) (byte : ℕ) → D.reads disk.old ≡ front ++ byte ∷ []
        → length front ≡ gate → gate + 40 < 2 ^ 64 → IfOk result
        (λ _. D.reads disk.new ≡ front ++ 1 ∷ (slots_record (first_slots gate) ++ (compact lists.items ++ 0 ∷ []))) }
    ensures images { IsTrue D.tells → (front : List ℕ) → logs.IsFront front_grammar front lists.items
        → IsAtRest (D.reads disk.old) (D.may_leave disk.old) gate front
        → (c : List ℕ) → D.may_leave disk.new c → Stands c lists.items }
    ensures not_bad { (at : ℕ) → IsErrOf result (BackFault.Bad at) → ⊥ }
    ensures cause { HasBackCause (D.faults disk.old) (D.faults disk.new) result }
{
    let Ok(text) = migration_text(alloc, gate, lists.as_slice()) else {
        drop(lists);
        drop(units);
        return Err(BackFault::NoMemory);
    };
    match add_record(disk, gate, text.as_slice()) {
        Ok(next) => Ok(Opened {
            lists,
            units,
            gate: next,
            compact: true,
        }),
        Err(Failed) => {
            drop(lists);
            drop(units);
            Err(BackFault::Failed)
        }
    }
}

/// Reads a file once all of it is on the disk.
fn read_file<D: Disk>(alloc: Global, disk: &mut D) -> Result<Vec<u8>, LogFault>
    ensures value { IsTrue D.tells → IfOk result (λ bytes. bytes.items ≡ D.reads disk.old) }
    ensures same { IsTrue D.tells → OnOk result (D.reads disk.new ≡ D.reads disk.old) }
    ensures fits { IsTrue D.tells → OnOk result (FitsDisk (D.reads disk.new)) }
    ensures durable { IsTrue D.tells → OnOk result (Only (D.reads disk.new) (D.may_leave disk.new)) }
    ensures left { IsTrue D.tells → AddsNone (D.may_leave disk.old) (D.may_leave disk.new) }
    ensures cause { HasLogCause (D.faults disk.old) (D.faults disk.new) result }
{
    disk.sync()?;
    read_all(alloc, disk)
}
