ghost use Rattle.std.specs.Prelude.{◌≡◌, ◌↔◌, [], IsTrue, IfOk, IfErr, OnOk, false};
ghost use Rattle.backup_file.specs.Lists.{AreUnits, lists_behind};
ghost use Rattle.backup_file.specs.ReadLogs.{IfBad, IsNotedWithin, IsReadAll, IsReadWithin, NoneWithin};
ghost use Rattle.backup_file.specs.File as versions;
ghost use Rattle.backup_file.specs.declared.handed.Handed.{Handed};
ghost use Rattle.std.specs.Prelude.{List};

use crate::gates::behind_open_gate;
use crate::handed::Record;
use crate::lists::{follow, may_follow};
use crate::reading::record_of;
use byte_fields::ReadFault;
use enq_base::{NoMemory, UnitId};
use lock_entry::Entry;
use std::alloc::Global;
use std::collections::HashSet;

/// What was read of a log so far: its records, and the units whose lists stand behind them.
#[derive(Drop)]
pub struct LogSoFar {
    pub records: Vec<Record>,
    pub units: HashSet<UnitId>,
}

/// Reads records as far as they go, and gives the rest: arguments have at most so many bytes.
pub fn read_on<'a>(
    alloc: Global,
    most: usize,
    bytes: &'a [u8],
    so_far: &mut LogSoFar,
) -> Result<&'a [u8], NoMemory>
    requires none { so_far.old.records.items ≡ [] }
    requires units { AreUnits so_far.old.units.keys [] }
    ensures read { IfOk result (λ rest. IsReadAll most bytes.now rest.now so_far.new.records.items) }
    ensures units { OnOk result (AreUnits so_far.new.units.keys (lists_behind so_far.new.records.items)) }
{
    let mut rest = bytes;
    while let Some(behind) = behind_open_gate(rest) {
        match read_next(alloc, most, behind, so_far) {
            Ok(after) => rest = after,
            Err(ReadFault::Bad) => return Ok(rest),
            Err(ReadFault::NoMemory) => return Err(NoMemory),
        }
    }
    Ok(rest)
}

/// Reads the record behind an open gate, and gives what stands behind it. One that may not follow is bad.
fn read_next<'a>(
    alloc: Global,
    most: usize,
    behind: &'a [u8],
    so_far: &mut LogSoFar,
) -> Result<&'a [u8], ReadFault>
    requires { AreUnits so_far.old.units.keys (lists_behind so_far.old.records.items) }
    ensures read { IfOk result
        (λ rest. IsReadWithin most behind.now rest.now so_far.old.records.items so_far.new.records.items) }
    ensures units { OnOk result (AreUnits so_far.new.units.keys (lists_behind so_far.new.records.items)) }
    ensures bad { IfErr result (IfBad (NoneWithin most behind.now so_far.old.records.items)) }
    ensures kept { IfErr result (IfBad (so_far.new.records.items ≡ so_far.old.records.items)) }
    ensures kept_units { IfErr result (IfBad (AreUnits so_far.new.units.keys
        (lists_behind so_far.new.records.items))) }
{
    match record_of(alloc, behind) {
        Ok((step, after)) => {
            let Ok(noted) = note_within(alloc, most, step, so_far) else {
                return Err(ReadFault::NoMemory);
            };
            if !noted {
                return Err(ReadFault::Bad);
            }
            Ok(after)
        }
        Err(fault) => Err(fault),
    }
}

/// Notes a record where it may follow, and tells whether it may.
fn note_within(
    alloc: Global,
    most: usize,
    step: Record,
    so_far: &mut LogSoFar,
) -> Result<bool, NoMemory>
    requires { AreUnits so_far.old.units.keys (lists_behind so_far.old.records.items) }
    ensures noted { IfOk result
        (λ noted. IsNotedWithin most noted so_far.old.records.items step so_far.new.records.items) }
    ensures kept { IfOk result
        (λ noted. noted ≡ false → so_far.new.records.items ≡ so_far.old.records.items) }
    ensures units { OnOk result (AreUnits so_far.new.units.keys (lists_behind so_far.new.records.items)) }
{
    let Ok(may) = may_be_next(alloc, most, &so_far.units, &step) else {
        drop(step);
        return Err(NoMemory);
    };
    if !may {
        drop(step);
        return Ok(false);
    }
    let Ok(()) = follow(&mut so_far.units, &step) else {
        drop(step);
        return Err(NoMemory);
    };
    so_far.records.push(step)?;
    Ok(true)
}

/// Whether the record may follow, where the lists of these units stand.
fn may_be_next(
    alloc: Global,
    most: usize,
    units: &HashSet<UnitId>,
    step: &Record,
) -> Result<bool, NoMemory>
    ensures { (l : List Handed) → AreUnits units.now.keys l
        → IfOk result (λ may. IsTrue may ↔ versions.MayFollow most l step.now) }
{
    let may = may_follow(alloc, units, step)?;
    Ok(may && is_within(most, step))
}

/// Whether the arguments of the record have at most so many bytes.
fn is_within(most: usize, step: &Record) -> bool
    ensures { IsTrue result ↔ versions.IsWithin most step.now }
{
    match step {
        Record::Hand(handed) => are_within(most, handed.entries.as_slice()),
        Record::Free(_) => true,
    }
}

fn are_within(most: usize, entries: &[Entry]) -> bool
    ensures { result ≡ versions.are_within most entries.now }
{
    entries
        .iter()
        .all(|entry| entry.pattern.bytes().len() <= most)
}
