ghost use Rattle.std.specs.Prelude.{◌≡◌, ◌≢◌, ◌<◌, ◌≤◌, ◌+◌, length, true, false, IfOk, IfErr, IfSome, IfNone, IsErrOf};
ghost use Rattle.std.specs.List.{All};
ghost use Rattle.backup_file.specs.Lists.{AreUnits, lists_behind};
ghost use Rattle.backup_file.specs.Handing.{IsList};
ghost use Rattle.backup_file.specs.Opening.{OnBad};
ghost use Rattle.backup_file.specs.ReadLogs.{AreBehindGate, AreReadAs, IsEnd, IsReadAs};
ghost use Rattle.backup_file.specs.File.{HasSlots, IsBad, IsLong, IsOutside};
ghost use Rattle.backup_file.specs.Slots as kept;
ghost use Rattle.backup_file.specs.Slots.{IsInForce};
ghost use Rattle.backup_file.specs.declared.places.Slots.{Slots};

use crate::fault::BackFault;
use crate::gates::{behind_open_gate, has_name, offset_of};
use crate::handed::Handed;
use crate::lists::lists_of;
use crate::log_records::{LogSoFar, read_on};
use crate::places::{Place, Slots};
use crate::slot_bytes::{in_force, slot_at, slot_in, slots_of};
use enq_base::UnitId;
use std::alloc::Global;
use std::collections::HashSet;

/// What a file stands for: its lists, the units of these, where its closed gate stands, where its slots do if it is of
/// version 2, and whether its log in force is known to have one hand of each list and no other record.
#[derive(Drop)]
pub struct FileFound {
    pub lists: Vec<Handed>,
    pub units: HashSet<UnitId>,
    pub gate: u64,
    pub place: Option<Place>,
    pub compact: bool,
}

/// The most bytes of an argument in the log that a file begins with.
const FRONT_BYTES: usize = 150;

/// The most bytes of an argument in the log in force.
const LOG_BYTES: usize = 255;

/// What a file of either version stands for.
pub fn read_versions(alloc: Global, bytes: &[u8]) -> Result<FileFound, BackFault>
    requires long { IsLong bytes.now }
    requires short { length bytes.now ≤ 9223372036854775807 }
    ensures read { IfOk result (λ f. IsReadAs bytes.now f.place f.gate f.compact f.lists.items) }
    ensures units { IfOk result (λ f. AreUnits f.units.keys f.lists.items) }
    ensures lists { IfOk result (λ f. All IsList f.lists.items) }
    ensures bad { IfErr result (OnBad (IsBad bytes.now)) }
    ensures not_failed { IsErrOf result BackFault.Failed → ⊥ }
{
    if !has_name(bytes) {
        return Err(BackFault::Bad(0));
    }
    let mut so_far = LogSoFar {
        records: Vec::new(alloc),
        units: HashSet::new(alloc),
    };
    let rest = match read_on(alloc, FRONT_BYTES, &bytes[8..], &mut so_far) {
        Ok(rest) => rest,
        Err(_) => {
            drop(so_far);
            return Err(BackFault::NoMemory);
        }
    };
    let at = offset_of(bytes, rest);
    if is_shut(rest) {
        return found_at(alloc, bytes, so_far, at, None);
    }
    drop(so_far);
    match slots_behind(rest) {
        Some(slots) => read_in_force(alloc, bytes, at, &slots),
        None => Err(BackFault::Bad(at)),
    }
}

/// What a file of version 2 with these slots stands for.
fn read_in_force(
    alloc: Global,
    bytes: &[u8],
    gate: u64,
    slots: &Slots,
) -> Result<FileFound, BackFault>
    requires has { HasSlots bytes.now gate slots.now }
    requires room { gate + 40 ≤ length bytes.now }
    requires short { length bytes.now ≤ 9223372036854775807 }
    ensures read { IfOk result (λ f. IsReadAs bytes.now f.place f.gate f.compact f.lists.items) }
    ensures units { IfOk result (λ f. AreUnits f.units.keys f.lists.items) }
    ensures lists { IfOk result (λ f. All IsList f.lists.items) }
    ensures bad { IfErr result (OnBad (IsBad bytes.now)) }
    ensures not_failed { IsErrOf result BackFault.Failed → ⊥ }
{
    let Some(which) = in_force(slots) else {
        return Err(BackFault::Bad(gate + 6));
    };
    let start = slot_in(slots, which).start;
    if is_outside(bytes, gate, start) {
        return Err(BackFault::Bad(slot_at(gate, which)));
    }
    let place = Place {
        gate,
        slots: *slots,
        which,
    };
    read_log_from(alloc, bytes, start, &place)
}

/// Whether no log can start there.
fn is_outside(bytes: &[u8], gate: u64, start: u64) -> bool
    requires { gate + 40 < 18446744073709551616 }
    ensures outside { result ≡ true → IsOutside bytes.now gate start }
    ensures inside { result ≡ false → (gate + 40 ≤ start) × (start < length bytes.now) }
{
    if start < gate + 40 {
        return true;
    }
    start >= bytes.len() as u64
}

/// What the log that starts there stands for.
fn read_log_from(
    alloc: Global,
    bytes: &[u8],
    start: u64,
    place: &Place,
) -> Result<FileFound, BackFault>
    requires has { HasSlots bytes.now place.now.gate place.now.slots }
    requires force { IsInForce place.now.slots place.now.which }
    requires named { start ≡ (kept.slot_in place.now.slots place.now.which).start }
    requires from { place.now.gate + 40 ≤ start }
    requires within { start < length bytes.now }
    ensures read { IfOk result (λ f. IsReadAs bytes.now f.place f.gate f.compact f.lists.items) }
    ensures units { IfOk result (λ f. AreUnits f.units.keys f.lists.items) }
    ensures lists { IfOk result (λ f. All IsList f.lists.items) }
    ensures bad { IfErr result (OnBad (IsBad bytes.now)) }
    ensures not_failed { IsErrOf result BackFault.Failed → ⊥ }
{
    let mut so_far = LogSoFar {
        records: Vec::new(alloc),
        units: HashSet::new(alloc),
    };
    let rest = match read_on(alloc, LOG_BYTES, &bytes[start as usize..], &mut so_far) {
        Ok(rest) => rest,
        Err(_) => {
            drop(so_far);
            return Err(BackFault::NoMemory);
        }
    };
    let at = offset_of(bytes, rest);
    if is_shut(rest) {
        return found_at(alloc, bytes, so_far, at, Some(*place));
    }
    drop(so_far);
    Err(BackFault::Bad(at))
}

/// What was found in a file with this closed gate, where all its records were read.
fn found_at(
    alloc: Global,
    bytes: &[u8],
    so_far: LogSoFar,
    gate: u64,
    place: Option<Place>,
) -> Result<FileFound, BackFault>
    requires units { AreUnits so_far.units.keys (lists_behind so_far.records.items) }
    requires read { AreReadAs bytes.now place gate so_far.records.items }
    requires lists { All IsList (lists_behind so_far.records.items) }
    ensures read { IfOk result (λ f. IsReadAs bytes.now f.place f.gate f.compact f.lists.items) }
    ensures units { IfOk result (λ f. AreUnits f.units.keys f.lists.items) }
    ensures lists { IfOk result (λ f. All IsList f.lists.items) }
    ensures bad { IfErr result (OnBad (IsBad bytes.now)) }
    ensures not_failed { IsErrOf result BackFault.Failed → ⊥ }
{
    let _ = bytes;
    let LogSoFar { records, units } = so_far;
    let count = records.len();
    match lists_of(alloc, records) {
        Ok(lists) => {
            let compact = are_as_many(&lists, count);
            Ok(FileFound {
                lists,
                units,
                gate,
                place,
                compact,
            })
        }
        Err(_) => {
            drop(units);
            Err(BackFault::NoMemory)
        }
    }
}

fn are_as_many(lists: &Vec<Handed>, count: usize) -> bool
    ensures as_many { result ≡ true → length lists.now.items ≡ count }
    ensures others { result ≡ false → length lists.now.items ≢ count }
{
    lists.len() == count
}

/// Whether a closed gate stands there. Else none does, or an open one.
fn is_shut(rest: &[u8]) -> bool
    ensures { IsEnd result rest.now }
{
    if rest.is_empty() {
        return false;
    }
    match behind_open_gate(rest) {
        Some(_behind) => false,
        None => true,
    }
}

/// The slots behind an open gate, if some stand there.
fn slots_behind(rest: &[u8]) -> Option<Slots>
    ensures some { IfSome result (AreBehindGate rest.now) }
    ensures none { IfNone result ((s : Slots) → AreBehindGate rest.now s → ⊥) }
{
    let Some(behind) = behind_open_gate(rest) else {
        return None;
    };
    slots_of(behind)
}
