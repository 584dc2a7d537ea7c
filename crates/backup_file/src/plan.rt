ghost use Rattle.std.specs.Prelude.{◌≡◌, ◌≤◌, ◌<◌, ◌+◌, ◌^◌, List, length, true, false, IfOk, IfSome, IfNone};
ghost use Rattle.std.specs.List.{All};
ghost use Rattle.backup_file.specs.Compacting.{IsFree};
ghost use Rattle.backup_file.specs.Handing.{IsList};
ghost use Rattle.backup_file.specs.Plans.{IsDone, IsPlan};
ghost use Rattle.backup_file.specs.ReadLogs.{IsReadAs, IsReadBehind};
ghost use Rattle.backup_file.specs.Slots as kept;
ghost use Rattle.backup_file.specs.File.{IsVersion2};
ghost use Rattle.backup_file.specs.declared.handed.Handed.{Handed};

use crate::fault::BackFault;
use crate::file_log::{FileFound, read_versions};
use crate::handed::Handed;
use crate::places::Place;
use crate::slot_bytes::slot_in;
use crate::texts::log_text;
use enq_base::NoMemory;
use std::alloc::Global;

/// What is written where a log is written anew: the log, and where. So far the slots and the closed gate stand there.
#[derive(Drop)]
pub struct Plan {
    pub place: Place,
    pub gate: u64,
    pub at: u64,
    pub text: Vec<u8>,
}

/// The last generation.
const LAST: u64 = 9_223_372_036_854_775_808;

/// How the log in force of a file is written anew. There is no plan for a log that has one hand of each list and no
/// other record, nor for one of the last generation, nor where no log is in force.
pub fn plan_of(alloc: Global, bytes: &[u8]) -> Result<Option<Plan>, NoMemory>
    requires { length bytes.now < 2 ^ 63 }
    ensures some { IfOk result (λ p. IfSome p (IsPlan bytes.now)) }
    ensures none { IfOk result (λ p. IfNone p ((l : List Handed) → IsVersion2 bytes.now l → IsDone bytes.now l)) }
{
    if bytes.len() <= 9 {
        return Ok(None);
    }
    match read_versions(alloc, bytes) {
        Ok(found) => plan_for(alloc, bytes, found),
        Err(BackFault::NoMemory) => Err(NoMemory),
        Err(BackFault::Bad(_at)) => Ok(None),
        Err(BackFault::Failed) => Ok(None),
    }
}

/// How the log that was found is written anew.
fn plan_for(alloc: Global, bytes: &[u8], found: FileFound) -> Result<Option<Plan>, NoMemory>
    requires short { length bytes.now < 2 ^ 63 }
    requires read { IsReadAs bytes.now found.place found.gate found.compact found.lists.items }
    requires lists { All IsList found.lists.items }
    ensures some { IfOk result (λ p. IfSome p (IsPlan bytes.now)) }
    ensures none { IfOk result (λ p. IfNone p ((l : List Handed) → IsVersion2 bytes.now l → IsDone bytes.now l)) }
{
    let FileFound {
        lists,
        units,
        gate,
        place,
        compact,
    } = found;
    drop(units);
    match place {
        Some(known) => plan_at(alloc, bytes, lists.as_slice(), gate, &known, compact),
        None => Ok(None),
    }
}

/// How a log with these lists is written anew.
fn plan_at(
    alloc: Global,
    bytes: &[u8],
    lists: &[Handed],
    gate: u64,
    place: &Place,
    compact: bool,
) -> Result<Option<Plan>, NoMemory>
    requires short { length bytes.now < 2 ^ 63 }
    requires read { IsReadBehind place.now bytes.now gate compact lists.now }
    requires lists { All IsList lists.now }
    ensures some { IfOk result (λ p. IfSome p (IsPlan bytes.now)) }
    ensures none { IfOk result (λ p. IfNone p ((l : List Handed) → IsVersion2 bytes.now l → IsDone bytes.now l)) }
{
    let _ = bytes;
    if compact {
        return Ok(None);
    }
    if is_last(place) {
        return Ok(None);
    }
    let text = log_text(alloc, lists)?;
    let size = text.len();
    let at = place_for(place, gate, size);
    Ok(Some(Plan {
        place: *place,
        gate,
        at,
        text,
    }))
}

/// Whether the generation in force is the last one.
fn is_last(place: &Place) -> bool
    ensures last { result ≡ true → 2 ^ 63 ≤ (kept.slot_in place.now.slots place.now.which).generation }
    ensures young { result ≡ false → (kept.slot_in place.now.slots place.now.which).generation < 2 ^ 63 }
{
    slot_in(&place.slots, place.which).generation >= LAST
}

/// Where a log of this size is written: behind the slots, where there is room before the log in force, or else behind
/// the closed gate.
fn place_for(place: &Place, gate: u64, size: usize) -> u64
    requires slots { place.now.gate + 40 < 2 ^ 63 }
    requires few { gate + 1 < 2 ^ 63 }
    requires small { size < 2 ^ 63 }
    ensures free { IsFree place.now gate result size }
    ensures short { result + size < 2 ^ 64 }
{
    let first = place.gate + 40;
    let start = slot_in(&place.slots, place.which).start;
    let end = first + size as u64;
    if end <= start {
        return first;
    }
    gate + 1
}
