ghost use Rattle.std.specs.Prelude.{◌≡◌, ◌&&◌, ◌||◌, [], ◌∷◌, ◌++◌, List, Some, true, not, IfOk, OnOk, if◌then◌else◌};
ghost use Rattle.std.specs.HashMap.{get};
ghost use Rattle.std.specs.HashSet.{contains};
ghost use Rattle.enq_base.specs.Owners.{same_unit};
ghost use Rattle.enq_base.specs.declared.owner.UnitKey.{UnitKey};
ghost use Rattle.enq_base.specs.Ids.{id_of, same_id};
ghost use Rattle.store_reading.specs.Rules.{is_right_mark, mark_fault, may_mark, tells_second};
ghost use Rattle.store_reading.specs.Standings.{AreSecond, AreStatuses};
ghost use Rattle.update_records.specs.Marks.{given, may_follow};
ghost use Rattle.update_records.specs.declared.stored.Record.{Record};

use crate::rules::Place;
use enq_base::{NoMemory, Status, UnitId, UnitKey, id_of};
use std::alloc::Global;
use std::collections::{HashMap, HashSet};
use update_records::{Mark, MarkKind, Record, tables};

fn given(no_v2: bool, kind: &MarkKind, before: Option<Status>) -> Option<Status>
    ensures { result ≡ given no_v2 kind.now before }
{
    match kind {
        MarkKind::Num(_) => before,
        MarkKind::Rec => Some(Status::Open),
        MarkKind::V1 => Some(if no_v2 {
            Status::Closed
        } else {
            Status::Posted
        }),
        MarkKind::Bad1 { .. } => Some(Status::Bad),
        MarkKind::Again1 => Some(Status::Open),
        MarkKind::V2 => Some(Status::Closed),
        MarkKind::Bad2 { .. } => Some(Status::Bad2),
        MarkKind::Again2 => Some(Status::Posted),
        MarkKind::Gone => Some(Status::Cancelled),
    }
}

fn may_follow(status: Option<Status>, kind: &MarkKind) -> bool
    ensures { result ≡ may_follow status kind.now }
{
    match status {
        None => matches!(kind, MarkKind::Num(_) | MarkKind::Rec),
        Some(Status::Open) => matches!(kind, MarkKind::V1 | MarkKind::Bad1 { .. } | MarkKind::Gone),
        Some(Status::Posted) => matches!(kind, MarkKind::V2 | MarkKind::Bad2 { .. }),
        Some(Status::Bad) => matches!(kind, MarkKind::Again1 | MarkKind::Gone),
        Some(Status::Bad2) => matches!(kind, MarkKind::Again2 | MarkKind::Gone),
        Some(Status::Closed) => false,
        Some(Status::Cancelled) => false,
    }
}

fn may_mark(start: u32, status: Option<Status>, mark: &Mark) -> bool
    ensures { result ≡ may_mark start status mark.now }
{
    mark.unit.start >= 1 && (mark.unit.start <= start && may_follow(status, &mark.kind))
}

fn add_second(second: &mut HashSet<UnitId>, stored: &Record) -> Result<(), NoMemory>
    ensures { OnOk result ((key : UnitKey) → contains same_id second.new (id_of key)
        ≡ (contains same_id second.old (id_of key) || tells_second key stored.now)) }
{
    if let Record::Header { unit, v2, .. } = stored {
        if *v2 >= 1 {
            second.insert(id_of(unit))?;
        }
    }
    Ok(())
}

/// The units that have a V2 part.
fn second_parts(alloc: Global, headers: &[Record]) -> Result<HashSet<UnitId>, NoMemory>
    ensures { IfOk result (λ second. AreSecond second headers.now) }
{
    let mut second = HashSet::new(alloc);
    for stored in headers {
        add_second(&mut second, stored)?;
    }
    Ok(second)
}

fn status_of(statuses: &HashMap<UnitId, Status>, key: &UnitKey) -> Option<Status>
    ensures { result ≡ get same_id statuses.now (id_of key.now) }
{
    statuses.get(&id_of(key)).copied()
}

fn set_status(
    statuses: &mut HashMap<UnitId, Status>,
    key: &UnitKey,
    status: Status,
) -> Result<(), NoMemory>
    ensures { OnOk result ((other : UnitKey) → get same_id statuses.new (id_of other)
        ≡ (if same_unit key.now other then Some status else get same_id statuses.old (id_of other))) }
{
    statuses.insert(id_of(key), status)?;
    Ok(())
}

/// Gives the unit of a mark its status.
fn note(statuses: &mut HashMap<UnitId, Status>, no_v2: bool, mark: &Mark) -> Result<(), NoMemory>
    ensures { OnOk result ((other : UnitKey) → get same_id statuses.new (id_of other)
        ≡ (if same_unit mark.now.unit other then given no_v2 mark.now.kind (get same_id statuses.old (id_of other))
        else get same_id statuses.old (id_of other))) }
{
    match given(no_v2, &mark.kind, status_of(statuses, &mark.unit)) {
        Some(status) => set_status(statuses, &mark.unit, status),
        None => Ok(()),
    }
}

/// Whether a record is a mark that may stand behind those so far, whose unit then has its status.
fn follow(
    start: u32,
    second: &HashSet<UnitId>,
    statuses: &mut HashMap<UnitId, Status>,
    stored: &Record,
) -> Result<bool, NoMemory>
    ensures { (headers marks : List Record) → AreSecond second.now headers → AreStatuses statuses.old headers marks
        → IfOk result (λ right.
        (right ≡ is_right_mark start headers marks stored.now)
        × (right ≡ true → AreStatuses statuses.new headers (marks ++ stored.now ∷ []))) }
{
    let Record::Mark(mark) = stored else {
        return Ok(false);
    };
    if !may_mark(start, status_of(statuses, &mark.unit), mark) {
        return Ok(false);
    }
    note(statuses, !second.contains(&id_of(&mark.unit)), mark)?;
    Ok(true)
}

/// The first mark of a unit that isn't of this start or an earlier one, or that doesn't follow the status that its unit
/// has by the marks before it.
pub fn mark_fault(
    alloc: Global,
    start: u32,
    headers: &[Record],
    marks: &[Record],
) -> Result<Option<Place>, NoMemory>
    ensures { IfOk result (λ fault. fault ≡ mark_fault start headers.now marks.now) }
{
    let second = second_parts(alloc, headers)?;
    let mut statuses = HashMap::new(alloc);
    let mut row = 1;
    for stored in marks {
        if !follow(start, &second, &mut statuses, stored)? {
            return Ok(Some(Place {
                table: tables::MARKS,
                row,
            }));
        }
        row += 1;
    }
    Ok(None)
}
