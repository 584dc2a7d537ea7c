ghost use Rattle.std.specs.Prelude.{◌≡◌, ◌<◌, [], ◌∷◌, Option, Some, IfOk, IfSome, OnOk, is_some};
ghost use Rattle.std.specs.FinMap.{get};
ghost use Rattle.keeper_api.specs.Batch.{changed, held_after, IsBatch};
ghost use Rattle.keeper_api.specs.Keeping.{HasFaultCause, IsBeforeOrAfter, IsWithin, OnNoMemory, Stays, UnlessFailed};
ghost use Rattle.keeper_api.specs.Rows.{Rows, value_at};
ghost use Rattle.module_effects.specs.Rows.{Tables, row_of};
ghost use Rattle.module_effects.specs.declared.spot.Spot.{Spot as SpotOf};
ghost use Rattle.remote_target.specs.Rows as rows;
ghost use Rattle.remote_target.specs.Rows.{StandFor};
ghost use Rattle.remote_target.specs.Runs.{Ran};
ghost use Rattle.remote_target.specs.Targets.{Comes, IsDoneAt, with_call_at};

use crate::call::CallOutcome;
use crate::form::{read_effect, text_if};
use crate::rows::{CALLS, TEXTS, call_batch, outcome_in, row_key};
use enq_base::{Effect, Failed, Key, Name, NoMemory, Text};
use keeper_api::{Change, KeepFault, Keeper};
use module_effects::{EffectFault, Spot, apply};
use std::alloc::Global;
use std::slice;

/// The outcome of a call that was executed. What isn't a call's value counts as want of memory.
pub fn known_outcome<K: Keeper>(
    alloc: Global,
    keeper: &mut K,
    tid: &Key,
) -> Result<Option<CallOutcome>, KeepFault>
    requires { K.is_open keeper.old }
    ensures outcome { IfOk result (λ outcome. IfSome (K.held keeper.old)
        (λ held. rows.IsOutcomeIn (value_at held 0 tid.now) outcome)) }
    ensures stays { UnlessFailed result (Stays K.held K.is_open K.has_room keeper.old keeper.new) }
    ensures told { is_some (K.held keeper.new) ≡ is_some (K.held keeper.old) }
    ensures crash { IsWithin (K.may_leave keeper.new) (K.may_leave keeper.old) }
    ensures cause { HasFaultCause (K.faults keeper.old) (K.faults keeper.new) result }
{
    let Some(value) = keeper.get(alloc, CALLS, tid.bytes())? else {
        return Ok(None);
    };
    match outcome_in(value.as_slice()) {
        Some(outcome) => Ok(Some(outcome)),
        None => Err(KeepFault::NoMemory),
    }
}

/// The text of a business row. What isn't a text counts as want of memory.
pub fn read_text<K: Keeper>(
    alloc: Global,
    keeper: &mut K,
    table: &Name,
    key: &Key,
) -> Result<Option<Text>, KeepFault>
    requires { K.is_open keeper.old }
    ensures text { IfOk result (λ text. IfSome (K.held keeper.old)
        (λ held. text ≡ value_at held 1 (rows.row_key (table.now, key.now)))) }
    ensures stays { UnlessFailed result (Stays K.held K.is_open K.has_room keeper.old keeper.new) }
    ensures told { is_some (K.held keeper.new) ≡ is_some (K.held keeper.old) }
    ensures crash { IsWithin (K.may_leave keeper.new) (K.may_leave keeper.old) }
    ensures cause { HasFaultCause (K.faults keeper.old) (K.faults keeper.new) result }
{
    let place = row_key(alloc, table, key)?;
    let Some(bytes) = keeper.get(alloc, TEXTS, place.as_slice())? else {
        return Ok(None);
    };
    match text_if(alloc, bytes.as_slice()) {
        Ok(Some(text)) => Ok(Some(text)),
        Ok(None) => Err(KeepFault::NoMemory),
        Err(_) => Err(KeepFault::NoMemory),
    }
}

/// The one element of a list that has no other.
fn only(after: Vec<Spot>) -> Option<Spot>
    ensures { (spot : SpotOf) → after.items ≡ spot ∷ [] → result ≡ Some spot }
{
    let mut after = after;
    after.pop()
}

/// What an effect comes to where its row has this text, and the row that it leaves.
fn apply_one(
    alloc: Global,
    effect: &Effect,
    text: Option<Text>,
) -> Result<(CallOutcome, Option<Spot>), NoMemory>
    ensures { IfOk result (λ made. (tables : Tables) → get tables (row_of effect.now) ≡ text
        → rows.Makes effect.now tables made.0 made.1) }
{
    let spot = Spot {
        table: effect.table,
        key: effect.key,
        text,
    };
    match apply(alloc, slice::from_ref(&spot), slice::from_ref(effect)) {
        Ok(after) => Ok((CallOutcome::Done, only(after))),
        Err(EffectFault::Refused { index: _, reason }) => Ok((CallOutcome::Refused(reason), None)),
        Err(EffectFault::NoMemory) => Err(NoMemory),
    }
}

/// What a text comes to, and the business row that it leaves, if it changes one.
fn work_out<K: Keeper>(
    alloc: Global,
    keeper: &mut K,
    text: &Text,
) -> Result<(CallOutcome, Option<Spot>), KeepFault>
    requires { K.is_open keeper.old }
    ensures comes { IfOk result (λ made. IfSome (K.held keeper.old)
        (λ held. (r : Ran) → StandFor held r → Comes text.now r.tables made.0 made.1)) }
    ensures stays { UnlessFailed result (Stays K.held K.is_open K.has_room keeper.old keeper.new) }
    ensures told { is_some (K.held keeper.new) ≡ is_some (K.held keeper.old) }
    ensures crash { IsWithin (K.may_leave keeper.new) (K.may_leave keeper.old) }
    ensures cause { HasFaultCause (K.faults keeper.old) (K.faults keeper.new) result }
{
    let Some(effect) = read_effect(alloc, text.bytes())? else {
        return Ok((CallOutcome::BadText, None));
    };
    let row = read_text(alloc, keeper, &effect.table, &effect.key)?;
    match apply_one(alloc, &effect, row) {
        Ok(made) => Ok(made),
        Err(_) => Err(KeepFault::NoMemory),
    }
}

/// Takes room for a batch, and commits it.
fn write<K: Keeper>(alloc: Global, keeper: &mut K, batch: &[Change]) -> Result<(), KeepFault>
    requires opened { K.is_open keeper.old }
    requires batch { IsBatch batch.now }
    ensures done { OnOk result (K.held keeper.new ≡ held_after batch.now (K.held keeper.old)) }
    ensures opened { UnlessFailed result (K.is_open keeper.new) }
    ensures stays { OnNoMemory result (K.held keeper.new ≡ K.held keeper.old) }
    ensures either { IfSome (K.held keeper.old) (λ held. (left : Rows) → K.may_leave keeper.new left
        → IsBeforeOrAfter held (changed batch.now held) left) }
    ensures told { is_some (K.held keeper.new) ≡ is_some (K.held keeper.old) }
    ensures cause { HasFaultCause (K.faults keeper.old) (K.faults keeper.new) result }
{
    keeper.room(alloc, batch)?;
    match keeper.commit(batch) {
        Ok(()) => Ok(()),
        Err(Failed) => Err(KeepFault::Failed),
    }
}

/// Executes a call whose identifier isn't known, at this place.
pub fn execute_new<K: Keeper>(
    alloc: Global,
    keeper: &mut K,
    place: u64,
    tid: &Key,
    text: &Text,
) -> Result<CallOutcome, KeepFault>
    requires { K.is_open keeper.old }
    ensures done { IfOk result (λ outcome. IfSome (K.held keeper.old) (λ held. (r : Ran) → StandFor held r
        → IsDoneAt place (record { tid = tid.now; text = text.now }) r held outcome (K.held keeper.new))) }
    ensures opened { UnlessFailed result (K.is_open keeper.new) }
    ensures stays { OnNoMemory result (K.held keeper.new ≡ K.held keeper.old) }
    ensures either { IfSome (K.held keeper.old)
        (λ held. (r : Ran) → StandFor held r → (left : Rows) → K.may_leave keeper.new left
        → IsBeforeOrAfter held (with_call_at place (record { tid = tid.now; text = text.now }) r held) left) }
    ensures told { is_some (K.held keeper.new) ≡ is_some (K.held keeper.old) }
    ensures cause { HasFaultCause (K.faults keeper.old) (K.faults keeper.new) result }
{
    let (outcome, row) = work_out(alloc, keeper, text)?;
    let batch = call_batch(alloc, place, tid, text, outcome, &row)?;
    write(alloc, keeper, batch.as_slice())?;
    Ok(outcome)
}
