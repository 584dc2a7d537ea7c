ghost use Rattle.std.specs.Prelude.{◌≡◌, [], ◌∷◌, map, option_map, is_some, IfOk, IfSome, OnOk, Some, None};
ghost use Rattle.keeper_api.specs.Batch.{IsBatch, changed, held_after};
ghost use Rattle.keeper_api.specs.Keeping.{HasFaultCause, IsBeforeOrAfter, IsWithin, Stays};
ghost use Rattle.keeper_api.specs.Rows.{Rows};
ghost use Rattle.remote_sending.specs.Growing.{AreCallsOf};
ghost use Rattle.remote_sending.specs.Outbox as outbox;
ghost use Rattle.remote_sending.specs.Outbox.{call_in, first_bad, first_bad_from, outbox_change, with_call};
ghost use Rattle.remote_sending.specs.Sends.{IsOutboxEnd, IsRowsEnd, OnBadRow, RisesIf, UnlessOutboxFault, ended_as, is_outbox_fault};

use crate::fault::{SendFault, of_outbox};
use enq_base::{Failed, Items, Key, NoMemory, Text};
use keeper_api::{Change, KeepFault, Keeper, Row};
use remote_target::{CallOutcome, outcome_coded, outcome_codes, text_if};
use std::alloc::Global;
use table_reading::read_table;

/// A call in the outbox; one without an outcome is open.
#[derive(Drop)]
pub struct OutboxCall {
    pub tid: Key,
    pub text: Text,
    pub outcome: Option<CallOutcome>,
}

fn state_codes(outcome: Option<CallOutcome>) -> (u8, u8)
    ensures { result ≡ outbox.state_codes outcome }
{
    match outcome {
        None => (0, 0),
        Some(outcome) => outcome_codes(outcome),
    }
}

fn call_changes(
    alloc: Global,
    tid: &Key,
    text: &Text,
    outcome: Option<CallOutcome>,
) -> Result<Vec<Change>, NoMemory>
    ensures { IfOk result (λ batch. batch.items ≡ outbox_change tid.now text.now outcome ∷ []) }
{
    let (number, reason) = state_codes(outcome);
    let mut value = Vec::new(alloc);
    value.push(number)?;
    value.push(reason)?;
    value.extend_from_slice(text.bytes())?;
    let mut batch = Vec::new(alloc);
    batch.push(Change::Put {
        table: 0,
        key: Items::from_vec(Vec::from_slice(alloc, tid.bytes())?),
        value: Items::from_vec(value),
    })?;
    Ok(batch)
}

/// The changes that store a call with its outcome.
fn call_batch(
    alloc: Global,
    tid: &Key,
    text: &Text,
    outcome: Option<CallOutcome>,
) -> Result<Vec<Change>, NoMemory>
    ensures rows { IfOk result (λ batch. batch.items ≡ outbox_change tid.now text.now outcome ∷ []) }
    ensures batch { IfOk result (λ batch. IsBatch batch.items) }
{
    let _key = tid.bytes();
    call_changes(alloc, tid, text, outcome)
}

/// Takes room for a batch, and commits it.
fn write<O: Keeper>(alloc: Global, outbox: &mut O, batch: &[Change]) -> Result<(), KeepFault>
    requires opened { O.is_open outbox.old }
    requires batch { IsBatch batch.now }
    ensures done { OnOk result (O.held outbox.new ≡ held_after batch.now (O.held outbox.old)) }
    ensures opened { OnOk result (O.is_open outbox.new) }
    ensures either { IfSome (O.held outbox.old) (λ held. (left : Rows) → O.may_leave outbox.new left
        → IsBeforeOrAfter held (changed batch.now held) left) }
    ensures told { is_some (O.held outbox.new) ≡ is_some (O.held outbox.old) }
    ensures cause { HasFaultCause (O.faults outbox.old) (O.faults outbox.new) result }
{
    outbox.room(alloc, batch)?;
    match outbox.commit(batch) {
        Ok(()) => Ok(()),
        Err(Failed) => Err(KeepFault::Failed),
    }
}

/// Stores a call with its outcome, over what stands under its identifier. After `Failed` only `reopen` is allowed.
pub fn store<O: Keeper>(
    alloc: Global,
    outbox: &mut O,
    tid: &Key,
    text: &Text,
    outcome: Option<CallOutcome>,
) -> Result<(), KeepFault>
    requires { O.is_open outbox.old }
    ensures done { OnOk result
        (O.held outbox.new ≡ option_map (with_call tid.now text.now outcome) (O.held outbox.old)) }
    ensures opened { OnOk result (O.is_open outbox.new) }
    ensures either { IfSome (O.held outbox.old) (λ rows. (left : Rows) → O.may_leave outbox.new left
        → IsBeforeOrAfter rows (with_call tid.now text.now outcome rows) left) }
    ensures told { is_some (O.held outbox.new) ≡ is_some (O.held outbox.old) }
    ensures cause { HasFaultCause (O.faults outbox.old) (O.faults outbox.new) result }
{
    let batch = call_batch(alloc, tid, text, outcome)?;
    write(alloc, outbox, batch.as_slice())
}

/// The state that two bytes stand for.
fn state_coded(number: u8, reason: u8) -> Option<Option<CallOutcome>>
    ensures { result ≡ outbox.state_coded number reason }
{
    if number == 0 && reason == 0 {
        return Some(None);
    }
    match outcome_coded(number, reason) {
        Some(outcome) => Some(Some(outcome)),
        None => None,
    }
}

/// The call with this identifier that a value spells. None comes exactly where it spells none.
fn call_under(alloc: Global, tid: &Key, value: &[u8]) -> Result<Option<OutboxCall>, NoMemory>
    ensures { IfOk result (λ call. call ≡ outbox.call_under tid.now value.now) }
{
    let _key = tid.bytes();
    let [number, reason, rest @ ..] = value else {
        return Ok(None);
    };
    let Some(text) = text_if(alloc, rest)? else {
        return Ok(None);
    };
    match state_coded(*number, *reason) {
        Some(outcome) => Ok(Some(OutboxCall {
            tid: *tid,
            text,
            outcome,
        })),
        None => Ok(None),
    }
}

/// The call that a row of the outbox spells. None comes exactly where it spells none.
fn call_in(alloc: Global, row: &Row) -> Result<Option<OutboxCall>, NoMemory>
    ensures { IfOk result (λ call. call ≡ call_in row.now) }
{
    match Key::new(row.key.as_slice()) {
        Some(tid) => call_under(alloc, &tid, row.value.as_slice()),
        None => Ok(None),
    }
}

/// The calls that rows spell, or the first row that spells none.
fn calls_in(alloc: Global, rows: &[Row]) -> Result<Vec<OutboxCall>, SendFault>
    ensures calls { IfOk result (λ calls. map call_in rows.now ≡ map Some calls.items) }
    ensures bad { OnBadRow (ended_as result) (λ table row. (table ≡ 0) × (first_bad_from 1 rows.now ≡ Some row)) }
    ensures end { IsRowsEnd (ended_as result) }
{
    let mut calls = Vec::new(alloc);
    for (i, row) in rows.iter().enumerate() {
        match call_in(alloc, row) {
            Ok(Some(call)) => match calls.push(call) {
                Ok(()) => {}
                Err(_) => return Err(SendFault::NoMemory),
            },
            Ok(None) => {
                return Err(SendFault::BadRow {
                    table: 0,
                    row: i as u64 + 1,
                });
            }
            Err(_) => return Err(SendFault::NoMemory),
        }
    }
    Ok(calls)
}

/// The calls of an opened outbox, in the order of their identifiers, or its first bad row.
pub fn read_calls<O: Keeper>(alloc: Global, outbox: &mut O) -> Result<Vec<OutboxCall>, SendFault>
    requires { O.is_open outbox.old }
    ensures calls { IfOk result
        (λ calls. IfSome (O.held outbox.old) (λ rows. AreCallsOf rows calls.items)) }
    ensures bad { OnBadRow (ended_as result)
        (λ table row. (table ≡ 0) × IfSome (O.held outbox.old) (λ rows. first_bad rows ≡ Some row)) }
    ensures stays { UnlessOutboxFault (ended_as result)
        (Stays O.held O.is_open O.has_room outbox.old outbox.new) }
    ensures told { is_some (O.held outbox.new) ≡ is_some (O.held outbox.old) }
    ensures crash { IsWithin (O.may_leave outbox.new) (O.may_leave outbox.old) }
    ensures cause { RisesIf (is_outbox_fault (ended_as result)) (O.faults outbox.old) (O.faults outbox.new) }
    ensures end { IsOutboxEnd (ended_as result) }
{
    match read_table(alloc, outbox, 0) {
        Ok(rows) => calls_in(alloc, rows.as_slice()),
        Err(fault) => Err(of_outbox(fault)),
    }
}
