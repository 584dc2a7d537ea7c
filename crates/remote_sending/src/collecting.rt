ghost use Rattle.std.specs.Prelude.{◌≡◌, ◌++◌, [], true, filter_map, List, Option, None, Some, is_some, IfOk, IfSome, OnOk};
ghost use Rattle.std.specs.List.{cons_option};
ghost use Rattle.keeper_api.specs.Keeping.{HasFaultCause, IsWithin, Stays, UnlessFailed};
ghost use Rattle.keeper_api.specs.Rows.{Rows, value_at};
ghost use Rattle.remote_sending.specs.Outbox as outbox;
ghost use Rattle.remote_sending.specs.Outbox.{first_bad};
ghost use Rattle.remote_sending.specs.Growing.{AllStand, IsGrown, IsWith};
ghost use Rattle.remote_sending.specs.declared.outbox.OutboxCall.{OutboxCall as OutboxCallOf};
ghost use Rattle.remote_target.specs.Runs.{Execution};

use crate::outbox::{OutboxCall, store};
use enq_base::{Key, NoMemory};
use keeper_api::{KeepFault, Keeper, Row};
use remote_target::text_if;
use std::alloc::Global;
use table_reading::read_table;

// The business rows of the sending system.
const BUSINESS: u8 = 6;

// The business table of calls, with its length in front.
const CALL_TABLE: &[u8] = b"\x07TRFCOUT";

/// The call under this key, where both are such.
fn call_if(alloc: Global, key: &[u8], value: &[u8]) -> Result<Option<OutboxCall>, NoMemory>
    ensures { IfOk result (λ call. call ≡ outbox.call_if key.now value.now) }
{
    let Some(tid) = Key::new(key) else {
        return Ok(None);
    };
    let Some(text) = text_if(alloc, value)? else {
        return Ok(None);
    };
    Ok(Some(OutboxCall {
        tid,
        text,
        outcome: None,
    }))
}

/// The call in a business row. None comes exactly where it has none.
fn system_call(alloc: Global, row: &Row) -> Result<Option<OutboxCall>, NoMemory>
    ensures { IfOk result (λ call. call ≡ outbox.system_call row.now) }
{
    let key = row.key.as_slice();
    if !key.starts_with(CALL_TABLE) {
        return Ok(None);
    }
    call_if(alloc, &key[CALL_TABLE.len()..], row.value.as_slice())
}

/// The calls of the sending system, in the order of their identifiers. It is opened and read.
pub fn system_calls<K: Keeper>(alloc: Global, system: &mut K) -> Result<Vec<OutboxCall>, KeepFault>
    ensures calls { IfOk result
        (λ calls. IfSome (K.held system.new) (λ rows. calls.items ≡ outbox.system_calls rows)) }
    ensures told { is_some (K.held system.new) ≡ is_some (K.held system.old) }
    ensures crash { IsWithin (K.may_leave system.new) (K.may_leave system.old) }
    ensures cause { HasFaultCause (K.faults system.old) (K.faults system.new) result }
{
    system.reopen(alloc)?;
    let rows = read_table(alloc, system, BUSINESS)?;
    Ok(calls_of(alloc, rows.as_slice())?)
}

fn calls_of(alloc: Global, rows: &[Row]) -> Result<Vec<OutboxCall>, NoMemory>
    ensures { IfOk result (λ calls. calls.items ≡ filter_map outbox.system_call rows.now) }
{
    let mut calls = Vec::new(alloc);
    for row in rows {
        let call = system_call(alloc, row)?;
        push_if(&mut calls, call)?;
    }
    Ok(calls)
}

fn push_if(calls: &mut Vec<OutboxCall>, call: Option<OutboxCall>) -> Result<(), NoMemory>
    ensures { OnOk result (calls.new.items ≡ calls.old.items ++ cons_option call []) }
{
    match call {
        Some(call) => Ok(calls.push(call)?),
        None => Ok(()),
    }
}

/// Whether an identifier is in the outbox.
fn is_there<O: Keeper>(alloc: Global, outbox: &mut O, tid: &Key) -> Result<bool, KeepFault>
    requires { O.is_open outbox.old }
    ensures there { IfOk result
        (λ there. IfSome (O.held outbox.old) (λ rows. there ≡ is_some (value_at rows 0 tid.now))) }
    ensures stays { UnlessFailed result (Stays O.held O.is_open O.has_room outbox.old outbox.new) }
    ensures told { is_some (O.held outbox.new) ≡ is_some (O.held outbox.old) }
    ensures crash { IsWithin (O.may_leave outbox.new) (O.may_leave outbox.old) }
    ensures cause { HasFaultCause (O.faults outbox.old) (O.faults outbox.new) result }
{
    Ok(outbox.get(alloc, 0, tid.bytes())?.is_some())
}

/// Stores a call, open, where its identifier isn't in the outbox.
fn collect_one<O: Keeper>(alloc: Global, outbox: &mut O, call: &OutboxCall) -> Result<(), KeepFault>
    requires { O.is_open outbox.old }
    ensures left { IfSome (O.held outbox.old)
        (λ rows. (left : Rows) → O.may_leave outbox.new left → IsWith call.now rows left) }
    ensures stands { OnOk result (IfSome (O.held outbox.new) (λ rows. is_some (value_at rows 0 call.now.tid) ≡ true)) }
    ensures good { OnOk result (IfSome (O.held outbox.old) (λ rows. first_bad rows ≡ None)
        → IfSome (O.held outbox.new) (λ rows. first_bad rows ≡ None)) }
    ensures opened { OnOk result (O.is_open outbox.new) }
    ensures told { is_some (O.held outbox.new) ≡ is_some (O.held outbox.old) }
    ensures cause { HasFaultCause (O.faults outbox.old) (O.faults outbox.new) result }
{
    let _key = call.tid.bytes();
    let _text = call.text.bytes();
    let there = is_there(alloc, outbox, &call.tid)?;
    if there {
        return Ok(());
    }
    store(alloc, outbox, &call.tid, &call.text, None)
}

/// Copies each call that isn't in the outbox into it.
pub fn collect<O: Keeper>(
    alloc: Global,
    outbox: &mut O,
    calls: &[OutboxCall],
) -> Result<(), KeepFault>
    requires { O.is_open outbox.old }
    // What had grown from some rows still has, with these calls.
    ensures grown { (found : Rows) (told : Option (List OutboxCallOf)) (executed : Option (List Execution))
        → IfSome told (λ told. told ≡ calls.now) → IfSome (O.held outbox.old) (IsGrown told executed found)
        → (left : Rows) → IfSome (O.held outbox.old)
        (λ _. O.may_leave outbox.new left → IsGrown told executed found left) }
    ensures stand { OnOk result (IfSome (O.held outbox.new) (AllStand calls.now)) }
    // An outbox in its grammar stays so.
    ensures good { OnOk result (IfSome (O.held outbox.old) (λ rows. first_bad rows ≡ None)
        → IfSome (O.held outbox.new) (λ rows. first_bad rows ≡ None)) }
    ensures opened { OnOk result (O.is_open outbox.new) }
    ensures told { is_some (O.held outbox.new) ≡ is_some (O.held outbox.old) }
    ensures cause { HasFaultCause (O.faults outbox.old) (O.faults outbox.new) result }
{
    for call in calls {
        collect_one(alloc, outbox, call)?;
    }
    Ok(())
}
