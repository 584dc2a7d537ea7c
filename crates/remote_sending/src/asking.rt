ghost use Rattle.std.specs.Prelude.{◌≡◌, option_map, is_some, IfOk, IfSome, OnOk};
ghost use Rattle.keeper_api.specs.Rows.{Rows};
ghost use Rattle.remote_sending.specs.Growing.{IsAsked, WasExecuted, asked};
ghost use Rattle.remote_sending.specs.Sends as sends;
ghost use Rattle.remote_sending.specs.Sends.{GoesOn, HasMissed, IsKeeperEnd, RisesIf, ended_as, is_outbox_fault};

use crate::fault::{SendFault, of_outbox};
use crate::outbox::{OutboxCall, store};
use enq_base::{Key, NoMemory, Text};
use keeper_api::Keeper;
use remote_target::{CallAnswer, CallOutcome, Carrier};
use std::alloc::Global;

// The turns in which an open call is sent.
const TURNS: u32 = 8;

fn own_outcome(answer: Option<CallAnswer>, tid: &Key) -> Option<CallOutcome>
    ensures { result ≡ sends.own_outcome tid.now answer }
{
    match answer {
        Some(answer) => {
            if answer.tid.bytes() == tid.bytes() {
                Some(answer.outcome)
            } else {
                None
            }
        }
        None => None,
    }
}

/// Sends a call once, and gives its outcome where the answer of this call comes.
fn ask_once<C: Carrier>(
    alloc: Global,
    carrier: &mut C,
    tid: &Key,
    text: &Text,
) -> Result<Option<CallOutcome>, NoMemory>
    ensures outcome { IfOk result (λ outcome. IfSome outcome (WasExecuted (C.executed carrier.new) tid.now)) }
    ensures goes_on { GoesOn (C.executed carrier.old) (C.executed carrier.new) }
    ensures misses { IfOk result (λ outcome. HasMissed 1 outcome (C.misses carrier.old) (C.misses carrier.new)) }
{
    let answer = carrier.turn(alloc, tid, text)?;
    Ok(own_outcome(answer, tid))
}

/// Sends a call until its answer comes, at most eight times.
fn ask<C: Carrier>(
    alloc: Global,
    carrier: &mut C,
    tid: &Key,
    text: &Text,
) -> Result<Option<CallOutcome>, NoMemory>
    ensures outcome { IfOk result (λ outcome. IfSome outcome (WasExecuted (C.executed carrier.new) tid.now)) }
    ensures goes_on { GoesOn (C.executed carrier.old) (C.executed carrier.new) }
    // No outcome comes behind eight turns alone that each raised the carrier's count.
    ensures misses { IfOk result (λ outcome. HasMissed 8 outcome (C.misses carrier.old) (C.misses carrier.new)) }
{
    for turn in 0..TURNS {
        match ask_once(alloc, carrier, tid, text) {
            Ok(Some(outcome)) => return Ok(Some(outcome)),
            Ok(None) => {}
            Err(e) => return Err(e),
        }
    }
    Ok(None)
}

/// Sends an open call, and stores its outcome if one comes.
pub fn settle<O: Keeper, C: Carrier>(
    alloc: Global,
    outbox: &mut O,
    carrier: &mut C,
    call: &OutboxCall,
) -> Result<Option<CallOutcome>, SendFault>
    requires { O.is_open outbox.old }
    ensures rows { IfOk result
        (λ outcome. O.held outbox.new ≡ option_map (asked call.now outcome) (O.held outbox.old)) }
    ensures opened { OnOk result (O.is_open outbox.new) }
    ensures left { IfSome (O.held outbox.old) (λ rows. (left : Rows) → O.may_leave outbox.new left
        → IsAsked (C.executed carrier.new) call.now rows left) }
    ensures told { is_some (O.held outbox.new) ≡ is_some (O.held outbox.old) }
    ensures goes_on { GoesOn (C.executed carrier.old) (C.executed carrier.new) }
    ensures misses { IfOk result (λ outcome. HasMissed 8 outcome (C.misses carrier.old) (C.misses carrier.new)) }
    ensures cause { RisesIf (is_outbox_fault (ended_as result)) (O.faults outbox.old) (O.faults outbox.new) }
    ensures end { IsKeeperEnd (ended_as result) }
{
    let outcome = match ask(alloc, carrier, &call.tid, &call.text) {
        Ok(Some(outcome)) => outcome,
        Ok(None) => return Ok(None),
        Err(_) => return Err(SendFault::NoMemory),
    };
    match store(alloc, outbox, &call.tid, &call.text, Some(outcome)) {
        Ok(()) => Ok(Some(outcome)),
        Err(fault) => Err(of_outbox(fault)),
    }
}
