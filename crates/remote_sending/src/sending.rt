ghost use Rattle.std.specs.Prelude.{◌≡◌, ◌*◌, ◌<◌, ◌^◌, ◌++◌, ◌∷◌, [], List, Option, None, Some, length, option_map, is_none, is_some, true, IfOk, IfErr, IfSome, OnOk};
ghost use Rattle.std.specs.Io.KnownBytes.{Appends};
ghost use Rattle.enq_base.specs.Causes.{Rose};
ghost use Rattle.io_edge.specs.Known.{AppendsFirst};
ghost use Rattle.keeper_api.specs.Keeping.{IsWithin};
ghost use Rattle.keeper_api.specs.Rows.{Rows};
ghost use Rattle.remote_sending.specs.Growing.{AllStand, AreCallsOf, AreOpenBefore, IsAsked, IsGrown, IsUnderWay, asked};
ghost use Rattle.remote_sending.specs.Outbox.{call_with, first_bad, outbox_calls, outcome_at, system_calls};
ghost use Rattle.remote_sending.specs.Report as text;
ghost use Rattle.remote_sending.specs.Report.{Writes, call_lines, report};
ghost use Rattle.remote_sending.specs.Sends as sends;
ghost use Rattle.remote_sending.specs.Sends.{EndsAs, GoesOn, HasMissed, IsAllSent, IsBadWords, IsDoneOrShort, IsOpenedEnd};
ghost use Rattle.remote_sending.specs.Sends.{IsOutboxEnd, IsKeeperEnd, IsSendEnd, IsSinkEnd, IsStopped, IsStoppedAt, IsSystemEnd};
ghost use Rattle.remote_sending.specs.Sends.{OnBadRow, OnDone, RisesIf, RoseBy, ended_as, open_number};
ghost use Rattle.remote_sending.specs.Sends.{is_outbox_fault, is_sink_fault, is_system_fault};
ghost use Rattle.remote_sending.specs.declared.outbox.OutboxCall.{OutboxCall as OutboxCallOf};

use crate::asking::settle;
use crate::collecting::{collect, system_calls};
use crate::fault::{SendFault, of_outbox, of_system};
use crate::outbox::{OutboxCall, read_calls};
use crate::report::{Counts, call_line, counted, counts_line, no_counts};
use enq_base::{Failed, Items, Key};
use io_edge::{Sink, put_all};
use keeper_api::Keeper;
use remote_target::{CallOutcome, Carrier};
use std::alloc::Global;

/// How a run of sending ended.
#[derive(Clone, Copy, Debug, PartialEq, Eq)]
pub enum TrfcWhy {
    Done,
    BadWords,
    SinkFault,
    SystemFault,
    OutboxFault,
    /// The first row of the outbox that is none of its rows, by its place in the order of keys, counted from 1.
    BadRow { table: u8, row: u64 },
    NoMemory,
}

fn why_behind(fault: SendFault) -> TrfcWhy
    ensures { result ≡ sends.why_behind fault }
{
    match fault {
        SendFault::Sink => TrfcWhy::SinkFault,
        SendFault::System => TrfcWhy::SystemFault,
        SendFault::Outbox => TrfcWhy::OutboxFault,
        SendFault::BadRow { table, row } => TrfcWhy::BadRow { table, row },
        SendFault::NoMemory => TrfcWhy::NoMemory,
    }
}

/// The end of a run: its status, why, and the devices.
#[derive(Drop)]
pub struct TrfcEnded<K: Keeper, O: Keeper, C: Carrier + Drop> {
    pub status: u8,
    pub why: TrfcWhy,
    pub system: K,
    pub outbox: O,
    pub carrier: C,
}

fn status_of(why: TrfcWhy) -> u8
    ensures { result ≡ sends.status_code why }
{
    match why {
        TrfcWhy::Done => 0,
        TrfcWhy::BadWords => 2,
        TrfcWhy::SinkFault => 6,
        TrfcWhy::SystemFault => 7,
        TrfcWhy::OutboxFault => 8,
        TrfcWhy::BadRow { table: _, row: _ } => 9,
        TrfcWhy::NoMemory => 12,
    }
}

fn say<T: Sink>(sink: &mut T, bytes: &[u8]) -> Result<(), SendFault>
    ensures ok { OnOk result (Appends (T.written sink.old) (T.written sink.new) bytes.now) }
    ensures first { AppendsFirst (T.written sink.old) (T.written sink.new) bytes.now }
    ensures cause { RisesIf (is_sink_fault (ended_as result)) (T.faults sink.old) (T.faults sink.new) }
    ensures end { IsSinkEnd (ended_as result) }
{
    match put_all(sink, bytes) {
        Ok(()) => Ok(()),
        Err(Failed) => Err(SendFault::Sink),
    }
}

/// Tells what became of a call.
fn say_call<T: Sink>(
    alloc: Global,
    sink: &mut T,
    tid: &Key,
    outcome: Option<CallOutcome>,
) -> Result<(), SendFault>
    ensures ok { OnOk result (Appends (T.written sink.old) (T.written sink.new) (text.call_line tid.now outcome)) }
    ensures first { AppendsFirst (T.written sink.old) (T.written sink.new) (text.call_line tid.now outcome) }
    ensures cause { RisesIf (is_sink_fault (ended_as result)) (T.faults sink.old) (T.faults sink.new) }
    ensures end { IsSinkEnd (ended_as result) }
{
    match call_line(alloc, tid, outcome) {
        Ok(line) => say(sink, line.as_slice()),
        Err(_) => Err(SendFault::NoMemory),
    }
}

/// Tells how many calls the outbox has, and what became of them.
fn say_counts<T: Sink>(
    alloc: Global,
    sink: &mut T,
    number: u64,
    counts: Counts,
) -> Result<(), SendFault>
    ensures ok { OnOk result (Appends (T.written sink.old) (T.written sink.new) (text.counts_line number counts)) }
    ensures first { AppendsFirst (T.written sink.old) (T.written sink.new) (text.counts_line number counts) }
    ensures cause { RisesIf (is_sink_fault (ended_as result)) (T.faults sink.old) (T.faults sink.new) }
    ensures end { IsSinkEnd (ended_as result) }
{
    match counts_line(alloc, number, counts) {
        Ok(line) => say(sink, line.as_slice()),
        Err(_) => Err(SendFault::NoMemory),
    }
}

/// Sends an open call, stores its outcome and tells it.
fn send_one<T: Sink, O: Keeper, C: Carrier>(
    alloc: Global,
    sink: &mut T,
    outbox: &mut O,
    carrier: &mut C,
    call: &OutboxCall,
) -> Result<Option<CallOutcome>, SendFault>
    requires { O.is_open outbox.old }
    ensures rows { IfOk result
        (λ outcome. O.held outbox.new ≡ option_map (asked call.now outcome) (O.held outbox.old)) }
    ensures line { IfOk result
        (λ outcome. Appends (T.written sink.old) (T.written sink.new) (text.call_line call.now.tid outcome)) }
    ensures opened { OnOk result (O.is_open outbox.new) }
    ensures stopped { IfErr result
        (λ _. IsStopped call.now (O.held outbox.old) (O.held outbox.new) (T.written sink.old) (T.written sink.new)) }
    ensures left { IfSome (O.held outbox.old) (λ rows. (left : Rows) → O.may_leave outbox.new left
        → IsAsked (C.executed carrier.new) call.now rows left) }
    ensures told { is_some (O.held outbox.new) ≡ is_some (O.held outbox.old) }
    ensures goes_on { GoesOn (C.executed carrier.old) (C.executed carrier.new) }
    ensures misses { IfOk result (λ outcome. HasMissed 8 outcome (C.misses carrier.old) (C.misses carrier.new)) }
    ensures sink { RisesIf (is_sink_fault (ended_as result)) (T.faults sink.old) (T.faults sink.new) }
    ensures cause { RisesIf (is_outbox_fault (ended_as result)) (O.faults outbox.old) (O.faults outbox.new) }
    ensures end { IsSendEnd (ended_as result) }
{
    match settle(alloc, outbox, carrier, call) {
        Ok(outcome) => match say_call(alloc, sink, &call.tid, outcome) {
            Ok(()) => Ok(outcome),
            Err(fault) => Err(fault),
        },
        Err(fault) => Err(fault),
    }
}

/// Sends a call if it is open, and answers its outcome.
fn send_if_open<T: Sink, O: Keeper, C: Carrier>(
    alloc: Global,
    sink: &mut T,
    outbox: &mut O,
    carrier: &mut C,
    call: &OutboxCall,
) -> Result<Option<CallOutcome>, SendFault>
    requires { O.is_open outbox.old }
    // The call stands among the others with its outcome.
    ensures rows { IfOk result
        (λ outcome. (told : Option (List OutboxCallOf)) (found : Rows) (before after : List OutboxCallOf)
        → IfSome (O.held outbox.old)
        (λ rows. IsUnderWay told (C.executed carrier.old) found rows (before ++ call.now ∷ after))
        → IfSome (O.held outbox.new) (λ rows. IsUnderWay told (C.executed carrier.new) found rows
        (before ++ call_with call.now.tid call.now.text outcome ∷ after))) }
    ensures line { IfOk result (λ outcome. (found : Rows)
        → is_none call.now.outcome ≡ is_none (outcome_at found call.now.tid)
        → Appends (T.written sink.old) (T.written sink.new) (call_lines found
        (call_with call.now.tid call.now.text outcome ∷ []))) }
    ensures opened { OnOk result (O.is_open outbox.new) }
    // Where it stops, what was written is a beginning of what the outbox has of this call and those behind it.
    ensures stopped { IfErr result (λ _. (found : Rows) (before after : List OutboxCallOf)
        → is_none call.now.outcome ≡ is_none (outcome_at found call.now.tid)
        → IfSome (O.held outbox.old) (λ rows. AreCallsOf rows (before ++ call.now ∷ after))
        → IfSome (O.held outbox.new) (λ rows. IsStoppedAt found call.now before after rows
        (T.written sink.old) (T.written sink.new))) }
    ensures left { (told : Option (List OutboxCallOf)) (found : Rows) (before after : List OutboxCallOf)
        → IfSome (O.held outbox.old) (λ rows.
        IsUnderWay told (C.executed carrier.old) found rows (before ++ call.now ∷ after)
        → (left : Rows) → O.may_leave outbox.new left → IsGrown told (C.executed carrier.new) found left) }
    ensures told { is_some (O.held outbox.new) ≡ is_some (O.held outbox.old) }
    ensures goes_on { GoesOn (C.executed carrier.old) (C.executed carrier.new) }
    ensures misses { IfOk result (λ outcome. HasMissed 8 outcome (C.misses carrier.old) (C.misses carrier.new)) }
    ensures sink { RisesIf (is_sink_fault (ended_as result)) (T.faults sink.old) (T.faults sink.new) }
    ensures cause { RisesIf (is_outbox_fault (ended_as result)) (O.faults outbox.old) (O.faults outbox.new) }
    ensures end { IsSendEnd (ended_as result) }
{
    match call.outcome {
        Some(outcome) => Ok(Some(outcome)),
        None => send_one(alloc, sink, outbox, carrier, call),
    }
}

/// Sends each open call, in the order of their identifiers, and counts what became of all.
fn send_open<T: Sink, O: Keeper, C: Carrier>(
    alloc: Global,
    sink: &mut T,
    outbox: &mut O,
    carrier: &mut C,
    calls: &[OutboxCall],
) -> Result<Counts, SendFault>
    requires opened { O.is_open outbox.old }
    requires few { length calls.now < 2 ^ 63 }
    ensures left { (told : Option (List OutboxCallOf)) (found : Rows) → IfSome (O.held outbox.old) (λ rows.
        IsUnderWay told (C.executed carrier.old) found rows calls.now
        → (left : Rows) → O.may_leave outbox.new left → IsGrown told (C.executed carrier.new) found left) }
    ensures sent { IfOk result (λ counts. (found : Rows) → AreOpenBefore found calls.now
        → IfSome (O.held outbox.old) (λ rows. AreCallsOf rows calls.now)
        → IfSome (O.held outbox.new) (λ now. IsAllSent found now (length calls.now) counts
        (T.written sink.old) (T.written sink.new))) }
    ensures stopped { IfErr result (λ _. (found : Rows) → AreOpenBefore found calls.now
        → IfSome (O.held outbox.old) (λ rows. AreCallsOf rows calls.now)
        → IfSome (O.held outbox.new) (λ now. AppendsFirst (T.written sink.old) (T.written sink.new)
        (call_lines found (outbox_calls now)))) }
    ensures misses { IfOk result
        (λ counts. RoseBy (8 * counts.open_calls) (C.misses carrier.old) (C.misses carrier.new)) }
    ensures told { is_some (O.held outbox.new) ≡ is_some (O.held outbox.old) }
    ensures goes_on { GoesOn (C.executed carrier.old) (C.executed carrier.new) }
    ensures sink { RisesIf (is_sink_fault (ended_as result)) (T.faults sink.old) (T.faults sink.new) }
    ensures cause { RisesIf (is_outbox_fault (ended_as result)) (O.faults outbox.old) (O.faults outbox.new) }
    ensures end { IsSendEnd (ended_as result) }
{
    let mut counts = no_counts();
    for call in calls {
        match send_if_open(alloc, sink, outbox, carrier, call) {
            Ok(outcome) => counts = counted(counts, outcome),
            Err(fault) => return Err(fault),
        }
    }
    Ok(counts)
}

/// Sends what is open in an opened outbox and what these calls bring to it, and tells what became of all.
fn send_opened<T: Sink, O: Keeper, C: Carrier>(
    alloc: Global,
    sink: &mut T,
    outbox: &mut O,
    carrier: &mut C,
    new: &[OutboxCall],
) -> Result<(), SendFault>
    requires { O.is_open outbox.old }
    ensures grown { (told : Option (List OutboxCallOf)) → IfSome told (λ told. told ≡ new.now)
        → IfSome (O.held outbox.old) (λ found. (left : Rows) → O.may_leave outbox.new left
        → IsGrown told (C.executed carrier.new) found left) }
    ensures written { IfSome (O.held outbox.old) (λ found. IfSome (O.held outbox.new)
        (λ now. Writes (ended_as result) (T.written sink.old) (T.written sink.new) (report found now))) }
    ensures bad { OnBadRow (ended_as result)
        (λ table row. (table ≡ 0) × IfSome (O.held outbox.old) (λ found. first_bad found ≡ Some row)) }
    ensures good { OnOk result (IfSome (O.held outbox.old) (λ found. first_bad found ≡ None)) }
    ensures good_now { OnOk result (IfSome (O.held outbox.new) (λ now. first_bad now ≡ None)) }
    ensures stand { OnOk result (IfSome (O.held outbox.new) (AllStand new.now)) }
    ensures misses { OnOk result (IfSome (O.held outbox.new)
        (λ now. RoseBy (8 * open_number now) (C.misses carrier.old) (C.misses carrier.new))) }
    ensures told { is_some (O.held outbox.new) ≡ is_some (O.held outbox.old) }
    ensures sink { RisesIf (is_sink_fault (ended_as result)) (T.faults sink.old) (T.faults sink.new) }
    ensures cause { RisesIf (is_outbox_fault (ended_as result)) (O.faults outbox.old) (O.faults outbox.new) }
    ensures end { IsOpenedEnd (ended_as result) }
{
    let calls = match collected(alloc, outbox, new) {
        Ok(calls) => calls,
        Err(fault) => return Err(fault),
    };
    let counts = match send_open(alloc, sink, outbox, carrier, calls.as_slice()) {
        Ok(counts) => counts,
        Err(fault) => return Err(fault),
    };
    say_counts(alloc, sink, calls.len() as u64, counts)
}

/// Copies each of these calls that isn't in the outbox into it, and answers all calls that it has then.
fn collected<O: Keeper>(
    alloc: Global,
    outbox: &mut O,
    new: &[OutboxCall],
) -> Result<Vec<OutboxCall>, SendFault>
    requires { O.is_open outbox.old }
    ensures opened { OnOk result (O.is_open outbox.new) }
    // Nothing was executed yet: rows are as they were found, or of a call that is open.
    ensures grown { (told : Option (List OutboxCallOf)) → IfSome told (λ told. told ≡ new.now)
        → IfSome (O.held outbox.old) (λ found. (left : Rows) → O.may_leave outbox.new left
        → IsGrown told (Some []) found left) }
    ensures calls { IfOk result (λ calls. IfSome (O.held outbox.new) (λ rows. AreCallsOf rows calls.items)) }
    ensures bad { OnBadRow (ended_as result)
        (λ table row. (table ≡ 0) × IfSome (O.held outbox.old) (λ found. first_bad found ≡ Some row)) }
    ensures good { OnOk result (IfSome (O.held outbox.old) (λ found. first_bad found ≡ None)) }
    ensures stand { OnOk result (IfSome (O.held outbox.new) (AllStand new.now)) }
    ensures told { is_some (O.held outbox.new) ≡ is_some (O.held outbox.old) }
    ensures cause { RisesIf (is_outbox_fault (ended_as result)) (O.faults outbox.old) (O.faults outbox.new) }
    ensures end { IsOutboxEnd (ended_as result) }
{
    match read_calls(alloc, outbox) {
        Ok(found) => drop(found),
        Err(fault) => return Err(fault),
    }
    match collect(alloc, outbox, new) {
        Ok(()) => read_calls(alloc, outbox),
        Err(fault) => Err(of_outbox(fault)),
    }
}

fn open_outbox<O: Keeper>(alloc: Global, outbox: &mut O) -> Result<(), SendFault>
    ensures opened { OnOk result (O.is_open outbox.new) }
    ensures found { OnOk result (IfSome (O.held outbox.new) (O.may_leave outbox.old)) }
    ensures told { is_some (O.held outbox.new) ≡ is_some (O.held outbox.old) }
    ensures crash { IsWithin (O.may_leave outbox.new) (O.may_leave outbox.old) }
    ensures cause { RisesIf (is_outbox_fault (ended_as result)) (O.faults outbox.old) (O.faults outbox.new) }
    ensures end { IsKeeperEnd (ended_as result) }
{
    match outbox.reopen(alloc) {
        Ok(()) => Ok(()),
        Err(fault) => Err(of_outbox(fault)),
    }
}

fn read_system<K: Keeper>(alloc: Global, system: &mut K) -> Result<Vec<OutboxCall>, SendFault>
    ensures calls { IfOk result
        (λ calls. IfSome (K.held system.new) (λ rows. calls.items ≡ system_calls rows)) }
    ensures told { is_some (K.held system.new) ≡ is_some (K.held system.old) }
    ensures crash { IsWithin (K.may_leave system.new) (K.may_leave system.old) }
    ensures cause { RisesIf (is_system_fault (ended_as result)) (K.faults system.old) (K.faults system.new) }
    ensures end { IsSystemEnd (ended_as result) }
{
    match system_calls(alloc, system) {
        Ok(calls) => Ok(calls),
        Err(fault) => Err(of_system(fault)),
    }
}

fn send_all<T: Sink, K: Keeper, O: Keeper, C: Carrier>(
    alloc: Global,
    sink: &mut T,
    system: &mut K,
    outbox: &mut O,
    carrier: &mut C,
) -> Result<(), SendFault>
    ensures ends { IfSome (O.held outbox.old)
        (λ _. EndsAs (option_map system_calls (K.held system.new)) (C.executed carrier.new)
        (ended_as result) (O.may_leave outbox.old) (O.may_leave outbox.new) (O.held outbox.new)
        (T.written sink.old) (T.written sink.new)) }
    ensures good { OnDone (ended_as result) (IfSome (O.held outbox.new) (λ now. first_bad now ≡ None)) }
    ensures stand { OnDone (ended_as result) (IfSome (K.held system.new)
        (λ rows. IfSome (O.held outbox.new) (AllStand (system_calls rows)))) }
    ensures misses { OnDone (ended_as result) (IfSome (O.held outbox.new)
        (λ now. RoseBy (8 * open_number now) (C.misses carrier.old) (C.misses carrier.new))) }
    ensures told { is_some (O.held outbox.new) ≡ is_some (O.held outbox.old) }
    ensures system_told { is_some (K.held system.new) ≡ is_some (K.held system.old) }
    ensures read { IsWithin (K.may_leave system.new) (K.may_leave system.old) }
    ensures sink { RisesIf (is_sink_fault (ended_as result)) (T.faults sink.old) (T.faults sink.new) }
    ensures system { RisesIf (is_system_fault (ended_as result)) (K.faults system.old) (K.faults system.new) }
    ensures outbox { RisesIf (is_outbox_fault (ended_as result)) (O.faults outbox.old) (O.faults outbox.new) }
    ensures end { IsBadWords true (ended_as result) }
{
    let new = match read_system(alloc, system) {
        Ok(new) => new,
        Err(fault) => return Err(fault),
    };
    match open_outbox(alloc, outbox) {
        Ok(()) => {}
        Err(fault) => return Err(fault),
    }
    send_opened(alloc, sink, outbox, carrier, new.as_slice())
}

fn is_send(words: &[Items<u8>]) -> bool
    ensures { result ≡ sends.is_send words.now }
{
    match words {
        [word] => word.as_slice() == b"send".as_slice(),
        _ => false,
    }
}

fn why_of<T: Sink, K: Keeper, O: Keeper, C: Carrier>(
    alloc: Global,
    words: &[Items<u8>],
    sink: &mut T,
    system: &mut K,
    outbox: &mut O,
    carrier: &mut C,
) -> TrfcWhy
    ensures words { IsBadWords (sends.is_send words.now) result }
    ensures ends { IfSome (O.held outbox.old)
        (λ _. EndsAs (option_map system_calls (K.held system.new)) (C.executed carrier.new)
        result (O.may_leave outbox.old) (O.may_leave outbox.new) (O.held outbox.new)
        (T.written sink.old) (T.written sink.new)) }
    ensures good { OnDone result (IfSome (O.held outbox.new) (λ now. first_bad now ≡ None)) }
    ensures stand { OnDone result (IfSome (K.held system.new)
        (λ rows. IfSome (O.held outbox.new) (AllStand (system_calls rows)))) }
    ensures misses { OnDone result (IfSome (O.held outbox.new)
        (λ now. RoseBy (8 * open_number now) (C.misses carrier.old) (C.misses carrier.new))) }
    ensures told { is_some (O.held outbox.new) ≡ is_some (O.held outbox.old) }
    ensures system_told { is_some (K.held system.new) ≡ is_some (K.held system.old) }
    ensures read { IsWithin (K.may_leave system.new) (K.may_leave system.old) }
    ensures sink { RisesIf (is_sink_fault result) (T.faults sink.old) (T.faults sink.new) }
    ensures system { RisesIf (is_system_fault result) (K.faults system.old) (K.faults system.new) }
    ensures outbox { RisesIf (is_outbox_fault result) (O.faults outbox.old) (O.faults outbox.new) }
{
    if !is_send(words) {
        return TrfcWhy::BadWords;
    }
    match send_all(alloc, sink, system, outbox, carrier) {
        Ok(()) => TrfcWhy::Done,
        Err(fault) => why_behind(fault),
    }
}

/// Sends the calls of a system that its target hasn't answered yet, by the word `send`, and tells what became of them.
pub fn trfc_main<T: Sink, K: Keeper, O: Keeper, C: Carrier + Drop>(
    alloc: Global,
    words: &[Items<u8>],
    sink: &mut T,
    system: K,
    outbox: O,
    carrier: C,
) -> TrfcEnded<K, O, C>
    ensures status { result.status ≡ sends.status_code result.why }
    // `BadWords` comes exactly where the words are others.
    ensures words { IsBadWords (sends.is_send words.now) result.why }
    // What the outbox may be left with, and what was written of it, where its keeper tells its rows.
    ensures ends { IfSome (O.held outbox)
        (λ _. EndsAs (option_map system_calls (K.held result.system)) (C.executed result.carrier)
        result.why (O.may_leave outbox) (O.may_leave result.outbox) (O.held result.outbox)
        (T.written sink.old) (T.written sink.new)) }
    // `Done` comes only where the outbox is in its grammar, and each call of the system stands in it.
    ensures good { OnDone result.why (IfSome (O.held result.outbox) (λ now. first_bad now ≡ None)) }
    ensures stand { OnDone result.why (IfSome (K.held result.system)
        (λ rows. IfSome (O.held result.outbox) (AllStand (system_calls rows)))) }
    // A call is open behind eight turns alone that each raised the carrier's count, and none where it didn't rise.
    ensures misses { OnDone result.why (IfSome (O.held result.outbox)
        (λ now. RoseBy (8 * open_number now) (C.misses carrier) (C.misses result.carrier))) }
    ensures answered { OnDone result.why (IfSome (O.held result.outbox) (λ now.
        (Rose (C.misses carrier) (C.misses result.carrier) → ⊥) → open_number now ≡ 0)) }
    ensures told { is_some (O.held result.outbox) ≡ is_some (O.held outbox) }
    // The sending system is only read.
    ensures read { IsWithin (K.may_leave result.system) (K.may_leave system) }
    ensures system_told { is_some (K.held result.system) ≡ is_some (K.held system) }
    // Each of these counts rises exactly where its fault is told.
    ensures sink { RisesIf (is_sink_fault result.why) (T.faults sink.old) (T.faults sink.new) }
    ensures system { RisesIf (is_system_fault result.why) (K.faults system) (K.faults result.system) }
    ensures outbox { RisesIf (is_outbox_fault result.why) (O.faults outbox) (O.faults result.outbox) }
    // With the word `send`, an outbox in its grammar and no count risen the run is done, or memory was wanting.
    ensures complete { sends.is_send words.now ≡ true
        → IfSome (O.held outbox) (λ _. ((left : Rows) → O.may_leave outbox left → first_bad left ≡ None)
        → (Rose (T.faults sink.old) (T.faults sink.new) → ⊥)
        → (Rose (K.faults system) (K.faults result.system) → ⊥)
        → (Rose (O.faults outbox) (O.faults result.outbox) → ⊥) → IsDoneOrShort result.why) }
{
    let mut system = system;
    let mut outbox = outbox;
    let mut carrier = carrier;
    let why = why_of(alloc, words, sink, &mut system, &mut outbox, &mut carrier);
    TrfcEnded {
        status: status_of(why),
        why,
        system,
        outbox,
        carrier,
    }
}
