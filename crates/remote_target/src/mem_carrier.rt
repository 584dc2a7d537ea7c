ghost use Rattle.std.specs.Prelude.{◌≡◌, true, false, None, Ok, IfOk, IfSome, is_err};
ghost use Rattle.remote_target.specs.Carrying as carrying;
ghost use Rattle.remote_target.specs.Carrying.{Carries, executed_by};
ghost use Rattle.remote_target.specs.Executed.{executed_in};
ghost use Rattle.remote_target.specs.Targets.{HasExecuted};

use crate::call::{CallAnswer, CallOutcome};
use crate::carrier::Carrier;
use crate::fault::TargetFault;
use crate::target::Target;
use enq_base::{Key, NoMemory, Text};
use io_edge::Fate;
use keeper_api::Keeper;
use std::alloc::Global;
use std::marker::Model;
use std::snapshot::Snapshot;

#[derive(Drop)]
struct Sent {
    tid: Key,
    text: Text,
}

/// A target, which is opened anew before the next call where it failed.
#[derive(Drop)]
struct Line<K: Keeper> {
    target: Target<K>,
    before: Snapshot<Target<K>>,
    failed: bool,
}

impl<K: Keeper> Model for Line<K> {
    ghost use Rattle.remote_target.specs.Carrying.{IsLine, LineView};

    ghost Value = { LineView K };

    ghost use Rattle.std.specs.Coded.{codes};

    ghost coded = { Prim.hlevel (codes, K.code) };

    ghost view = { λ l. record { target = l.target; before = l.before.value; failed = l.failed } };

    ghost invariant = { λ l. IsLine K.held K.may_leave K.is_open
        (record { target = l.target; before = l.before.value; failed = l.failed }) };
}

fn is_store_fault(outcome: &Result<CallOutcome, TargetFault>) -> bool
    ensures { result ≡ carrying.is_store_fault outcome.now }
{
    matches!(outcome, Err(TargetFault::StoreFault))
}

/// The outcome is the answer, and a fault of the target gives none.
fn answer_of(
    tid: &Key,
    outcome: Result<CallOutcome, TargetFault>,
) -> Result<Option<CallAnswer>, NoMemory>
    ensures { IfOk result (λ answer. answer ≡ carrying.answer_of tid.now outcome) }
{
    match outcome {
        Ok(outcome) => Ok(Some(CallAnswer { tid: *tid, outcome })),
        Err(TargetFault::NoMemory) => Err(NoMemory),
        Err(_) => Ok(None),
    }
}

fn is_fault(opened: &Result<(), TargetFault>) -> bool
    ensures { result ≡ is_err opened.now }
{
    matches!(opened, Err(_))
}

/// Whether a target was opened.
fn is_opened(opened: Result<(), TargetFault>) -> Result<bool, NoMemory>
    ensures { IfOk result (λ ready. ready ≡ true → is_err opened ≡ false) }
{
    match opened {
        Ok(()) => Ok(true),
        Err(TargetFault::NoMemory) => Err(NoMemory),
        Err(_) => Ok(false),
    }
}

impl<K: Keeper> Line<K> {
    fn has_failed(&self) -> bool
        ensures { result ≡ self.now.failed }
    {
        self.failed
    }

    /// Opens the target anew, and answers whether it may be called.
    fn open_again(&mut self, alloc: Global) -> Result<bool, NoMemory>
        requires { self.old.failed ≡ true }
        ensures ready { IfOk result (λ ready. ready ≡ true → self.new.failed ≡ false) }
        ensures carries { Carries (executed_by K.held self.old) (executed_by K.held self.new) (Ok None) }
    {
        let opened = self.target.reopen(alloc);
        self.failed = is_fault(&opened);
        is_opened(opened)
    }

    /// Opens the target anew where it failed, and answers whether it may be called.
    fn is_ready(&mut self, alloc: Global) -> Result<bool, NoMemory>
        ensures ready { IfOk result (λ ready. ready ≡ true → self.new.failed ≡ false) }
        ensures carries { Carries (executed_by K.held self.old) (executed_by K.held self.new) (Ok None) }
    {
        let failed = self.has_failed();
        if failed {
            return self.open_again(alloc);
        }
        Ok(true)
    }

    /// Calls the target, which is open.
    fn call(
        &mut self,
        alloc: Global,
        tid: &Key,
        text: &Text,
    ) -> Result<Option<CallAnswer>, NoMemory>
        requires { self.old.failed ≡ false }
        ensures { Carries (executed_by K.held self.old) (executed_by K.held self.new) result }
    {
        let _key = tid.bytes();
        self.target.has_few();
        self.before = Snapshot::of(&self.target);
        let outcome = self.target.execute(alloc, tid, text);
        self.failed = is_store_fault(&outcome);
        answer_of(tid, outcome)
    }
}

/// One call arrives: its answer, or none where the target gives none.
fn deliver<K: Keeper>(
    alloc: Global,
    line: &mut Line<K>,
    call: &Sent,
) -> Result<Option<CallAnswer>, NoMemory>
    ensures { Carries (executed_by K.held line.old) (executed_by K.held line.new) result }
{
    let ready = line.is_ready(alloc)?;
    if ready {
        return line.call(alloc, &call.tid, &call.text);
    }
    Ok(None)
}

/// The call that was sent in a turn arrives, if there is one.
fn deliver_sent<K: Keeper>(
    alloc: Global,
    line: &mut Line<K>,
    sent: &[Sent],
    turn: usize,
) -> Result<Option<CallAnswer>, NoMemory>
    ensures { Carries (executed_by K.held line.old) (executed_by K.held line.new) result }
{
    if let Some(call) = sent.get(turn) {
        return deliver(alloc, line, call);
    }
    Ok(None)
}

/// A call arrives whose answer is lost.
fn lose_answer<K: Keeper>(
    alloc: Global,
    line: &mut Line<K>,
    sent: &[Sent],
    turn: usize,
) -> Result<Option<CallAnswer>, NoMemory>
    ensures { Carries (executed_by K.held line.old) (executed_by K.held line.new) result }
{
    let _lost = deliver_sent(alloc, line, sent, turn)?;
    Ok(None)
}

/// A call arrives twice, and is answered the second time.
fn deliver_twice<K: Keeper>(
    alloc: Global,
    line: &mut Line<K>,
    sent: &[Sent],
    turn: usize,
) -> Result<Option<CallAnswer>, NoMemory>
    ensures { Carries (executed_by K.held line.old) (executed_by K.held line.new) result }
{
    let _first = deliver_sent(alloc, line, sent, turn)?;
    deliver_sent(alloc, line, sent, turn)
}

/// What was sent in turn n, counted from 1, arrives.
fn deliver_old<K: Keeper>(
    alloc: Global,
    line: &mut Line<K>,
    sent: &[Sent],
    n: u64,
) -> Result<Option<CallAnswer>, NoMemory>
    ensures { Carries (executed_by K.held line.old) (executed_by K.held line.new) result }
{
    if n == 0 {
        return Ok(None);
    }
    deliver_sent(alloc, line, sent, (n - 1) as usize)
}

/// What a turn's fate lets arrive.
fn carry<K: Keeper>(
    alloc: Global,
    line: &mut Line<K>,
    sent: &[Sent],
    turn: usize,
    fate: Fate,
) -> Result<Option<CallAnswer>, NoMemory>
    ensures { Carries (executed_by K.held line.old) (executed_by K.held line.new) result }
{
    match fate {
        Fate::Pass => deliver_sent(alloc, line, sent, turn),
        Fate::LosePacket => Ok(None),
        Fate::LoseAck => lose_answer(alloc, line, sent, turn),
        Fate::Twice => deliver_twice(alloc, line, sent, turn),
        Fate::Old(n) => deliver_old(alloc, line, sent, n),
    }
}

/// A carrier in memory with a target of its own. Turn i has the i-th fate of a plan, and passes behind its end. Where
/// the target fails there is no answer, and it is opened anew before the next call arrives.
#[derive(Drop)]
pub struct MemCarrier<K: Keeper> {
    line: Line<K>,
    plan: Vec<Fate>,
    sent: Vec<Sent>,
    misses: u64,
}

impl<K: Keeper> Model for MemCarrier<K> {
    ghost use Rattle.remote_target.specs.Carrying.{CarrierView};

    ghost Value = { CarrierView K };

    ghost use Rattle.std.specs.Coded.{codes};

    ghost coded = { Prim.hlevel (codes, K.code) };

    ghost view = { λ c. record { line = c.line; misses = c.misses } };
}

impl<K: Keeper> MemCarrier<K> {
    /// A carrier to a target, which has executed the calls that its rows spell, as `Target::open` leaves it. It takes
    /// no memory; its turns do.
    pub fn new(alloc: Global, target: Target<K>, plan: Vec<Fate>) -> MemCarrier<K>
        requires opened { K.is_open target.keeper }
        requires stands { IfSome (K.held target.keeper) (λ rows. HasExecuted K.held target (executed_in rows)) }
        ensures fresh { result ≡ record {
          line = record { target = target; before = target; failed = false };
          misses = 0;
        } }
    {
        let before = Snapshot::of(&target);
        MemCarrier {
            line: Line {
                target,
                before,
                failed: false,
            },
            plan,
            sent: Vec::new(alloc),
            misses: 0,
        }
    }

    /// The target, in the state in which the last turn left it.
    pub fn into_target(self) -> Target<K>
        ensures { result ≡ self.line.target }
    {
        let MemCarrier {
            line,
            plan,
            sent,
            misses: _,
        } = self;
        drop(plan);
        drop(sent);
        let Line {
            target,
            before: _,
            failed: _,
        } = line;
        target
    }

    fn fate(&self, turn: usize) -> Fate {
        match self.plan.get(turn) {
            Some(fate) => *fate,
            None => Fate::Pass,
        }
    }

    /// Notes a call as sent, and tells in which turn.
    fn note(&mut self, alloc: Global, tid: &Key, text: &Text) -> Result<usize, NoMemory>
        ensures { self.new ≡ self.old }
    {
        let turn = self.sent.len();
        let text = text.copy(alloc)?;
        self.sent.push(Sent { tid: *tid, text })?;
        Ok(turn)
    }

    /// A turn, but for its count.
    fn arrive(&mut self, alloc: Global, turn: usize) -> Result<Option<CallAnswer>, NoMemory>
        ensures misses { self.new.misses ≡ self.old.misses }
        ensures carries { Carries (executed_by K.held self.old.line) (executed_by K.held self.new.line) result }
    {
        let fate = self.fate(turn);
        carry(alloc, &mut self.line, self.sent.as_slice(), turn, fate)
    }

    /// Counts a turn that gave no answer of its own.
    fn count(&mut self, is_own: bool)
        ensures line { self.new.line ≡ self.old.line }
        ensures misses { carrying.RisesUnless is_own self.old.misses self.new.misses }
    {
        if !is_own {
            self.misses = self.misses.saturating_add(1);
        }
    }
}

fn is_own(answer: &Option<CallAnswer>, tid: &Key) -> bool
    ensures { result ≡ carrying.is_own tid.now answer.now }
{
    match answer {
        Some(answer) => answer.tid.bytes() == tid.bytes(),
        None => false,
    }
}

impl<K: Keeper> Carrier for MemCarrier<K> {
    ghost misses = { λ c. c.misses };

    ghost executed = { λ c. executed_by K.held c.line };

    fn turn(
        &mut self,
        alloc: Global,
        tid: &Key,
        text: &Text,
    ) -> Result<Option<CallAnswer>, NoMemory> {
        let turn = self.note(alloc, tid, text)?;
        let answer = self.arrive(alloc, turn)?;
        self.count(is_own(&answer, tid));
        Ok(answer)
    }
}
