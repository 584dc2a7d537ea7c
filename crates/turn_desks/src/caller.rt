ghost use Rattle.std.specs.Prelude.{◌≡◌, ◌≤◌, [], None, Some, is_some, length, slice_get, true, IsTrue};
ghost use Rattle.script_actors.specs.Actors.{full_after};
ghost use Rattle.script_actors.specs.Drawings.{settles, settling_of};
ghost use Rattle.turn_desks.specs.Asking.{IsAsked, table_of};
ghost use Rattle.turn_desks.specs.Parts.{IsPart};
ghost use Rattle.turn_desks.specs.Stocks.{AreLeft, AreSame, AreSeatsAt, HasHeard, MayReserve, MayServe, StockFact};
ghost use Rattle.stock_laws.specs.Stocked.{answers_reservation};
ghost use Rattle.turn_desks.specs.Stocks.{reserving};
ghost use Rattle.turn_lock.specs.Passes.{known, IsPassOf};
ghost use Rattle.turn_lock.specs.Rule.{own_entries};

use crate::gate::Gate;
use crate::names::LockName;
use crate::serving::{OneCall, OneReservation, Serving, Turned};
use enq_base::{Name, Refusal};
use hall_model::{Command, Reply, Who};
use number_stock::StockSeat;
use order_workers::Look;
use posting::{Draft, Worked};
use std::alloc::Global;
use std::marker::PhantomData;
use std::sync::Wait;
use turn_lock::{Pass, TurnLock};

/// What a desk notes of its calls.
#[derive(Clone, Copy, Debug)]
pub struct Notes {
    /// How many it made.
    pub calls: u64,
    /// The line of the last one that found the history full.
    pub full_at: Option<u32>,
}

impl Notes {
    /// Notes what a call of this line was answered.
    fn note(&mut self, line: u32, reply: &Reply)
        ensures full_at { self.new.full_at ≡ full_after self.old.full_at line reply.now }
    {
        if matches!(reply, Reply::Refused(Refusal::LogFull)) {
            self.full_at = Some(line);
        }
    }
}

/// Who makes calls of the state under a lock, each in a turn of its own. What a V1 part is worked from is taken in the
/// turn of its take, worked between the turns, and handed in with the next call.
#[derive(Drop)]
pub struct Caller<'a, N: LockName, S: Serving, R: Wait, G: Gate> {
    rt: &'a R,
    alloc: Global,
    gate: &'a G,
    lock: &'a TurnLock<S>,
    /// Whose calls it makes.
    pub who: Who,
    pub pass: Pass<S>,
    pub notes: Notes,
    worked: Option<Worked>,
    of: PhantomData<N>,
    ghost of_lock: { table_of lock.now ≡ N.table },
    ghost own: { pass.seat.table_id ≡ N.table },
    ghost one: { (known pass).parts ≡ 1 },
    // The pass's own entries stand in what it has seen, in order.
    ghost part: { ∥ IsPart (own_entries (known pass)) (known pass).seen ∥₁ },
    // Where a call found the history full, it is as long as it may be.
    ghost full: { IsTrue (is_some notes.full_at) → 262144 ≤ length (known pass).seen },
}

impl<'a, N: LockName, S: Serving, R: Wait, G: Gate> Caller<'a, N, S, R, G> {
    /// One that has made no call, with a pass of one part.
    pub fn new(
        rt: &'a R,
        alloc: Global,
        gate: &'a G,
        lock: &'a TurnLock<S>,
        who: Who,
        pass: Pass<S>,
    ) -> Caller<'a, N, S, R, G>
        requires lock { table_of lock.now ≡ N.table }
        requires own { IsPassOf lock.now pass }
        requires one { (known pass).parts ≡ 1 }
        requires none { own_entries (known pass) ≡ [] }
        ensures pass { result.pass ≡ pass }
        ensures who { result.who ≡ who }
        ensures full_at { result.notes.full_at ≡ None }
    {
        Caller {
            rt,
            alloc,
            gate,
            lock,
            who,
            pass,
            notes: Notes {
                calls: 0,
                full_at: None,
            },
            worked: None,
            of: PhantomData,
        }
    }

    /// Makes a call in a turn of its own, between the two sides of the gate.
    pub(crate) fn ask(
        &mut self,
        at: u32,
        who: &Who,
        command: Command,
        seats: &mut Vec<StockSeat>,
    ) -> Look
        requires seats { AreSeatsAt S.stocks seats.old.items }
        requires may { MayServe S.stocks seats.old.items command }
        ensures asked { IsAsked S.past at command result.reply result.is_up (known self.old.pass)
            (known self.new.pass) }
        ensures full_at { self.new.notes.full_at ≡ full_after self.old.notes.full_at at result.reply }
        ensures who { self.new.who ≡ self.old.who }
        ensures seats { AreSeatsAt S.stocks seats.new.items }
        ensures left { AreLeft (settles (settling_of command) result.reply) seats.old.items seats.new.items }
    {
        self.notes.calls = self.notes.calls.saturating_add(1);
        self.gate.before(who, self.notes.calls);
        let mut act = OneCall {
            alloc: self.alloc,
            line: at,
            command: Some(command),
            worked: self.worked.take(),
            seats: std::mem::replace(seats, Vec::new(self.alloc)),
        };
        let turned = self.lock.with(self.rt, &mut self.pass, &mut act);
        let Turned { look, draft } = turned;
        std::mem::swap(seats, &mut act.seats);
        self.notes.note(at, &look.reply);
        self.gate.after(who, self.notes.calls);
        self.worked = work(self.alloc, self.gate, who, draft);
        look
    }

    /// Reserves numbers up to this one, of the stock at this place, in a turn of its own, for a line of the script.
    pub(crate) fn reserve(
        &mut self,
        at: u32,
        session: Name,
        place: usize,
        upto: u64,
        seats: &mut Vec<StockSeat>,
    ) -> Look
        requires seats { AreSeatsAt S.stocks seats.old.items }
        requires may { MayReserve S.stocks place upto }
        ensures asked { (f : StockFact) → slice_get S.stocks place ≡ Some f
            → IsAsked S.past 0 (reserving session upto f) result.reply result.is_up (known self.old.pass)
            (known self.new.pass) }
        ensures full_at { self.new.notes.full_at ≡ full_after self.old.notes.full_at at result.reply }
        ensures who { self.new.who ≡ self.old.who }
        ensures answers { answers_reservation result.reply ≡ true }
        ensures seats { AreSeatsAt S.stocks seats.new.items }
        ensures same { AreSame seats.old.items seats.new.items }
        ensures heard { (f : StockFact) → slice_get S.stocks place ≡ Some f
            → HasHeard seats.new.items place upto result.reply f }
    {
        self.notes.calls = self.notes.calls.saturating_add(1);
        let who = self.who;
        self.gate.before(&who, self.notes.calls);
        let mut act = OneReservation {
            alloc: self.alloc,
            session,
            place,
            upto,
            seats: std::mem::replace(seats, Vec::new(self.alloc)),
        };
        let look = self.lock.with(self.rt, &mut self.pass, &mut act);
        std::mem::swap(seats, &mut act.seats);
        self.notes.note(at, &look.reply);
        self.gate.after(&who, self.notes.calls);
        look
    }

    /// Gives its pass back.
    pub(crate) fn into_pass(self) -> Pass<S>
        ensures pass { result ≡ self.entry.pass }
        ensures own { result.seat.table_id ≡ N.table }
        ensures one { (known result).parts ≡ 1 }
        ensures part { ∥ IsPart (own_entries (known result)) (known result).seen ∥₁ }
        ensures full { IsTrue (is_some self.entry.notes.full_at) → 262144 ≤ length (known result).seen }
    {
        self.pass
    }
}

/// Works what was drafted, outside the turn. Where memory is wanting nothing was worked, and the post works the part.
fn work<G: Gate>(alloc: Global, gate: &G, who: &Who, draft: Option<Draft>) -> Option<Worked> {
    let draft = draft?;
    gate.work(who);
    match draft.work(alloc) {
        Ok(worked) => Some(worked),
        Err(_) => None,
    }
}
