ghost use Rattle.std.specs.Prelude.{◌≡◌, ◌≤◌, [], length, map, true, vec_capacity};
ghost use Rattle.std.specs.List.{AllByRecursion};
ghost use Rattle.ledger_steps.specs.Levels.{intervals_of};
ghost use Rattle.script_actors.specs.Actors.{HasEnough, land_of};
ghost use Rattle.script_runner.specs.Preparing.{has_part};
ghost use Rattle.actor_threads.specs.Working.{AreSeatsOf, IsDeedOf, IsFresh, drawn_told, known_to, left_by};
ghost use Rattle.caller_laws.specs.Doing.{DidAs, DidAtDesk, DidLines, LeadsTurn, desk_seen};
ghost use Rattle.order_workers.specs.Orders.{DidWork};
ghost use Rattle.turn_desks.specs.Stocks.{draws_of, left_in};
ghost use Rattle.turn_desks.specs.Watching.{IsReaderAt};
ghost use Rattle.turn_desks.specs.Weaving.{desk_entries, noted};
ghost use Rattle.turn_lock.specs.Passes.{known};

use enq_base::{Items, Num};
use gauges::GaugePass;
use hall_model::{PastEntry, Who};
use lock_objects::LockObject;
use number_stock::StockSeat;
use order_workers::do_orders;
use range_list::Ranges;
use script_actors::{Drawing, NumberedLine, Said, actor_lines};
use std::alloc::Global;
use std::snapshot::Snapshot;
use std::sync::Wait;
use std::sync::atomic::{AtomicU64, Ordering};
use turn_desks::{Gate, Glance, LockName, Note, Serving, TurnDesk};
use turn_lock::{History, Pass};

/// One of a run's actors: a session, the administrator, or a worker.
#[derive(Drop)]
pub struct Actor<'a, N: LockName, S: Serving, R: Wait, G: Gate> {
    pub who: Who,
    pub desk: TurnDesk<'a, N, S, R, G>,
    /// What its lines were answered whose answer isn't in the history. None where memory was wanting for one, and of a
    /// worker.
    pub said: Option<Items<Said>>,
    /// Whether a worker ended because nothing was left to do.
    pub rests: bool,
    /// How a worker rests. One with lines doesn't.
    pub glance: Glance<'a, N, G>,
}

/// What an actor has done.
#[derive(Drop)]
pub struct Deed {
    pub who: Who,
    pub said: Option<Items<Said>>,
    /// The numbers of stocks that its lines drew.
    pub drawn: Vec<Drawing>,
    pub rests: bool,
    /// The line of its last call that found the history full.
    pub full_at: Option<u32>,
    /// What it looked at the gauges with, for clauses alone.
    pub glanced: Snapshot<GaugePass>,
}

impl<'a, N: LockName, S: Serving, R: Wait, G: Gate> Actor<'a, N, S, R, G> {
    /// Does all its work. Where it has lines it is counted out of those that run when they are done.
    pub fn work(
        &mut self,
        rt: &R,
        alloc: Global,
        lines: &[NumberedLine],
        objects: &[LockObject],
        ranges: &Ranges,
        running: &AtomicU64,
    )
        requires parts { AllByRecursion (λ l. has_part l.line ≡ true) lines.now }
        requires intervals { N.intervals ≡ intervals_of ranges.now }
        requires fresh { IsFresh S.stocks (intervals_of ranges.now) lines.now self.old }
        ensures who { self.new.who ≡ self.old.who }
        ensures did { DidAs S.past (land_of objects.now (intervals_of ranges.now)) lines.now self.old.who
            (left_by self.new) (known_to self.old) (known_to self.new) }
    {
        match self.who {
            Who::Worker(worker) => self.work_orders(rt, worker, running),
            Who::Session(_) | Who::Admin => self.work_lines(alloc, lines, objects, ranges, running),
        }
    }

    fn work_orders(&mut self, rt: &R, worker: u8, running: &AtomicU64)
        ensures who { self.new.who ≡ self.old.who }
        ensures did { DidWork (LeadsTurn S.past) worker self.new.rests (known_to self.old) (known_to self.new) }
    {
        self.rests = do_orders(rt, &mut self.desk, &mut self.glance, worker, running);
    }

    fn work_lines(
        &mut self,
        alloc: Global,
        lines: &[NumberedLine],
        objects: &[LockObject],
        ranges: &Ranges,
        running: &AtomicU64,
    )
        requires parts { AllByRecursion (λ l. has_part l.line ≡ true) lines.now }
        requires intervals { N.intervals ≡ intervals_of ranges.now }
        requires fresh { IsFresh S.stocks (intervals_of ranges.now) lines.now self.old }
        ensures who { self.new.who ≡ self.old.who }
        ensures did { DidAtDesk (land_of objects.now (intervals_of ranges.now)) lines.now self.old.who
            (left_by self.new) (known_to self.old) (known_to self.new) }
    {
        self.said = said_by(alloc, &mut self.desk, &self.who, lines, objects, ranges);
        running.fetch_sub(1, Ordering::SeqCst);
    }

    /// Gives its passes and seats back, and what it has done.
    pub(crate) fn retire(self) -> Retired<S>
        ensures pass { result.pass ≡ self.entry.desk.caller.pass }
        ensures deed { IsDeedOf self.entry result.deed }
        ensures glance { result.deed.glanced.value ≡ result.glance }
        ensures own { IsReaderAt N.board result.glance }
        ensures seats { AreSeatsOf S.stocks result.deed result.seats.items }
    {
        let Actor {
            who,
            desk,
            said,
            rests,
            glance,
        } = self;
        let glance = glance.into_pass();
        let full_at = desk.caller.notes.full_at;
        let (pass, seats, notes, room) = desk.into_parts();
        let deed = Deed {
            who,
            said,
            drawn: numbers_of(notes.as_slice(), room),
            rests,
            full_at,
            glanced: Snapshot::of(&glance),
        };
        Retired {
            pass,
            glance,
            seats,
            deed,
        }
    }
}

/// What an actor leaves.
#[derive(Drop)]
pub(crate) struct Retired<S: Serving> {
    pub(crate) pass: Pass<S>,
    pub(crate) glance: GaugePass,
    pub(crate) seats: Vec<StockSeat>,
    pub(crate) deed: Deed,
}

/// The numbers that these drawings gave, for which there is room.
fn numbers_of<S: History<Entry = PastEntry>>(
    notes: &[Note<S>],
    mut room: Vec<Drawing>,
) -> Vec<Drawing>
    requires empty { room.items ≡ [] }
    requires room { length notes.now ≤ vec_capacity room }
    ensures { result.items ≡ drawn_told (map noted notes.now) }
{
    for note in notes {
        if let Some(number) = note.number {
            room.push_reserved(Drawing {
                line: note.line,
                num: Num {
                    object: note.object,
                    nr: note.nr,
                    number,
                },
            });
        }
    }
    room
}

/// What the lines of an actor are answered whose answer isn't in the history, or None where memory is wanting for one.
fn said_by<'a, N: LockName, S: Serving, R: Wait, G: Gate>(
    alloc: Global,
    desk: &mut TurnDesk<'a, N, S, R, G>,
    who: &Who,
    lines: &[NumberedLine],
    objects: &[LockObject],
    ranges: &Ranges,
) -> Option<Items<Said>>
    requires parts { AllByRecursion (λ l. has_part l.line ≡ true) lines.now }
    requires intervals { N.intervals ≡ intervals_of ranges.now }
    requires own { desk.old.caller.who ≡ who.now }
    requires fresh { desk_entries desk.old.drawn.items (known desk.old.caller.pass) ≡ [] }
    requires enough { HasEnough (intervals_of ranges.now) who.now lines.now
        (left_in S.stocks (draws_of desk.old.seats.items)) }
    ensures { DidLines (land_of objects.now (intervals_of ranges.now)) lines.now who.now result
        (desk_seen (desk_entries desk.old.drawn.items (known desk.old.caller.pass)) desk.old.caller.notes.full_at)
        (desk_seen (desk_entries desk.new.drawn.items (known desk.new.caller.pass)) desk.new.caller.notes.full_at) }
{
    match actor_lines(alloc, desk, who, lines, objects, ranges) {
        Ok(said) => Some(Items::from_vec(said)),
        Err(_) => None,
    }
}
