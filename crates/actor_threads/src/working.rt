ghost use Rattle.std.specs.Prelude.{◌≡◌, ◌+◌, ◌<◌, ◌≤◌, [], ◌++◌, ℕ, true, length, map, slice_index_or, vec_capacity};
ghost use Rattle.std.specs.List.{AllByRecursion};
ghost use Rattle.std.specs.List.Sorted.{IsPermutation};
ghost use mathlib.Core.List.{IsPrefix};
ghost use Rattle.ledger_steps.specs.Levels.{intervals_of};
ghost use Rattle.script_actors.specs.Actors.{land_of};
ghost use Rattle.script_runner.specs.Preparing.{has_part};
ghost use Rattle.actor_threads.specs.Working.{AllSeats, AreDeeds, HasWorked, IsFresh, entries_in};
ghost use Rattle.turn_desks.specs.Asking.{table_of};
ghost use Rattle.turn_desks.specs.Parts.{IsPart};
ghost use Rattle.turn_desks.specs.Watching.{IsReaderAt};
ghost use Rattle.turn_lock.specs.Passes.{known, IsPassOf};
ghost use Rattle.turn_lock.specs.Rule.{own_entries};

use crate::actor::{Actor, Deed};
use gauges::GaugePass;
use lock_objects::LockObject;
use number_stock::StockSeat;
use range_list::Ranges;
use script_actors::NumberedLine;
use std::alloc::Global;
use std::sync::Wait;
use std::sync::atomic::AtomicU64;
use std::thread;
use std::thread::Threads;
use turn_desks::{Gate, LockName, Serving};
use turn_lock::{Pass, TurnLock};

/// Has all actors work, each in a thread of its own where so many can be made.
pub fn work_all<
    'a,
    N: LockName + Send + Sync,
    S: Serving + Send,
    R: Threads + Wait + Sync,
    G: Gate + Sync,
>(
    rt: &R,
    alloc: Global,
    actors: &mut [Actor<'a, N, S, R, G>],
    lines: &[NumberedLine],
    objects: &[LockObject],
    ranges: &Ranges,
    running: &AtomicU64,
)
    requires some { 0 < length actors.old }
    requires parts { AllByRecursion (λ l. has_part l.line ≡ true) lines.now }
    requires intervals { N.intervals ≡ intervals_of ranges.now }
    requires fresh { (i : ℕ) (d : _) → i < length actors.old
        → IsFresh S.stocks (intervals_of ranges.now) lines.now (slice_index_or actors.old i d) }
    ensures did { (i : ℕ) (d : _) → i < length actors.old
        → HasWorked S.past (land_of objects.now (intervals_of ranges.now)) lines.now (slice_index_or actors.old i d)
        (slice_index_or actors.new i d) }
{
    let count = actors.len();
    thread::for_each_mut(
        rt,
        actors,
        count,
        &|_: usize, actor: &mut Actor<N, S, R, G>|
            requires { AllByRecursion (λ l. has_part l.line ≡ true) lines.now × (N.intervals ≡ intervals_of ranges.now)
                × IsFresh S.stocks (intervals_of ranges.now) lines.now actor.now }
            ensures { HasWorked S.past (land_of objects.entry.now (intervals_of ranges.entry.now)) lines.entry.now
                actor.entry.now actor.exit.now }
        { actor.work(rt, alloc, lines, objects, ranges, running) },
    );
}

/// What the actors of a run leave, the last one's first: what each has done, what it looked at the gauges with, and its
/// seats.
#[derive(Drop)]
pub struct Leavings {
    pub deeds: Vec<Deed>,
    pub glances: Vec<GaugePass>,
    pub seats: Vec<Vec<StockSeat>>,
}

/// Joins the passes of all actors into one, which then has the parts of all, and keeps what each leaves.
pub fn gather<'a, N: LockName, S: Serving, R: Wait, G: Gate>(
    lock: &TurnLock<S>,
    mut pass: Pass<S>,
    mut actors: Vec<Actor<'a, N, S, R, G>>,
    mut left: Leavings,
) -> (Pass<S>, Leavings)
    requires lock { table_of lock.now ≡ N.table }
    requires own { IsPassOf lock.now pass }
    requires none { (left.deeds.items ≡ []) × (left.glances.items ≡ []) × (left.seats.items ≡ []) }
    requires room { (length actors.items ≤ vec_capacity left.deeds) × (length actors.items ≤ vec_capacity left.glances)
        × (length actors.items ≤ vec_capacity left.seats) }
    ensures own { IsPassOf lock.now result.0 }
    ensures parts { (known result.0).parts ≡ (known pass).parts + length actors.entry.items }
    ensures entries { IsPermutation (own_entries (known pass) ++ entries_in actors.entry.items)
        (own_entries (known result.0)) }
    // What each of them has seen begins what the pass has.
    ensures seen { AllByRecursion (λ a. IsPrefix (known a.desk.caller.pass).seen (known result.0).seen)
        actors.entry.items }
    // Each one's own calls stand there in their order.
    ensures stand { AllByRecursion (λ a. ∥ IsPart (own_entries (known a.desk.caller.pass))
        (known a.desk.caller.pass).seen ∥₁) actors.entry.items }
    ensures deeds { AreDeeds actors.entry.items result.1.deeds.items }
    ensures glances { map (λ d. d.glanced.value) result.1.deeds.items ≡ result.1.glances.items }
    ensures readers { AllByRecursion (IsReaderAt N.board) result.1.glances.items }
    ensures seats { AllSeats S.stocks result.1.deeds.items (map (λ v. v.items) result.1.seats.items) }
{
    while let Some(actor) = actors.pop() {
        let retired = actor.retire();
        pass = lock.join(pass, retired.pass);
        left.deeds.push_reserved(retired.deed);
        left.glances.push_reserved(retired.glance);
        left.seats.push_reserved(retired.seats);
    }
    (pass, left)
}
