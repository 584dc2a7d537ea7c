ghost use Rattle.std.specs.Prelude.{◌≡◌, ◌≤◌, ◌<◌, ◌+◌, ◌∷◌, [], ℕ, List, Some, length, map, reverse, is_some, true, vec_capacity, IfErr, IfOk, IsTrue};
ghost use Rattle.std.specs.List.{AllByRecursion};
ghost use Rattle.std.specs.List.Sorted.{IsNonDecreasingBy, IsPermutation};
ghost use Rattle.actor_threads.specs.Working.{AllSeats};
ghost use Rattle.caller_laws.specs.Callers.{AreDistinct, threads_of};
ghost use Rattle.enq_base.specs.Causes.{Rose};
ghost use Rattle.enq_base.specs.declared.condition.Condition.TheVariants.{Up};
ghost use Rattle.gauges.specs.Boards.{latest, seen as seen_by, told, IsReaderOf, IsWriterOf};
ghost use Rattle.hall_model.specs.Views.{readings_of};
ghost use Rattle.ledger_steps.specs.Levels.{intervals_of};
ghost use Rattle.order_laws.specs.Behind.{IsFresh, NoneHasOrder};
ghost use Rattle.script_actors.specs.Actors.{land_of};
ghost use Rattle.script_runner.specs.Preparing.{has_part};
ghost use Rattle.script_runner.specs.Replay.{seen};
ghost use Rattle.thread_runner.specs.Acting.{AreSmall, DoesScript, HasActed, HasWorker};
ghost use Rattle.thread_runner.specs.Hiring.{HasGathered, IsLong, glance_of};
ghost use Rattle.thread_runner.specs.Kits.{IsKitFor};
ghost use Rattle.thread_runner.specs.Looking.{LooksLast};
ghost use Rattle.thread_runner.specs.Stocking.{AreBegun, AreWithinStocks, Cover, IsOpened, drawn_in_deeds};
ghost use Rattle.thread_runner.specs.Threads.{EndsWhole, RunsThreads, output};
ghost use Rattle.turn_desks.specs.Asking.{table_of};
ghost use Rattle.turn_desks.specs.Led.{IsLed, counts_of};
ghost use Rattle.turn_desks.specs.Stocks.{AreLotsBy, AreOfLand, AreRightsAt, AreStocks};
ghost use Rattle.turn_desks.specs.Watching.{HasShown, IsReaderAt, board_of};
ghost use Rattle.turn_lock.specs.Passes.{known, IsPassOf};
ghost use Rattle.whole_script.specs.Lines.{names_in};
ghost use Rattle.whole_script.specs.Reading.{BlamesFirst, IsWholeScript};

use crate::callers::callers_of;
use crate::equipping::{Kit, equip_all};
use crate::hiring::hire_all;
use crate::joining::{collect, join_all};
use crate::last_look::look_last;
use crate::report::write_run;
use crate::stocking::{Stocks, open_stocks};
use actor_threads::{Actor, Deed, Leavings, gather, work_all};
use bk_disk::Disk;
use caller_laws::{
    callers_are_distinct, doubts_have_causes, history_is_of_callers, numbers_come_from_stocks,
    worker_goes_on, workers_rest,
};
use gauges::{GaugePass, GaugeWriter, Gauges};
use hall::Hall;
use hall_model::Who;
use io_edge::{Sink, Source};
use keeper_api::Keeper;
use lock_entry::LockStore;
use lock_objects::LockObject;
use number_stock::StockSeat;
use range_list::Ranges;
use replica_link::Link;
use script_actors::{Drawing, NumberedLine};
use script_runner::Why;
use std::alloc::Global;
use std::collections::VecDeque;
use std::marker::Brand;
use std::sync::Wait;
use std::sync::atomic::AtomicU64;
use std::thread::Threads;
use turn_desks::{
    Gate, IntervalStock, LockName, Origin, ServedHall, Serving, ShownHall, StockedHall,
};
use turn_lock::{Pass, TurnLock};
use whole_script::{Script, read_script};

/// Reads a whole script, and then has its sessions, the administrator and so many workers do their work as threads,
/// each call of theirs in a turn of its own. Numbers of an interval with a buffer are drawn without one, from a stock
/// of the interval, and with a call that reserves more where it is dry. Then it writes the history, what the lines were
/// answered whose answer isn't in it, and what the monitors show. The calls of each session and of the administrator
/// are those of its lines, in order. It gives the numbers that were drawn from stocks, in the order of their lines.
pub fn run<
    R: Threads + Wait + Sync,
    S: Source,
    W: Sink,
    T: LockStore + Send,
    K: Keeper + Send,
    D: Disk + Send,
    L: Link + Send,
    G: Gate + Sync,
>(
    rt: &R,
    alloc: Global,
    source: &mut S,
    sink: &mut W,
    hall: Hall<T, K, D, L>,
    objects: &[LockObject],
    workers: u8,
    gate: &G,
) -> (Hall<T, K, D, L>, Vec<Drawing>, Why)
    // The hall is as it was opened.
    requires none { hall.state.past ≡ [] }
    requires up { hall.state.condition ≡ Up }
    requires free { NoneHasOrder hall.state }
    requires opened { IsOpened hall.state }
    requires workers { (1 ≤ workers) × (workers ≤ 16) }
    // What is read and written, who did what, and why it ends.
    ensures runs { ∥ RunsThreads objects.now workers hall.state result.0.state result.1.items
        (seen (S.left source.old) (W.written sink.old) (S.faults source.old) (W.faults sink.old) (K.faults hall.keeper)
        (D.faults hall.file.disk))
        (seen (S.left source.new) (W.written sink.new) (S.faults source.new) (W.faults sink.new)
        (K.faults result.0.keeper) (D.faults result.0.file.disk)) result.2 ∥₁ }
    // The history replays from the state that was opened, each call as the model answers it, and leads to the state of
    // the end. A device's count has risen in each call in which it failed.
    ensures led { ∥ IsLed (is_some (K.held hall.keeper)) D.tells (is_some (L.applied hall.replica.link)) hall.state
        (counts_of K.faults D.faults L.faults L.refusals hall.keeper hall.file.disk hall.replica.link)
        result.0.state
        (counts_of K.faults D.faults L.faults L.refusals result.0.keeper result.0.file.disk result.0.replica.link) ∥₁ }
    ensures told { is_some (K.held result.0.keeper) ≡ is_some (K.held hall.keeper) }
    ensures link_told { is_some (L.applied result.0.replica.link) ≡ is_some (L.applied hall.replica.link) }
    ensures source { S.faults source.old ≤ S.faults source.new }
    ensures sink { W.faults sink.old ≤ W.faults sink.new }
    // Where the source tells its bytes, a line is to blame only where it is the first such line of them all.
    ensures blamed { (bytes : List ℕ) → S.left source.old ≡ Some bytes → BlamesFirst bytes result.2 }
    // A run ends in doubt only where a device failed in it, as its count tells.
    ensures store_fault { (k : ℕ) → result.2 ≡ Why.StoreFault k
        → Rose (K.faults hall.keeper) (K.faults result.0.keeper) }
    ensures file_fault { (k : ℕ) → result.2 ≡ Why.BackupFault k
        → Rose (D.faults hall.file.disk) (D.faults result.0.file.disk) }
    // A script all of whose lines can be done is done to its end, unless a device fails or isn't good, memory is
    // wanting, or the history is full.
    ensures complete { (bytes : List ℕ) → S.left source.old ≡ Some bytes → IsWholeScript bytes
        → ¬ Rose (S.faults source.old) (S.faults source.new) → ¬ Rose (W.faults sink.old) (W.faults sink.new)
        → ¬ Rose (K.faults hall.keeper) (K.faults result.0.keeper)
        → ¬ Rose (D.faults hall.file.disk) (D.faults result.0.file.disk)
        → is_some (K.held hall.keeper) ≡ true → is_some (L.applied hall.replica.link) ≡ true → IsTrue D.tells
        → EndsWhole result.2 }
{
    run_as::<Brand, R, S, W, T, K, D, L, G>(rt, alloc, source, sink, hall, objects, workers, gate)
}

/// The same where the state and the counts that the hall begins with are named.
fn run_as<
    J: Origin + Send + Sync,
    R: Threads + Wait + Sync,
    S: Source,
    W: Sink,
    T: LockStore + Send,
    K: Keeper + Send,
    D: Disk + Send,
    L: Link + Send,
    G: Gate + Sync,
>(
    rt: &R,
    alloc: Global,
    source: &mut S,
    sink: &mut W,
    hall: Hall<T, K, D, L>,
    objects: &[LockObject],
    workers: u8,
    gate: &G,
) -> (Hall<T, K, D, L>, Vec<Drawing>, Why)
    requires none { hall.state.past ≡ [] }
    requires up { hall.state.condition ≡ Up }
    requires free { NoneHasOrder hall.state }
    requires opened { IsOpened hall.state }
    requires workers { (1 ≤ workers) × (workers ≤ 16) }
    requires first { hall.state ≡ J.first }
    requires counts { counts_of K.faults D.faults L.faults L.refusals hall.keeper hall.file.disk hall.replica.link
        ≡ J.counts }
    requires told { is_some (K.held hall.keeper) ≡ J.told }
    requires linked { is_some (L.applied hall.replica.link) ≡ J.linked }
    ensures runs { ∥ RunsThreads objects.now workers hall.state result.0.state result.1.items
        (seen (S.left source.old) (W.written sink.old) (S.faults source.old) (W.faults sink.old) (K.faults hall.keeper)
        (D.faults hall.file.disk))
        (seen (S.left source.new) (W.written sink.new) (S.faults source.new) (W.faults sink.new)
        (K.faults result.0.keeper) (D.faults result.0.file.disk)) result.2 ∥₁ }
    ensures led { ∥ IsLed J.told D.tells J.linked J.first J.counts result.0.state
        (counts_of K.faults D.faults L.faults L.refusals result.0.keeper result.0.file.disk result.0.replica.link) ∥₁ }
    ensures told { is_some (K.held result.0.keeper) ≡ J.told }
    ensures link_told { is_some (L.applied result.0.replica.link) ≡ J.linked }
    ensures source { S.faults source.old ≤ S.faults source.new }
    ensures sink { W.faults sink.old ≤ W.faults sink.new }
    ensures blamed { (bytes : List ℕ) → S.left source.old ≡ Some bytes → BlamesFirst bytes result.2 }
    ensures store_fault { (k : ℕ) → result.2 ≡ Why.StoreFault k
        → Rose J.counts.store (K.faults result.0.keeper) }
    ensures file_fault { (k : ℕ) → result.2 ≡ Why.BackupFault k
        → Rose J.counts.file (D.faults result.0.file.disk) }
    ensures complete { (bytes : List ℕ) → S.left source.old ≡ Some bytes → IsWholeScript bytes
        → ¬ Rose (S.faults source.old) (S.faults source.new) → ¬ Rose (W.faults sink.old) (W.faults sink.new)
        → ¬ Rose J.counts.store (K.faults result.0.keeper) → ¬ Rose J.counts.file (D.faults result.0.file.disk)
        → J.told ≡ true → J.linked ≡ true → IsTrue D.tells → EndsWhole result.2 }
{
    hall.read_invariant();
    doubts_have_causes();
    let read = read_script(alloc, source);
    let served = ServedHall::<J, T, K, D, L>::new(hall);
    match read {
        Ok(script) => {
            let (served, drawn, why) = do_script(
                rt, alloc, gate, sink, &script, served, objects, workers,
            );
            (served.into_hall(), drawn, why)
        }
        Err(why) => (served.into_hall(), Vec::new(alloc), why),
    }
}

/// Does a script that was read, and writes what was done.
fn do_script<
    J: Origin + Send + Sync,
    R: Threads + Wait + Sync,
    W: Sink,
    T: LockStore + Send,
    K: Keeper + Send,
    D: Disk + Send,
    L: Link + Send,
    G: Gate + Sync,
>(
    rt: &R,
    alloc: Global,
    gate: &G,
    sink: &mut W,
    script: &Script,
    served: ServedHall<J, T, K, D, L>,
    objects: &[LockObject],
    workers: u8,
) -> (ServedHall<J, T, K, D, L>, Vec<Drawing>, Why)
    requires fresh { IsFresh J.first }
    requires first { served.hall.state ≡ J.first }
    requires none { served.hall.state.past ≡ [] }
    requires opened { IsOpened served.hall.state }
    requires names { script.now.names.items ≡ names_in script.now.lines.items }
    requires parts { AllByRecursion (λ l. has_part l.line ≡ true) script.now.lines.items }
    requires workers { (1 ≤ workers) × (workers ≤ 16) }
    ensures does { ∥ DoesScript (land_of objects.now (intervals_of served.hall.state.ranges)) script.now.lines.items
        workers served.hall.state result.0.hall.state result.1.items
        (output (W.written sink.old) (W.faults sink.old)) (output (W.written sink.new) (W.faults sink.new)) result.2
        ∥₁ }
    ensures sink { W.faults sink.old ≤ W.faults sink.new }
{
    numbers_come_from_stocks();
    match act_all(rt, alloc, gate, script, served, objects, workers) {
        Ok((served, deeds, drawn)) => {
            served.hall.read_invariant();
            let why = write_run(alloc, sink, script.lines.as_slice(), &served.hall, deeds);
            (served, drawn, why)
        }
        Err(served) => (served, Vec::new(alloc), Why::NoMemory),
    }
}

/// What the actors of a run have done: the hall, their deeds, and the numbers that they drew.
type Acted<J, T, K, D, L> = (ServedHall<J, T, K, D, L>, Vec<Deed>, Vec<Drawing>);

/// Has all actors do their work. No deeds, and no call, where memory is wanting before.
fn act_all<
    J: Origin + Send + Sync,
    R: Threads + Wait + Sync,
    T: LockStore + Send,
    K: Keeper + Send,
    D: Disk + Send,
    L: Link + Send,
    G: Gate + Sync,
>(
    rt: &R,
    alloc: Global,
    gate: &G,
    script: &Script,
    served: ServedHall<J, T, K, D, L>,
    objects: &[LockObject],
    workers: u8,
) -> Result<Acted<J, T, K, D, L>, ServedHall<J, T, K, D, L>>
    requires fresh { IsFresh J.first }
    requires first { served.hall.state ≡ J.first }
    requires none { served.hall.state.past ≡ [] }
    requires opened { IsOpened served.hall.state }
    requires names { script.now.names.items ≡ names_in script.now.lines.items }
    requires parts { AllByRecursion (λ l. has_part l.line ≡ true) script.now.lines.items }
    requires workers { (1 ≤ workers) × (workers ≤ 16) }
    ensures none { IfErr result (λ s. ∥ s.hall.state ≡ served.hall.state ∥₁) }
    ensures acted { IfOk result (λ r. ∥ HasActed (land_of objects.now (intervals_of served.hall.state.ranges))
        script.now.lines.items (threads_of script.now.lines.items workers) served.hall.state r.0.hall.state r.1.items
        r.2.items ∥₁) }
{
    callers_are_distinct();
    match callers_of(alloc, script.names.as_slice(), workers) {
        Ok(callers) => act_as(rt, alloc, gate, script, served, objects, callers.as_slice()),
        Err(_) => Err(served),
    }
}

/// Has an actor of each of these callers do its work, and then one worker look once more. Stocks are opened for their
/// lines.
fn act_as<
    J: Origin + Send + Sync,
    R: Threads + Wait + Sync,
    T: LockStore + Send,
    K: Keeper + Send,
    D: Disk + Send,
    L: Link + Send,
    G: Gate + Sync,
>(
    rt: &R,
    alloc: Global,
    gate: &G,
    script: &Script,
    served: ServedHall<J, T, K, D, L>,
    objects: &[LockObject],
    callers: &[Who],
) -> Result<Acted<J, T, K, D, L>, ServedHall<J, T, K, D, L>>
    requires fresh { IsFresh J.first }
    requires first { served.hall.state ≡ J.first }
    requires none { served.hall.state.past ≡ [] }
    requires opened { IsOpened served.hall.state }
    requires distinct { AreDistinct callers.now }
    requires worker { HasWorker callers.now }
    requires small { AreSmall callers.now }
    requires parts { AllByRecursion (λ l. has_part l.line ≡ true) script.now.lines.items }
    ensures none { IfErr result (λ s. ∥ s.hall.state ≡ served.hall.state ∥₁) }
    ensures acted { IfOk result (λ r. ∥ HasActed (land_of objects.now (intervals_of served.hall.state.ranges))
        script.now.lines.items callers.now served.hall.state r.0.hall.state r.1.items r.2.items ∥₁) }
{
    let Ok(stocks) = open_stocks(alloc, &served.hall, script.lines.as_slice()) else {
        return Err(served);
    };
    let Ok(room) = Vec::with_capacity(alloc, script.lines.len()) else {
        return Err(served);
    };
    let Stocks {
        ranges,
        list,
        rights,
    } = stocks;
    match Gauges::new(alloc, served.readings()) {
        Ok((gauges, writer, glance)) => act_shown::<Brand, J, R, T, K, D, L, G>(
            &Scene {
                rt,
                alloc,
                gate,
                gauges: &gauges,
                lines: script.lines.as_slice(),
                objects,
                ranges: &ranges,
                stocks: list.as_slice(),
            },
            served,
            (writer, glance, rights, room),
            callers,
        ),
        Err(_) => Err(served),
    }
}

/// What a run's actors share but for the lock.
#[derive(Drop)]
struct Scene<'a, R: Wait, G: Gate> {
    rt: &'a R,
    alloc: Global,
    gate: &'a G,
    gauges: &'a Gauges,
    lines: &'a [NumberedLine],
    objects: &'a [LockObject],
    ranges: &'a Ranges,
    stocks: &'a [IntervalStock],
}

/// The same where these gauges show the hall, and numbers are drawn from these stocks.
fn act_shown<
    'g,
    M: LockName + Send + Sync,
    J: Origin + Send + Sync,
    R: Threads + Wait + Sync,
    T: LockStore + Send,
    K: Keeper + Send,
    D: Disk + Send,
    L: Link + Send,
    G: Gate + Sync,
>(
    scene: &Scene<'g, R, G>,
    served: ServedHall<J, T, K, D, L>,
    tools: (GaugeWriter, GaugePass, Vec<StockSeat>, Vec<Drawing>),
    callers: &[Who],
) -> Result<Acted<J, T, K, D, L>, ServedHall<J, T, K, D, L>>
    requires board { board_of scene.now.gauges.now ≡ M.board }
    requires stocks { AreStocks M.stocks scene.now.stocks.now }
    requires intervals { (M.intervals ≡ intervals_of served.hall.state.ranges)
        × (intervals_of scene.now.ranges.now ≡ M.intervals) }
    requires writes { IsWriterOf scene.now.gauges.now tools.0 }
    requires looks { IsReaderOf scene.now.gauges.now tools.1 }
    requires begun { AreBegun served.hall.state M.intervals M.stocks tools.2.items }
    requires cover { Cover M.intervals M.stocks scene.now.lines.now }
    requires room { (tools.3.items ≡ []) × (length scene.now.lines.now ≤ vec_capacity tools.3) }
    requires shows { latest tools.0 ≡ readings_of served.hall.state }
    requires shown { told tools.0 ≡ readings_of served.hall.state ∷ [] }
    requires fresh { IsFresh J.first }
    requires first { served.hall.state ≡ J.first }
    requires none { served.hall.state.past ≡ [] }
    requires opened { IsOpened served.hall.state }
    requires distinct { AreDistinct callers.now }
    requires worker { HasWorker callers.now }
    requires small { AreSmall callers.now }
    requires parts { AllByRecursion (λ l. has_part l.line ≡ true) scene.now.lines.now }
    ensures none { IfErr result (λ s. ∥ s.hall.state ≡ served.hall.state ∥₁) }
    ensures acted { IfOk result (λ r. ∥ HasActed (land_of scene.now.objects.now M.intervals) scene.now.lines.now
        callers.now served.hall.state r.0.hall.state r.1.items r.2.items ∥₁) }
{
    history_is_of_callers::<StockedHall<'g, M, J, T, K, D, L>>();
    numbers_come_from_stocks();
    worker_goes_on();
    workers_rest();
    let (writer, glance, mut rights, room) = tools;
    let Ok(parts) = u32::try_from(callers.len() + 1) else {
        return Err(served);
    };
    let Ok(kits) = equip_all(scene.alloc, callers, scene.lines, scene.stocks, &mut rights) else {
        return Err(served);
    };
    let shown = ShownHall::<M, J, T, K, D, L>::new(served, scene.gauges, writer);
    let stocked = StockedHall::<M, J, T, K, D, L>::new(shown, scene.stocks, rights);
    match TurnLock::new(scene.alloc, stocked, parts) {
        Ok((lock, pass)) => {
            match act_in_turn::<Brand, StockedHall<'g, M, J, T, K, D, L>, R, G>(
                scene.rt,
                scene.alloc,
                scene.gate,
                &lock,
                scene.gauges,
                (scene.lines, scene.objects),
                (scene.ranges, scene.stocks),
                pass,
                glance,
                kits,
            ) {
                Ok((pass, left)) => {
                    let stocked = lock.close(pass);
                    let (shown, rights) = stocked.into_shown();
                    Ok(end_all::<M, J, R, T, K, D, L, G>(scene, shown, rights, left, room))
                }
                Err(pass) => Err(lock.close(pass).into_shown().0.into_hidden()),
            }
        }
        Err(stocked) => {
            drop(glance);
            Err(stocked.into_shown().0.into_hidden())
        }
    }
}

/// Behind the joins: one worker looks once more, the seats are joined, and the numbers that were drawn are collected.
fn end_all<'g, M: LockName, J: Origin, R: Wait, T: LockStore, K: Keeper, D: Disk, L: Link, G: Gate>(
    scene: &Scene<'g, R, G>,
    shown: ShownHall<'g, M, J, T, K, D, L>,
    rights: Vec<StockSeat>,
    left: Leavings,
    room: Vec<Drawing>,
) -> Acted<J, T, K, D, L>
    requires stocks { AreStocks M.stocks scene.now.stocks.now }
    requires rights { AreRightsAt M.stocks rights.items }
    requires lots { ∥ AreLotsBy shown.served.hall.state M.stocks rights.items ∥₁ }
    requires long { AllByRecursion (IsLong shown.served.hall.state.past) left.deeds.items }
    requires readers { AllByRecursion (IsReaderAt M.board) left.glances.items }
    requires seats { AllSeats M.stocks (reverse left.deeds.items) (map (λ v. v.items) left.seats.items) }
    requires room { (room.items ≡ []) × (length (drawn_in_deeds left.deeds.items) ≤ vec_capacity room) }
    ensures looked { LooksLast shown.entry.served.hall.state result.0.hall.state left.deeds.items result.1.items }
    ensures seen { ∥ AllByRecursion (λ p. HasShown J.first shown.entry.served.hall.state (seen_by p))
        left.glances.items ∥₁ }
    ensures all { IsPermutation (drawn_in_deeds result.1.items) result.2.items }
    ensures order { IsNonDecreasingBy (λ d. d.line) result.2.items }
    ensures within { ∥ AreWithinStocks result.0.hall.state M.stocks result.2.items ∥₁ }
{
    let Leavings {
        mut deeds,
        glances,
        seats,
    } = left;
    let served = shown.into_served(glances);
    let (served, rights) = look_last::<M, R, J, T, K, D, L>(
        scene.rt,
        scene.alloc,
        served,
        rights,
        deeds.as_mut_slice(),
    );
    join_all(scene.stocks, rights, seats);
    let drawn = collect(deeds.as_slice(), room);
    (served, deeds, drawn)
}

/// What all actors of a run share.
#[derive(Drop)]
struct Common<'a, S: Serving, R: Wait, G: Gate> {
    rt: &'a R,
    alloc: Global,
    gate: &'a G,
    lock: &'a TurnLock<S>,
    gauges: &'a Gauges,
    lines: &'a [NumberedLine],
    objects: &'a [LockObject],
    ranges: &'a Ranges,
    stocks: &'a [IntervalStock],
}

/// Hires an actor for each of these kits, has them all work, and joins their passes. None is hired where memory is
/// wanting.
fn act_in_turn<
    'a,
    N: LockName + Send + Sync,
    S: Serving + Send,
    R: Threads + Wait + Sync,
    G: Gate + Sync,
>(
    rt: &'a R,
    alloc: Global,
    gate: &'a G,
    lock: &'a TurnLock<S>,
    gauges: &'a Gauges,
    script: (&'a [NumberedLine], &'a [LockObject]),
    numbers: (&'a Ranges, &'a [IntervalStock]),
    pass: Pass<S>,
    glance: GaugePass,
    kits: VecDeque<Kit<S>>,
) -> Result<(Pass<S>, Leavings), Pass<S>>
    requires lock { table_of lock.now ≡ N.table }
    requires board { board_of gauges.now ≡ N.board }
    requires stocks { AreStocks S.stocks numbers.1.now }
    requires land { AreOfLand N.intervals S.stocks }
    requires intervals { N.intervals ≡ intervals_of numbers.0.now }
    requires own { IsPassOf lock.now pass }
    requires looks { IsReaderOf gauges.now glance }
    requires whole { (known pass).parts ≡ length kits.items + 1 }
    requires fresh { (known pass).own ≡ [] }
    requires some { 0 < length kits.items }
    requires kits { AllByRecursion (IsKitFor N.intervals S.stocks script.0.now) kits.items }
    requires parts { AllByRecursion (λ l. has_part l.line ≡ true) script.0.now }
    ensures own { IfOk result (λ r. IsPassOf lock.now r.0) }
    ensures whole { IfOk result (λ r. (known r.0).parts ≡ length kits.items + 1) }
    ensures none { IfErr result (λ p. p ≡ pass) }
    ensures gathered { IfOk result (λ r. ∥ HasGathered S.past (land_of script.entry.1.now N.intervals)
        script.entry.0.now (map (λ k. k.who) kits.items) (known r.0) r.1.deeds.items ∥₁) }
    ensures long { IfOk result (λ r. AllByRecursion (IsLong (known r.0).seen) r.1.deeds.items) }
    ensures glances { IfOk result (λ r. reverse (map glance_of r.1.deeds.items) ≡ r.1.glances.items) }
    ensures readers { IfOk result (λ r. AllByRecursion (IsReaderAt N.board) r.1.glances.items) }
    ensures seats { IfOk result
        (λ r. AllSeats S.stocks (reverse r.1.deeds.items) (map (λ v. v.items) r.1.seats.items)) }
{
    let count = kits.len();
    let Ok(actors) = Vec::with_capacity(alloc, count) else {
        return Err(pass);
    };
    let Ok(deeds) = Vec::with_capacity(alloc, count) else {
        return Err(pass);
    };
    let Ok(glances) = Vec::with_capacity(alloc, count) else {
        return Err(pass);
    };
    let Ok(seats) = Vec::with_capacity(alloc, count) else {
        return Err(pass);
    };
    let left = Leavings {
        deeds,
        glances,
        seats,
    };
    let (lines, objects) = script;
    let (ranges, stocks) = numbers;
    let common = Common {
        rt,
        alloc,
        gate,
        lock,
        gauges,
        lines,
        objects,
        ranges,
        stocks,
    };
    Ok(work_in_turn::<N, S, R, G>(&common, pass, glance, kits, actors, left))
}

/// The same with room for them.
fn work_in_turn<
    'a,
    N: LockName + Send + Sync,
    S: Serving + Send,
    R: Threads + Wait + Sync,
    G: Gate + Sync,
>(
    common: &Common<'a, S, R, G>,
    pass: Pass<S>,
    glance: GaugePass,
    kits: VecDeque<Kit<S>>,
    actors: Vec<Actor<'a, N, S, R, G>>,
    left: Leavings,
) -> (Pass<S>, Leavings)
    requires lock { table_of common.now.lock.now ≡ N.table }
    requires board { board_of common.now.gauges.now ≡ N.board }
    requires stocks { AreStocks S.stocks common.now.stocks.now }
    requires land { AreOfLand N.intervals S.stocks }
    requires intervals { N.intervals ≡ intervals_of common.now.ranges.now }
    requires own { IsPassOf common.now.lock.now pass }
    requires looks { IsReaderOf common.now.gauges.now glance }
    requires whole { (known pass).parts ≡ length kits.items + 1 }
    requires fresh { (known pass).own ≡ [] }
    requires some { 0 < length kits.items }
    requires kits { AllByRecursion (IsKitFor N.intervals S.stocks common.now.lines.now) kits.items }
    requires parts { AllByRecursion (λ l. has_part l.line ≡ true) common.now.lines.now }
    requires none { (actors.items ≡ []) × (left.deeds.items ≡ []) × (left.glances.items ≡ [])
        × (left.seats.items ≡ []) }
    requires room { (length kits.items ≤ vec_capacity actors) × (length kits.items ≤ vec_capacity left.deeds)
        × (length kits.items ≤ vec_capacity left.glances) × (length kits.items ≤ vec_capacity left.seats) }
    ensures own { IsPassOf common.now.lock.now result.0 }
    ensures whole { (known result.0).parts ≡ length kits.items + 1 }
    ensures gathered { ∥ HasGathered S.past (land_of common.now.objects.now N.intervals) common.now.lines.now
        (map (λ k. k.who) kits.items) (known result.0) result.1.deeds.items ∥₁ }
    ensures long { AllByRecursion (IsLong (known result.0).seen) result.1.deeds.items }
    ensures glances { reverse (map glance_of result.1.deeds.items) ≡ result.1.glances.items }
    ensures readers { AllByRecursion (IsReaderAt N.board) result.1.glances.items }
    ensures seats { AllSeats S.stocks (reverse result.1.deeds.items) (map (λ v. v.items) result.1.seats.items) }
{
    let running = AtomicU64::new(running_of(&kits));
    let (pass, mut actors) = hire_all(
        common.rt,
        common.alloc,
        common.gate,
        common.lock,
        common.gauges,
        common.stocks,
        common.lines,
        pass,
        glance,
        kits,
        actors,
    );
    work_all(
        common.rt,
        common.alloc,
        actors.as_mut_slice(),
        common.lines,
        common.objects,
        common.ranges,
        &running,
    );
    let (pass, mut left) = gather(common.lock, pass, actors, left);
    left.deeds.as_mut_slice().reverse();
    (pass, left)
}

/// How many of them have lines: the sessions and the administrator.
fn running_of<S: Serving>(kits: &VecDeque<Kit<S>>) -> u64 {
    kits.iter()
        .filter(|kit| !matches!(kit.who, Who::Worker(_)))
        .count() as u64
}
