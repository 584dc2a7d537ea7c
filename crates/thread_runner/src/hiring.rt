ghost use Rattle.std.specs.Prelude.{◌≡◌, ◌<◌, ◌≤◌, ◌+◌, [], length, map, vec_capacity};
ghost use Rattle.std.specs.List.{AllByRecursion};
ghost use Rattle.gauges.specs.Boards.{IsReaderOf};
ghost use Rattle.thread_runner.specs.Hiring.{AreHired, IsHired};
ghost use Rattle.thread_runner.specs.Kits.{IsKitFor};
ghost use Rattle.turn_desks.specs.Asking.{table_of};
ghost use Rattle.turn_desks.specs.Stocks.{AreOfLand, AreStocks};
ghost use Rattle.turn_desks.specs.Watching.{board_of};
ghost use Rattle.turn_lock.specs.Passes.{known, IsPassOf};

use crate::equipping::Kit;
use actor_threads::Actor;
use gauges::{GaugePass, Gauges};
use script_actors::NumberedLine;
use std::alloc::Global;
use std::collections::VecDeque;
use std::sync::Wait;
use turn_desks::{Caller, Gate, Glance, IntervalStock, LockName, Serving, TurnDesk};
use turn_lock::{Pass, TurnLock};

/// An actor of each kit's caller, each with a part of the pass, and with a pass of the gauges. The rest of the former,
/// one part, is given back.
pub(crate) fn hire_all<'a, N: LockName, S: Serving, R: Wait, G: Gate>(
    rt: &'a R,
    alloc: Global,
    gate: &'a G,
    lock: &'a TurnLock<S>,
    gauges: &'a Gauges,
    stocks: &'a [IntervalStock],
    lines: &[NumberedLine],
    mut pass: Pass<S>,
    mut glance: GaugePass,
    mut kits: VecDeque<Kit<S>>,
    mut actors: Vec<Actor<'a, N, S, R, G>>,
) -> (Pass<S>, Vec<Actor<'a, N, S, R, G>>)
    requires lock { table_of lock.now ≡ N.table }
    requires gauges { board_of gauges.now ≡ N.board }
    requires stocks { AreStocks S.stocks stocks.now }
    requires land { AreOfLand N.intervals S.stocks }
    requires own { IsPassOf lock.now pass }
    requires looks { IsReaderOf gauges.now glance }
    requires parts { (known pass).parts ≡ length kits.items + 1 }
    requires fresh { (known pass).own ≡ [] }
    requires kits { AllByRecursion (IsKitFor N.intervals S.stocks lines.now) kits.items }
    requires none { actors.items ≡ [] }
    requires room { length kits.items ≤ vec_capacity actors }
    ensures own { IsPassOf lock.now result.0 }
    ensures parts { (known result.0).parts ≡ 1 }
    ensures fresh { (known result.0).own ≡ [] }
    ensures hired { AreHired S.stocks N.intervals lines.now (map (λ k. k.who) kits.items)
        result.1.items }
{
    while let Some(kit) = kits.pop_front() {
        let (rest, left, actor) = hire(
            rt, alloc, gate, lock, gauges, stocks, lines, pass, glance, kit,
        );
        pass = rest;
        glance = left;
        actors.push_reserved(actor);
    }
    (pass, actors)
}

/// An actor with this kit, with one part of the pass and a pass of the gauges.
fn hire<'a, N: LockName, S: Serving, R: Wait, G: Gate>(
    rt: &'a R,
    alloc: Global,
    gate: &'a G,
    lock: &'a TurnLock<S>,
    gauges: &'a Gauges,
    stocks: &'a [IntervalStock],
    lines: &[NumberedLine],
    pass: Pass<S>,
    glance: GaugePass,
    kit: Kit<S>,
) -> (Pass<S>, GaugePass, Actor<'a, N, S, R, G>)
    requires lock { table_of lock.now ≡ N.table }
    requires gauges { board_of gauges.now ≡ N.board }
    requires stocks { AreStocks S.stocks stocks.now }
    requires land { AreOfLand N.intervals S.stocks }
    requires own { IsPassOf lock.now pass }
    requires looks { IsReaderOf gauges.now glance }
    requires parts { 1 < (known pass).parts }
    requires fresh { (known pass).own ≡ [] }
    requires kit { IsKitFor N.intervals S.stocks lines.now kit }
    ensures own { IsPassOf lock.now result.0 }
    ensures looks { IsReaderOf gauges.now result.1 }
    ensures parts { (known result.0).parts + 1 ≡ (known pass).parts }
    ensures fresh { (known result.0).own ≡ [] }
    ensures hired { IsHired S.stocks N.intervals lines.now kit.who result.2 }
{
    let Kit {
        who: caller,
        seats,
        notes,
        numbers,
    } = kit;
    let who = &caller;
    let _ = lines;
    let (rest, own) = lock.split(pass, 1);
    let (left, looking) = gauges.split(glance);
    let actor = Actor {
        who: *who,
        desk: TurnDesk::new(
            Caller::new(rt, alloc, gate, lock, *who, own),
            stocks,
            seats,
            notes,
            numbers,
        ),
        said: None,
        rests: false,
        glance: Glance::new(gauges, looking, gate, *who),
    };
    (rest, left, actor)
}
