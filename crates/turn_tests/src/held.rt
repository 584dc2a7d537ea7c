ghost use Rattle.std.specs.Prelude.{◌≡◌, ◌+◌, ◌≤◌, ◌^◌, ◌<◌, ◌++◌, IfSome};
ghost use Rattle.seat_sums.specs.Sums.{IsDistinct};
ghost use Rattle.gauges.specs.Boards.{latest, IsWriterOf};
ghost use Rattle.turn_lock.specs.Passes.{known, IsPassOf};
ghost use Rattle.turn_tests.specs.Drawing.{CanDraw, Drew};

use crate::drawing::{Drawn, draw_and_look};
use crate::notes::Notes;
use crate::readings::readings_of;
use enq_base::Readings;
use gauges::{GaugePass, GaugeWriter, Gauges};
use number_stock::{Stock, StockSeat};
use std::alloc::Global;
use std::sync::Wait;
use std::sync::atomic::{AtomicBool, Ordering};
use std::thread;
use std::thread::{Threads, join};
use turn_lock::{Act, Pass, TurnLock};

/// The numbers that two threads drew, and the readings that they saw.
#[derive(Drop)]
pub struct Held {
    pub first: Vec<u64>,
    pub second: Vec<u64>,
    pub first_seen: Vec<Readings>,
    pub second_seen: Vec<Readings>,
}

// Draws in two threads.
fn draw_twice<R: Threads + Sync>(
    rt: &R,
    stock: &Stock,
    gauges: &Gauges,
    one: (StockSeat, GaugePass),
    two: (StockSeat, GaugePass),
    alloc: Global,
    each: u32,
) -> (Drawn, Drawn)
    requires one { CanDraw stock.now gauges.now each one }
    requires two { CanDraw stock.now gauges.now each two }
    ensures one { Drew stock.now one.0 result.0.seat result.0.numbers.items }
    ensures two { Drew stock.now two.0 result.1.seat result.1.numbers.items }
{
    join(
        rt,
        || -> Drawn
            requires { CanDraw stock.now gauges.now each one }
            ensures { Drew stock.entry.now one.0 result.seat result.numbers.items }
        { draw_and_look(stock, gauges, one, alloc, each) },
        || -> Drawn
            requires { CanDraw stock.now gauges.now each two }
            ensures { Drew stock.entry.now two.0 result.seat result.numbers.items }
        { draw_and_look(stock, gauges, two, alloc, each) },
    )
}

// What the threads tell one another: that the turn is held, and that the numbers were drawn.
#[derive(Drop)]
pub(crate) struct Flags {
    pub(crate) begun: AtomicBool,
    pub(crate) done: AtomicBool,
}

// How often the one that holds the turn publishes, at most, until the others are done.
pub(crate) const ROUNDS: u32 = 10_000_000;

// Says that it has begun, and publishes until the others are done, whether or not they are at last.
pub(crate) fn publish_until(gauges: &Gauges, writer: &mut GaugeWriter, flags: &Flags) -> bool
    requires own { IsWriterOf gauges.now writer.old }
    requires from { (latest writer.old).past ≤ 0 }
{
    flags.begun.store(true, Ordering::SeqCst);
    for round in 0..ROUNDS {
        gauges.publish(writer, &readings_of(u64::from(round)));
        if flags.done.load(Ordering::SeqCst) {
            return true;
        }
        thread::yield_now();
    }
    false
}

// Holds the turn and publishes, until two other threads have drawn.
#[derive(Drop)]
struct Hold<'a> {
    gauges: &'a Gauges,
    writer: GaugeWriter,
    flags: &'a Flags,
}

impl<'a> Act<Notes, bool> for Hold<'a> {
    ghost can = { λ a s. IsWriterOf a.gauges.now a.writer × ((latest a.writer).past ≤ 0) };

    ghost does = { λ a s b t ok. t ≡ s };

    fn act(&mut self, _state: &mut Notes) -> bool {
        publish_until(self.gauges, &mut self.writer, self.flags)
    }
}

fn hold_turn<W: Wait>(
    rt: &W,
    lock: &TurnLock<Notes>,
    mut turn: Pass<Notes>,
    gauges: &Gauges,
    writer: GaugeWriter,
    flags: &Flags,
) -> (Pass<Notes>, bool)
    requires own { IsPassOf lock.now turn }
    requires writer { IsWriterOf gauges.now writer × ((latest writer).past ≤ 0) }
    ensures own { IsPassOf lock.now result.0 }
    ensures parts { (known result.0).parts ≡ (known turn).parts }
{
    let mut hold = Hold {
        gauges,
        writer,
        flags,
    };
    let in_time = lock.with(rt, &mut turn, &mut hold);
    (turn, in_time)
}

// Draws once the turn is held, and says when that is done.
fn draw_after<R: Threads + Sync>(
    rt: &R,
    stock: &Stock,
    gauges: &Gauges,
    one: (StockSeat, GaugePass),
    two: (StockSeat, GaugePass),
    alloc: Global,
    each: u32,
    flags: &Flags,
) -> (Drawn, Drawn)
    requires one { CanDraw stock.now gauges.now each one }
    requires two { CanDraw stock.now gauges.now each two }
    ensures one { Drew stock.now one.0 result.0.seat result.0.numbers.items }
    ensures two { Drew stock.now two.0 result.1.seat result.1.numbers.items }
{
    for _ in 0..ROUNDS {
        if flags.begun.load(Ordering::SeqCst) {
            break;
        }
        thread::yield_now();
    }
    let drawn = draw_twice(rt, stock, gauges, one, two, alloc, each);
    flags.done.store(true, Ordering::SeqCst);
    drawn
}

// Draws in two threads while this one holds the turn and publishes.
fn draw_beside<R: Threads + Wait + Sync>(
    rt: &R,
    lock: &TurnLock<Notes>,
    turn: Pass<Notes>,
    stock: &Stock,
    gauges: &Gauges,
    writer: GaugeWriter,
    tokens: ((StockSeat, GaugePass), (StockSeat, GaugePass)),
    alloc: Global,
    each: u32,
) -> ((Pass<Notes>, bool), (Drawn, Drawn))
    requires own { IsPassOf lock.now turn }
    requires writer { IsWriterOf gauges.now writer × ((latest writer).past ≤ 0) }
    requires one { CanDraw stock.now gauges.now each tokens.0 }
    requires two { CanDraw stock.now gauges.now each tokens.1 }
    ensures own { IsPassOf lock.now result.0.0 }
    ensures parts { (known result.0.0).parts ≡ (known turn).parts }
    ensures one { Drew stock.now tokens.0.0 result.1.0.seat result.1.0.numbers.items }
    ensures two { Drew stock.now tokens.1.0 result.1.1.seat result.1.1.numbers.items }
{
    let flags = Flags {
        begun: AtomicBool::new(false),
        done: AtomicBool::new(false),
    };
    let shown = &flags;
    let (one, two) = tokens;
    join(
        rt,
        || -> (Pass<Notes>, bool)
            requires { IsPassOf lock.now turn × IsWriterOf gauges.now writer × ((latest writer).past ≤ 0) }
            ensures { IsPassOf lock.entry.now result.0 × ((known result.0).parts ≡ (known turn).parts) }
        { hold_turn(rt, lock, turn, gauges, writer, shown) },
        || -> (Drawn, Drawn)
            requires { CanDraw stock.now gauges.now each one × CanDraw stock.now gauges.now each two }
            ensures { Drew stock.entry.now one.0 result.0.seat result.0.numbers.items
                × Drew stock.entry.now two.0 result.1.seat result.1.numbers.items }
        { draw_after(rt, stock, gauges, one, two, alloc, each, shown) },
    )
}

/// Two threads draw as often as stated each, and look after each draw, while this one holds the turn and publishes. No
/// number is drawn twice. None where memory ran out, or the others weren't done while the turn was held.
pub fn draw_under_turn<R: Threads + Wait + Sync>(
    rt: &R,
    alloc: Global,
    from: u64,
    count: u16,
) -> Option<Held>
    requires { from < 2 ^ 63 }
    ensures { IfSome result (λ h. IsDistinct (h.first.items ++ h.second.items)) }
{
    let each = u32::from(count);
    let draws = 2 * each;
    let Ok((stock, seat)) = Stock::new(alloc, from, u64::from(draws), draws) else {
        return None;
    };
    let Ok((gauges, writer, pass)) = Gauges::new(alloc, readings_of(0)) else {
        return None;
    };
    let Ok((lock, turn)) = TurnLock::new(alloc, Notes::new(alloc), 1) else {
        return None;
    };
    let (one, two) = stock.split(seat, each);
    let (one_pass, other_pass) = gauges.split(pass);
    let tokens = ((one, one_pass), (two, other_pass));
    let ((turn, in_time), (first, second)) = draw_beside(
        rt, &lock, turn, &stock, &gauges, writer, tokens, alloc, each,
    );
    let _notes = lock.close(turn);
    let _all = stock.join(first.seat, second.seat);
    if in_time {
        Some(Held {
            first: first.numbers,
            second: second.numbers,
            first_seen: first.readings,
            second_seen: second.readings,
        })
    } else {
        None
    }
}
