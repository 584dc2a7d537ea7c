ghost use Rattle.std.specs.Prelude.{◌≡◌, ◌+◌, ◌*◌, ◌≤◌, ◌<◌, ◌^◌, length, IfSome};
ghost use Rattle.number_stock.specs.Seats.{hand, IsSeatOf};

use number_stock::{Stock, StockSeat};
use std::alloc::Global;
use std::thread::{Threads, join};

/// How many numbers were drawn, and their sum, which wraps.
#[derive(Clone, Copy)]
pub struct Tally {
    pub count: u64,
    pub sum: u64,
}

fn both(first: Tally, second: Tally) -> Tally
    requires { first.count + second.count < 2 ^ 64 }
    ensures { result.count ≡ first.count + second.count }
{
    Tally {
        count: first.count + second.count,
        sum: first.sum.wrapping_add(second.sum),
    }
}

fn draw_alone(stock: &Stock, mut seat: StockSeat, draws: u32) -> (StockSeat, Tally)
    requires own { IsSeatOf stock.now seat }
    requires left { draws ≤ (hand seat).draws }
    ensures own { IsSeatOf stock.now result.0 }
    ensures answered { length (hand result.0).answered ≡ length (hand seat).answered + result.1.count }
    ensures few { result.1.count ≤ draws }
{
    let mut count = 0;
    let mut sum: u64 = 0;
    for _ in 0..draws {
        let Ok(drawn) = stock.draw(&mut seat) else {
            break;
        };
        count += 1;
        sum = sum.wrapping_add(drawn.number());
    }
    (seat, Tally { count, sum })
}

// Draws in two threads, as often as stated in each.
fn draw_by_two<R: Threads + Sync>(
    rt: &R,
    stock: &Stock,
    seat: StockSeat,
    each: u32,
) -> (StockSeat, Tally)
    requires own { IsSeatOf stock.now seat }
    requires left { 2 * each ≤ (hand seat).draws }
    ensures own { IsSeatOf stock.now result.0 }
    ensures answered { length (hand result.0).answered ≡ length (hand seat).answered + result.1.count }
    ensures few { result.1.count ≤ 2 * each }
{
    let (one, two) = stock.split(seat, each);
    let ((one, first), (two, second)) = join(
        rt,
        || -> (StockSeat, Tally)
            requires { IsSeatOf stock.now one × (each ≤ (hand one).draws) }
            ensures { IsSeatOf stock.entry.now result.0
                × (length (hand result.0).answered ≡ length (hand one).answered + result.1.count)
                × (result.1.count ≤ each) }
        { draw_alone(stock, one, each) },
        || -> (StockSeat, Tally)
            requires { IsSeatOf stock.now two × (each ≤ (hand two).draws) }
            ensures { IsSeatOf stock.entry.now result.0
                × (length (hand result.0).answered ≡ length (hand two).answered + result.1.count)
                × (result.1.count ≤ each) }
        { draw_alone(stock, two, each) },
    );
    (stock.join(one, two), both(first, second))
}

/// Four threads draw as many numbers each as stated, from one stock. None is want of memory.
pub fn draws_by_four<R: Threads + Sync>(rt: &R, alloc: Global, each: u32) -> Option<Tally>
    requires { 4 * each < 2 ^ 32 }
    ensures { IfSome result (λ t. t.count ≤ 4 * each) }
{
    let draws = 4 * each;
    let Ok((stock, seat)) = Stock::new(alloc, 1, u64::from(draws), draws) else {
        return None;
    };
    let (one, two) = stock.split(seat, 2 * each);
    let shared = &stock;
    let ((one, first), (two, second)) = join(
        rt,
        || -> (StockSeat, Tally)
            requires { IsSeatOf shared.now one × (2 * each ≤ (hand one).draws) }
            ensures { IsSeatOf shared.entry.now result.0 × (result.1.count ≤ 2 * each) }
        { draw_by_two(rt, shared, one, each) },
        || -> (StockSeat, Tally)
            requires { IsSeatOf shared.now two × (2 * each ≤ (hand two).draws) }
            ensures { IsSeatOf shared.entry.now result.0 × (result.1.count ≤ 2 * each) }
        { draw_by_two(rt, shared, two, each) },
    );
    let _all = stock.join(one, two);
    Some(both(first, second))
}

/// One thread draws as many numbers as four would. None is want of memory.
pub fn draws_by_one(alloc: Global, each: u32) -> Option<Tally>
    requires { 4 * each < 2 ^ 32 }
    ensures { IfSome result (λ t. t.count ≤ 4 * each) }
{
    let draws = 4 * each;
    let Ok((stock, seat)) = Stock::new(alloc, 1, u64::from(draws), draws) else {
        return None;
    };
    Some(draw_alone(&stock, seat, draws).1)
}
