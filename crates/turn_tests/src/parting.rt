ghost use Rattle.std.specs.Prelude.{◌≡◌, ◌<◌, false, IsOk};
ghost use Rattle.number_stock.specs.Rule.{IsUnanswered, OwnsAnswers};
ghost use Rattle.number_stock.specs.Seats.{hand, ticket_of, IsSeatOf};
ghost use Rattle.turn_tests.specs.Drawing.{HasBack};

use number_stock::{Drawn, Dry, Joined, Stock, StockSeat};
use std::alloc::Global;
use std::marker::Brand;

// Joins two seats and takes them apart again.
fn join_and_part<N: Joined>(
    stock: &Stock,
    one: StockSeat,
    other: StockSeat,
) -> (StockSeat, StockSeat)
    requires own { IsSeatOf stock.now one × IsSeatOf stock.now other }
    requires told { (N.first ≡ hand one) × (N.second ≡ hand other) }
    requires second { (hand other).raises ≡ false }
    requires owns { OwnsAnswers (hand one) × OwnsAnswers (hand other) }
    ensures own { IsSeatOf stock.now result.0 × IsSeatOf stock.now result.1 }
    ensures back { HasBack one result.0 × HasBack other result.1 }
{
    let draws = other.left();
    let both = stock.join(one, other);
    stock.part::<N>(both, draws)
}

// Two seats that were joined and taken apart again have their own draws, tickets and answers.
fn joined_and_parted(stock: &Stock, one: StockSeat, other: StockSeat) -> (StockSeat, StockSeat)
    requires own { IsSeatOf stock.now one × IsSeatOf stock.now other }
    requires second { (hand other).raises ≡ false }
    ensures own { IsSeatOf stock.now result.0 × IsSeatOf stock.now result.1 }
    ensures back { HasBack one result.0 × HasBack other result.1 }
{
    let mut first = one;
    let mut second = other;
    stock.learn(&mut first);
    stock.learn(&mut second);
    join_and_part::<Brand>(stock, first, second)
}

// Draws so often, if there are as many draws left.
fn draw_some(stock: &Stock, seat: StockSeat, count: u32) -> StockSeat
    requires own { IsSeatOf stock.now seat }
    ensures own { IsSeatOf stock.now result }
    ensures right { (hand result).raises ≡ (hand seat).raises }
{
    let mut now = seat;
    for _ in 0..count {
        if now.left() == 0 {
            break;
        }
        let _ = stock.draw(&mut now);
    }
    now
}

/// How many draws two seats have left that share those of a stock, have used some, and were joined and parted again.
/// None is want of memory, or a share that is larger than the whole.
pub fn left_when_parted(
    alloc: Global,
    draws: u32,
    given: u32,
    used: (u32, u32),
) -> Option<(u32, u32)> {
    let Ok((stock, seat)) = Stock::new(alloc, 1, 9, draws) else {
        return None;
    };
    if draws < given {
        return None;
    }
    let (one, other) = stock.split(seat, given);
    let first = draw_some(&stock, one, used.0);
    let second = draw_some(&stock, other, used.1);
    let (one_again, other_again) = joined_and_parted(&stock, first, second);
    Some((one_again.left(), other_again.left()))
}

// A ticket below a limit that the seat was told of is answered.
fn answered_once_told(stock: &Stock, from: StockSeat, to: StockSeat, dry: Dry) -> Result<Drawn, Dry>
    requires own { IsSeatOf stock.now from × IsSeatOf stock.now to }
    requires unanswered { IsUnanswered (ticket_of dry) (hand to) }
    requires below { ticket_of dry < (hand from).limit }
    ensures { IsOk result }
{
    let mut teller = from;
    let mut told = to;
    stock.tell(&mut teller, &mut told);
    stock.again(&mut told, dry)
}

/// What a seat is answered for a ticket that was dry, once the seat that raised the limit has told it. None is want of
/// memory.
pub fn number_once_told(alloc: Global, base: u32) -> Option<u64> {
    let Ok((stock, seat)) = Stock::new(alloc, u64::from(base), 0, 2) else {
        return None;
    };
    let (mut keeper, mut other) = stock.split(seat, 1);
    let Err(dry) = stock.draw(&mut other) else {
        return None;
    };
    if dry.ticket() >= 1 {
        return None;
    }
    stock.raise(&mut keeper, 1);
    let Ok(drawn) = answered_once_told(&stock, keeper, other, dry) else {
        return None;
    };
    Some(drawn.number())
}
