// What is known of all numbers once every seat is joined.
ghost use Rattle.std.specs.Prelude.{◌≡◌, ◌≤◌, ◌+◌, ◌++◌, map, length, sum_by, vec_capacity};
ghost use Rattle.std.specs.List.{AllByRecursion};
ghost use Rattle.std.specs.List.Sorted.{IsNonDecreasingBy, IsPermutation};
ghost use Rattle.thread_runner.specs.Hiring.{left_of};
ghost use Rattle.thread_runner.specs.Numbers.{drawn_by};
ghost use Rattle.thread_runner.specs.Stocking.{AreAbsorbed, AreOnceAt, drawn_in_deeds};
ghost use Rattle.turn_desks.specs.Stocks.{AreRightsAt, AreSeatsAt, fact_of};

use actor_threads::Deed;
use hall_model::Who;
use number_stock::StockSeat;
use script_actors::Drawing;
use turn_desks::IntervalStock;

/// Joins all seats into the rights of their stocks, and so learns that no ticket was told twice, and that each lies
/// below the limit.
pub(crate) fn join_all(
    stocks: &[IntervalStock],
    mut rights: Vec<StockSeat>,
    mut seats: Vec<Vec<StockSeat>>,
)
    requires rights { AreRightsAt (map fact_of stocks.now) rights.items }
    requires seats { AllByRecursion (λ own. AreSeatsAt (map fact_of stocks.now) own.items) seats.items }
    ensures once { AreOnceAt rights.items (map (λ own. own.items) seats.items) }
{
    while let Some(own) = seats.pop() {
        join_own(stocks, &mut rights, own);
    }
}

/// Joins the seats of one actor.
fn join_own(stocks: &[IntervalStock], rights: &mut Vec<StockSeat>, mut own: Vec<StockSeat>)
    requires rights { AreRightsAt (map fact_of stocks.now) rights.old.items }
    requires own { AreSeatsAt (map fact_of stocks.now) own.items }
    ensures rights { AreRightsAt (map fact_of stocks.now) rights.new.items }
    ensures absorbed { AreAbsorbed rights.old.items own.items rights.new.items }
{
    while let Some(seat) = own.pop() {
        let place = own.len();
        stocks[place].stock.absorb(&mut rights[place], seat);
    }
}

/// The numbers that the sessions drew, in the order of their lines. There is room for them.
pub(crate) fn collect(deeds: &[Deed], mut room: Vec<Drawing>) -> Vec<Drawing>
    requires empty { length room.items ≡ 0 }
    requires room { length (drawn_in_deeds deeds.now) ≤ vec_capacity room }
    ensures all { IsPermutation (drawn_in_deeds deeds.now) result.items }
    ensures order { IsNonDecreasingBy (λ d. d.line) result.items }
{
    for deed in deeds {
        copy_own(deed, &mut room);
    }
    room.sort_unstable_by_key(|drawing: &Drawing| drawing.line);
    room
}

/// Those of one deed.
fn copy_own(deed: &Deed, room: &mut Vec<Drawing>)
    requires room { length room.old.items + length (drawn_by deed.now.who (left_of deed.now)) ≤ vec_capacity room.old }
    ensures items { room.new.items ≡ room.old.items ++ drawn_by deed.now.who (left_of deed.now) }
    ensures capacity { vec_capacity room.new ≡ vec_capacity room.old }
{
    match deed.who {
        Who::Session(_) => copy_all(deed.drawn.as_slice(), room),
        Who::Worker(_) | Who::Admin => {}
    }
}

fn copy_all(drawn: &[Drawing], room: &mut Vec<Drawing>)
    requires room { length room.old.items + length drawn.now ≤ vec_capacity room.old }
    ensures items { room.new.items ≡ room.old.items ++ drawn.now }
    ensures capacity { vec_capacity room.new ≡ vec_capacity room.old }
{
    for drawing in drawn {
        room.push_reserved(*drawing);
    }
}
