// The tickets of a session, and those that were handed over.
ghost use Rattle.std.specs.Prelude.{◌≡◌, ◌+◌, ◌-◌, ◌≤◌, ◌<◌, Some, false, length, map, slice_get, true};
ghost use Rattle.number_stock.specs.Rule.{heard, raised};
ghost use Rattle.number_stock.specs.Seats.{hand, IsSeatOf};
ghost use Rattle.number_stock.specs.declared.seat.StockSeat.{StockSeat};
ghost use Rattle.turn_desks.specs.Handing.{AreCompared, AreFree, AreSameRights, FreeFor, IsHandedOver, IsRaisedBy, IsSeatAt, Reaches};
ghost use Rattle.turn_desks.specs.Handing.{handed_then, with_handed};
ghost use Rattle.turn_desks.specs.Stocks.{AreLeft, AreRightsAt, AreSame, AreSeatsAt, answered_of, fact_of, level_told, limits_of};

use crate::stocks::IntervalStock;
use hall_model::Reply;
use number_stock::StockSeat;
use script_actors::Settling;

/// Learns that no ticket of these seats was handed over before.
pub(crate) fn compare_all(
    stocks: &[IntervalStock],
    rights: &mut [StockSeat],
    seats: &mut [StockSeat],
)
    requires rights { AreRightsAt (map fact_of stocks.now) rights.old }
    requires seats { AreSeatsAt (map fact_of stocks.now) seats.old }
    ensures rights { AreRightsAt (map fact_of stocks.now) rights.new }
    ensures seats { AreSeatsAt (map fact_of stocks.now) seats.new }
    ensures handed { AreSameRights rights.old rights.new }
    ensures same { AreSame seats.old seats.new }
    ensures free { AreFree (limits_of rights.old) (answered_of rights.old) (answered_of seats.old) }
{
    for place in 0..stocks.len() {
        compare_at(&stocks[place], rights, seats, place);
    }
}

/// The same of the seat at this place.
fn compare_at(own: &IntervalStock, rights: &mut [StockSeat], seats: &mut [StockSeat], place: usize)
    requires within { (place < length rights.old) × (place < length seats.old) }
    requires right { IsSeatAt true own.now rights.old place }
    requires seat { IsSeatAt false own.now seats.old place }
    ensures { (r s : StockSeat) → slice_get rights.old place ≡ Some r → slice_get seats.old place ≡ Some s
        → AreCompared own.now place rights.old seats.old rights.new seats.new r s }
{
    own.stock.compare(&mut rights[place], &mut seats[place]);
}

/// Each seat hands its tickets over.
pub(crate) fn hand_all(stocks: &[IntervalStock], rights: &mut [StockSeat], seats: &mut [StockSeat])
    requires rights { AreRightsAt (map fact_of stocks.now) rights.old }
    requires seats { AreSeatsAt (map fact_of stocks.now) seats.old }
    ensures rights { AreRightsAt (map fact_of stocks.now) rights.new }
    ensures seats { AreSeatsAt (map fact_of stocks.now) seats.new }
    ensures limits { limits_of rights.new ≡ limits_of rights.old }
    ensures handed { answered_of rights.new ≡ with_handed (answered_of rights.old) (answered_of seats.old) }
    ensures left { AreLeft true seats.old seats.new }
{
    for place in 0..stocks.len() {
        hand_over_at(&stocks[place], rights, seats, place);
    }
}

/// The same of the seat at this place.
fn hand_over_at(
    own: &IntervalStock,
    rights: &mut [StockSeat],
    seats: &mut [StockSeat],
    place: usize,
)
    requires within { (place < length rights.old) × (place < length seats.old) }
    requires right { IsSeatAt true own.now rights.old place }
    requires seat { IsSeatAt false own.now seats.old place }
    ensures { (r s : StockSeat) → slice_get rights.old place ≡ Some r → slice_get seats.old place ≡ Some s
        → IsHandedOver own.now place rights.old seats.old rights.new seats.new r s }
{
    own.stock.hand_over(&mut seats[place], &mut rights[place]);
}

/// Before a COMMIT it is learned that no ticket of these seats was handed over before.
pub(crate) fn tell_apart(
    settling: Settling,
    stocks: &[IntervalStock],
    rights: &mut [StockSeat],
    seats: &mut [StockSeat],
)
    requires rights { AreRightsAt (map fact_of stocks.now) rights.old }
    requires seats { AreSeatsAt (map fact_of stocks.now) seats.old }
    ensures rights { AreRightsAt (map fact_of stocks.now) rights.new }
    ensures seats { AreSeatsAt (map fact_of stocks.now) seats.new }
    ensures handed { AreSameRights rights.old rights.new }
    ensures same { AreSame seats.old seats.new }
    ensures free { FreeFor settling (limits_of rights.old) (answered_of rights.old) (answered_of seats.old) }
{
    match settling {
        Settling::Commits => compare_all(stocks, rights, seats),
        Settling::GivesUp | Settling::Neither => {}
    }
}

/// Each seat hands its tickets over, where these are settled.
pub(crate) fn settle(
    settled: bool,
    stocks: &[IntervalStock],
    rights: &mut [StockSeat],
    seats: &mut [StockSeat],
)
    requires rights { AreRightsAt (map fact_of stocks.now) rights.old }
    requires seats { AreSeatsAt (map fact_of stocks.now) seats.old }
    ensures rights { AreRightsAt (map fact_of stocks.now) rights.new }
    ensures seats { AreSeatsAt (map fact_of stocks.now) seats.new }
    ensures limits { limits_of rights.new ≡ limits_of rights.old }
    ensures handed { answered_of rights.new
        ≡ handed_then settled (answered_of rights.old) (answered_of seats.old) }
    ensures left { AreLeft settled seats.old seats.new }
{
    if !settled {
        return;
    }
    hand_all(stocks, rights, seats);
}

/// The level that a reservation was answered.
pub(crate) fn level_told(reply: &Reply) -> Option<u64>
    ensures { result ≡ level_told reply.now }
{
    match reply {
        Reply::Level(level) => Some(*level),
        _ => None,
    }
}

/// Raises the limit of the stock at this place to the level, if there is one, and tells the seat there.
pub(crate) fn raise_at(
    level: Option<u64>,
    own: &IntervalStock,
    rights: &mut [StockSeat],
    seats: &mut [StockSeat],
    place: usize,
)
    requires within { (place < length rights.old) × (place < length seats.old) }
    requires right { IsSeatAt true own.now rights.old place }
    requires seat { IsSeatAt false own.now seats.old place }
    requires reaches { Reaches level own.now.base }
    ensures { (r s : StockSeat) → slice_get rights.old place ≡ Some r → slice_get seats.old place ≡ Some s
        → IsRaisedBy own.now place level rights.old seats.old rights.new seats.new r s }
{
    let Some(level) = level else {
        return;
    };
    raise(own, level, &mut rights[place], &mut seats[place]);
}

/// Raises the limit of a stock to a level, and tells a seat of it.
fn raise(own: &IntervalStock, level: u64, right: &mut StockSeat, seat: &mut StockSeat)
    requires own { IsSeatOf own.now.stock right.old × IsSeatOf own.now.stock seat.old }
    requires right { (hand right.old).raises ≡ true }
    requires behind { own.now.base ≤ level }
    ensures own { IsSeatOf own.now.stock right.new × IsSeatOf own.now.stock seat.new }
    ensures raised { hand right.new ≡ raised (level + 1 - own.now.base) (hand right.old) }
    ensures heard { hand seat.new ≡ heard (hand right.new).limit (hand seat.old) }
{
    let limit = level - own.base + 1;
    own.stock.raise(right, limit);
    own.stock.tell(right, seat);
}
