// How a number is drawn from a stock.
ghost use Rattle.std.specs.Prelude.{◌≡◌, ◌+◌, ◌*◌, ◌^◌, ◌≤◌, ◌<◌, IfSome, IfNone, Some, false, length, map, slice_get, true};
ghost use Rattle.number_ranges.specs.Intervals.{code_of, is_named};
ghost use Rattle.number_stock.specs.Rule.{IsUnanswered};
ghost use Rattle.number_stock.specs.Seats.{hand, ticket_of};
ghost use Rattle.number_stock.specs.declared.seat.StockSeat.{StockSeat};
ghost use Rattle.hall_model.specs.declared.command.Reply.TheVariants.{Number};
ghost use Rattle.script_actors.specs.Actors.{full_after, session_of};
ghost use Rattle.turn_desks.specs.Draws.{HasAnswered, HasDrawn, HasReserved, HasTried, IsPlaceOf};
ghost use Rattle.turn_desks.specs.Handing.{IsSeatAt};
ghost use Rattle.turn_desks.specs.Stocks.{AreSeatsAt, fact_of, is_of_stock, is_session, number_told};
ghost use Rattle.turn_lock.specs.Passes.{known};

use crate::caller::Caller;
use crate::gate::Gate;
use crate::names::LockName;
use crate::serving::Serving;
use crate::stocks::IntervalStock;
use enq_base::Name;
use hall_model::{Reply, Who};
use number_ranges::{Code, Interval};
use number_stock::{Drawn, Dry, StockSeat};
use order_workers::Look;
use std::sync::Wait;

/// The place of the stock of this object and these two digits.
pub(crate) fn place_of(stocks: &[IntervalStock], object: &Name, nr: [u8; 2]) -> Option<usize>
    ensures none { IfNone result (is_of_stock (map fact_of stocks.now) object.now nr ≡ false) }
    ensures some { IfSome result (IsPlaceOf (map fact_of stocks.now) object.now nr) }
{
    for place in 0..stocks.len() {
        if is_named(&stocks[place].interval, object, nr) {
            return Some(place);
        }
    }
    None
}

fn is_named(interval: &Interval, object: &Name, nr: [u8; 2]) -> bool
    ensures { result ≡ is_named object.now nr interval.now }
{
    interval.object.is(object) && interval.nr == nr
}

/// The reply to a drawing that gave this number. It is told for each number, also one past the interval's end.
fn reply_of(interval: &Interval, n: u64) -> Reply
    ensures { result ≡ Number n (code_of interval.now n) }
{
    let left = u128::from(interval.to.saturating_sub(n));
    let rest = times(interval.percent, interval.to.saturating_sub(interval.from));
    let code = if n == interval.to {
        Code::Last
    } else if left * 100 <= rest {
        Code::Critical
    } else {
        Code::Blank
    };
    Reply::Number { number: n, code }
}

fn times(percent: u8, more: u64) -> u128
    ensures { result ≡ percent * (more + 1) }
{
    u128::from(percent) * (u128::from(more) + 1)
}

/// The number that a drawing gave.
pub(crate) fn number_told(reply: &Reply) -> Option<u64>
    ensures { result ≡ number_told reply.now }
{
    match reply {
        Reply::Number { number, .. } => Some(*number),
        _ => None,
    }
}

/// Draws a number of the stock at this place, for a line of the script: without a turn, unless the numbers that are
/// reserved ran out.
pub(crate) fn draw_at<'a, N: LockName, S: Serving, R: Wait, G: Gate>(
    caller: &mut Caller<'a, N, S, R, G>,
    own: &IntervalStock,
    at: u32,
    place: usize,
    seats: &mut Vec<StockSeat>,
) -> Reply
    requires session { is_session caller.old.who ≡ true }
    requires within { place < length seats.old.items }
    requires seats { AreSeatsAt S.stocks seats.old.items }
    requires there { slice_get S.stocks place ≡ Some (fact_of own.now) }
    requires left { (s : StockSeat) → slice_get seats.old.items place ≡ Some s → 1 ≤ (hand s).draws }
    ensures drawn { HasDrawn S.stocks place (session_of caller.old.who) at seats.old.items seats.new.items
        (known caller.old.pass) (known caller.new.pass) result (fact_of own.now) }
    ensures full_at { caller.new.notes.full_at ≡ full_after caller.old.notes.full_at at result }
    ensures who { caller.new.who ≡ caller.old.who }
{
    match draw_from(own, seats.as_mut_slice(), place) {
        Ok(drawn) => reply_of(&own.interval, drawn.number()),
        Err(dry) => draw_dry(caller, own, at, place, seats, dry),
    }
}

/// Draws a ticket by the seat at this place.
fn draw_from(own: &IntervalStock, seats: &mut [StockSeat], place: usize) -> Result<Drawn, Dry>
    requires within { place < length seats.old }
    requires seat { IsSeatAt false own.now seats.old place }
    requires left { (s : StockSeat) → slice_get seats.old place ≡ Some s → 1 ≤ (hand s).draws }
    ensures { (s : StockSeat) → slice_get seats.old place ≡ Some s
        → HasTried own.now place seats.old seats.new result s }
{
    own.stock.draw(&mut seats[place])
}

/// Reserves numbers up to that of a ticket, and asks again for it.
fn draw_dry<'a, N: LockName, S: Serving, R: Wait, G: Gate>(
    caller: &mut Caller<'a, N, S, R, G>,
    own: &IntervalStock,
    at: u32,
    place: usize,
    seats: &mut Vec<StockSeat>,
    dry: Dry,
) -> Reply
    requires session { is_session caller.old.who ≡ true }
    requires within { place < length seats.old.items }
    requires seats { AreSeatsAt S.stocks seats.old.items }
    requires there { slice_get S.stocks place ≡ Some (fact_of own.now) }
    requires unanswered { (s : StockSeat) → slice_get seats.old.items place ≡ Some s
        → IsUnanswered (ticket_of dry) (hand s) }
    requires fits { own.now.base + ticket_of dry < 2 ^ 64 }
    ensures drawn { HasReserved S.stocks place (session_of caller.old.who) at seats.old.items seats.new.items
        (known caller.old.pass) (known caller.new.pass) result (fact_of own.now) }
    ensures full_at { caller.new.notes.full_at ≡ full_after caller.old.notes.full_at at result }
    ensures who { caller.new.who ≡ caller.old.who }
{
    let session = session_name(&caller.who);
    let upto = own.base + dry.ticket();
    let Look { reply, .. } = caller.reserve(at, session, place, upto, seats);
    match reply {
        Reply::Level(_) => answer_at(own, seats.as_mut_slice(), place, dry),
        Reply::Refused(refusal) => Reply::Refused(refusal),
        _ => unreachable!(),
    }
}

fn session_name(who: &Who) -> Name
    requires { is_session who.now ≡ true }
    ensures { result ≡ session_of who.now }
{
    match who {
        Who::Session(session) => *session,
        _ => unreachable!(),
    }
}

/// Asks again for a ticket that lies below the limit that the seat at this place knows.
fn answer_at(own: &IntervalStock, seats: &mut [StockSeat], place: usize, dry: Dry) -> Reply
    requires within { place < length seats.old }
    requires seat { IsSeatAt false own.now seats.old place }
    requires unanswered { (s : StockSeat) → slice_get seats.old place ≡ Some s
        → IsUnanswered (ticket_of dry) (hand s) }
    requires below { (s : StockSeat) → slice_get seats.old place ≡ Some s → ticket_of dry < (hand s).limit }
    ensures { (s : StockSeat) → slice_get seats.old place ≡ Some s
        → HasAnswered own.now place (ticket_of dry) seats.old seats.new result s }
{
    match own.stock.again(&mut seats[place], dry) {
        Ok(drawn) => reply_of(&own.interval, drawn.number()),
        Err(_) => unreachable!(),
    }
}
