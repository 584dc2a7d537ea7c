ghost use Rattle.std.specs.Prelude.{◌≡◌, ◌<◌, None, IfSome, length};
ghost use Rattle.hall_model.specs.declared.command.Command.TheVariants as command;
ghost use Rattle.hall_model.specs.Acts.{Admits, IsAct};
ghost use Rattle.hall_model.specs.History.{judged};
ghost use Rattle.hall_model.specs.Orders as claims;
ghost use Rattle.hall_model.specs.State.{State};
ghost use Rattle.hall_model.specs.Step.{take};
ghost use Rattle.ledger_steps.specs.Steps.{at_place, waiting_for};
ghost use Rattle.update_records.specs.Marks.{has_status};

use enq_base::{Refusal, Status, UnitKey};
use hall_model::Reply;
use keeper_api::Keeper;
use ledger_steps::Part;
use posting::Books;

/// The unit that a worker has an order for.
pub(crate) fn order_of(orders: &[Option<UnitKey>], worker: u8) -> Option<UnitKey>
    ensures { result ≡ claims.order_of orders.now worker }
{
    match orders.get(worker as usize) {
        Some(order) => *order,
        None => None,
    }
}

/// The unit that a worker has an order for, where it waits for this part.
pub(crate) fn order_for<K: Keeper>(
    orders: &[Option<UnitKey>],
    books: &Books<K>,
    worker: u8,
    part: Part,
) -> Option<UnitKey>
    ensures { result ≡ claims.order_for part books.now.ledger orders.now worker }
{
    let unit = order_of(orders, worker)?;
    if waits_for(books, &unit, part) {
        Some(unit)
    } else {
        None
    }
}

/// Whether a unit waits for this part.
fn waits_for<K: Keeper>(books: &Books<K>, unit: &UnitKey, part: Part) -> bool
    ensures { result ≡ claims.waits_for part books.now.ledger unit.now }
{
    let status = books.status(unit);
    match part {
        Part::V1 => is_open(status),
        Part::V2 => is_posted(status),
    }
}

fn is_open(status: Option<Status>) -> bool
    ensures { result ≡ has_status Status.Open status }
{
    matches!(status, Some(Status::Open))
}

fn is_posted(status: Option<Status>) -> bool
    ensures { result ≡ has_status Status.Posted status }
{
    matches!(status, Some(Status::Posted))
}

/// The worker that has an order for the unit.
pub(crate) fn worker_of(orders: &[Option<UnitKey>], unit: &UnitKey) -> Option<u8>
    requires { length orders.now ≡ 256 }
    ensures { result ≡ claims.worker_of orders.now unit.now }
{
    match place_of(orders, unit) {
        Some(place) => Some(place as u8),
        None => None,
    }
}

/// Where the order for the unit stands, from 0.
fn place_of(orders: &[Option<UnitKey>], unit: &UnitKey) -> Option<usize>
    ensures place { result ≡ claims.worker_of orders.now unit.now }
    ensures within { IfSome result (λ place. place < length orders.now) }
{
    orders.iter().position(|order| is_for(order, unit))
}

/// Whether some worker has an order for the unit.
fn is_claimed(orders: &[Option<UnitKey>], unit: &UnitKey) -> bool
    ensures { result ≡ claims.is_claimed orders.now unit.now }
{
    orders.iter().any(|order| is_for(order, unit))
}

fn is_for(order: &Option<UnitKey>, unit: &UnitKey) -> bool
    ensures { result ≡ claims.is_for unit.now order.now }
{
    match order {
        Some(other) => other.is(unit),
        None => false,
    }
}

/// How many units wait for a part.
pub(crate) fn waiting<K: Keeper>(books: &Books<K>, part: Part) -> u32
    ensures { result ≡ length (waiting_for part books.now.ledger) }
{
    books.waiting(part.number())
}

/// The unit at a place of those that wait for a part, counted from 1.
fn waiting_at<K: Keeper>(books: &Books<K>, part: Part, place: u32) -> Option<UnitKey>
    ensures { result ≡ at_place place (waiting_for part books.now.ledger) }
{
    books.waiting_at(part.number(), place)
}

/// The oldest unit of those that wait for a part that no worker has an order for.
fn first_unclaimed<K: Keeper>(
    orders: &[Option<UnitKey>],
    books: &Books<K>,
    part: Part,
) -> Option<UnitKey>
    ensures { result ≡ claims.first_unclaimed orders.now (waiting_for part books.now.ledger) }
{
    for place in 0..waiting(books, part) {
        match waiting_at(books, part, place + 1) {
            Some(unit) => {
                if !is_claimed(orders, &unit) {
                    return Some(unit);
                }
            }
            None => return None,
        }
    }
    None
}

/// Gives a worker an order for the oldest unit that waits for a part and that no worker has an order for.
pub(crate) fn take<K: Keeper>(
    orders: &mut Vec<Option<UnitKey>>,
    books: &Books<K>,
    worker: u8,
    part: Part,
) -> Reply
    requires { length orders.old.items ≡ 256 }
    ensures verdict { (s : State) → s.orders ≡ orders.old.items → s.stored ≡ books.now.ledger
        → judged s (take part s worker)
        ≡ record { state = record s { orders = orders.new.items }; reply = result } }
{
    if let Some(unit) = order_of(orders.as_slice(), worker) {
        return Reply::Refused(Refusal::WorkerBusy(unit));
    }
    let Some(unit) = first_unclaimed(orders.as_slice(), books, part) else {
        return Reply::Refused(Refusal::Idle);
    };
    orders[worker as usize] = Some(unit);
    Reply::Unit(unit)
}

/// Takes a worker's order back.
pub(crate) fn drop_order(orders: &mut Vec<Option<UnitKey>>, worker: u8) -> Reply
    requires { length orders.old.items ≡ 256 }
    ensures act { (s : State) → s.orders ≡ orders.old.items → Admits s (command.DropOrder worker)
        → IsAct s (command.DropOrder worker) (record s { orders = orders.new.items }) result }
{
    let Some(unit) = order_of(orders.as_slice(), worker) else {
        return Reply::Refused(Refusal::NoOrder);
    };
    orders[worker as usize] = None;
    Reply::Unit(unit)
}
