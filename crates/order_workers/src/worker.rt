ghost use Rattle.std.specs.Prelude.{◌≡◌, true};
ghost use Rattle.hall_model.specs.Calls.{post_of, take_of};
ghost use Rattle.order_workers.specs.Orders.{DidOrder, DidTaken, DidWork, is_of_worker, is_idle, is_order, is_refused};

use crate::desk::OrderDesk;
use crate::rest::Rest;
use enq_base::Refusal;
use hall_model::{Command, Reply};
use ledger_steps::Part;
use std::sync::Wait;
use std::sync::atomic::{AtomicU64, Ordering};

/// What came of one order.
#[derive(Clone, Copy, Debug, PartialEq, Eq)]
enum Order {
    /// It was done, and the server is up.
    Done,
    /// There was no unit for one, and the server is up. The history was so long.
    Idle(u64),
    /// The worker ends: the take or the order was refused, or the server isn't up.
    Refused,
}

/// The call that takes an order for the part.
fn take_command(part: Part, worker: u8) -> Command
    ensures command { result ≡ take_of part worker }
    ensures own { is_of_worker worker result ≡ true }
{
    match part {
        Part::V1 => Command::Take1 { worker },
        Part::V2 => Command::Take2 { worker },
    }
}

/// The call that does it.
fn post_command(part: Part, worker: u8) -> Command
    ensures command { result ≡ post_of part worker }
    ensures own { is_of_worker worker result ≡ true }
{
    match part {
        Part::V1 => Command::Do1 { worker },
        Part::V2 => Command::Do2 { worker },
    }
}

fn is_order(reply: &Reply) -> bool
    ensures { result ≡ is_order reply.now }
{
    matches!(reply, Reply::Unit(_))
}

fn is_idle(reply: &Reply) -> bool
    ensures { result ≡ is_idle reply.now }
{
    matches!(reply, Reply::Refused(Refusal::Idle))
}

fn is_refused(reply: &Reply) -> bool
    ensures { result ≡ is_refused reply.now }
{
    matches!(reply, Reply::Refused(_))
}

/// Takes an order for the part, if there is one, and does it. An order that isn't done is dropped.
#[tactic(auto, using(crate::proofs::Orders::taken_then))]
fn do_order<K: OrderDesk>(desk: &mut K, worker: u8, part: Part) -> Order
    ensures { DidOrder K.leads worker part desk.old desk.new result }
{
    let look = desk.order(worker, take_command(part, worker));
    if is_order(&look.reply) {
        return do_taken(desk, worker, part);
    }
    if is_idle(&look.reply) && look.is_up {
        return Order::Idle(look.past);
    }
    Order::Refused
}

/// Does the order that was taken, or drops it.
fn do_taken<K: OrderDesk>(desk: &mut K, worker: u8, part: Part) -> Order
    ensures { DidTaken K.leads worker part desk.old desk.new result }
{
    let look = desk.order(worker, post_command(part, worker));
    if is_refused(&look.reply) {
        desk.order(worker, Command::DropOrder { worker });
        return Order::Refused;
    }
    if look.is_up {
        Order::Done
    } else {
        Order::Refused
    }
}

/// Does V1 orders until there is none, then V2 orders until there is none, and so on until no actor runs any more that
/// could make another: `running` counts those. Each time that it found none of both it rests, until the history may be
/// longer than it was when there was none of V1. The server has to be up when it begins. It says whether it ends so,
/// and not by a refusal or by a server that isn't up.
#[tactic(auto, using(crate::proofs::Orders::gone_nowhere))]
pub fn do_orders<R: Wait, K: OrderDesk, I: Rest>(
    rt: &R,
    desk: &mut K,
    rest: &mut I,
    worker: u8,
    running: &AtomicU64,
) -> bool
    ensures works { DidWork K.leads worker result desk.old desk.new }
{
    let mut part = Part::V1;
    let mut is_last = running.load(Ordering::SeqCst) == 0;
    let mut known = 0;
    for _ in rt.forever() {
        match do_order(desk, worker, part) {
            Order::Done => {}
            Order::Refused => return false,
            Order::Idle(past) => match part {
                Part::V1 => {
                    part = Part::V2;
                    known = past;
                }
                Part::V2 => {
                    if is_last {
                        return true;
                    }
                    is_last = running.load(Ordering::SeqCst) == 0;
                    part = Part::V1;
                    rest.rest(known);
                }
            },
        }
    }
    unreachable!()
}
