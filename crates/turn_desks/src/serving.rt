ghost use Rattle.std.specs.Prelude.{◌≡◌, ◌≤◌, ◌&&◌, List, Some, false, length, map, slice_get, true};
ghost use mathlib.Core.List.{IsPrefix};
ghost use Rattle.hall_model.specs.Calls.{call_of};
ghost use Rattle.order_laws.specs.Behind.{is_post, up_after};
ghost use Rattle.order_workers.specs.Orders.{is_idle};
ghost use Rattle.script_actors.specs.Actors.{is_full};
ghost use Rattle.script_actors.specs.Drawings.{desk_call, settles, settling_of, with_call};
ghost use Rattle.turn_desks.specs.Stocks.{AreLeft, AreSame, AreSeatsAt, HasHeard, MayReserve, MayServe, StockFact};
ghost use Rattle.stock_laws.specs.Stocked.{answers_reservation};
ghost use Rattle.turn_desks.specs.Stocks.{reserving};

use enq_base::Name;
use hall_model::{Command, PastEntry};
use number_stock::StockSeat;
use order_workers::Look;
use posting::{Draft, Worked};
use std::alloc::Global;
use turn_lock::{Act, History};

/// A state under a lock that serves calls, and keeps each in its history.
pub trait Serving: History<Entry = PastEntry> {
    // The stocks that its callers draw from, each at a seat of its own.
    ghost stocks: { List StockFact };

    /// Serves a call of this line of the script. A COMMIT has the numbers of the caller's tickets. What a V1 part came
    /// to outside is taken by a post of it, where it still holds.
    fn serve(
        &mut self,
        alloc: Global,
        line: u32,
        command: Command,
        worked: Option<&Worked>,
        seats: &mut [StockSeat],
    ) -> Look
        requires seats { AreSeatsAt stocks seats.old }
        requires may { MayServe stocks seats.old command }
        ensures told { map desk_call (Self.past self.new) ≡ with_call (map desk_call (Self.past self.old)) line command
            result.reply }
        ensures grows { IsPrefix (Self.past self.old) (Self.past self.new) }
        ensures up { result.is_up ≡ up_after (Self.past self.new) }
        ensures full { is_full result.reply ≡ true → 262144 ≤ length (Self.past self.new) }
        ensures posts { (is_post (call_of command) && is_idle result.reply) ≡ false }
        ensures length { result.past ≡ length (Self.past self.new) }
        ensures seats { AreSeatsAt stocks seats.new }
        ensures left { AreLeft (settles (settling_of command) result.reply) seats.old seats.new };

    /// Reserves numbers up to this one, of the stock at this place. It stands in no line of a script.
    fn reserve(
        &mut self,
        alloc: Global,
        session: Name,
        place: usize,
        upto: u64,
        seats: &mut [StockSeat],
    ) -> Look
        requires seats { AreSeatsAt stocks seats.old }
        requires may { MayReserve stocks place upto }
        ensures told { (f : StockFact) → slice_get stocks place ≡ Some f → map desk_call (Self.past self.new)
            ≡ with_call (map desk_call (Self.past self.old)) 0 (reserving session upto f) result.reply }
        ensures grows { IsPrefix (Self.past self.old) (Self.past self.new) }
        ensures up { result.is_up ≡ up_after (Self.past self.new) }
        ensures full { is_full result.reply ≡ true → 262144 ≤ length (Self.past self.new) }
        ensures length { result.past ≡ length (Self.past self.new) }
        ensures answers { answers_reservation result.reply ≡ true }
        ensures seats { AreSeatsAt stocks seats.new }
        ensures same { AreSame seats.old seats.new }
        ensures heard { (f : StockFact) → slice_get stocks place ≡ Some f
            → HasHeard seats.new place upto result.reply f };

    /// What the V1 part is worked from that a worker has an order for, where there is memory for it.
    fn draft(&self, alloc: Global, worker: u8) -> Option<Draft>;
}

/// One call of the state under the lock, with what a V1 part came to outside, and the caller's seats.
#[derive(Drop)]
pub(crate) struct OneCall {
    pub(crate) alloc: Global,
    pub(crate) line: u32,
    pub(crate) command: Option<Command>,
    pub(crate) worked: Option<Worked>,
    pub(crate) seats: Vec<StockSeat>,
}

/// What a turn gives: what is seen of the call, and behind a take of a V1 part what the part is worked from.
#[derive(Drop)]
pub(crate) struct Turned {
    pub(crate) look: Look,
    pub(crate) draft: Option<Draft>,
}

impl<S: Serving> Act<S, Turned> for OneCall {
    ghost use Rattle.std.specs.Prelude.{IfSome, Some};
    ghost use Rattle.hall_model.specs.declared.command.Command.{Command};
    ghost use Rattle.turn_desks.specs.Asking.{Asks};

    ghost can = { λ a s. AreSeatsAt S.stocks a.seats.items
        × ((c : Command) × ((a.command ≡ Some c) × MayServe S.stocks a.seats.items c)) };

    ghost does = { λ a s b t turned. IfSome a.command
        (λ c. Asks S.past a.line c turned.look.reply turned.look.is_up s t
        × AreLeft (settles (settling_of c) turned.look.reply) a.seats.items b.seats.items)
        × AreSeatsAt S.stocks b.seats.items };

    fn act(&mut self, state: &mut S) -> Turned {
        let Some(command) = self.command.take() else {
            unreachable!()
        };
        let taker = taker_of(&command);
        let seats = self.seats.as_mut_slice();
        let look = state.serve(self.alloc, self.line, command, self.worked.as_ref(), seats);
        let draft = match taker {
            Some(worker) => state.draft(self.alloc, worker),
            None => None,
        };
        Turned { look, draft }
    }
}

/// The worker whose call takes an order for a V1 part.
fn taker_of(command: &Command) -> Option<u8> {
    match command {
        Command::Take1 { worker } => Some(*worker),
        _ => None,
    }
}

/// A reservation of numbers of the stock at a place.
#[derive(Drop)]
pub(crate) struct OneReservation {
    pub(crate) alloc: Global,
    pub(crate) session: Name,
    pub(crate) place: usize,
    pub(crate) upto: u64,
    pub(crate) seats: Vec<StockSeat>,
}

impl<S: Serving> Act<S, Look> for OneReservation {
    ghost use Rattle.turn_desks.specs.Asking.{IsReserved};

    ghost can = { λ a s. AreSeatsAt S.stocks a.seats.items × MayReserve S.stocks a.place a.upto };

    ghost does = { λ a s b t look. IsReserved S.past S.stocks a.session a.place a.upto a.seats.items look.reply
        look.is_up s b.seats.items t };

    fn act(&mut self, state: &mut S) -> Look {
        state.reserve(
            self.alloc,
            self.session,
            self.place,
            self.upto,
            self.seats.as_mut_slice(),
        )
    }
}
