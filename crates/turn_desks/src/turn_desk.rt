ghost use Rattle.std.specs.Prelude.{◌≡◌, ◌≤◌, ◌+◌, [], false, is_some, length, map, sum_by, true, vec_capacity, vec_len, IsTrue};
ghost use mathlib.Core.List.{reverse};
ghost use Rattle.number_ranges.specs.declared.interval.Interval.{Interval};
ghost use Rattle.script_actors.specs.Actors.{full_after, session_of};
ghost use Rattle.script_actors.specs.Drawings.{calls_in, desk_call, stock_of};
ghost use Rattle.turn_desks.specs.Asking.{IsAsked};
ghost use Rattle.turn_desks.specs.Parts.{IsPart};
ghost use Rattle.turn_desks.specs.Stocks.{AreFresh, AreOfLand, AreSeatsAt, AreStocks, answered_of, are_of_stocks};
ghost use Rattle.turn_desks.specs.Stocks.{draws_of, drawn_of, is_session, left_in, numbered, numbers_by};
ghost use Rattle.turn_desks.specs.Weaving.{desk_entries, made_behind, noted, numbers_in, numbers_told};
ghost use Rattle.turn_lock.specs.Passes.{known};
ghost use Rattle.turn_lock.specs.Rule.{own_entries};

use crate::caller::Caller;
use crate::drawing::{draw_at, number_told, place_of};
use crate::gate::Gate;
use crate::names::LockName;
use crate::noting::Note;
use crate::serving::Serving;
use crate::stocks::IntervalStock;
use enq_base::Name;
use hall_model::{Command, Reply, Who};
use number_stock::StockSeat;
use order_workers::{Look, OrderDesk};
use script_actors::{Desk, Drawing};
use std::alloc::Global;
use std::snapshot::Snapshot;
use std::sync::Wait;
use turn_lock::Pass;

/// The desk of an actor in a thread: each call is a turn, and numbers of stocks are drawn without one, at seats of its
/// own.
#[derive(Drop)]
pub struct TurnDesk<'a, N: LockName, S: Serving, R: Wait, G: Gate> {
    pub caller: Caller<'a, N, S, R, G>,
    stocks: &'a [IntervalStock],
    /// One at each stock.
    pub seats: Vec<StockSeat>,
    /// What it has drawn, with room for all that it may draw.
    pub drawn: Vec<Note<S>>,
    /// Room for the numbers of these, once its work is done.
    spare: Vec<Drawing>,
    ghost of_stocks: { AreStocks S.stocks stocks.now },
    ghost of_land: { AreOfLand N.intervals S.stocks },
    ghost own_seats: { AreSeatsAt S.stocks seats.items },
    ghost drawer: { is_session caller.who ≡ false → (i : Interval) → left_in S.stocks (draws_of seats.items) i ≡ 0 },
    ghost room: { vec_len drawn + sum_by (λ n. n) (draws_of seats.items) ≤ vec_capacity drawn },
    ghost place: { (spare.items ≡ []) × (vec_capacity drawn ≤ vec_capacity spare) },
    ghost behind: { made_behind (reverse (map noted drawn.items))
        ≤ length (map desk_call (own_entries (known caller.pass))) },
    ghost calls: { calls_in (desk_entries drawn.items (known caller.pass))
        ≡ map desk_call (own_entries (known caller.pass)) },
    // The tickets of its seats are the numbers that its next COMMIT hands over.
    ghost known_numbers: { are_of_stocks S.stocks (stock_of (desk_entries drawn.items (known caller.pass))) ≡ true },
    ghost pending: { numbers_by S.stocks (stock_of (desk_entries drawn.items (known caller.pass)))
        ≡ numbered S.stocks (answered_of seats.items) },
    ghost numbers: { numbers_by S.stocks (numbers_in (desk_entries drawn.items (known caller.pass)))
        ≡ numbered S.stocks (drawn_of seats.items) },
    ghost drawn_known: { are_of_stocks S.stocks (numbers_in (desk_entries drawn.items (known caller.pass))) ≡ true },
    ghost told: { numbers_in (desk_entries drawn.items (known caller.pass)) ≡ numbers_told (map noted drawn.items) },
}

impl<'a, N: LockName, S: Serving, R: Wait, G: Gate> TurnDesk<'a, N, S, R, G> {
    /// A desk at which nothing was done. Who isn't a session has no draws.
    pub fn new(
        caller: Caller<'a, N, S, R, G>,
        stocks: &'a [IntervalStock],
        seats: Vec<StockSeat>,
        room: Vec<Note<S>>,
        spare: Vec<Drawing>,
    ) -> TurnDesk<'a, N, S, R, G>
        requires none { own_entries (known caller.pass) ≡ [] }
        requires stocks { AreStocks S.stocks stocks.now }
        requires land { AreOfLand N.intervals S.stocks }
        requires seats { AreSeatsAt S.stocks seats.items }
        requires fresh { AreFresh seats.items }
        requires drawer { is_session caller.who ≡ false
            → (i : Interval) → left_in S.stocks (draws_of seats.items) i ≡ 0 }
        requires empty { room.items ≡ [] }
        requires room { sum_by (λ n. n) (draws_of seats.items) ≤ vec_capacity room }
        requires place { (spare.items ≡ []) × (vec_capacity room ≤ vec_capacity spare) }
        ensures caller { result.caller ≡ caller.entry }
        ensures seats { result.seats ≡ seats }
        ensures drawn { result.drawn.items ≡ [] }
    {
        TurnDesk {
            caller,
            stocks,
            seats,
            drawn: room,
            spare,
        }
    }

    /// Gives its pass back, and its seats, with a note of each drawing, and room for their numbers.
    pub fn into_parts(self) -> (Pass<S>, Vec<StockSeat>, Vec<Note<S>>, Vec<Drawing>)
        ensures pass { result.0 ≡ self.entry.caller.pass }
        ensures seats { result.1 ≡ self.entry.seats }
        ensures drawn { result.2 ≡ self.entry.drawn }
        ensures room { (result.3.items ≡ []) × (vec_len result.2 ≤ vec_capacity result.3) }
        ensures own { result.0.seat.table_id ≡ N.table }
        ensures one { (known result.0).parts ≡ 1 }
        ensures part { ∥ IsPart (own_entries (known result.0)) (known result.0).seen ∥₁ }
        ensures full { IsTrue (is_some self.entry.caller.notes.full_at) → 262144 ≤ length (known result.0).seen }
        ensures calls { calls_in (desk_entries result.2.items (known result.0))
            ≡ map desk_call (own_entries (known result.0)) }
        ensures at { AreSeatsAt S.stocks result.1.items }
        // What its seats remember are the numbers that it drew, stock by stock.
        ensures numbers { numbers_by S.stocks (numbers_in (desk_entries result.2.items (known result.0)))
            ≡ numbered S.stocks (drawn_of result.1.items) }
        ensures told { numbers_in (desk_entries result.2.items (known result.0))
            ≡ numbers_told (map noted result.2.items) }
        ensures known { are_of_stocks S.stocks (numbers_in (desk_entries result.2.items (known result.0))) ≡ true }
    {
        let TurnDesk {
            caller,
            seats,
            drawn,
            spare,
            ..
        } = self;
        (caller.into_pass(), seats, drawn, spare)
    }
}

impl<'a, N: LockName, S: Serving, R: Wait, G: Gate> Desk for TurnDesk<'a, N, S, R, G> {
    ghost entries = { λ d. desk_entries d.drawn.items (known d.caller.pass) };

    ghost full_at = { λ d. d.caller.notes.full_at };

    ghost intervals = { λ d. N.intervals };

    ghost left = { λ d. left_in S.stocks (draws_of d.seats.items) };

    ghost session = { λ d. session_of d.caller.who };

    fn call(&mut self, at: u32, who: &Who, command: Command) -> Reply {
        self.caller.ask(at, who, command, &mut self.seats).reply
    }

    fn draw(&mut self, at: u32, object: Name, nr: [u8; 2]) -> Reply {
        let TurnDesk {
            caller,
            stocks,
            seats,
            drawn,
            ..
        } = self;
        let Some(place) = place_of(stocks, &object, nr) else {
            unreachable!()
        };
        let was = Snapshot::of(&caller.pass);
        let reply = draw_at(caller, &stocks[place], at, place, seats);
        drawn.push_reserved(Note {
            line: at,
            object,
            nr,
            number: number_told(&reply),
            reply: Snapshot::of(&reply),
            was,
            is: Snapshot::of(&caller.pass),
        });
        reply
    }
}

impl<'a, N: LockName, S: Serving, R: Wait, G: Gate> OrderDesk for TurnDesk<'a, N, S, R, G> {
    ghost leads = { λ d m e. IsAsked S.past 0 m.command m.reply m.is_up (known d.caller.pass) (known e.caller.pass)
        × (e.caller.notes.full_at ≡ full_after d.caller.notes.full_at 0 m.reply) };

    fn order(&mut self, worker: u8, command: Command) -> Look {
        self.caller
            .ask(0, &Who::Worker(worker), command, &mut self.seats)
    }
}
