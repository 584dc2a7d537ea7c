ghost use Rattle.std.specs.Prelude.{◌≡◌};

use crate::history::{Act, History};
use crate::pass::Pass;
use crate::view::{Cuts, Gives, Glues, Learns, Looks, Portion, Tickets, Turns, View};
use atomic_table::{Seat, Table};
use std::alloc::Global;
use std::marker::Brand;
use std::snapshot::Snapshot;
use std::sync::Wait;
use std::{hint, thread};

// The ticket that the next caller fetches.
const NEXT_TICKET: usize = 0;

// The ticket whose turn it is.
const NOW_SERVING: usize = 1;

// The one slot, where the state lies while nobody holds it.
const STATE: usize = 0;

// How often a caller that finds the lock taken looks again before it takes its ticket.
const LOOKS_BEFORE_TICKET: u32 = 16;

// How many times it pauses between two of these looks: about a microsecond.
const PAUSES: u32 = 64;

// How often a caller looks for its turn before it yields the processor.
const SPINS: u32 = 100;

/// A ticket lock round a state: callers are served in the order of their tickets, one at a time. It has to be closed:
/// it isn't dropped.
pub struct TurnLock<S: History> {
    table: Table<Option<S>, View<S::Entry>, (u32, Snapshot<S>), Turns<S>, Global>,
    ghost sized: { (table.shared.table_id.words ≡ 2) × (table.shared.table_id.slots ≡ 1) },
}

impl<S: History> TurnLock<S> {
    ghost use Rattle.std.specs.Prelude.{ℕ, ◌<◌, [], ◌∷◌, Some, None, MatchBool};
    ghost use mathlib.Core.List.{IsPrefix};
    ghost use Rattle.turn_lock.specs.declared.view.Turn.TheVariants.{Rests, Waits, Holds};
    ghost use Rattle.turn_lock.specs.Rule.{waits, took, gave, IsServed};
    ghost use Rattle.turn_lock.specs.Passes.{known, IsPassOf, IsTurn};

    // Stands back while the lock is taken, a few times and no more. So whoever runs can take turn after turn, where
    // handing each to another processor costs several times as much, and far more where that caller doesn't run.
    fn stand_back(&self) {
        for _ in 0..LOOKS_BEFORE_TICKET {
            let next = self.table.shared.peek(NEXT_TICKET);
            if self.table.shared.peek(NOW_SERVING) == next {
                return;
            }
            for _ in 0..PAUSES {
                hint::spin_loop();
            }
            thread::yield_now();
        }
    }

    // Takes a ticket. After 2^64 - 1 tickets it waits for ever.
    fn take_ticket<W: Wait>(&self, rt: &W, seat: &mut Seat<Option<S>, View<S::Entry>>) -> u64
        requires own { seat.old.table_id ≡ self.now.table.shared.table_id }
        requires rests { (seat.old.me.0.turn ≡ Rests) × (0 < seat.old.me.0.parts) }
        ensures own { seat.new.table_id ≡ seat.old.table_id }
        ensures waits { seat.new.me ≡ (waits result seat.old.me.0, seat.old.me.1) }
    {
        self.stand_back();
        for _ in rt.forever() {
            let next = self.table.shared.peek(NEXT_TICKET);
            if next < u64::MAX {
                let found = self
                    .table
                    .shared
                    .compare_exchange::<Tickets>(seat, NEXT_TICKET, next, next + 1);
                if found == next {
                    return next;
                }
            }
        }
        unreachable!()
    }

    // Looks whether the ticket is served. If it is, the pass now holds the slot of the state.
    fn try_enter(&self, seat: &mut Seat<Option<S>, View<S::Entry>>, ticket: u64) -> bool
        requires own { seat.old.table_id ≡ self.now.table.shared.table_id }
        requires waits { (seat.old.me.0.turn ≡ Waits ticket) × (seat.old.me.1 ≡ []) × (0 < seat.old.me.0.parts) }
        ensures own { seat.new.table_id ≡ seat.old.table_id }
        ensures looked { MatchBool result (IsServed S.past ticket seat.old.me.0 seat.new.me)
            (seat.new.me ≡ seat.old.me) }
    {
        self.table.shared.load::<Looks<S>>(seat, NOW_SERVING) == ticket
    }

    // Looks a few times. A turn is short, so that one's own mostly comes while one spins.
    fn spin(&self, seat: &mut Seat<Option<S>, View<S::Entry>>, ticket: u64) -> bool
        requires own { seat.old.table_id ≡ self.now.table.shared.table_id }
        requires waits { (seat.old.me.0.turn ≡ Waits ticket) × (seat.old.me.1 ≡ []) × (0 < seat.old.me.0.parts) }
        ensures own { seat.new.table_id ≡ seat.old.table_id }
        ensures looked { MatchBool result (IsServed S.past ticket seat.old.me.0 seat.new.me)
            (seat.new.me ≡ seat.old.me) }
    {
        for _ in 0..SPINS {
            if self.try_enter(seat, ticket) {
                return true;
            }
            hint::spin_loop();
        }
        false
    }

    // Moves the state out of the slot.
    fn take_state(&self, seat: &mut Seat<Option<S>, View<S::Entry>>) -> S
        requires own { seat.old.table_id ≡ self.now.table.shared.table_id }
        requires holds { (x : S) × (seat.old.me.1 ≡ (0, Some x) ∷ []) }
        ensures own { seat.new.table_id ≡ seat.old.table_id }
        ensures was { seat.old.me.1 ≡ (0, Some result) ∷ [] }
        ensures took { seat.new.me ≡ (seat.old.me.0, (0, None) ∷ []) }
    {
        self.table.shared.exchange(seat, STATE, None).unwrap()
    }

    // Waits until the ticket is served, and takes the state.
    fn enter<W: Wait>(&self, rt: &W, seat: &mut Seat<Option<S>, View<S::Entry>>, ticket: u64) -> S
        requires own { seat.old.table_id ≡ self.now.table.shared.table_id }
        requires waits { (seat.old.me.0.turn ≡ Waits ticket) × (seat.old.me.1 ≡ []) × (0 < seat.old.me.0.parts) }
        ensures own { seat.new.table_id ≡ seat.old.table_id }
        ensures took { seat.new.me ≡ (took ticket (S.past result) seat.old.me.0, (0, None) ∷ []) }
        ensures seen { IsPrefix seat.old.me.0.seen (S.past result) }
    {
        for _ in rt.forever() {
            if self.spin(seat, ticket) {
                return self.take_state(seat);
            }
            thread::yield_now();
        }
        unreachable!()
    }

    // Gives the state back, and serves the next ticket.
    fn leave(&self, seat: &mut Seat<Option<S>, View<S::Entry>>, state: S)
        requires own { seat.old.table_id ≡ self.now.table.shared.table_id }
        requires holds { (t : ℕ) × (seat.old.me.0.turn ≡ Holds t) × (seat.old.me.1 ≡ (0, None) ∷ []) }
        requires some_part { 0 < seat.old.me.0.parts }
        requires grows { IsPrefix seat.old.me.0.seen (S.past state) }
        ensures own { seat.new.table_id ≡ seat.old.table_id }
        ensures gave { seat.new.me ≡ (gave (S.past state) seat.old.me.0, []) }
    {
        match self.table.shared.exchange(seat, STATE, Some(state)) {
            None => {}
            Some(_) => unreachable!(),
        }
        self.table
            .shared
            .fetch_add::<Gives<S>>(seat, NOW_SERVING, 1);
    }

    /// One turn: takes a ticket, waits until it is served, runs the act once while this pass holds the state alone, and
    /// serves the next ticket by a fetch-and-add. It waits for ever after 2^64 - 1 tickets, or where a pass that holds
    /// an earlier one never ends its act. The pass has then seen the state's whole history, and what the act added to
    /// it counts as the pass's own.
    pub fn with<W: Wait, B, A: Act<S, B>>(&self, rt: &W, pass: &mut Pass<S>, act: &mut A) -> B
        requires own { IsPassOf self.now pass.old }
        requires can { (x : S) → IsPrefix (known pass.old).seen (S.past x) → A.can act.old x }
        ensures own { IsPassOf self.now pass.new }
        ensures ran { IsTurn S.past
            (λ before after. A.does act.old before act.new after result) (known pass.old) (known pass.new) }
    {
        let ticket = self.take_ticket(rt, &mut pass.seat);
        let mut state = self.enter(rt, &mut pass.seat, ticket);
        let answer = act.act(&mut state);
        self.leave(&mut pass.seat, state);
        answer
    }
}

impl<S: History> TurnLock<S> {
    ghost use Rattle.std.specs.Prelude.{◌<◌, [], ◌++◌, length, IfOk, IfErr};
    ghost use mathlib.Core.List.{IsPrefix};
    ghost use Rattle.seat_sums.specs.Sums.{IsDistinct};
    ghost use Rattle.turn_lock.specs.declared.view.Turn.TheVariants.{Rests};
    ghost use Rattle.std.specs.List.Sorted.{IsPermutation};
    ghost use Rattle.turn_lock.specs.Rule.{numbers, opener, kept_of, given_of, both_of, own_entries, Stands, IsSound};
    ghost use Rattle.turn_lock.specs.Passes.{known, IsPassOf, all_parts};

    /// A lock round the state, with a pass that has all parts, at least one. The entries that the state has count as
    /// this pass's own. An Err is want of memory, and gives the state back.
    pub fn new(alloc: Global, state: S, parts: u32) -> Result<(TurnLock<S>, Pass<S>), S>
        requires { 0 < parts }
        ensures ok { IfOk result
            (λ r. IsPassOf r.0 r.1 × (all_parts r.0 ≡ parts) × (known r.1 ≡ opener parts (S.past state))) }
        ensures own { IfOk result (λ r. own_entries (known r.1) ≡ S.past state) }
        ensures err { IfErr result (λ s. s ≡ state) }
    {
        let Ok(mut slots) = Vec::with_capacity(alloc, 1) else {
            return Err(state);
        };
        let about = (parts, Snapshot::of(&state));
        slots.push_reserved(Some(state));
        match Table::new(alloc, &[0, 0], slots, &about) {
            Ok((table, seat)) => Ok((TurnLock { table }, Pass { seat })),
            Err(refused) => {
                let mut slots = refused.slots;
                let state = slots.pop().unwrap().unwrap();
                slots.destroy_empty();
                Err(state)
            }
        }
    }

    // Cuts off a seat with the parts that are told.
    fn cut<N: Portion>(
        &self,
        seat: &mut Seat<Option<S>, View<S::Entry>>,
        parts: u32,
    ) -> Seat<Option<S>, View<S::Entry>>
        requires own { seat.old.table_id ≡ self.now.table.shared.table_id }
        requires told { N.parts ≡ parts }
        requires parts { (0 < parts) × (parts < seat.old.me.0.parts) }
        ensures own { (seat.new.table_id ≡ seat.old.table_id) × (result.table_id ≡ seat.old.table_id) }
        ensures cut { (seat.new.me ≡ (kept_of parts seat.old.me.0, seat.old.me.1))
            × (result.me ≡ (given_of parts seat.old.me.0, [])) }
    {
        let _ = parts;
        self.table.shared.split_seat::<Cuts<N>>(seat)
    }

    /// The second pass has the stated parts, at least one and fewer than the pass has. It has seen as much as the
    /// first, and has no entries of its own. Takes no memory.
    pub fn split(&self, pass: Pass<S>, parts: u32) -> (Pass<S>, Pass<S>)
        requires own { IsPassOf self.now pass }
        requires parts { (0 < parts) × (parts < (known pass).parts) }
        ensures own { IsPassOf self.now result.0 × IsPassOf self.now result.1 }
        ensures cut { (known result.0 ≡ kept_of parts (known pass)) × (known result.1 ≡ given_of parts (known pass)) }
    {
        let Pass { mut seat } = pass;
        let given = self.cut::<Brand>(&mut seat, parts);
        (Pass { seat }, Pass { seat: given })
    }

    // Takes another seat in, and learns what all parts together say of both.
    fn glue<N: Portion>(
        &self,
        seat: &mut Seat<Option<S>, View<S::Entry>>,
        other: Seat<Option<S>, View<S::Entry>>,
    )
        requires own { (seat.old.table_id ≡ self.now.table.shared.table_id)
            × (other.table_id ≡ self.now.table.shared.table_id) × (other.me.1 ≡ []) }
        requires told { N.parts ≡ all_parts self.now }
        requires rest { (seat.old.me.0.turn ≡ Rests) × (other.me.0.turn ≡ Rests) × (0 < seat.old.me.0.parts) }
        ensures own { seat.new.table_id ≡ seat.old.table_id }
        ensures both { seat.new.me ≡ (both_of seat.old.me.0 other.me.0, seat.old.me.1) }
        ensures learned { IsSound (all_parts self.now) seat.new.me.0 }
    {
        self.table.shared.join_seat::<Glues>(seat, other);
        self.table.shared.load::<Learns<N>>(seat, NEXT_TICKET);
    }

    /// One pass with the parts and the entries of both, which stand at the same places as before. The shorter of what
    /// they saw begins the longer, and no entry is twice its own. Takes no memory.
    pub fn join(&self, a: Pass<S>, b: Pass<S>) -> Pass<S>
        requires own { IsPassOf self.now a × IsPassOf self.now b }
        ensures own { IsPassOf self.now result }
        ensures both { known result ≡ both_of (known a) (known b) }
        ensures begins { IsPrefix (known a).seen (known result).seen × IsPrefix (known b).seen (known result).seen }
        ensures entries { own_entries (known result) ≡ own_entries (known a) ++ own_entries (known b) }
        ensures places { Stands (known result).seen (known a) × Stands (known result).seen (known b) }
        ensures once { IsDistinct (known result).own }
    {
        let Pass { mut seat } = a;
        let Pass { seat: other } = b;
        self.glue::<Brand>(&mut seat, other);
        Pass { seat }
    }

    /// Ends the lock with the pass that has all parts again, and gives the state. The pass saw its whole history, and
    /// the pass's own entries are that history, each once. The places of the history are the pass's own, each once, and
    /// at these places stand its own entries, in order.
    pub fn close(self, pass: Pass<S>) -> S
        requires own { IsPassOf self pass }
        requires all { (known pass).parts ≡ all_parts self }
        ensures seen { (known pass).seen ≡ S.past result }
        ensures own { IsPermutation (S.past result) (own_entries (known pass)) }
        ensures whole { IsPermutation (numbers 0 (length (S.past result))) (known pass).own }
        ensures places { Stands (S.past result) (known pass) }
    {
        let TurnLock { table } = self;
        let Pass { seat } = pass;
        let mut closed = table.close_with(seat);
        let state = closed.take(STATE).unwrap();
        closed.free();
        state
    }
}
