ghost use Rattle.std.specs.Prelude.{◌≡◌, ◌+◌, ◌^◌, ◌<◌};

use crate::answer::{Drawn, Dry};
use crate::hand::{
    Cuts, Drawing, Draws, Glues, Hand, Learns, Looks, Portion, Raises, Told, Yields,
};
use crate::parting::{Joined, Owns, Parts};
use crate::seat::StockSeat;
use atomic_table::{Seat, Table};
use enq_base::NoMemory;
use std::alloc::Global;
use std::marker::Brand;

// The ticket that the next draw fetches.
const NEXT_TICKET: usize = 0;

// How many tickets may be answered.
const LIMIT: usize = 1;

/// A stock of numbers from a base on, buffered ahead of need: the number of a ticket is the base plus the ticket, which
/// a draw fetches and adds one to. Nobody waits, and a number is answered to one seat alone.
#[derive(Drop)]
pub struct Stock {
    base: u64,
    table: Table<u8, Hand, (u64, u64), Drawing, Global>,
    ghost two_words: { table.shared.table_id.words ≡ 2 },
    ghost fits: { base + table.shared.key.0 < 2 ^ 64 },
    ghost few: { table.shared.key.0 < 2 ^ 32 },
}

impl Stock {
    ghost use Rattle.std.specs.Prelude.{IfOk};
    ghost use Rattle.number_stock.specs.Rule.{opener, drew, IsNew, IsUnanswered};
    ghost use Rattle.number_stock.specs.Seats.{hand, base_of, IsSeatOf};

    /// A stock, and a seat that has all draws and the right to raise the limit. The limit counts tickets: those below
    /// it may be answered. An Err is want of memory.
    pub fn new(
        alloc: Global,
        base: u64,
        limit: u64,
        draws: u32,
    ) -> Result<(Stock, StockSeat), NoMemory>
        requires { base + draws < 2 ^ 64 }
        ensures seat { IfOk result (λ r. IsSeatOf r.0 r.1 × (hand r.1 ≡ opener draws limit)) }
        ensures base { IfOk result (λ r. base_of r.0 ≡ base) }
    {
        let (table, seat) = Table::of_words(alloc, &[0, limit], &(draws as u64, limit))?;
        Ok((Stock { base, table }, StockSeat { left: draws, seat }))
    }

    // Fetches the next ticket, by one of the seat's draws.
    fn fetch(&self, seat: &mut StockSeat) -> u64
        requires own { IsSeatOf self.now seat.old }
        requires left { 0 < (hand seat.old).draws }
        ensures own { IsSeatOf self.now seat.new }
        ensures drawn { hand seat.new ≡ drew result (hand seat.old) }
        ensures new { IsNew result (hand seat.old) }
        ensures unanswered { IsUnanswered result (hand seat.new) }
    {
        let ticket = self
            .table
            .shared
            .fetch_add::<Draws>(&mut seat.seat, NEXT_TICKET, 1);
        seat.left -= 1;
        ticket
    }
}

impl Stock {
    ghost use Rattle.std.specs.Prelude.{ℕ, ◌≤◌, true, [], All, IfErr};
    ghost use Rattle.seat_sums.specs.Sums.{IsDistinct};
    ghost use Rattle.number_stock.specs.Rule.{drew, raised, kept_of, given_of, both_of, AreOnce, IsNew, IsKnown};
    ghost use Rattle.number_stock.specs.Rule.{IsUnanswered};
    ghost use Rattle.number_stock.specs.Seats.{hand, base_of, ticket_of, IsSeatOf, IsLook};

    // Loads the limit once, for a ticket that this seat has and that was not answered.
    fn answer<N: Told>(&self, seat: &mut StockSeat, ticket: u64) -> Result<Drawn, Dry>
        requires own { IsSeatOf self.now seat.old }
        requires told { (N.ticket ≡ ticket) × (N.draws ≡ self.now.table.shared.key.0) }
        requires unanswered { IsUnanswered ticket (hand seat.old) }
        ensures own { IsSeatOf self.now seat.new }
        ensures looked { IsLook (base_of self.now) ticket (hand seat.old) (hand seat.new) result }
        ensures dry { IfErr result (λ e. IsUnanswered (ticket_of e) (hand seat.new)) }
        ensures fits { IfErr result (λ e. base_of self.now + ticket_of e < 2 ^ 64) }
    {
        let limit = self.table.shared.load::<Looks<N>>(&mut seat.seat, LIMIT);
        if ticket < limit {
            Ok(Drawn {
                number: self.base + ticket,
            })
        } else {
            Err(Dry { ticket })
        }
    }

    /// Raises the limit to this many tickets. It never lowers it.
    pub fn raise(&self, seat: &mut StockSeat, limit: u64)
        requires own { IsSeatOf self.now seat.old }
        requires right { (hand seat.old).raises ≡ true }
        ensures own { IsSeatOf self.now seat.new }
        ensures raised { hand seat.new ≡ raised limit (hand seat.old) }
    {
        self.table
            .shared
            .fetch_max::<Raises>(&mut seat.seat, LIMIT, limit);
    }

    /// Draws the next ticket, which comes behind all that the seat has had. It is answered with its number if it lies
    /// below the limit that is loaded in this call; otherwise it is dry, and the seat keeps it. Takes no memory.
    pub fn draw(&self, seat: &mut StockSeat) -> Result<Drawn, Dry>
        requires own { IsSeatOf self.now seat.old }
        requires left { 0 < (hand seat.old).draws }
        ensures own { IsSeatOf self.now seat.new }
        ensures drawn { (ticket : ℕ) × IsNew ticket (hand seat.old)
            × IsLook (base_of self.now) ticket (drew ticket (hand seat.old)) (hand seat.new) result }
        ensures dry { IfErr result (λ e. IsUnanswered (ticket_of e) (hand seat.new)) }
        ensures fits { IfErr result (λ e. base_of self.now + ticket_of e < 2 ^ 64) }
    {
        let ticket = self.fetch(seat);
        self.answer::<Brand>(seat, ticket)
    }

    /// Asks again for a ticket that this seat drew and that was not answered, against the limit that is loaded in this
    /// call. Takes no memory.
    pub fn again(&self, seat: &mut StockSeat, dry: Dry) -> Result<Drawn, Dry>
        requires own { IsSeatOf self.now seat.old }
        requires unanswered { IsUnanswered (ticket_of dry) (hand seat.old) }
        ensures own { IsSeatOf self.now seat.new }
        ensures answered { IsLook (base_of self.now) (ticket_of dry) (hand seat.old) (hand seat.new) result }
        ensures dry { IfErr result (λ e. IsUnanswered (ticket_of e) (hand seat.new)) }
        ensures fits { IfErr result (λ e. base_of self.now + ticket_of e < 2 ^ 64) }
    {
        let Dry { ticket } = dry;
        self.answer::<Brand>(seat, ticket)
    }

    // Cuts off a seat with the draws that are told.
    fn cut<N: Portion>(&self, seat: &mut StockSeat, draws: u32) -> StockSeat
        requires own { IsSeatOf self.now seat.old }
        requires told { N.draws ≡ draws }
        requires enough { draws ≤ (hand seat.old).draws }
        ensures own { IsSeatOf self.now seat.new × IsSeatOf self.now result }
        ensures cut { (hand seat.new ≡ kept_of draws (hand seat.old)) × (hand result ≡ given_of draws (hand seat.old)) }
    {
        let given = self.table.shared.split_seat::<Cuts<N>>(&mut seat.seat);
        seat.left -= draws;
        StockSeat {
            left: draws,
            seat: given,
        }
    }

    /// The second seat has the stated draws, no ticket and no right to raise; the first keeps all else. Takes no
    /// memory.
    pub fn split(&self, mut seat: StockSeat, draws: u32) -> (StockSeat, StockSeat)
        requires own { IsSeatOf self.now seat }
        requires enough { draws ≤ (hand seat).draws }
        ensures own { IsSeatOf self.now result.0 × IsSeatOf self.now result.1 }
        ensures cut { (hand result.0 ≡ kept_of draws (hand seat)) × (hand result.1 ≡ given_of draws (hand seat)) }
    {
        let given = self.cut_off(&mut seat, draws);
        (seat, given)
    }

    /// Cuts off a seat that has the stated draws, no ticket and no right to raise. Takes no memory.
    pub fn cut_off(&self, seat: &mut StockSeat, draws: u32) -> StockSeat
        requires own { IsSeatOf self.now seat.old }
        requires enough { draws ≤ (hand seat.old).draws }
        ensures own { IsSeatOf self.now seat.new × IsSeatOf self.now result }
        ensures cut { (hand seat.new ≡ kept_of draws (hand seat.old)) × (hand result ≡ given_of draws (hand seat.old)) }
    {
        self.cut::<Brand>(seat, draws)
    }

    // Takes another seat in, and learns what all tickets together say of both.
    fn glue<N: Portion>(&self, seat: &mut Seat<u8, Hand>, other: Seat<u8, Hand>)
        requires own { (seat.old.table_id ≡ self.now.table.shared.table_id)
            × (other.table_id ≡ self.now.table.shared.table_id) × (other.me.1 ≡ []) }
        requires told { N.draws ≡ self.now.table.shared.key.0 }
        ensures own { (seat.new.table_id ≡ seat.old.table_id) × (seat.new.me.1 ≡ seat.old.me.1) }
        ensures both { seat.new.me.0 ≡ both_of seat.old.me.0 other.me.0 }
        ensures learned { (seat.new.me.0.draws < 2 ^ 32) × IsDistinct seat.new.me.0.tickets
            × IsDistinct seat.new.me.0.answered × All (λ t. t < seat.new.me.0.limit) seat.new.me.0.answered
            × (seat.new.me.0.right_leads ≡ true) × AreOnce seat.new.me.0.limit seat.new.me.0.drawn }
    {
        self.table.shared.join_seat::<Glues>(seat, other);
        self.table.shared.load::<Learns<N>>(seat, NEXT_TICKET);
    }

    /// One seat with the draws, the tickets and the right of both. None of these tickets is there twice, and those that
    /// were answered lie below the limit that it saw: where one of the two has the right to raise, that seat's own.
    /// Takes no memory.
    pub fn join(&self, a: StockSeat, b: StockSeat) -> StockSeat
        requires own { IsSeatOf self.now a × IsSeatOf self.now b }
        ensures own { IsSeatOf self.now result }
        ensures both { hand result ≡ both_of (hand a) (hand b) }
        ensures limit { IsKnown (hand result).limit (hand a) × IsKnown (hand result).limit (hand b) }
        ensures distinct { IsDistinct (hand result).tickets × IsDistinct (hand result).answered }
        ensures below { All (λ t. t < (hand result).limit) (hand result).answered }
        ensures drawn { AreOnce (hand result).limit (hand result).drawn }
    {
        let StockSeat { left, mut seat } = a;
        let StockSeat {
            left: more,
            seat: other,
        } = b;
        self.glue::<Brand>(&mut seat, other);
        StockSeat {
            left: left + more,
            seat,
        }
    }
}

impl Stock {
    ghost use Rattle.std.specs.Prelude.{true, All};
    ghost use Rattle.seat_sums.specs.Sums.{IsDistinct};
    ghost use Rattle.std.specs.Prelude.{◌++◌, false};
    ghost use Rattle.number_stock.specs.Rule.{both_of, heard, parted, rest_of, unused_of, AreOnce, IsJoined, IsKnown};
    ghost use Rattle.number_stock.specs.Rule.{IsSame, OwnsAnswers};
    ghost use Rattle.number_stock.specs.Seats.{hand, IsSeatOf};

    /// The seat is as it was, and is known to have answered none but tickets of its own. Takes no memory.
    pub fn learn(&self, seat: &mut StockSeat)
        requires own { IsSeatOf self.now seat.old }
        ensures own { IsSeatOf self.now seat.new }
        ensures same { hand seat.new ≡ hand seat.old }
        ensures owns { OwnsAnswers (hand seat.new) }
    {
        self.table.shared.load::<Owns>(&mut seat.seat, NEXT_TICKET);
    }

    // Cuts off again a seat that was taken in, with the draws that it had.
    fn sever<N: Joined>(&self, seat: &mut StockSeat, draws: u32) -> StockSeat
        requires own { IsSeatOf self.now seat.old }
        requires joined { IsJoined N.first N.second (hand seat.old) }
        requires told { N.second.draws ≡ draws }
        ensures own { IsSeatOf self.now seat.new × IsSeatOf self.now result }
        ensures parted { (hand seat.new ≡ parted N.first (hand seat.old))
            × (hand result ≡ parted N.second (hand seat.old)) }
    {
        let given = self.table.shared.split_seat::<Parts<N>>(&mut seat.seat);
        seat.left -= draws;
        StockSeat {
            left: draws,
            seat: given,
        }
    }

    /// Takes apart again what was joined: the second seat gets back the draws, and the tickets and answers, which stand
    /// last, that it had. Both know the limit of the joined one. Takes no memory.
    pub fn part<N: Joined>(&self, whole: StockSeat, draws: u32) -> (StockSeat, StockSeat)
        requires own { IsSeatOf self.now whole }
        requires joined { IsJoined N.first N.second (hand whole) }
        requires told { N.second.draws ≡ draws }
        ensures own { IsSeatOf self.now result.0 × IsSeatOf self.now result.1 }
        ensures parted { (hand result.0 ≡ parted N.first (hand whole))
            × (hand result.1 ≡ parted N.second (hand whole)) }
    {
        let mut seat = whole;
        let given = self.sever::<N>(&mut seat, draws);
        (seat, given)
    }

    /// Takes another seat in, with all that it has, as `join` does. Takes no memory.
    pub fn absorb(&self, seat: &mut StockSeat, other: StockSeat)
        requires own { IsSeatOf self.now seat.old × IsSeatOf self.now other }
        ensures own { IsSeatOf self.now seat.new }
        ensures both { hand seat.new ≡ both_of (hand seat.old) (hand other) }
        ensures distinct { IsDistinct (hand seat.new).tickets × IsDistinct (hand seat.new).answered }
        ensures below { All (λ t. t < (hand seat.new).limit) (hand seat.new).answered }
        ensures leads { (hand seat.new).right_leads ≡ true }
        ensures limit { IsKnown (hand seat.new).limit (hand seat.old) × IsKnown (hand seat.new).limit (hand other) }
        ensures drawn { AreOnce (hand seat.new).limit (hand seat.new).drawn }
    {
        let StockSeat { left, seat: other } = other;
        self.glue::<Brand>(&mut seat.seat, other);
        seat.left += left;
    }

    /// The second seat knows as high a limit as the first one then, which is as it was: a ticket of it below that isn't
    /// dry. Takes no memory.
    pub fn tell(&self, from: &mut StockSeat, to: &mut StockSeat)
        requires own { IsSeatOf self.now from.old × IsSeatOf self.now to.old }
        ensures own { IsSeatOf self.now from.new × IsSeatOf self.now to.new }
        ensures told { (hand from.new ≡ hand from.old) × (hand to.new ≡ heard (hand from.old).limit (hand to.old)) }
    {
        let given = self.cut::<Brand>(from, 0);
        self.absorb(to, given);
    }

    // Cuts off a seat that has the draws, and remembers what was answered. All else stays.
    fn cut_unused(&self, seat: &mut StockSeat) -> StockSeat
        requires own { IsSeatOf self.now seat.old }
        ensures own { IsSeatOf self.now seat.new × IsSeatOf self.now result }
        ensures cut { (hand seat.new ≡ rest_of (hand seat.old)) × (hand result ≡ unused_of (hand seat.old)) }
    {
        let unused = self.table.shared.split_seat::<Yields>(&mut seat.seat);
        let left = seat.left;
        seat.left = 0;
        StockSeat { left, seat: unused }
    }

    /// A seat keeps its draws, and hands over all else that it has, its tickets with their answers; it remembers these.
    /// The other one knows the tickets distinct then, and below its limit. Takes no memory.
    pub fn hand_over(&self, seat: &mut StockSeat, to: &mut StockSeat)
        requires own { IsSeatOf self.now seat.old × IsSeatOf self.now to.old }
        ensures own { IsSeatOf self.now seat.new × IsSeatOf self.now to.new }
        ensures kept { hand seat.new ≡ unused_of (hand seat.old) }
        ensures handed { hand to.new ≡ both_of (hand to.old) (rest_of (hand seat.old)) }
        ensures owns { OwnsAnswers (hand to.old) × OwnsAnswers (rest_of (hand seat.old)) }
        ensures limit { IsKnown (hand to.new).limit (hand to.old) }
        ensures distinct { IsDistinct (hand to.new).tickets × IsDistinct (hand to.new).answered }
        ensures below { All (λ t. t < (hand to.new).limit) (hand to.new).answered }
    {
        self.learn(seat);
        self.learn(to);
        let unused = self.cut_unused(seat);
        let rest = std::mem::replace(seat, unused);
        self.absorb(to, rest);
    }

    /// A seat gets back what it has handed over. The call is told what the other one was before, and what was handed to
    /// it. Takes no memory.
    pub fn take_back<N: Joined>(&self, seat: &mut StockSeat, from: &mut StockSeat)
        requires own { IsSeatOf self.now seat.old × IsSeatOf self.now from.old }
        requires joined { IsJoined N.first N.second (hand from.old) }
        requires none { N.second.draws ≡ 0 }
        ensures own { IsSeatOf self.now seat.new × IsSeatOf self.now from.new }
        ensures kept { hand from.new ≡ parted N.first (hand from.old) }
        ensures back { hand seat.new ≡ both_of (hand seat.old) (parted N.second (hand from.old)) }
    {
        let rest = self.sever::<N>(from, 0);
        self.absorb(seat, rest);
    }

    // The same of a seat without the right to raise, by hands that are told.
    fn compare_as<N: Joined>(&self, right: &mut StockSeat, seat: &mut StockSeat)
        requires own { IsSeatOf self.now right.old × IsSeatOf self.now seat.old }
        requires told { (N.first ≡ hand right.old) × (N.second ≡ rest_of (hand seat.old)) }
        requires second { (hand seat.old).raises ≡ false }
        ensures own { IsSeatOf self.now right.new × IsSeatOf self.now seat.new }
        ensures same { IsSame (hand right.old) (hand right.new) × IsSame (hand seat.old) (hand seat.new) }
        ensures once { (hand right.old).raises ≡ true
            → AreOnce (hand right.old).limit ((hand right.old).answered ++ (hand seat.old).answered) }
    {
        self.hand_over(seat, right);
        self.take_back::<N>(seat, right);
    }

    /// Learns that the answered tickets of two seats, of which the first has the right to raise, are distinct and below
    /// its limit. Both have all that they had. Takes no memory.
    pub fn compare(&self, right: &mut StockSeat, seat: &mut StockSeat)
        requires own { IsSeatOf self.now right.old × IsSeatOf self.now seat.old }
        requires second { (hand seat.old).raises ≡ false }
        ensures own { IsSeatOf self.now right.new × IsSeatOf self.now seat.new }
        ensures same { IsSame (hand right.old) (hand right.new) × IsSame (hand seat.old) (hand seat.new) }
        ensures once { (hand right.old).raises ≡ true
            → AreOnce (hand right.old).limit ((hand right.old).answered ++ (hand seat.old).answered) }
    {
        self.compare_as::<Brand>(right, seat);
    }
}
