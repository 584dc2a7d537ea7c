ghost use Rattle.std.specs.Prelude.{◌≡◌};
ghost use Rattle.turn_desks.specs.Stocks.{AreLotsBy, AreRightsAt, AreStocks};

use crate::handing::{level_told, raise_at, settle, tell_apart};
use crate::names::LockName;
use crate::served::Origin;
use crate::serving::Serving;
use crate::shown_hall::ShownHall;
use crate::stocks::IntervalStock;
use bk_disk::Disk;
use enq_base::Name;
use hall_model::{Command, PastEntry};
use keeper_api::Keeper;
use lock_entry::LockStore;
use number_stock::StockSeat;
use order_workers::Look;
use posting::{Draft, Worked};
use replica_link::Link;
use script_actors::{settles, settling_of};
use std::alloc::Global;
use stock_laws::{levels_are_reserved, lots_stay, stocks_may_be_committed};
use turn_lock::History;

/// A shown hall with the right to raise the limit of each stock: a limit is raised under a turn alone, to a level that
/// the hall has answered in it.
#[derive(Drop)]
pub struct StockedHall<'g, N: LockName, J: Origin, T: LockStore, K: Keeper, D: Disk, L: Link> {
    pub shown: ShownHall<'g, N, J, T, K, D, L>,
    stocks: &'g [IntervalStock],
    pub rights: Vec<StockSeat>,
    ghost are: { AreStocks N.stocks stocks.now },
    ghost own: { AreRightsAt N.stocks rights.items },
    // Each right has the tickets that were handed over, and no others may be committed.
    ghost lots: { ∥ AreLotsBy shown.served.hall.state N.stocks rights.items ∥₁ },
}

impl<'g, N: LockName, J: Origin, T: LockStore, K: Keeper, D: Disk, L: Link> StockedHall<
    'g,
    N,
    J,
    T,
    K,
    D,
    L,
> {
    pub fn new(
        shown: ShownHall<'g, N, J, T, K, D, L>,
        stocks: &'g [IntervalStock],
        rights: Vec<StockSeat>,
    ) -> StockedHall<'g, N, J, T, K, D, L>
        requires stocks { AreStocks N.stocks stocks.now }
        requires rights { AreRightsAt N.stocks rights.items }
        requires lots { ∥ AreLotsBy shown.served.hall.state N.stocks rights.items ∥₁ }
        ensures shown { result.shown ≡ shown.entry }
        ensures rights { result.rights ≡ rights }
    {
        StockedHall {
            shown,
            stocks,
            rights,
        }
    }

    /// Gives the hall and the rights back, each with all tickets that were handed over.
    pub fn into_shown(self) -> (ShownHall<'g, N, J, T, K, D, L>, Vec<StockSeat>)
        ensures shown { result.0 ≡ self.entry.shown }
        ensures rights { AreRightsAt N.stocks result.1.items }
        ensures lots { ∥ AreLotsBy result.0.served.hall.state N.stocks result.1.items ∥₁ }
    {
        (self.shown, self.rights)
    }
}

impl<'g, N: LockName, J: Origin, T: LockStore, K: Keeper, D: Disk, L: Link> History
    for StockedHall<'g, N, J, T, K, D, L> {
    type Entry = PastEntry;

    ghost past = { λ s. s.shown.served.hall.state.past };
}

impl<'g, N: LockName, J: Origin, T: LockStore, K: Keeper, D: Disk, L: Link> Serving
    for StockedHall<'g, N, J, T, K, D, L> {
    ghost stocks = { N.stocks };

    fn serve(
        &mut self,
        alloc: Global,
        line: u32,
        command: Command,
        worked: Option<&Worked>,
        seats: &mut [StockSeat],
    ) -> Look {
        lots_stay();
        stocks_may_be_committed();
        self.shown.served.hall.read_invariant();
        let stocks = self.stocks;
        let settling = settling_of(&command);
        tell_apart(settling, stocks, &mut self.rights, seats);
        let look = self.shown.serve(alloc, line, command, worked);
        let settled = settles(settling, &look.reply);
        settle(settled, stocks, &mut self.rights, seats);
        look
    }

    fn reserve(
        &mut self,
        alloc: Global,
        session: Name,
        place: usize,
        upto: u64,
        seats: &mut [StockSeat],
    ) -> Look {
        lots_stay();
        levels_are_reserved();
        self.shown.served.hall.read_invariant();
        let stocks = self.stocks;
        let own = &stocks[place];
        let command = Command::Reserve {
            session,
            object: own.interval.object,
            nr: own.interval.nr,
            upto,
        };
        let look = self.shown.serve(alloc, 0, command, None);
        let level = level_told(&look.reply);
        raise_at(level, own, &mut self.rights, seats, place);
        look
    }

    fn draft(&self, alloc: Global, worker: u8) -> Option<Draft> {
        self.shown.draft(alloc, worker)
    }
}
