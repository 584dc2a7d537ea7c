ghost use Rattle.std.specs.Prelude.{◌≡◌, ◌≤◌, is_some, length, IsTrue};
ghost use Rattle.actor_threads.specs.Last.{LeadsServed};
ghost use Rattle.script_actors.specs.Actors.{full_after};
ghost use Rattle.turn_desks.specs.Stocks.{AreLotsBy, AreRightsAt};

use bk_disk::Disk;
use enq_base::Refusal;
use hall_model::{Command, Reply};
use keeper_api::Keeper;
use lock_entry::LockStore;
use number_stock::StockSeat;
use order_workers::{Look, OrderDesk};
use replica_link::Link;
use std::alloc::Global;
use std::marker::PhantomData;
use stock_laws::lots_stay;
use turn_desks::{LockName, Origin, ServedHall};

/// The desk at which a worker looks once more when all threads are joined. The hall is its own then, and no gate holds
/// it. What is so of the stocks stays.
#[derive(Drop)]
pub struct LastDesk<N: LockName, J: Origin, T: LockStore, K: Keeper, D: Disk, L: Link> {
    pub alloc: Global,
    pub served: ServedHall<J, T, K, D, L>,
    /// The rights to raise the limits of the stocks.
    pub rights: Vec<StockSeat>,
    /// The line of the worker's last call that found the history full.
    pub full_at: Option<u32>,
    pub of: PhantomData<N>,
    ghost full: { IsTrue (is_some full_at) → 262144 ≤ length served.hall.state.past },
    ghost own: { AreRightsAt N.stocks rights.items },
    ghost lots: { ∥ AreLotsBy served.hall.state N.stocks rights.items ∥₁ },
}

impl<N: LockName, J: Origin, T: LockStore, K: Keeper, D: Disk, L: Link> OrderDesk
    for LastDesk<N, J, T, K, D, L> {
    ghost leads = { λ d m e. LeadsServed (record { state = d.served.hall.state; full_at = d.full_at }) m
        (record { state = e.served.hall.state; full_at = e.full_at }) };

    fn order(&mut self, worker: u8, command: Command) -> Look {
        let _ = worker;
        lots_stay();
        self.served.hall.read_invariant();
        let look = self.served.serve(self.alloc, 0, command, None);
        note(&mut self.full_at, &look.reply);
        look
    }
}

/// Notes what a call was answered.
fn note(full_at: &mut Option<u32>, reply: &Reply)
    ensures { full_at.new ≡ full_after full_at.old 0 reply.now }
{
    if matches!(reply, Reply::Refused(Refusal::LogFull)) {
        *full_at = Some(0);
    }
}
