ghost use Rattle.std.specs.Prelude.{◌≡◌, ◌<◌, true, IfNone, IfSome, length, slice_index_or};
ghost use Rattle.std.specs.List.{AllByRecursion};
ghost use Rattle.thread_runner.specs.Hiring.{IsLong};
ghost use Rattle.thread_runner.specs.Looking.{LooksLast, LooksOnce, NoneRests, is_resting};
ghost use Rattle.turn_desks.specs.Stocks.{AreLotsBy, AreRightsAt};

use actor_threads::{Deed, LastDesk};
use bk_disk::Disk;
use hall_model::Who;
use keeper_api::Keeper;
use lock_entry::LockStore;
use number_stock::StockSeat;
use order_workers::{NoRest, do_orders};
use replica_link::Link;
use std::alloc::Global;
use std::marker::PhantomData;
use std::sync::Wait;
use std::sync::atomic::AtomicU64;
use turn_desks::{LockName, Origin, ServedHall};

/// Has a worker that rests, if there is one, go on alone once all others have ended, until it finds no order. What is so
/// of the stocks stays.
pub(crate) fn look_last<N: LockName, R: Wait, J: Origin, T: LockStore, K: Keeper, D: Disk, L: Link>(
    rt: &R,
    alloc: Global,
    served: ServedHall<J, T, K, D, L>,
    rights: Vec<StockSeat>,
    deeds: &mut [Deed],
) -> (ServedHall<J, T, K, D, L>, Vec<StockSeat>)
    requires long { AllByRecursion (IsLong served.hall.state.past) deeds.old }
    requires rights { AreRightsAt N.stocks rights.items }
    requires lots { ∥ AreLotsBy served.hall.state N.stocks rights.items ∥₁ }
    ensures looked { LooksLast served.hall.state result.0.hall.state deeds.old deeds.new }
    ensures rights { AreRightsAt N.stocks result.1.items }
    ensures lots { ∥ AreLotsBy result.0.hall.state N.stocks result.1.items ∥₁ }
{
    match resting_place(deeds) {
        Some(place) => {
            look_once::<N, R, J, T, K, D, L>(rt, alloc, served, rights, &mut deeds[place])
        }
        None => (served, rights),
    }
}

/// Where a worker's deed is that rests.
fn resting_place(deeds: &[Deed]) -> Option<usize>
    ensures found { IfSome result (λ i. (i < length deeds.now)
        × ((d : Deed) → is_resting (slice_index_or deeds.now i d) ≡ true)) }
    ensures none { IfNone result (NoneRests deeds.now) }
{
    for place in 0..deeds.len() {
        if is_resting(&deeds[place]) {
            return Some(place);
        }
    }
    None
}

fn is_resting(deed: &Deed) -> bool
    ensures { result ≡ is_resting deed.now }
{
    matches!(deed.who, Who::Worker(_)) && deed.rests
}

fn look_once<N: LockName, R: Wait, J: Origin, T: LockStore, K: Keeper, D: Disk, L: Link>(
    rt: &R,
    alloc: Global,
    served: ServedHall<J, T, K, D, L>,
    rights: Vec<StockSeat>,
    deed: &mut Deed,
) -> (ServedHall<J, T, K, D, L>, Vec<StockSeat>)
    requires long { IsLong served.hall.state.past deed.old }
    requires rests { is_resting deed.old ≡ true }
    requires rights { AreRightsAt N.stocks rights.items }
    requires lots { ∥ AreLotsBy served.hall.state N.stocks rights.items ∥₁ }
    ensures looked { LooksOnce served.hall.state result.0.hall.state deed.old deed.new }
    ensures rights { AreRightsAt N.stocks result.1.items }
    ensures lots { ∥ AreLotsBy result.0.hall.state N.stocks result.1.items ∥₁ }
{
    let Who::Worker(worker) = deed.who else {
        unreachable!()
    };
    let running = AtomicU64::new(0);
    let mut rest = NoRest;
    let mut desk: LastDesk<N, J, T, K, D, L> = LastDesk {
        alloc,
        served,
        rights,
        full_at: deed.full_at,
        of: PhantomData,
    };
    deed.rests = do_orders(rt, &mut desk, &mut rest, worker, &running);
    deed.full_at = desk.full_at;
    (desk.served, desk.rights)
}
