ghost use Rattle.std.specs.Prelude.{IfOk};
ghost use Rattle.hall_calls.specs.Drafting.{IsDraftFor};

use crate::orders::order_for;
use enq_base::{NoMemory, UnitKey};
use keeper_api::Keeper;
use ledger_steps::Part;
use posting::{Books, Draft};
use std::alloc::Global;

/// What the V1 part is worked from that a worker has an order for.
pub(crate) fn draft_for<K: Keeper>(
    alloc: Global,
    orders: &[Option<UnitKey>],
    books: &Books<K>,
    worker: u8,
) -> Result<Option<Draft>, NoMemory>
    ensures { IfOk result (IsDraftFor books.now.ledger orders.now worker) }
{
    let Some(unit) = order_for(orders, books, worker, Part::V1) else {
        return Ok(None);
    };
    let draft = books.draft(alloc, &unit)?;
    Ok(Some(draft))
}
