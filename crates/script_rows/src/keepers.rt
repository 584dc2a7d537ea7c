ghost use Rattle.std.specs.Prelude.{OnOk};
ghost use Rattle.keeper_api.specs.Keeping.{HasFaultCause};
ghost use Rattle.keeper_mem.specs.Memory.{IsSettled};

use crate::cases::StoreRow;
use enq_base::{Failed, Items, NoMemory};
use keeper_api::{Bytes, Change, KeepFault, Keeper, Row};
use keeper_mem::MemKeeper;
use std::alloc::Global;

/// A keeper in memory whose rows somebody else may change, so that it tells none.
#[derive(Drop)]
pub(crate) struct TestKeeper {
    rows: MemKeeper,
    /// The row that somebody else puts once a commit has failed.
    foreign: Option<StoreRow>,
    has_failed: bool,
}

impl TestKeeper {
    pub(crate) fn new(rows: MemKeeper, foreign: Option<StoreRow>) -> TestKeeper {
        TestKeeper {
            rows,
            foreign,
            has_failed: false,
        }
    }

    /// The rows by themselves.
    pub(crate) fn into_rows(self) -> MemKeeper {
        let TestKeeper {
            rows,
            foreign: _,
            has_failed: _,
        } = self;
        rows
    }

    /// Somebody else puts a row, where a commit has failed.
    fn meddle(&mut self, alloc: Global) -> Result<(), KeepFault>
        requires { IsSettled self.old.rows }
        ensures opened { OnOk result (IsSettled self.new.rows) }
        ensures cause { HasFaultCause self.old.rows.faults self.new.rows.faults result }
    {
        if !self.has_failed {
            return Ok(());
        }
        match self.foreign.take() {
            Some(row) => put_row(alloc, &mut self.rows, row),
            None => Ok(()),
        }
    }
}

/// Puts a row. One with an empty key is none.
pub(crate) fn put_row(alloc: Global, keeper: &mut MemKeeper, row: StoreRow) -> Result<(), KeepFault>
    requires { IsSettled keeper.old }
    ensures opened { OnOk result (IsSettled keeper.new) }
    ensures cause { HasFaultCause keeper.old.faults keeper.new.faults result }
{
    let StoreRow { table, key, value } = row;
    if key.as_slice().is_empty() {
        return Ok(());
    }
    let change = Change::Put {
        table,
        key: Items::from_vec(key),
        value: Items::from_vec(value),
    };
    let batch = vec![in alloc; change]?;
    keeper.room(alloc, batch.as_slice())?;
    match keeper.commit(batch.as_slice()) {
        Ok(()) => Ok(()),
        Err(_) => Err(KeepFault::Failed),
    }
}

impl Keeper for TestKeeper {
    ghost use Rattle.std.specs.Prelude.{None, ⊤};
    ghost use Rattle.keeper_mem.specs.Memory.{HasMade, IsSettled};

    ghost held = { λ k. None };

    ghost may_leave = { λ k rows. ⊤ };

    ghost faults = { λ k. k.rows.faults };

    ghost is_open = { λ k. IsSettled k.rows };

    ghost has_room = { λ k batch. HasMade k.rows batch };

    ghost settled = { λ k is_open. tt };

    ghost held_left = { λ k. tt };

    fn reopen(&mut self, alloc: Global) -> Result<(), KeepFault> {
        self.rows.reopen(alloc)?;
        self.meddle(alloc)?;
        Ok(())
    }

    fn get(&mut self, alloc: Global, table: u8, key: &[u8]) -> Result<Option<Bytes>, KeepFault> {
        self.rows.get(alloc, table, key)
    }

    fn page(
        &mut self,
        alloc: Global,
        table: u8,
        after: &[u8],
        n: u32,
    ) -> Result<Vec<Row>, KeepFault> {
        self.rows.page(alloc, table, after, n)
    }

    fn room(&mut self, alloc: Global, batch: &[Change]) -> Result<(), NoMemory> {
        self.rows.room(alloc, batch)
    }

    fn commit(&mut self, batch: &[Change]) -> Result<(), Failed> {
        match self.rows.commit(batch) {
            Ok(()) => Ok(()),
            Err(e) => {
                self.has_failed = true;
                Err(e)
            }
        }
    }
}
