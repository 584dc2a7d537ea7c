ghost use Rattle.std.specs.Prelude.{IfOk, OnOk};
ghost use Rattle.keeper_api.specs.Batch.{IsBatch};
ghost use Rattle.keeper_mem.specs.Memory.{IsSettled};

use enq_base::Items;
use keeper_api::{Change, Keeper};
use keeper_mem::MemKeeper;
use std::alloc::Global;
use std::test::Fail;

/// A row of a store: its table, its key and its value.
pub type Line = (u8, &'static [u8], &'static [u8]);

/// Writes a batch.
pub fn put(alloc: Global, keeper: &mut MemKeeper, batch: &[Change]) -> Result<(), Fail>
    requires opened { IsSettled keeper.old }
    requires batch { IsBatch batch.now }
    ensures { OnOk result (IsSettled keeper.new) }
{
    keeper.room(alloc, batch)?;
    let Ok(()) = keeper.commit(batch) else {
        return Err(Fail::from("a commit"));
    };
    Ok(())
}

/// Puts one row.
pub fn put_line(alloc: Global, keeper: &mut MemKeeper, line: &Line) -> Result<(), Fail>
    requires { IsSettled keeper.old }
    ensures { OnOk result (IsSettled keeper.new) }
{
    let (table, key, value) = *line;
    if key.is_empty() {
        return Err(Fail::from("a key"));
    }
    let change = Change::Put {
        table,
        key: Items::from_vec(Vec::from_slice(alloc, key)?),
        value: Items::from_vec(Vec::from_slice(alloc, value)?),
    };
    let batch = vec![in alloc; change]?;
    put(alloc, keeper, batch.as_slice())
}

/// Puts rows one after the other.
pub fn put_lines(alloc: Global, keeper: &mut MemKeeper, lines: &[Line]) -> Result<(), Fail>
    requires { IsSettled keeper.old }
    ensures { OnOk result (IsSettled keeper.new) }
{
    for line in lines {
        put_line(alloc, keeper, line)?;
    }
    Ok(())
}

/// A store of these rows.
pub fn keeper_of(alloc: Global, lines: &[Line]) -> Result<MemKeeper, Fail>
    ensures { IfOk result IsSettled }
{
    let mut keeper = MemKeeper::new(alloc, Vec::new(alloc), Vec::new(alloc))?;
    put_lines(alloc, &mut keeper, lines)?;
    Ok(keeper)
}
