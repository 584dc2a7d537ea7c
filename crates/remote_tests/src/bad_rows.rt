ghost use Rattle.std.specs.Prelude.{OnOk};
ghost use Rattle.keeper_api.specs.Batch.{IsBatch};
ghost use Rattle.keeper_mem.specs.Memory.{IsSettled};

use crate::targets::keeper;
use enq_base::Items;
use keeper_api::{Change, Keeper};
use keeper_mem::MemKeeper;
use remote_target::{Target, TargetFault};
use std::alloc::Global;
use std::process::Abort;
use std::test::Fail;

/// A row of a store: its table, its key and its value.
type Row = (u8, &'static [u8], &'static [u8]);

/// Rows of a store, and the table and the place of the first that is bad.
type Case = (&'static [Row], Option<(u8, u64)>);

const FIRST: Row = (0, b"C1", b"\0\0\0\0\0\0\0\x01\x01\0ADD STAT N 5");

const SECOND: Row = (0, b"C2", b"\0\0\0\0\0\0\0\x02\x03\x02DEL T 9");

const TEXT: Row = (1, b"\x04STATN", b"5");

const ONE: Row = (2, b"S", b"\0\0\0\0\0\0\0\x01");

const TWO: Row = (2, b"S", b"\0\0\0\0\0\0\0\x02");

const CASES: [Case; 19] = [
    (&[], None),
    (&[FIRST, SECOND, TEXT, TWO], None),
    // The number of calls is another one, or isn't there.
    (&[FIRST, ONE], None),
    (&[FIRST, SECOND, TEXT, ONE], Some((0, 2))),
    (&[FIRST, TEXT, TWO], Some((2, 1))),
    (&[FIRST, TEXT], Some((0, 1))),
    (&[TEXT, ONE], Some((2, 1))),
    (&[FIRST, (2, b"S", b"\x01")], Some((2, 1))),
    (&[FIRST, (2, b"R", b"\x01"), ONE], Some((2, 1))),
    (&[FIRST, ONE, (2, b"T", b"\x01")], Some((2, 2))),
    // A call's key, place, outcome or text is bad.
    (
        &[FIRST, (0, b"C 2", b"\0\0\0\0\0\0\0\x02\x01\0DEL T 9"), TWO],
        Some((0, 1)),
    ),
    (
        &[FIRST, (0, b"C2", b"\0\0\0\0\0\0\0\x01\x01\0DEL T 9"), TWO],
        Some((0, 2)),
    ),
    (
        &[FIRST, (0, b"C2", b"\0\0\0\0\0\0\0\0\x01\0DEL T 9"), TWO],
        Some((0, 2)),
    ),
    (
        &[FIRST, (0, b"C2", b"\0\0\0\0\0\0\0\x02\x01\x02DEL T 9"), TWO],
        Some((0, 2)),
    ),
    (
        &[FIRST, (0, b"C2", b"\0\0\0\0\0\0\0\x02\x03\x05DEL T 9"), TWO],
        Some((0, 2)),
    ),
    (
        &[FIRST, (0, b"C2", b"\0\0\0\0\0\0\0\x02\x01\0"), TWO],
        Some((0, 2)),
    ),
    // A business row's key or text is bad.
    (&[FIRST, TEXT, (1, b"\x04STAT", b"5"), ONE], Some((1, 1))),
    (&[FIRST, TEXT, (1, b"\x05STATN", b"5"), ONE], Some((1, 2))),
    (&[FIRST, (1, b"\x04STATM", b""), TEXT, ONE], Some((1, 1))),
];

fn commit(alloc: Global, keeper: &mut MemKeeper, batch: &[Change]) -> Result<(), Fail>
    requires opened { IsSettled keeper.old }
    requires batch { IsBatch batch.now }
    ensures { OnOk result (IsSettled keeper.new) }
{
    keeper.room(alloc, batch)?;
    let Ok(()) = keeper.commit(batch) else {
        return Err(Fail::from("a commit"));
    };
    Ok(())
}

fn put_at(
    alloc: Global,
    keeper: &mut MemKeeper,
    table: u8,
    key: &[u8],
    value: &[u8],
) -> Result<(), Fail>
    requires { IsSettled keeper.old }
    ensures { OnOk result (IsSettled keeper.new) }
{
    if key.is_empty() {
        return Err(Fail::from("a key"));
    }
    let change = Change::Put {
        table,
        key: Items::from_vec(Vec::from_slice(alloc, key)?),
        value: Items::from_vec(Vec::from_slice(alloc, value)?),
    };
    let batch = vec![in alloc; change]?;
    commit(alloc, keeper, batch.as_slice())
}

fn put(alloc: Global, keeper: &mut MemKeeper, row: &Row) -> Result<(), Fail>
    requires { IsSettled keeper.old }
    ensures { OnOk result (IsSettled keeper.new) }
{
    let (table, key, value) = row;
    put_at(alloc, keeper, *table, key, value)
}

fn put_all(alloc: Global, keeper: &mut MemKeeper, rows: &[Row]) -> Result<(), Fail>
    requires { IsSettled keeper.old }
    ensures { OnOk result (IsSettled keeper.new) }
{
    for row in rows {
        put(alloc, keeper, row)?;
    }
    Ok(())
}

/// The table and the place of the first bad row.
fn bad_place(alloc: Global, rows: &[Row]) -> Result<Option<(u8, u64)>, Fail> {
    let mut keeper = keeper(alloc, &[], &[])?;
    match keeper.reopen(alloc) {
        Ok(()) => {}
        Err(_) => return Err(Fail::from("not opened")),
    }
    put_all(alloc, &mut keeper, rows)?;
    match Target::open(alloc, keeper) {
        Ok(_) => Ok(None),
        Err((TargetFault::BadRow { table, row }, _)) => Ok(Some((table, row))),
        Err(_) => Err(Fail::from("another fault")),
    }
}

#[test]
fn the_first_bad_row_is_told(rt: HostRuntime) -> Result<(), Fail> {
    let alloc = rt.alloc();
    for (rows, wanted) in &CASES {
        assert_eq!(rt; bad_place(alloc, rows)?, *wanted);
    }
    Ok(())
}
