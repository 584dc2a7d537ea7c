ghost use Rattle.std.specs.Prelude.{◌≡◌, ◌∷◌, [], IfOk, IfSome};
ghost use Rattle.enq_base.specs.declared.condition.Condition.TheVariants.{Up};
ghost use Rattle.ledger_steps.specs.Levels.{AreIntervals, IsUnused};
ghost use Rattle.order_laws.specs.Behind.{NoneHasOrder};
ghost use Rattle.thread_runner.specs.Stocking.{IsOpened};

use bk_disk::MemDisk;
use enq_base::{Name, read_name};
use hall::Hall;
use io_edge::MemSource;
use keeper_mem::MemKeeper;
use landscape::{Landscape, read_landscape};
use lock_index::IndexTable;
use lock_objects::LockObject;
use number_ranges::Interval;
use replica_link::MemLink;
use std::alloc::Global;
use std::test::*;

const ORDER_OBJECT: &[u8] = b"max_locks = 1
[[object]]
name = \"EZORDER\"
fields = [{ name = \"MANDT\", width = 3 }, { name = \"ORDNR\", width = 10 }]
[[object.table]]
name = \"ZORDER\"
keys = [\"MANDT\", \"ORDNR\"]
";

pub(crate) type MemHall = Hall<IndexTable, MemKeeper, MemDisk, MemLink>;

/// Which call of the keeper and which of the disk fail, counted from 1; 0 where none does.
#[derive(Clone, Copy)]
pub(crate) struct Failing {
    pub(crate) keeper: u64,
    pub(crate) disk: u64,
}

pub(crate) const NONE: Failing = Failing { keeper: 0, disk: 0 };

pub(crate) fn name_of(text: &[u8]) -> Result<Name, Fail> {
    Ok(read_name(text).ok_or("a name")?)
}

/// A source of these bytes of which no call fails.
pub(crate) fn source_of(alloc: Global, bytes: &[u8]) -> Result<MemSource, Fail> {
    Ok(MemSource::new(bytes.to_vec(alloc)?, Vec::new(alloc))?)
}

/// The lock objects of the scripts.
pub(crate) fn order_objects(alloc: Global) -> Result<Vec<LockObject>, Fail> {
    let mut document = source_of(alloc, ORDER_OBJECT)?;
    match read_landscape(alloc, &mut document) {
        Ok(Landscape { objects, .. }) => Ok(objects.into_vec()),
        Err(_) => Err(Fail::from("a landscape")),
    }
}

fn order_interval(object: Name) -> Interval
    ensures unused { IsUnused result }
    ensures nr { result.nr ≡ 48 ∷ 49 ∷ [] }
{
    Interval {
        object,
        nr: *b"01",
        from: 1,
        to: 9_999_999_999,
        level: 0,
        buffer: 0,
        percent: 10,
    }
}

fn long_interval(object: Name) -> Interval
    ensures unused { IsUnused result }
    ensures nr { result.nr ≡ 48 ∷ 50 ∷ [] }
{
    Interval {
        object,
        nr: *b"02",
        from: 1,
        to: 1_000_000,
        level: 0,
        buffer: 10,
        percent: 0,
    }
}

fn short_interval(object: Name) -> Interval
    ensures unused { IsUnused result }
    ensures nr { result.nr ≡ 48 ∷ 51 ∷ [] }
{
    Interval {
        object,
        nr: *b"03",
        from: 1,
        to: 25,
        level: 0,
        buffer: 10,
        percent: 0,
    }
}

/// The intervals of the scripts: one without a buffer, a long one with a buffer, and a short one with a buffer.
fn order_intervals(alloc: Global) -> Result<Vec<Interval>, Fail>
    ensures { IfOk result (λ intervals. AreIntervals intervals.items) }
{
    let object = name_of(b"ZORDNR")?;
    let mut intervals = Vec::new(alloc);
    intervals.push(order_interval(object))?;
    intervals.push(long_interval(object))?;
    intervals.push(short_interval(object))?;
    Ok(intervals)
}

// A device fails in no call, or in this one.
fn calls_of(alloc: Global, call: u64) -> Result<Vec<u64>, Fail> {
    let mut calls = Vec::new(alloc);
    if call > 0 {
        calls.push(call)?;
    }
    Ok(calls)
}

fn keeper_with(alloc: Global, failing: Failing) -> Result<MemKeeper, Fail> {
    Ok(MemKeeper::new(alloc, calls_of(alloc, failing.keeper)?, Vec::new(alloc))?)
}

fn disk_with(alloc: Global, failing: Failing) -> Result<MemDisk, Fail> {
    Ok(MemDisk::new(alloc, Vec::new(alloc), calls_of(alloc, failing.disk)?)?)
}

/// A hall over an empty store. None where a device fails before it is open.
pub(crate) fn order_hall(alloc: Global, failing: Failing) -> Result<Option<MemHall>, Fail>
    ensures none { IfOk result (λ found. IfSome found (λ hall. hall.state.past ≡ [])) }
    ensures up { IfOk result (λ found. IfSome found (λ hall. hall.state.condition ≡ Up)) }
    ensures free { IfOk result (λ found. IfSome found (λ hall. NoneHasOrder hall.state)) }
    ensures opened { IfOk result (λ found. IfSome found (λ hall. IsOpened hall.state)) }
{
    let intervals = order_intervals(alloc)?;
    let keeper = keeper_with(alloc, failing)?;
    let disk = disk_with(alloc, failing)?;
    let link = MemLink::new(alloc, Vec::new(alloc))?;
    match MemHall::open(alloc, keeper, disk, link, 10_000, 100_000, intervals) {
        Ok(hall) => Ok(Some(hall)),
        Err(_) => Ok(None),
    }
}
