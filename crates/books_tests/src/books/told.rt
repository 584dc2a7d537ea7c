ghost use Rattle.std.specs.Prelude.{◌≡◌, ◌⊎◌};

use super::drawing::{interval_at, lock_of};
use super::units::unit_key;
use enq_base::{Reason, Status, UnitKey};
use keeper_mem::MemKeeper;
use lock_entry::{Entry, UnitLocks};
use posting::Books;
use std::alloc::Global;
use std::test::Fail;
use update_records::UnitView;

/// What is told of a unit: its status, and its error; and the numbers of the units that wait for either part.
pub type Told = (
    Option<Status>,
    Option<(u32, Reason)>,
    &'static [u32],
    &'static [u32],
);

/// What is told of a recorded unit of MILLER without an error: its number, its status, how many effects its parts have,
/// its locks and its numbers.
pub type Seen = (u32, Status, [u32; 2], u32, u32);

/// Whether these units wait for a part, each by its number, in the order in which they are taken.
fn is_queue(books: &Books<MemKeeper>, part: u8, numbers: &[u32]) -> bool
    requires { (part ≡ 1) ⊎ (part ≡ 2) }
{
    let count = books.waiting(part);
    if count as usize != numbers.len() || books.waiting_at(part, 0).is_some() {
        return false;
    }
    for before in 0..count {
        let wanted = numbers.get(before as usize).map(|number| unit_key(*number));
        if books.waiting_at(part, before + 1) != wanted {
            return false;
        }
    }
    count == u32::MAX || books.waiting_at(part, count + 1).is_none()
}

/// Whether this is told of a unit.
pub fn is_told(books: &Books<MemKeeper>, unit: &UnitKey, told: &Told) -> bool {
    let (status, error, queue1, queue2) = *told;
    books.status(unit) == status
        && books.error(unit) == error
        && is_queue(books, 1, queue1)
        && is_queue(books, 2, queue2)
}

/// Whether so many numbers are committed, and STAT 01 alone is stored, at this level.
pub fn are_numbers(books: &Books<MemKeeper>, count: u64, level: Option<u64>) -> Result<bool, Fail> {
    let interval = interval_at(level.unwrap_or(0))?;
    Ok(
        books.numbers() == count
            && books.level(&interval.object, *b"01") == level
            && books.level(&interval.object, *b"02").is_none()
            && books.stored(0).is_none()
            && books.stored(1) == level.map(|_| interval)
            && books.stored(2).is_none(),
    )
}

/// Whether a unit has no locks, or with `locked` the one lock of `lock_of`.
pub fn has_lock(
    alloc: Global,
    books: &Books<MemKeeper>,
    unit: &UnitKey,
    locked: bool,
) -> Result<bool, Fail> {
    let locks = books.unit_locks(alloc, unit)?;
    let lock = [lock_of(unit)?];
    let wanted: &[Entry] = if locked { &lock } else { &[] };
    Ok(locks.as_slice() == wanted)
}

fn is_seen(view: &UnitView, seen: &Seen) -> bool {
    let (luw, status, [v1, v2], locks, numbers) = *seen;
    view.key == unit_key(luw)
        && view.user.bytes() == b"MILLER".as_slice()
        && view.status == status
        && view.v1 == v1
        && view.v2 == v2
        && view.locks == locks
        && view.numbers == numbers
        && view.error.is_none()
}

fn are_seen(views: &[UnitView], wanted: &[Seen]) -> bool {
    for (view, seen) in views.iter().zip(wanted) {
        if !is_seen(view, seen) {
            return false;
        }
    }
    views.len() == wanted.len()
}

/// Whether these are the recorded units.
pub fn are_views(alloc: Global, books: &Books<MemKeeper>, wanted: &[Seen]) -> Result<bool, Fail> {
    let views = books.views(alloc)?;
    Ok(are_seen(views.as_slice(), wanted) && books.units().len() == wanted.len())
}

fn are_waiting(units: &[UnitLocks], wanted: &[(u32, usize)]) -> bool {
    for (unit, (luw, locks)) in units.iter().zip(wanted) {
        if unit.unit.luw != *luw || unit.entries.as_slice().len() != *locks {
            return false;
        }
    }
    units.len() == wanted.len()
}

/// Whether these units, by their numbers, wait for their V1 part, each with so many locks.
pub fn are_open(
    alloc: Global,
    books: &Books<MemKeeper>,
    wanted: &[(u32, usize)],
) -> Result<bool, Fail> {
    let units = books.open_units(alloc)?;
    Ok(are_waiting(units.as_slice(), wanted))
}
