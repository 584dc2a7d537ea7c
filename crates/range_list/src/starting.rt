ghost use Rattle.std.specs.Prelude.{◌≡◌, ◌≤◌, ◌+◌, IfOk};
ghost use Rattle.ledger_steps.specs.Levels.{AreIntervals, FitRows, first_ranges, intervals_of, is_row_of, level_in};

use enq_base::NoMemory;
use keeper_api::Keeper;
use ledger_steps::NumberRange;
use number_ranges::Interval;
use posting::Books;
use std::alloc::Global;
use update_records::StoredInterval;

/// The ranges of these intervals, over a store that has no levels.
pub fn fresh_ranges(alloc: Global, intervals: &[Interval]) -> Result<Vec<NumberRange>, NoMemory>
    ensures { IfOk result (λ ranges. intervals_of ranges.items ≡ intervals.now) }
{
    let mut ranges = Vec::new(alloc);
    for interval in intervals {
        ranges.push(fresh_range(interval))?;
    }
    Ok(ranges)
}

fn fresh_range(interval: &Interval) -> NumberRange
    ensures { result.interval ≡ interval.now }
{
    NumberRange {
        interval: *interval,
        next: interval.from,
    }
}

/// Whether a stored row is that of the interval.
pub fn is_row_of(row: &StoredInterval, interval: &Interval) -> bool
    ensures { result ≡ is_row_of row.now interval.now }
{
    let named = interval.object.bytes() == row.object.bytes() && interval.nr == row.nr;
    let alike = row.from == interval.from && row.buffered == (interval.buffer > 0);
    named && alike && row.level <= interval.to
}

/// Each range hands out what is behind the level of its interval.
pub fn start_all<K: Keeper>(ranges: &mut [NumberRange], books: &Books<K>)
    requires good { AreIntervals (intervals_of ranges.old) }
    requires fit { FitRows (intervals_of ranges.old) books.now.ledger.levels }
    ensures { ranges.new ≡ first_ranges books.now.ledger.levels (intervals_of ranges.old) }
{
    for range in ranges.iter_mut() {
        start(range, books);
    }
}

fn start<K: Keeper>(range: &mut NumberRange, books: &Books<K>)
    requires { level_in books.now.ledger.levels range.old.interval ≤ 999999999999999999 }
    ensures interval { range.new.interval ≡ range.old.interval }
    ensures next { range.new.next ≡ level_in books.now.ledger.levels range.old.interval + 1 }
{
    let level = match books.level(&range.interval.object, range.interval.nr) {
        Some(level) => level,
        None => range.interval.level,
    };
    range.next = level + 1;
}
