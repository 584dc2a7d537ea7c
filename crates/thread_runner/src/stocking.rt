// The stocks of a run, made before its first call.
ghost use Rattle.std.specs.Prelude.{◌≡◌, ◌≤◌, [], ℕ, List, Some, map, true, IfOk, OnOk};
ghost use Rattle.hall_model.specs.State.{State};
ghost use Rattle.ledger_steps.specs.Levels.{AreIntervals, intervals_of, range_at};
ghost use Rattle.ledger_steps.specs.declared.range.NumberRange.{NumberRange};
ghost use Rattle.number_ranges.specs.Intervals.{is_buffered, is_named};
ghost use Rattle.number_ranges.specs.declared.interval.Interval.{Interval};
ghost use Rattle.number_stock.specs.Seats.{base_of, hand, IsSeatOf};
ghost use Rattle.script_actors.specs.Actors.{is_number_of};
ghost use Rattle.script_actors.specs.Drawings.{interval_at};
ghost use Rattle.thread_runner.specs.Stocking.{AreBegun, Cover, IsOpened, opened_by};
ghost use Rattle.turn_desks.specs.Stocks.{fact_of, is_of_stock};

use bk_disk::Disk;
use enq_base::{Name, NoMemory};
use hall::Hall;
use keeper_api::Keeper;
use ledger_steps::NumberRange;
use lock_entry::LockStore;
use number_ranges::{Interval, Range};
use number_stock::{Stock, StockSeat};
use range_list::Ranges;
use replica_link::Link;
use script_actors::NumberedLine;
use script_lang::ScriptLine;
use std::alloc::Global;
use stock_laws::lots_stay;
use turn_desks::IntervalStock;

// No number of an interval is larger but the one behind the last.
const MOST: u64 = 1_000_000_000_000_000_000;

/// What a run's sessions draw numbers from: the intervals of the landscape, a stock of each interval with a buffer that
/// some line names, and the right to raise the limit of each stock.
#[derive(Drop)]
pub(crate) struct Stocks {
    pub(crate) ranges: Ranges,
    pub(crate) list: Vec<IntervalStock>,
    pub(crate) rights: Vec<StockSeat>,
}

/// The stocks of a hall that was opened, for these lines.
pub(crate) fn open_stocks<T: LockStore, K: Keeper, D: Disk, L: Link>(
    alloc: Global,
    hall: &Hall<T, K, D, L>,
    lines: &[NumberedLine],
) -> Result<Stocks, NoMemory>
    requires opened { IsOpened hall.now.state }
    ensures ranges { IfOk result (λ r. intervals_of r.ranges ≡ intervals_of hall.now.state.ranges) }
    ensures begun { IfOk result (λ r. AreBegun hall.now.state (intervals_of hall.now.state.ranges)
        (map fact_of r.list.items) r.rights.items) }
    ensures cover { IfOk result (λ r. Cover (intervals_of hall.now.state.ranges) (map fact_of r.list.items) lines.now) }
{
    let found = opened_ranges(alloc, hall)?;
    let ranges = ranges_of(alloc, found.as_slice())?;
    let mut stocks = Stocks {
        ranges,
        list: Vec::new(alloc),
        rights: Vec::new(alloc),
    };
    for numbered in lines {
        if let ScriptLine::Num { object, nr, .. } = &numbered.line {
            stocks.add(alloc, object, *nr, found.as_slice(), lines)?;
        }
    }
    Ok(stocks)
}

/// The intervals, each with the number that memory hands out next.
fn opened_ranges<T: LockStore, K: Keeper, D: Disk, L: Link>(
    alloc: Global,
    hall: &Hall<T, K, D, L>,
) -> Result<Vec<NumberRange>, NoMemory>
    requires opened { IsOpened hall.now.state }
    ensures { IfOk result (λ found. found.items ≡ hall.now.state.ranges) }
{
    let shown = hall.ranges(alloc)?;
    let mut found = Vec::with_capacity(alloc, shown.len())?;
    for range in &shown {
        found.push_reserved(opened_range(range));
    }
    Ok(found)
}

/// An interval that is shown with its present level, as the landscape has it.
fn opened_range(range: &Range) -> NumberRange
    ensures { result ≡ opened_by range.now }
{
    let shown = range.interval();
    NumberRange {
        interval: Interval {
            level: shown.from - 1,
            ..shown
        },
        next: shown.level + 1,
    }
}

/// The intervals, to be found by their names.
fn ranges_of(alloc: Global, found: &[NumberRange]) -> Result<Ranges, NoMemory>
    requires { AreIntervals (intervals_of found.now) }
    ensures { IfOk result (λ ranges. intervals_of ranges ≡ intervals_of found.now) }
{
    let mut intervals = Vec::with_capacity(alloc, found.len())?;
    for range in found {
        intervals.push_reserved(range.interval);
    }
    Ranges::new(alloc, intervals.as_slice())
}

impl Stocks {
    /// Adds the stock of an interval with a buffer, unless it is there.
    fn add(
        &mut self,
        alloc: Global,
        object: &Name,
        nr: [u8; 2],
        found: &[NumberRange],
        lines: &[NumberedLine],
    ) -> Result<(), NoMemory>
        ensures ranges { OnOk result (self.new.ranges ≡ self.old.ranges) }
        ensures begun { OnOk result ((s : State) → IsOpened s → found.now ≡ s.ranges
            → intervals_of self.old.ranges ≡ intervals_of s.ranges
            → AreBegun s (intervals_of s.ranges) (map fact_of self.old.list.items) self.old.rights.items
            → AreBegun s (intervals_of s.ranges) (map fact_of self.new.list.items) self.new.rights.items) }
        ensures more { OnOk result ((other digits : List ℕ)
            → is_of_stock (map fact_of self.old.list.items) other digits ≡ true
            → is_of_stock (map fact_of self.new.list.items) other digits ≡ true) }
        ensures has { OnOk result ((i : Interval) → interval_at (intervals_of self.old.ranges) object.now nr ≡ Some i
            → is_buffered i ≡ true → is_of_stock (map fact_of self.new.list.items) object.now nr ≡ true) }
    {
        lots_stay();
        let Some(range) = self.ranges.find(object, nr) else {
            return Ok(());
        };
        let interval = range.interval;
        if interval.buffer == 0 || has_stock(self.list.as_slice(), object, nr) {
            return Ok(());
        }
        let base = next_of(found, object, nr);
        let (stock, right) = new_stock(alloc, base, count_of(lines, &interval))?;
        let own = IntervalStock {
            interval,
            base,
            stock,
        };
        self.rights.reserve(1)?;
        self.list.push(own)?;
        self.rights.push_reserved(right);
        Ok(())
    }
}

/// A stock with this base, of which no ticket may be answered yet, for so many draws. No opened interval has another
/// base than one that fits.
fn new_stock(alloc: Global, base: u64, draws: u64) -> Result<(Stock, StockSeat), NoMemory>
    ensures seat { IfOk result (λ r. IsSeatOf r.0 r.1) }
    ensures hand { IfOk result (λ r. ((hand r.1).raises ≡ true) × ((hand r.1).limit ≡ 0) × ((hand r.1).answered ≡ [])) }
    ensures base { IfOk result (λ r. base_of r.0 ≡ base) }
    ensures some { OnOk result (1 ≤ base) }
{
    if base == 0 || base > MOST {
        return Err(NoMemory);
    }
    let draws = u32::try_from(draws).map_err(|_| NoMemory)?;
    Stock::new(alloc, base, 0, draws)
}

/// Whether there is a stock of this name.
fn has_stock(stocks: &[IntervalStock], object: &Name, nr: [u8; 2]) -> bool
    ensures { result ≡ is_of_stock (map fact_of stocks.now) object.now nr }
{
    for stock in stocks {
        if is_named(&stock.interval, object, nr) {
            return true;
        }
    }
    false
}

pub(crate) fn is_named(interval: &Interval, object: &Name, nr: [u8; 2]) -> bool
    ensures { result ≡ is_named object.now nr interval.now }
{
    interval.object.is(object) && interval.nr == nr
}

/// The number that memory hands out next of the interval of this name.
fn next_of(found: &[NumberRange], object: &Name, nr: [u8; 2]) -> u64
    ensures { (r : NumberRange) → range_at found.now object.now nr ≡ Some r → result ≡ r.next }
{
    for range in found {
        if is_named(&range.interval, object, nr) {
            return range.next;
        }
    }
    0
}

/// How many lines ask for a number of the interval.
fn count_of(lines: &[NumberedLine], interval: &Interval) -> u64 {
    lines
        .iter()
        .filter(|numbered| is_number_of(interval, &numbered.line))
        .count() as u64
}

fn is_number_of(interval: &Interval, line: &ScriptLine) -> bool
    ensures { result ≡ is_number_of interval.now line.now }
{
    match line {
        ScriptLine::Num { object, nr, .. } => is_named(interval, object, *nr),
        _ => false,
    }
}
