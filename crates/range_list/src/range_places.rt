ghost use Rattle.std.specs.Prelude.{◌≡◌, ◌<◌, ◌≤◌, ◌+◌, ◌^◌, OnOk, IfOk, IfSome, Some, List, ℕ, false, true, if◌then◌else◌, length, map, max, slice_get, slice_set};
ghost use Rattle.std.specs.HashMap.{get};
ghost use Rattle.std.specs.List.{AllByRecursion};
ghost use Rattle.std.specs.Option.{option_copied};
ghost use Rattle.enq_base.specs.declared.unit.Num.{Num};
ghost use Rattle.number_ranges.specs.Intervals.{is_named};
ghost use Rattle.ledger_steps.specs.Drawn.{drawn_of, handed_out_of, passed, passed_by};
ghost use Rattle.ledger_steps.specs.Levels.{AreApart, intervals_of, range_at};
ghost use Rattle.range_list.specs.RangePlaces.{ArePlaces, range_id, same_range};
ghost use Rattle.ledger_steps.specs.declared.range.NumberRange.{NumberRange};

use crate::range_id::{RangeId, range_id};
use enq_base::{Name, NoMemory, Num};
use ledger_steps::NumberRange;
use number_ranges::Interval;
use std::alloc::Global;
use std::collections::HashMap;

/// Where the interval of each name stands.
pub fn places_of(alloc: Global, intervals: &[Interval]) -> Result<HashMap<RangeId, usize>, NoMemory>
    ensures { IfOk result (λ places. ArePlaces places intervals.now) }
{
    let mut places = HashMap::new(alloc);
    let mut left = intervals.len();
    while left > 0 {
        left -= 1;
        put(&mut places, &intervals[left], left)?;
    }
    Ok(places)
}

fn put(
    places: &mut HashMap<RangeId, usize>,
    interval: &Interval,
    place: usize,
) -> Result<(), NoMemory>
    ensures { OnOk result ((object nr : List ℕ) → get same_range places.new (range_id object nr)
        ≡ (if is_named object nr interval.now then Some place else get same_range places.old (range_id object nr))) }
{
    places.insert(range_id(&interval.object, interval.nr), place)?;
    Ok(())
}

fn place_of(places: &HashMap<RangeId, usize>, object: &Name, nr: [u8; 2]) -> Option<usize>
    ensures { result ≡ get same_range places.now (range_id object.now nr) }
{
    places.get(&range_id(object, nr)).copied()
}

/// The range of this name, found by its place.
pub fn find_range<'a>(
    ranges: &'a [NumberRange],
    places: &HashMap<RangeId, usize>,
    object: &Name,
    nr: [u8; 2],
) -> Option<&'a NumberRange>
    requires { ArePlaces places.now (intervals_of ranges.now) }
    ensures { option_copied result ≡ range_at ranges.now object.now nr }
{
    match place_of(places, object, nr) {
        Some(place) => range_in(ranges, place),
        None => None,
    }
}

/// The range of this name hands out its next number.
pub fn hand_out(
    ranges: &mut [NumberRange],
    places: &HashMap<RangeId, usize>,
    object: &Name,
    nr: [u8; 2],
)
    requires places { ArePlaces places.now (intervals_of ranges.old) }
    requires apart { AreApart (intervals_of ranges.old) }
    requires room { IfSome (range_at ranges.old object.now nr) (λ r. r.next + 1 < 2 ^ 64) }
    ensures { ranges.new ≡ map (handed_out_of object.now nr) ranges.old }
{
    if let Some(place) = place_of(places, object, nr) {
        hand_out_at(ranges, place);
    }
}

fn hand_out_at(ranges: &mut [NumberRange], place: usize)
    requires within { place < length ranges.old }
    requires room { IfSome (slice_get ranges.old place) (λ r. r.next + 1 < 2 ^ 64) }
    ensures { (r : NumberRange) → slice_get ranges.old place ≡ Some r
        → ranges.new ≡ slice_set ranges.old place (record r { next = r.next + 1 }) }
{
    let range = &mut ranges[place];
    range.next += 1;
}

/// The ranges of these numbers hand out what is behind them.
pub fn pass_all(ranges: &mut [NumberRange], places: &HashMap<RangeId, usize>, numbers: &[Num])
    requires places { ArePlaces places.now (intervals_of ranges.old) }
    requires apart { AreApart (intervals_of ranges.old) }
    requires room { AllByRecursion (λ (num : Num). num.number + 1 < 2 ^ 64) numbers.now }
    ensures { ranges.new ≡ passed numbers.now ranges.old }
{
    for num in numbers {
        pass(ranges, places, num);
    }
}

fn pass(ranges: &mut [NumberRange], places: &HashMap<RangeId, usize>, num: &Num)
    requires places { ArePlaces places.now (intervals_of ranges.old) }
    requires apart { AreApart (intervals_of ranges.old) }
    requires room { num.now.number + 1 < 2 ^ 64 }
    ensures { ranges.new ≡ map (passed_by num.now) ranges.old }
{
    if let Some(place) = place_of(places, &num.object, num.nr) {
        pass_at(ranges, place, num.number);
    }
}

fn pass_at(ranges: &mut [NumberRange], place: usize, number: u64)
    requires within { place < length ranges.old }
    requires room { number + 1 < 2 ^ 64 }
    ensures { (r : NumberRange) → slice_get ranges.old place ≡ Some r
        → ranges.new ≡ slice_set ranges.old place (record r { next = max r.next (number + 1) }) }
{
    let range = &mut ranges[place];
    range.next = range.next.max(number + 1);
}

/// The first place, from this one on, of a range that one of these numbers is of. Where there is none it is the one
/// behind all ranges.
pub fn next_place(
    ranges: &[NumberRange],
    places: &HashMap<RangeId, usize>,
    numbers: &[Num],
    from: usize,
) -> usize
    requires places { ArePlaces places.now (intervals_of ranges.now) }
    requires apart { AreApart (intervals_of ranges.now) }
    requires within { from ≤ length ranges.now }
    ensures low { from ≤ result }
    ensures high { result ≤ length ranges.now }
    ensures none { (k : ℕ) (r : NumberRange) → from ≤ k → k < result → slice_get ranges.now k ≡ Some r
        → drawn_of r.interval numbers.now ≡ 0 }
    ensures some { (r : NumberRange) → slice_get ranges.now result ≡ Some r → 1 ≤ drawn_of r.interval numbers.now }
{
    let mut next = ranges.len();
    for num in numbers {
        next = next.min(place_from(ranges, places, num, from));
    }
    next
}

/// The place of the range that a number is of, where it isn't before this one, or the place behind all ranges.
fn place_from(
    ranges: &[NumberRange],
    places: &HashMap<RangeId, usize>,
    num: &Num,
    from: usize,
) -> usize
    requires places { ArePlaces places.now (intervals_of ranges.now) }
    requires apart { AreApart (intervals_of ranges.now) }
    requires within { from ≤ length ranges.now }
    ensures low { from ≤ result }
    ensures high { result ≤ length ranges.now }
    ensures none { (k : ℕ) (r : NumberRange) → from ≤ k → k < result → slice_get ranges.now k ≡ Some r
        → is_named num.now.object num.now.nr r.interval ≡ false }
    ensures some { (r : NumberRange) → slice_get ranges.now result ≡ Some r
        → is_named num.now.object num.now.nr r.interval ≡ true }
{
    match place_of(places, &num.object, num.nr) {
        Some(place) if place >= from => place,
        _ => ranges.len(),
    }
}

fn range_in(ranges: &[NumberRange], place: usize) -> Option<&NumberRange>
    ensures { option_copied result ≡ slice_get ranges.now place }
{
    ranges.get(place)
}
