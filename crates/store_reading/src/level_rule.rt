ghost use Rattle.std.specs.Prelude.{◌≡◌, ℕ, not, ◌≤◌, ◌+◌, ◌^◌, ◌&&◌, ◌||◌, nat_eq, nat_le, [], List, OnOk, IfOk};
ghost use Rattle.std.specs.Cmp.Lexicographic.{pointwise};
ghost use Rattle.std.specs.HashSet.{contains};
ghost use Rattle.std.specs.List.{list_all, range_with_len};
ghost use Rattle.enq_base.specs.declared.unit.Num.{Num as Number};
ghost use Rattle.module_effects.specs.Rows.{RowName};
ghost use Rattle.store_reading.specs.First.{first_wrong};
ghost use Rattle.store_reading.specs.Ids.{interval_id, same_interval};
ghost use Rattle.store_reading.specs.Intervals.{are_apart, are_bounds, are_drawn, is_level, is_right_level, level_fault, missing_level};
ghost use Rattle.store_reading.specs.Standings.{AreNumbers, AreStored};
ghost use Rattle.update_records.specs.Business.{interval_of};
ghost use Rattle.update_records.specs.declared.stored.Record.{Record};

use crate::interval_id::{IntervalId, interval_id};
use crate::numbers::{committed, lists_of, numbers_for};
use crate::rules::Place;
use enq_base::{NoMemory, Num};
use std::alloc::Global;
use std::collections::{HashMap, HashSet};
use update_records::{Record, tables};

/// Whether these are so many numbers from the first on.
fn run_from(numbers: &[u64], from: u64, count: u64) -> bool
    requires { from + count ≤ 2 ^ 64 }
    ensures { result ≡ pointwise nat_eq numbers.now (range_with_len from count) }
{
    let mut done = 0;
    for number in numbers {
        if done >= count {
            return false;
        }
        if *number != from + done {
            return false;
        }
        done += 1;
    }
    done == count
}

/// Whether a number is new where all before it were.
fn is_apart(seen: &mut HashSet<u64>, apart: bool, number: u64) -> Result<bool, NoMemory>
    ensures apart { IfOk result (λ now. now ≡ (apart && not (contains nat_eq seen.old number))) }
    ensures seen { OnOk result
        ((other : ℕ) → contains nat_eq seen.new other ≡ (contains nat_eq seen.old other || nat_eq number other)) }
{
    let is_new = !seen.contains(&number);
    seen.insert(number)?;
    Ok(apart && is_new)
}

fn are_apart(alloc: Global, numbers: &[u64]) -> Result<bool, NoMemory>
    ensures { IfOk result (λ apart. apart ≡ are_apart numbers.now) }
{
    let mut seen = HashSet::new(alloc);
    let mut apart = true;
    for number in numbers {
        apart = is_apart(&mut seen, apart, *number)?;
    }
    Ok(apart)
}

fn are_within(numbers: &[u64], from: u64, level: u64) -> bool
    ensures { result ≡ list_all (λ n. nat_le from n && nat_le n level) numbers.now }
{
    numbers.iter().all(|n| from <= *n && *n <= level)
}

fn are_bounds(from: u64, to: u64, level: u64) -> bool
    ensures { result ≡ are_bounds from to level }
{
    from >= 1 && (from <= to && (from - 1 <= level && level <= to))
}

fn are_drawn(
    alloc: Global,
    buffered: bool,
    from: u64,
    level: u64,
    numbers: &[u64],
) -> Result<bool, NoMemory>
    requires low { 1 ≤ from }
    requires begun { from ≤ level + 1 }
    ensures { IfOk result (λ drawn. drawn ≡ are_drawn buffered from level numbers.now) }
{
    if buffered {
        Ok(are_apart(alloc, numbers)? && are_within(numbers, from, level))
    } else {
        Ok(run_from(numbers, from, level - (from - 1)))
    }
}

fn is_right_level(
    alloc: Global,
    lists: &HashMap<IntervalId, Vec<u64>>,
    stored: &Record,
) -> Result<bool, NoMemory>
    ensures { (numbers : List Number) → AreNumbers lists.now numbers
        → IfOk result (λ right. right ≡ is_right_level numbers stored.now) }
{
    let Record::Level {
        object,
        nr,
        from,
        to,
        level,
        buffered,
    } = stored
    else {
        return Ok(false);
    };
    if !are_bounds(*from, *to, *level) {
        return Ok(false);
    }
    are_drawn(
        alloc,
        *buffered,
        *from,
        *level,
        numbers_for(lists, object, *nr),
    )
}

fn wrong_level(
    alloc: Global,
    lists: &HashMap<IntervalId, Vec<u64>>,
    levels: &[Record],
) -> Result<Option<Place>, NoMemory>
    ensures { (numbers : List Number) → AreNumbers lists.now numbers
        → IfOk result (λ fault. fault ≡ first_wrong (λ before. is_right_level numbers) 5 [] levels.now) }
{
    let mut row = 1;
    for stored in levels {
        let is_right = is_right_level(alloc, lists, stored)?;
        if !is_right {
            return Ok(Some(Place {
                table: tables::LEVELS,
                row,
            }));
        }
        row += 1;
    }
    Ok(None)
}

fn add_stored(stored: &mut HashSet<IntervalId>, level: &Record) -> Result<(), NoMemory>
    ensures { OnOk result ((name : RowName) → contains same_interval stored.new (interval_id name)
        ≡ (contains same_interval stored.old (interval_id name) || is_level name level.now)) }
{
    if let Record::Level { object, nr, .. } = level {
        stored.insert(interval_id(object, *nr))?;
    }
    Ok(())
}

fn stored_intervals(alloc: Global, levels: &[Record]) -> Result<HashSet<IntervalId>, NoMemory>
    ensures { IfOk result (λ stored. AreStored stored levels.now) }
{
    let mut stored = HashSet::new(alloc);
    for level in levels {
        add_stored(&mut stored, level)?;
    }
    Ok(stored)
}

fn is_stored(stored: &HashSet<IntervalId>, num: &Num) -> bool
    ensures { result ≡ contains same_interval stored.now (interval_id (interval_of num.now)) }
{
    stored.contains(&interval_id(&num.object, num.nr))
}

fn are_stored(stored: &HashSet<IntervalId>, numbers: &[Num]) -> bool
    ensures { result ≡ list_all (λ num. contains same_interval stored.now (interval_id (interval_of num))) numbers.now }
{
    numbers.iter().all(|num| is_stored(stored, num))
}

fn missing_level(stored: &HashSet<IntervalId>, numbers: &[Num], levels: &[Record]) -> Option<Place>
    ensures { AreStored stored.now levels.now → result ≡ missing_level levels.now numbers.now }
{
    if are_stored(stored, numbers) {
        return None;
    }
    let row = levels.len() as u64 + 1;
    Some(Place {
        table: tables::LEVELS,
        row,
    })
}

/// The first row of table 5 that doesn't fit the numbers that the marks commit, or the place behind the last row where
/// the row of an interval is missing.
pub fn level_fault(
    alloc: Global,
    headers: &[Record],
    marks: &[Record],
    levels: &[Record],
) -> Result<Option<Place>, NoMemory>
    ensures { IfOk result (λ fault. fault ≡ level_fault headers.now marks.now levels.now) }
{
    let numbers = committed(alloc, headers, marks)?;
    let lists = lists_of(alloc, numbers.as_slice())?;
    let stored = stored_intervals(alloc, levels)?;
    let wrong = wrong_level(alloc, &lists, levels)?;
    Ok(wrong.or(missing_level(&stored, numbers.as_slice(), levels)))
}
