ghost use Rattle.std.specs.Prelude.{◌≡◌, ◌↔◌, ◌≤◌, ◌+◌, length, IfOk, IsTrue, OnOk, false, slice_get};
ghost use Rattle.std.specs.FinMap.{empty, get, insert};
ghost use Rattle.std.specs.List.{find, position_or_len};
ghost use Rattle.std.specs.Option.{option_map, option_map_or};
ghost use Rattle.update_records.specs.RecordRows.{Level};
ghost use Rattle.ledger_steps.specs.Intervals.{AreInOrder, if_called, in_row_order, is_before, is_called, is_past, key_cmp, with_levels};
ghost use Rattle.update_records.specs.Intervals.{level_of, named};
ghost use Rattle.ledger_steps.specs.Steps.{at_place};

use crate::sameness::are_same;
use enq_base::{Name, NoMemory};
use std::alloc::Global;
use std::cmp::Ordering;
use std::marker::Model;
use update_records::StoredInterval;

/// Stored intervals in the order of the keys of their rows: the shorter object first, then by the object's bytes, and
/// then by the digits.
#[derive(Drop)]
pub struct IntervalList {
    items: Vec<StoredInterval>,
}

impl Model for IntervalList {
    ghost use Rattle.std.specs.Prelude.{◌-◌, vec_len, vec_capacity};
    ghost use Rattle.ledger_steps.specs.Intervals.{AreInOrder, IntervalsView};
    ghost use Rattle.update_records.specs.Intervals.{levels_of};

    ghost Value = { IntervalsView };

    ghost use Rattle.std.specs.Coded.{codes};
    ghost use Rattle.update_records.specs.Codes.{levels_code};

    ghost coded = { Prim.hlevel (codes, levels_code) };

    ghost view = { λ l. record {
      levels = levels_of l.items.items;
      spare = vec_capacity l.items - vec_len l.items;
    } };

    ghost invariant = { λ l. AreInOrder l.items.items };
}

impl IntervalList {
    pub fn new(alloc: Global) -> IntervalList
        ensures { result.levels ≡ empty }
    {
        IntervalList {
            items: Vec::new(alloc),
        }
    }

    /// The level of the interval of this name.
    pub fn level(&self, object: &Name, nr: [u8; 2]) -> Option<u64>
        ensures { result ≡ option_map (λ (l : Level). l.level) (get self.now.levels (object.now, nr)) }
    {
        let found = find_called(self.items.as_slice(), object, nr)?;
        Some(found.level)
    }

    /// The interval at a place, counted from 1.
    pub fn stored(&self, row: u64) -> Option<StoredInterval>
        ensures { result ≡ at_place row (in_row_order self.now.levels) }
    {
        if row == 0 {
            return None;
        }
        interval_at(self.items.as_slice(), row as usize - 1)
    }

    /// All of them.
    pub fn intervals(&self) -> &[StoredInterval]
        ensures { result.now ≡ in_row_order self.now.levels }
    {
        self.items.as_slice()
    }

    /// Whether two lists have the same intervals.
    pub fn has_same(&self, other: &IntervalList) -> bool
        ensures { IsTrue result ↔ (self.now.levels ≡ other.now.levels) }
    {
        are_same(self.items.as_slice(), other.items.as_slice())
    }

    /// A list with these intervals too, each put under its name. Each costs a search by halves, and one of a new name a
    /// move of those behind it.
    pub fn with_all(
        &self,
        alloc: Global,
        intervals: &[StoredInterval],
    ) -> Result<IntervalList, NoMemory>
        ensures { IfOk result (λ list. list.levels ≡ with_levels intervals.now self.now.levels) }
    {
        let mut list = self.copy(alloc)?;
        list.make_room(intervals.len())?;
        put_all(&mut list, intervals);
        Ok(list)
    }

    fn copy(&self, alloc: Global) -> Result<IntervalList, NoMemory>
        ensures { IfOk result (λ list. list.levels ≡ self.now.levels) }
    {
        Ok(IntervalList {
            items: Vec::from_slice(alloc, self.items.as_slice())?,
        })
    }

    /// Takes the memory for so many more intervals.
    pub fn make_room(&mut self, intervals: usize) -> Result<(), NoMemory>
        ensures levels { self.new.levels ≡ self.old.levels }
        ensures spare { OnOk result (intervals ≤ self.new.spare) }
    {
        self.items.reserve(intervals)?;
        Ok(())
    }

    /// Puts an interval under its name.
    pub fn put(&mut self, interval: &StoredInterval)
        requires { 1 ≤ self.old.spare }
        ensures levels { self.new.levels ≡ insert self.old.levels (named interval.now) (level_of interval.now) }
        ensures spare { self.old.spare ≤ self.new.spare + 1 }
    {
        let place = place_of(self.items.as_slice(), &interval.object, interval.nr);
        if is_at(self.items.as_slice(), place, interval) {
            self.items[place] = *interval;
        } else {
            let _ = self.items.insert(place, *interval);
        }
    }
}

/// Puts each of the intervals under its name.
pub fn put_all(list: &mut IntervalList, intervals: &[StoredInterval])
    requires { length intervals.now ≤ list.old.spare }
    ensures { list.new.levels ≡ with_levels intervals.now list.old.levels }
{
    for interval in intervals {
        list.put(interval);
    }
}

/// How the key of a name stands to that of an interval.
fn order_of(item: &StoredInterval, object: &Name, nr: [u8; 2]) -> Ordering
    ensures { result ≡ key_cmp (object.now, nr) (named item.now) }
{
    let object = object.bytes();
    let other = item.object.bytes();
    let lengths = object.len().cmp(&other.len());
    let bytes = object.cmp(other);
    let digits = nr.as_slice().cmp(item.nr.as_slice());
    lengths.then(bytes).then(digits)
}

fn is_called(item: &StoredInterval, object: &Name, nr: [u8; 2]) -> bool
    ensures { result ≡ is_called (object.now, nr) item.now }
{
    order_of(item, object, nr).is_eq()
}

fn is_before(item: &StoredInterval, object: &Name, nr: [u8; 2]) -> bool
    ensures { result ≡ is_before (object.now, nr) item.now }
{
    order_of(item, object, nr).is_gt()
}

/// How many of the intervals stand before a name, by a binary search.
fn place_of(items: &[StoredInterval], object: &Name, nr: [u8; 2]) -> usize
    ensures within { result ≤ length items.now }
    ensures place { AreInOrder items.now → result ≡ position_or_len (is_past (object.now, nr)) items.now }
{
    items.partition_point(|item| is_before(item, object, nr))
}

fn find_called(items: &[StoredInterval], object: &Name, nr: [u8; 2]) -> Option<StoredInterval>
    ensures { AreInOrder items.now → result ≡ find (is_called (object.now, nr)) items.now }
{
    let item = interval_at(items, place_of(items, object, nr))?;
    if_called(&item, object, nr)
}

fn if_called(item: &StoredInterval, object: &Name, nr: [u8; 2]) -> Option<StoredInterval>
    ensures { result ≡ if_called (object.now, nr) item.now }
{
    if is_called(item, object, nr) {
        Some(*item)
    } else {
        None
    }
}

fn interval_at(items: &[StoredInterval], place: usize) -> Option<StoredInterval>
    ensures { result ≡ slice_get items.now place }
{
    items.get(place).copied()
}

/// Whether the interval at a place has the name of another.
fn is_at(items: &[StoredInterval], place: usize, interval: &StoredInterval) -> bool
    ensures { result ≡ option_map_or (is_called (named interval.now)) (slice_get items.now place) false }
{
    match items.get(place) {
        Some(item) => is_called(item, &interval.object, interval.nr),
        None => false,
    }
}
