ghost use Rattle.std.specs.Prelude.{◌≡◌, ◌<◌, ◌≤◌, ◌+◌, ◌^◌, ℕ, IfErr, IfNone, IfOk, IfSome, OnOk, Some, length, map, not, slice_get, true};
ghost use Rattle.std.specs.List.{AllByRecursion, list_all, position};
ghost use Rattle.std.specs.Option.{option_copied};
ghost use Rattle.enq_base.specs.declared.unit.Num.{Num};
ghost use Rattle.ledger_steps.specs.Intervals.{in_row_order};
ghost use Rattle.ledger_steps.specs.Drawn.{drawn_of, handed_out_of, passed};
ghost use Rattle.ledger_steps.specs.Levels.{AreIntervals, FitRows, IsFirstUnfit, IsLevelFault, first_ranges, fits, intervals_of, range_at};
ghost use Rattle.ledger_steps.specs.declared.range.NumberRange.{NumberRange};
ghost use Rattle.update_records.specs.declared.stored.StoredInterval.{StoredInterval};

use crate::range_id::RangeId;
use crate::range_places::{find_range, hand_out, next_place, pass_all, places_of};
use crate::starting::{fresh_ranges, is_row_of, start_all};
use enq_base::{Name, NoMemory, Num};
use keeper_api::Keeper;
use ledger_steps::{LevelFault, NumberRange};
use number_ranges::Interval;
use posting::Books;
use std::alloc::Global;
use std::collections::HashMap;
use std::marker::Model;
use update_records::StoredInterval;

/// Intervals in the order of the landscape, each with the number that memory hands out next.
#[derive(Drop)]
pub struct Ranges {
    list: Vec<NumberRange>,
    places: HashMap<RangeId, usize>,
}

impl Model for Ranges {
    ghost use Rattle.std.specs.Prelude.{List};
    ghost use Rattle.ledger_steps.specs.Levels.{AreIntervals, intervals_of};
    ghost use Rattle.range_list.specs.RangePlaces.{ArePlaces};
    ghost use Rattle.ledger_steps.specs.declared.range.NumberRange.{NumberRange};

    ghost Value = { List NumberRange };

    ghost view = { λ r. r.list.items };

    ghost invariant = { λ r. AreIntervals (intervals_of r.list.items)
        × ArePlaces r.places (intervals_of r.list.items) };
}

impl Ranges {
    /// The intervals of a landscape, over a store that has no levels.
    pub fn new(alloc: Global, intervals: &[Interval]) -> Result<Ranges, NoMemory>
        requires { AreIntervals intervals.now }
        ensures { IfOk result (λ ranges. intervals_of ranges ≡ intervals.now) }
    {
        let list = fresh_ranges(alloc, intervals)?;
        let places = places_of(alloc, intervals)?;
        Ok(Ranges { list, places })
    }

    /// Takes over the levels that a store has, each of which has to be one of these intervals'.
    pub fn take_levels<K: Keeper>(&mut self, books: &Books<K>) -> Result<(), LevelFault>
        ensures ranges { OnOk result (self.new ≡ first_ranges books.now.ledger.levels (intervals_of self.old)) }
        ensures fits { OnOk result (FitRows (intervals_of self.old) books.now.ledger.levels) }
        ensures fault { IfErr result (IsLevelFault (intervals_of self.old) (in_row_order books.now.ledger.levels)) }
        ensures intervals { intervals_of self.new ≡ intervals_of self.old }
    {
        self.fit(books.intervals())?;
        start_all(self.list.as_mut_slice(), books);
        Ok(())
    }

    /// The first of these rows that isn't that of an interval, counted from 1.
    pub fn first_unfit(&self, rows: &[StoredInterval]) -> Option<u64>
        ensures row { IfSome result (IsFirstUnfit (intervals_of self.now) rows.now) }
        ensures none { IfNone result (list_all (fits (intervals_of self.now)) rows.now ≡ true) }
    {
        let before = self.unfit_place(rows)?;
        Some(before as u64 + 1)
    }

    /// The intervals in the order of the landscape.
    pub fn as_slice(&self) -> &[NumberRange]
        ensures { result.now ≡ self.now }
    {
        self.list.as_slice()
    }

    /// The interval of this object and these two digits.
    pub fn find(&self, object: &Name, nr: [u8; 2]) -> Option<&NumberRange>
        ensures { option_copied result ≡ range_at self.now object.now nr }
    {
        find_range(self.list.as_slice(), &self.places, object, nr)
    }

    /// Memory hands out the next number of the interval of this name.
    pub fn hand_out(&mut self, object: &Name, nr: [u8; 2])
        requires { IfSome (range_at self.old object.now nr) (λ r. r.next + 1 < 2 ^ 64) }
        ensures { self.new ≡ map (handed_out_of object.now nr) self.old }
    {
        hand_out(self.list.as_mut_slice(), &self.places, object, nr);
    }

    /// Memory hands out what is behind these numbers of their intervals: they were taken from a stock.
    pub fn pass(&mut self, numbers: &[Num])
        requires { AllByRecursion (λ (num : Num). num.number + 1 < 2 ^ 64) numbers.now }
        ensures { self.new ≡ passed numbers.now self.old }
    {
        pass_all(self.list.as_mut_slice(), &self.places, numbers);
    }

    /// The first place, from this one on, of an interval that one of these numbers is of. Where there is none it is the
    /// one behind all intervals.
    pub fn next_place(&self, numbers: &[Num], from: usize) -> usize
        requires { from ≤ length self.now }
        ensures low { from ≤ result }
        ensures high { result ≤ length self.now }
        ensures none { (k : ℕ) (r : NumberRange) → from ≤ k → k < result → slice_get self.now k ≡ Some r
            → drawn_of r.interval numbers.now ≡ 0 }
        ensures some { (r : NumberRange) → slice_get self.now result ≡ Some r → 1 ≤ drawn_of r.interval numbers.now }
    {
        next_place(self.list.as_slice(), &self.places, numbers, from)
    }

    /// Whether each stored row is that of an interval, and where it isn't, the first such row.
    fn fit(&self, rows: &[StoredInterval]) -> Result<(), LevelFault>
        ensures fits { OnOk result (list_all (fits (intervals_of self.now)) rows.now ≡ true) }
        ensures fault { IfErr result (IsLevelFault (intervals_of self.now) rows.now) }
    {
        match self.first_unfit(rows) {
            None => Ok(()),
            Some(row) => Err(LevelFault::Unfit { row }),
        }
    }

    fn unfit_place(&self, rows: &[StoredInterval]) -> Option<usize>
        ensures place { result ≡ position (λ (row : StoredInterval). not (fits (intervals_of self.now) row)) rows.now }
        ensures within { IfSome result (λ before. before < length rows.now) }
    {
        rows.iter().position(|row| !self.has_row(row))
    }

    fn has_row(&self, row: &StoredInterval) -> bool
        ensures { result ≡ fits (intervals_of self.now) row.now }
    {
        let _ = &self.list;
        match self.find(&row.object, row.nr) {
            Some(range) => is_row_of(row, &range.interval),
            None => false,
        }
    }
}
