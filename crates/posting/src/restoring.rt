ghost use Rattle.std.specs.Prelude.{◌≡◌, ◌≤◌, ◌<◌, ◌*◌, ◌∷◌, ◌++◌, [], List, length, map, true, false, IfSome, IfOk, OnOk};
ghost use Rattle.std.specs.List.{All};
ghost use Rattle.enq_base.specs.declared.owner.UnitKey.{UnitKey};
ghost use Rattle.update_records.specs.Business.{numbers_in, numbers_of};
ghost use Rattle.update_records.specs.Grammar.{IsKind};
ghost use Rattle.update_records.specs.Intervals.{levels_of};
ghost use Rattle.update_records.specs.Ledger.{recorded};
ghost use Rattle.update_records.specs.Marks.{draws_alone, is_rec, IsLegal};
ghost use Rattle.update_records.specs.declared.records.Mark.{Mark};
ghost use Rattle.update_records.specs.declared.records.Unit.{Unit as UnitOfWork};
ghost use Rattle.posting.specs.Restoring.{AreFollowed, AreStandings, HasRoom, HasTurnsLeft, IsFollowed, MayBeNext};
ghost use Rattle.posting.specs.Standings.{IsSmall, standing_at};

use crate::interval_list::IntervalList;
use crate::register::{
    Standing, error_after, is_open, is_posted, pass_turn, set_standing, standing_of, status_after,
    take_turn,
};
use enq_base::{NoMemory, Status, UnitId};
use std::alloc::Global;
use std::collections::HashMap;
use turn_list::Turns;
use update_records::{Mark, MarkKind, StoredInterval, Unit};

/// What the marks so far make of the units: each one's standing, the turns in which units wait for their V1 part and
/// for their V2 part, how many units were recorded, and how many marks there were.
#[derive(Drop)]
pub struct Followed {
    pub standings: HashMap<UnitId, Standing>,
    pub v1_queue: Turns,
    pub v2_queue: Turns,
    pub units: usize,
    pub marks: usize,
}

impl Followed {
    /// Before the first mark no unit stands anywhere.
    fn new(alloc: Global) -> Followed
        ensures { (units : List UnitOfWork) → IsFollowed result units [] }
    {
        Followed {
            standings: HashMap::new(alloc),
            v1_queue: Turns::new(alloc),
            v2_queue: Turns::new(alloc),
            units: 0,
            marks: 0,
        }
    }

    /// Takes the memory for one mark more.
    fn make_room(&mut self) -> Result<(), NoMemory>
        ensures same { (units : List UnitOfWork) (before : List Mark) → IsFollowed self.old units before
            → IsFollowed self.new units before }
        ensures room { OnOk result (HasRoom self.new) }
    {
        self.standings.reserve(1)?;
        self.v1_queue.make_room()?;
        self.v2_queue.make_room()?;
        Ok(())
    }

    /// Follows a mark that records its unit: the unit is open, and waits for its V1 part.
    fn record(&mut self, mark: &Mark)
        requires room { HasRoom self.old }
        requires few { HasTurnsLeft self.old }
        ensures { (units : List UnitOfWork) (before : List Mark) → IsFollowed self.old units before
            → MayBeNext units before mark.now → is_rec mark.now.kind ≡ true
            → IsFollowed self.new units (before ++ mark.now ∷ []) }
    {
        let standing = Standing {
            place: self.units,
            turn: self.marks,
            status: Status::Open,
            error: None,
        };
        self.units += 1;
        self.marks += 1;
        set_standing(&mut self.standings, &mark.unit, standing);
        self.v1_queue.push(Some(mark.unit));
        pass_turn(&mut self.v2_queue);
    }

    /// Follows a mark of numbers alone, which changes nothing. At its turn nobody waits.
    fn draw(&mut self)
        requires room { HasRoom self.old }
        requires few { HasTurnsLeft self.old }
        ensures { (units : List UnitOfWork) (before : List Mark) (m : Mark) → IsFollowed self.old units before
            → draws_alone m.kind ≡ true
            → IsFollowed self.new units (before ++ m ∷ []) }
    {
        self.marks += 1;
        pass_turn(&mut self.v1_queue);
        pass_turn(&mut self.v2_queue);
    }

    /// Follows a mark of a unit that was recorded: it waits at this turn, or no longer.
    fn note(&mut self, units: &[Unit], mark: &Mark)
        requires room { HasRoom self.old }
        requires few { HasTurnsLeft self.old }
        requires placed { (key : UnitKey)
            → IfSome (standing_at self.old.standings key) (λ s. s.place < length units.now) }
        ensures { (before : List Mark) → IsFollowed self.old units.now before → MayBeNext units.now before mark.now
            → is_rec mark.now.kind ≡ false → draws_alone mark.now.kind ≡ false
            → IsFollowed self.new units.now (before ++ mark.now ∷ []) }
    {
        let Some(before) = standing_of(&self.standings, &mark.unit) else {
            return;
        };
        let status = status_after(&units[before.place], &mark.kind, before.status);
        let standing = Standing {
            place: before.place,
            turn: self.marks,
            status,
            error: error_after(&mark.kind, before.error),
        };
        self.marks += 1;
        set_standing(&mut self.standings, &mark.unit, standing);
        take_turn(&mut self.v1_queue, before.turn, &mark.unit, is_open(status));
        take_turn(
            &mut self.v2_queue,
            before.turn,
            &mark.unit,
            is_posted(status),
        );
    }

    /// Follows one mark more.
    fn follow(&mut self, units: &[Unit], mark: &Mark)
        requires room { HasRoom self.old }
        requires few { HasTurnsLeft self.old }
        requires placed { (key : UnitKey)
            → IfSome (standing_at self.old.standings key) (λ s. s.place < length units.now) }
        ensures { (before : List Mark) → IsFollowed self.old units.now before → MayBeNext units.now before mark.now
            → IsFollowed self.new units.now (before ++ mark.now ∷ []) }
    {
        match &mark.kind {
            MarkKind::Rec => self.record(mark),
            MarkKind::Num(_) => self.draw(),
            _ => self.note(units, mark),
        }
    }
}

/// Where each unit stands and waits by marks of which each is legal, and of which those that record tell the units in
/// order.
pub fn follow_all(alloc: Global, units: &[Unit], marks: &[Mark]) -> Result<Followed, NoMemory>
    requires legal { IsLegal units.now marks.now }
    requires recorded { map (λ (unit : UnitOfWork). unit.key) units.now ≡ recorded marks.now }
    requires few { length marks.now < 1048577 }
    ensures { IfOk result (λ followed. AreFollowed followed units.now marks.now) }
{
    let mut followed = Followed::new(alloc);
    for mark in marks {
        followed.make_room()?;
        followed.follow(units, mark);
    }
    Ok(followed)
}

/// How many numbers a mark commits.
fn drawn_by(units: &[Unit], standings: &HashMap<UnitId, Standing>, mark: &Mark) -> u64
    requires placed { (key : UnitKey) → IfSome (standing_at standings.now key) (λ s. s.place < length units.now) }
    requires small { All IsSmall units.now }
    requires kind { IsKind mark.now.kind }
    ensures drawn { (marks : List Mark) → AreStandings standings.now units.now marks
        → result ≡ length (numbers_in units.now mark.now) }
    ensures few { result ≤ 64 }
{
    match &mark.kind {
        MarkKind::Num(numbers) => numbers.as_slice().len() as u64,
        MarkKind::Rec => match standing_of(standings, &mark.unit) {
            Some(standing) => units[standing.place].numbers.as_slice().len() as u64,
            None => 0,
        },
        _ => 0,
    }
}

/// How many numbers all marks commit.
pub fn count_numbers(units: &[Unit], marks: &[Mark], standings: &HashMap<UnitId, Standing>) -> u64
    requires standings { AreStandings standings.now units.now marks.now }
    requires small { All IsSmall units.now }
    requires kinds { All (λ (m : Mark). IsKind m.kind) marks.now }
    requires few { length marks.now < 1048577 }
    ensures count { result ≡ length (numbers_of units.now marks.now) }
    ensures few { result ≤ 64 * length marks.now }
{
    let mut count = 0;
    for mark in marks {
        count += drawn_by(units, standings, mark);
    }
    count
}

/// The intervals by their names; where one name stands twice, the first.
pub fn interval_list(alloc: Global, intervals: &[StoredInterval]) -> Result<IntervalList, NoMemory>
    ensures { IfOk result (λ list. list.levels ≡ levels_of intervals.now) }
{
    let mut list = IntervalList::new(alloc);
    let mut left = intervals.len();
    while left > 0 {
        left -= 1;
        list.make_room(1)?;
        list.put(&intervals[left]);
    }
    Ok(list)
}
