ghost use Rattle.std.specs.Prelude.{◌≡◌, ◌≤◌, ◌<◌, ◌+◌, ◌++◌, ◌∷◌, [], ℕ, length, map, Some, None, IfOk, IfSome, IfNone, OnOk, vec_len, vec_capacity, slice_set, if◌then◌else◌};
ghost use Rattle.std.specs.HashMap.{spare};
ghost use Rattle.std.specs.FinMap.{empty, get};
ghost use Rattle.std.specs.List.{All};
ghost use Rattle.enq_base.specs.Owners.{same_unit};
ghost use Rattle.enq_base.specs.declared.owner.UnitKey.{UnitKey};
ghost use Rattle.ledger_steps.specs.Errors.{error_of, told};
ghost use Rattle.posting.specs.Standings.{standing_at, IsSmall};
ghost use Rattle.update_records.specs.Intervals.{levels_of};
ghost use Rattle.update_records.specs.Ledger.{no_ledger, recorded};
ghost use Rattle.turn_list.specs.Turns.{waiting_in};
ghost use Rattle.update_records.specs.Marks.{given, is_empty_part, same_status, status_of, unit_at, IsLegal};
ghost use Rattle.update_records.specs.declared.records.Unit.{Unit as UnitOfWork};
ghost use Rattle.posting.specs.BooksView.{MayTake};
ghost use Rattle.ledger_steps.specs.Steps.{after_step, at_place, intervals_in, waiting_for};
ghost use Rattle.ledger_steps.specs.Intervals.{in_row_order};
ghost use Rattle.std.specs.Option.{option_map};
ghost use Rattle.update_records.specs.Business.{numbers_of};
ghost use Rattle.update_records.specs.Grammar.{IsKind};
ghost use Rattle.update_records.specs.declared.records.Mark.{Mark};
ghost use Rattle.update_records.specs.Growing.{with_mark, with_unit};
ghost use Rattle.update_records.specs.RecordRows.{Level};

use crate::interval_list::{IntervalList, put_all};
use crate::restoring::{Followed, count_numbers, follow_all, interval_list};
use enq_base::{Items, Name, NoMemory, Num, Reason, Status, UnitId, UnitKey, id_of};
use ledger_steps::{Part, Step};
use std::alloc::Global;
use std::collections::HashMap;
use std::marker::Model;
use turn_list::Turns;
use update_records::{Mark, MarkKind, StoredInterval, Unit};

/// The place of a unit in the order of recording, the turn of the last mark that gave it a status, the status, and
/// where that mark tells of one the refusal: the effect's number from 1 on, and the reason.
#[derive(Clone, Copy, Debug, PartialEq, Eq)]
pub struct Standing {
    pub place: usize,
    pub turn: usize,
    pub status: Status,
    pub error: Option<(u32, Reason)>,
}

/// The ledger in memory: units and marks in order, each unit's standing by its key, the turns in which units wait for
/// their V1 part and for their V2 part, the stored intervals, and how many numbers were committed.
#[derive(Drop)]
pub struct Register {
    start: u32,
    units: Vec<Unit>,
    marks: Vec<Mark>,
    standings: HashMap<UnitId, Standing>,
    v1_queue: Turns,
    v2_queue: Turns,
    intervals: IntervalList,
    numbers: u64,
}

impl Model for Register {
    ghost use Rattle.std.specs.Prelude.{◌-◌, min, vec_len, vec_capacity};
    ghost use Rattle.std.specs.HashMap.{spare};
    ghost use Rattle.posting.specs.Registers.{RegisterView};

    ghost Value = { RegisterView };

    ghost use Rattle.std.specs.Coded.{codes};
    ghost use Rattle.update_records.specs.Codes.{levels_code};

    ghost coded = { Prim.hlevel (codes, levels_code) };

    ghost use Rattle.posting.specs.Standings.{IsRegister};

    ghost view = { λ r. record {
      ledger = record { start = r.start; units = r.units.items; marks = r.marks.items; levels = r.intervals.levels };
      room = min (vec_capacity r.units - vec_len r.units) (min (vec_capacity r.marks - vec_len r.marks)
          (min (spare r.standings) (min r.v1_queue.room r.v2_queue.room)));
      spare = r.intervals.spare;
    } };

    ghost invariant = { λ r. IsRegister r.start r.units.items r.marks.items r.standings r.v1_queue.turns
        r.v2_queue.turns r.numbers };
}

impl Register {
    /// The ledger of a store that nobody has opened.
    pub fn new(alloc: Global) -> Register
        ensures { result.ledger ≡ no_ledger }
    {
        Register {
            start: 0,
            units: Vec::new(alloc),
            marks: Vec::new(alloc),
            standings: HashMap::new(alloc),
            v1_queue: Turns::new(alloc),
            v2_queue: Turns::new(alloc),
            intervals: IntervalList::new(alloc),
            numbers: 0,
        }
    }

    /// The register of all units, marks and intervals of a store.
    pub fn restore(
        alloc: Global,
        start: u32,
        units: Vec<Unit>,
        marks: Vec<Mark>,
        intervals: Vec<StoredInterval>,
    ) -> Result<Register, NoMemory>
        requires begun { 1 ≤ length marks.items → 1 ≤ start }
        requires few { length marks.items < 1048577 }
        requires legal { IsLegal units.items marks.items }
        requires recorded { map (λ (unit : UnitOfWork). unit.key) units.items ≡ recorded marks.items }
        requires small { All IsSmall units.items }
        requires kinds { All (λ (m : Mark). IsKind m.kind) marks.items }
        ensures { IfOk result
            (λ register. register.ledger ≡ record
            { start = start; units = units.items; marks = marks.items; levels = levels_of intervals.items }) }
    {
        let followed = follow_all(alloc, units.as_slice(), marks.as_slice())?;
        let Followed {
            standings,
            v1_queue,
            v2_queue,
            ..
        } = followed;
        let numbers = count_numbers(units.as_slice(), marks.as_slice(), &standings);
        let intervals = interval_list(alloc, intervals.as_slice())?;
        Ok(Register {
            start,
            units,
            marks,
            standings,
            v1_queue,
            v2_queue,
            intervals,
            numbers,
        })
    }

    pub fn start(&self) -> u32
        ensures { result ≡ self.now.ledger.start }
    {
        self.start
    }

    pub fn marks(&self) -> u32
        ensures { result ≡ length self.now.ledger.marks }
    {
        self.marks.len() as u32
    }

    pub fn status(&self, key: &UnitKey) -> Option<Status>
        ensures { result ≡ status_of self.now.ledger.units self.now.ledger.marks key.now }
    {
        Some(standing_of(&self.standings, key)?.status)
    }

    pub fn error(&self, key: &UnitKey) -> Option<(u32, Reason)>
        ensures { result ≡ error_of self.now.ledger.marks key.now }
    {
        standing_of(&self.standings, key)?.error
    }

    pub fn units(&self) -> &[Unit]
        ensures units { result.now ≡ self.now.ledger.units }
        ensures small { All IsSmall result.now }
    {
        self.units.as_slice()
    }

    /// The unit of this key.
    pub fn unit(&self, key: &UnitKey) -> Option<&Unit>
        ensures found { IfSome result (λ unit. unit_at self.now.ledger.units key.now ≡ Some unit.now) }
        ensures none { IfNone result (unit_at self.now.ledger.units key.now ≡ None) }
        ensures unmarked { IfNone result (status_of self.now.ledger.units self.now.ledger.marks key.now ≡ None) }
    {
        let standing = standing_of(&self.standings, key)?;
        self.units.as_slice().get(standing.place)
    }

    /// Those that wait for a part.
    fn queue_for(&self, part: Part) -> &Turns
        ensures { waiting_in result.now.turns ≡ waiting_for part self.now.ledger }
    {
        match part {
            Part::V1 => &self.v1_queue,
            Part::V2 => &self.v2_queue,
        }
    }

    pub fn waiting(&self, part: Part) -> u32
        ensures { result ≡ length (waiting_for part self.now.ledger) }
    {
        self.queue_for(part).len()
    }

    pub fn waiting_at(&self, part: Part, place: u32) -> Option<UnitKey>
        ensures { result ≡ at_place place (waiting_for part self.now.ledger) }
    {
        if place == 0 {
            return None;
        }
        self.queue_for(part).at(place - 1)
    }

    /// How many numbers were committed.
    pub fn numbers(&self) -> u64
        ensures { result ≡ length (numbers_of self.now.ledger.units self.now.ledger.marks) }
    {
        self.numbers
    }

    pub fn level(&self, object: &Name, nr: [u8; 2]) -> Option<u64>
        ensures { result ≡ option_map (λ (l : Level). l.level) (get self.now.ledger.levels (object.now, nr)) }
    {
        self.intervals.level(object, nr)
    }

    pub fn stored(&self, row: u64) -> Option<StoredInterval>
        ensures { result ≡ at_place row (in_row_order self.now.ledger.levels) }
    {
        self.intervals.stored(row)
    }

    pub fn intervals(&self) -> &[StoredInterval]
        ensures { result.now ≡ in_row_order self.now.ledger.levels }
    {
        self.intervals.intervals()
    }

    /// All marks in order.
    pub fn all_marks(&self) -> &[Mark]
        ensures { result.now ≡ self.now.ledger.marks }
    {
        self.marks.as_slice()
    }

    pub fn interval_list(&self) -> &IntervalList
        ensures { result.now.levels ≡ self.now.ledger.levels }
    {
        &self.intervals
    }

    /// Takes the memory for one more unit, one more mark and so many more intervals.
    pub fn make_room(&mut self, intervals: usize) -> Result<(), NoMemory>
        ensures ledger { self.new.ledger ≡ self.old.ledger }
        ensures room { OnOk result (1 ≤ self.new.room) }
        ensures spare { OnOk result (intervals ≤ self.new.spare) }
    {
        self.units.reserve(1)?;
        self.marks.reserve(1)?;
        self.standings.reserve(1)?;
        self.v1_queue.make_room()?;
        self.v2_queue.make_room()?;
        self.intervals.make_room(intervals)?;
        Ok(())
    }

    /// Takes a step, for which there is room.
    pub fn add(&mut self, step: Step)
        requires room { 1 ≤ self.old.room }
        requires spare { length (intervals_in step) ≤ self.old.spare }
        requires step { MayTake self.old.ledger step }
        ensures { self.new.ledger ≡ after_step self.old.ledger step }
    {
        match step {
            Step::Start(start) => self.start = start,
            Step::Record { unit, levels } => {
                self.record(unit);
                put_all(&mut self.intervals, levels.as_slice());
            }
            Step::Note { unit, kind } => self.note(unit, kind),
            Step::Draw {
                unit,
                numbers,
                levels,
            } => {
                self.draw(unit, numbers);
                put_all(&mut self.intervals, levels.as_slice());
            }
            Step::Level(interval) => self.intervals.put(&interval),
        }
    }

    fn record(&mut self, unit: Unit)
        requires room { 1 ≤ self.old.room }
        requires step { MayTake self.old.ledger (Step.Record unit []) }
        ensures ledger { self.new.ledger ≡ with_unit self.old.ledger unit }
        ensures spare { self.new.spare ≡ self.old.spare }
    {
        let key = unit.key;
        self.numbers += unit.numbers.as_slice().len() as u64;
        let standing = Standing {
            place: self.units.len(),
            turn: self.marks.len(),
            status: Status::Open,
            error: None,
        };
        push_mark(&mut self.marks, key, MarkKind::Rec);
        self.units.push_reserved(unit);
        set_standing(&mut self.standings, &key, standing);
        self.v1_queue.push(Some(key));
        pass_turn(&mut self.v2_queue);
    }

    /// Takes a mark of numbers alone, which gives its unit no standing. At its turn nobody waits.
    fn draw(&mut self, key: UnitKey, numbers: Items<Num>)
        requires room { 1 ≤ self.old.room }
        requires step { MayTake self.old.ledger (Step.Draw key numbers []) }
        ensures ledger { self.new.ledger ≡ with_mark self.old.ledger key (MarkKind.Num numbers) }
        ensures spare { self.new.spare ≡ self.old.spare }
    {
        self.numbers += numbers.as_slice().len() as u64;
        push_mark(&mut self.marks, key, MarkKind::Num(numbers));
        pass_turn(&mut self.v1_queue);
        pass_turn(&mut self.v2_queue);
    }

    fn note(&mut self, key: UnitKey, kind: MarkKind)
        requires room { 1 ≤ self.old.room }
        requires step { MayTake self.old.ledger (Step.Note key kind) }
        ensures { self.new.ledger ≡ after_step self.old.ledger (Step.Note key kind) }
    {
        let Some(before) = standing_of(&self.standings, &key) else {
            unreachable!();
        };
        let status = status_after(&self.units[before.place], &kind, before.status);
        let standing = Standing {
            place: before.place,
            turn: self.marks.len(),
            status,
            error: error_after(&kind, before.error),
        };
        push_mark(&mut self.marks, key, kind);
        set_standing(&mut self.standings, &key, standing);
        take_turn(&mut self.v1_queue, before.turn, &key, is_open(status));
        take_turn(&mut self.v2_queue, before.turn, &key, is_posted(status));
    }
}

pub fn standing_of(standings: &HashMap<UnitId, Standing>, key: &UnitKey) -> Option<Standing>
    ensures { result ≡ standing_at standings.now key.now }
{
    standings.get(&id_of(key)).copied()
}

pub fn set_standing(standings: &mut HashMap<UnitId, Standing>, key: &UnitKey, standing: Standing)
    requires { 1 ≤ spare standings.old }
    ensures { (other : UnitKey)
        → standing_at standings.new
        other ≡ (if same_unit key.now other then Some standing else standing_at standings.old other) }
{
    let _ = standings.insert(id_of(key), standing);
}

fn push_mark(marks: &mut Vec<Mark>, unit: UnitKey, kind: MarkKind)
    requires { vec_len marks.old < vec_capacity marks.old }
    ensures { marks.new.items ≡ marks.old.items ++ record
        { seq = length marks.old.items + 1; unit = unit; kind = kind } ∷ [] }
{
    let seq = marks.len() as u64 + 1;
    marks.push_reserved(Mark { seq, unit, kind });
}

/// The status that a mark gives, by the one before it.
pub fn status_after(unit: &Unit, kind: &MarkKind, before: Status) -> Status
    ensures { Some result ≡ given (is_empty_part unit.now.parts.v2) kind.now (Some before) }
{
    match kind {
        MarkKind::Num(_) => before,
        MarkKind::Rec | MarkKind::Again1 => Status::Open,
        MarkKind::V1 => posted_status(unit),
        MarkKind::Bad1 { .. } => Status::Bad,
        MarkKind::V2 => Status::Closed,
        MarkKind::Bad2 { .. } => Status::Bad2,
        MarkKind::Again2 => Status::Posted,
        MarkKind::Gone => Status::Cancelled,
    }
}

/// The refusal that a mark tells, by the one before it.
pub fn error_after(kind: &MarkKind, before: Option<(u32, Reason)>) -> Option<(u32, Reason)>
    ensures { result ≡ told kind.now before }
{
    match kind {
        MarkKind::Num(_) => before,
        MarkKind::Bad1 { index, reason } => Some((*index, *reason)),
        MarkKind::Bad2 { index, reason } => Some((*index, *reason)),
        _ => None,
    }
}

fn posted_status(unit: &Unit) -> Status
    ensures { result ≡ (if is_empty_part unit.now.parts.v2 then Status.Closed else Status.Posted) }
{
    if unit.parts.v2.as_slice().is_empty() {
        Status::Closed
    } else {
        Status::Posted
    }
}

pub fn is_open(status: Status) -> bool
    ensures { result ≡ same_status Status.Open status }
{
    matches!(status, Status::Open)
}

pub fn is_posted(status: Status) -> bool
    ensures { result ≡ same_status Status.Posted status }
{
    matches!(status, Status::Posted)
}

/// Gives back a unit's old turn, and takes the next one: the unit waits at it, or nobody.
pub fn take_turn(turns: &mut Turns, old: usize, key: &UnitKey, waits: bool)
    requires room { 1 ≤ turns.old.room }
    requires few { length turns.old.turns < 1048576 }
    ensures { turns.new.turns ≡ slice_set turns.old.turns old None ++ (if waits then Some key.now else None) ∷ [] }
{
    turns.clear(old);
    turns.push(if waits { Some(*key) } else { None });
}

/// Takes the next turn, at which nobody waits.
pub fn pass_turn(turns: &mut Turns)
    requires room { 1 ≤ turns.old.room }
    requires few { length turns.old.turns < 1048576 }
    ensures { turns.new.turns ≡ turns.old.turns ++ None ∷ [] }
{
    turns.push(None);
}
