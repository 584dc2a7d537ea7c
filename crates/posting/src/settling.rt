ghost use Rattle.std.specs.Prelude.{◌≡◌, ◌≢◌, ◌↔◌, ◌+◌, ◌++◌, ◌∷◌, [], length, IsTrue, IfErr, IfNone, IfOk, IfSome, Some};
ghost use Rattle.std.specs.Option.{option_copied};
ghost use Rattle.ledger_steps.specs.Intervals.{in_row_order, with_levels};
ghost use Rattle.posting.specs.Settling.{IsOther, IsSettled, IsUnlike, mark_in, marks_after, start_after, units_after};
ghost use Rattle.ledger_steps.specs.Steps.{after_step, intervals_in};
ghost use Rattle.ledger_steps.specs.Views.{open_locks};

use crate::interval_list::IntervalList;
use crate::mirror::Mirror;
use crate::opening::BooksFault;
use crate::register::Register;
use crate::sameness::{Same, are_same, is_num};
use crate::viewing;
use enq_base::NoMemory;
use ledger_steps::Step;
use lock_entry::UnitLocks;
use std::alloc::Global;
use std::marker::Model;
use update_records::{Mark, MarkKind, StoredInterval, Unit};

/// Why a change in doubt isn't settled.
#[derive(Drop)]
pub enum SettleFault {
    /// The store isn't read.
    Books(BooksFault),
    /// The store has neither the ledger as it was nor the one with the change.
    Other(Unlike),
}

/// A store that was read anew and has another ledger than was looked for.
#[derive(Drop)]
pub struct Unlike {
    pub(crate) mirror: Mirror,
}

impl Model for Unlike {
    ghost use Rattle.update_records.specs.Ledger.{Ledger};

    ghost Value = { Ledger };

    ghost use Rattle.std.specs.Coded.{codes};
    ghost use Rattle.update_records.specs.Codes.{levels_code};

    ghost coded = { Prim.hlevel (codes, levels_code) };

    ghost view = { λ u. u.mirror.ledger };
}

impl Unlike {
    /// The stored intervals that were found, in the order of the keys of their rows.
    pub fn intervals(&self) -> &[StoredInterval]
        ensures { result.now ≡ in_row_order self.now.levels }
    {
        self.mirror.register().intervals()
    }
}

/// What a store that was read anew has.
#[derive(Drop)]
pub struct Reread {
    pub(crate) mirror: Mirror,
    pub(crate) taken: bool,
}

impl Model for Reread {
    ghost use Rattle.posting.specs.Settling.{FoundAnew};

    ghost Value = { FoundAnew };

    ghost use Rattle.std.specs.Coded.{codes};
    ghost use Rattle.update_records.specs.Codes.{levels_code};

    ghost coded = { Prim.hlevel (codes, levels_code) };

    ghost view = { λ r. record { ledger = r.mirror.ledger; taken = r.taken } };
}

impl Reread {
    /// Whether the store has the change that was to be made.
    pub fn taken(&self) -> bool
        ensures { result ≡ self.now.taken }
    {
        self.taken
    }

    /// The number of the start that was found, or 0 where none was ever raised.
    pub fn start(&self) -> u32
        ensures { result ≡ self.now.ledger.start }
    {
        self.mirror.register().start()
    }

    /// The units that wait for their V1 part, the one whose last mark is oldest first, each with its locks.
    pub fn open_units(&self, alloc: Global) -> Result<Vec<UnitLocks>, NoMemory>
        ensures { IfOk result (λ locks. locks.items ≡ open_locks self.now.ledger) }
    {
        viewing::open_units(alloc, self.mirror.register())
    }
}

/// What a ledger that was read anew says of a change.
pub fn found_anew(
    alloc: Global,
    old: &Mirror,
    change: Option<&Step>,
    mirror: Mirror,
) -> Result<Reread, SettleFault>
    ensures settled { IfOk result
        (λ found. IsSettled old.now.ledger (option_copied change.entry) found.taken found.ledger) }
    ensures ledger { IfOk result (λ found. found.ledger ≡ mirror.ledger) }
    ensures unlike { IfErr result (IsUnlike old.now.ledger (option_copied change.entry) mirror.ledger) }
{
    match settled(alloc, old.register(), change, mirror.register()) {
        Ok(Some(taken)) => Ok(Reread { mirror, taken }),
        Ok(None) => Err(SettleFault::Other(Unlike { mirror })),
        Err(_) => {
            drop(mirror);
            Err(SettleFault::Books(BooksFault::NoMemory))
        }
    }
}

/// Whether a change was made, by the register as it was and the one that was read, or nothing where that is neither as
/// it was nor with the change. Each record is looked at twice at most.
fn settled(
    alloc: Global,
    old: &Register,
    change: Option<&Step>,
    new: &Register,
) -> Result<Option<bool>, NoMemory>
    ensures settled { IfOk result
        (λ found. IfSome found
        (λ taken. IsSettled old.now.ledger (option_copied change.entry) taken new.now.ledger)) }
    ensures other { IfOk result
        (λ found. IfNone found (IsOther old.now.ledger (option_copied change.entry) new.now.ledger)) }
{
    if is_ledger(old, new) {
        return Ok(Some(false));
    }
    let Some(step) = change else {
        return Ok(None);
    };
    if is_ledger_after(alloc, old, step, new)? {
        Ok(Some(true))
    } else {
        Ok(None)
    }
}

fn is_ledger(old: &Register, new: &Register) -> bool
    ensures { IsTrue result ↔ (new.now.ledger ≡ old.now.ledger) }
{
    new.start() == old.start()
        && are_same(new.units(), old.units())
        && are_same(new.all_marks(), old.all_marks())
        && new.interval_list().has_same(old.interval_list())
}

fn is_ledger_after(
    alloc: Global,
    old: &Register,
    step: &Step,
    new: &Register,
) -> Result<bool, NoMemory>
    ensures { IfOk result (λ is. IsTrue is ↔ (new.now.ledger ≡ after_step old.now.ledger step.now)) }
{
    let books = new.start() == start_after(old.start(), step)
        && are_units_after(old.units(), step, new.units())
        && are_marks_after(old.all_marks(), step, new.all_marks());
    if !books {
        return Ok(false);
    }
    are_levels_after(alloc, old.interval_list(), step, new.interval_list())
}

fn start_after(start: u32, step: &Step) -> u32
    ensures { result ≡ start_after start step.now }
{
    match step {
        Step::Start(raised) => *raised,
        _ => start,
    }
}

fn are_units_after(old: &[Unit], step: &Step, new: &[Unit]) -> bool
    ensures { IsTrue result ↔ (new.now ≡ units_after old.now step.now) }
{
    match step {
        Step::Record { unit, .. } => match new.split_last() {
            Some((last, front)) => last.is_same(unit) && are_same(front, old),
            None => false,
        },
        _ => are_same(new, old),
    }
}

fn are_marks_after(old: &[Mark], step: &Step, new: &[Mark]) -> bool
    ensures { IsTrue result ↔ (new.now ≡ marks_after old.now step.now) }
{
    match step {
        Step::Start(_) | Step::Level(_) => are_same(new, old),
        _ => match new.split_last() {
            Some((last, front)) => is_mark_of(last, old.len(), step) && are_same(front, old),
            None => false,
        },
    }
}

/// Whether a mark is the one that a step adds behind so many.
fn is_mark_of(mark: &Mark, before: usize, step: &Step) -> bool
    ensures { IsTrue result ↔ (Some mark.now ≡ mark_in before step.now) }
{
    if mark.seq == 0 || mark.seq - 1 != before as u64 {
        return false;
    }
    match step {
        Step::Record { unit, .. } => {
            mark.unit.is(&unit.key) && mark.kind.is_same(&MarkKind::Rec)
        }
        Step::Note { unit, kind } => mark.unit.is(unit) && mark.kind.is_same(kind),
        Step::Draw { unit, numbers, .. } => {
            mark.unit.is(unit) && is_num(&mark.kind, numbers.as_slice())
        }
        Step::Start(_) | Step::Level(_) => false,
    }
}

fn are_levels_after(
    alloc: Global,
    old: &IntervalList,
    step: &Step,
    new: &IntervalList,
) -> Result<bool, NoMemory>
    ensures { IfOk result (λ is. IsTrue is ↔ (new.now.levels ≡ with_levels (intervals_in step.now) old.now.levels)) }
{
    match step {
        Step::Record { levels, .. } => are_levels_with(alloc, old, levels.as_slice(), new),
        Step::Draw { levels, .. } => are_levels_with(alloc, old, levels.as_slice(), new),
        Step::Level(interval) => are_levels_with(alloc, old, &[*interval], new),
        _ => Ok(new.has_same(old)),
    }
}

/// Whether a list is an older one with these intervals, each put under its name.
fn are_levels_with(
    alloc: Global,
    old: &IntervalList,
    intervals: &[StoredInterval],
    new: &IntervalList,
) -> Result<bool, NoMemory>
    ensures { IfOk result (λ is. IsTrue is ↔ (new.now.levels ≡ with_levels intervals.now old.now.levels)) }
{
    let expected = old.with_all(alloc, intervals)?;
    Ok(new.has_same(&expected))
}
