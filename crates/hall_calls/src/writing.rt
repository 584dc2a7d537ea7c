ghost use Rattle.std.specs.Prelude.{◌≡◌, ◌≤◌, ◌∷◌, [], IfErr, IfOk};
ghost use Rattle.hall_calls.specs.Storing.{TriesStep};
ghost use Rattle.ledger_steps.specs.Intervals.{MayStore};
ghost use Rattle.posting.specs.BooksView.{IsReady, IsUnmoved, IsUsable};
ghost use Rattle.ledger_steps.specs.Steps.{HasMarksLeft, IsDrawing, IsNewUnit};
ghost use Rattle.ledger_steps.specs.declared.step.Step.TheVariants.{Draw, Level, Record};

use enq_base::{NoMemory, Num, UnitKey};
use keeper_api::{KeepFault, Keeper};
use posting::{Books, Prepared};
use std::alloc::Global;
use update_records::{StoredInterval, Unit};

/// Makes ready to record a unit, with the levels of the intervals that its numbers are of.
pub(crate) fn prepare_unit<K: Keeper>(
    alloc: Global,
    books: &mut Books<K>,
    unit: &Unit,
    levels: &[StoredInterval],
) -> Result<Prepared, NoMemory>
    requires usable { IsUsable K.held K.is_open books.old }
    requires marks { HasMarksLeft books.old.ledger }
    requires unit { IsNewUnit books.old.ledger unit.now }
    requires store { MayStore books.old.ledger levels.now unit.now.numbers }
    ensures ready { IfOk result (λ p. IsReady K.held K.has_room books.new p) }
    ensures step { IfOk result (λ p. p.step ≡ Record unit.now levels.now) }
    ensures usable { IsUsable K.held K.is_open books.new }
    ensures unmoved { IsUnmoved K.held K.may_leave K.faults books.old books.new }
{
    let recorded = unit.copy(alloc)?;
    books.prepare_unit(alloc, recorded, levels)
}

/// Records numbers of a unit alone, with the levels of their intervals.
pub(crate) fn write_numbers<K: Keeper>(
    alloc: Global,
    books: &mut Books<K>,
    unit: &UnitKey,
    numbers: &[Num],
    levels: &[StoredInterval],
) -> Result<(), KeepFault>
    requires usable { IsUsable K.held K.is_open books.old }
    requires marks { HasMarksLeft books.old.ledger }
    requires drawing { IsDrawing books.old.ledger unit.now numbers.now }
    requires store { MayStore books.old.ledger levels.now numbers.now }
    ensures { TriesStep K.held K.is_open K.may_leave K.faults books.old books.new (Draw unit.now numbers.now levels.now)
        result }
{
    let prepared = books.prepare_numbers(alloc, unit, numbers, levels)?;
    write(books, prepared)
}

/// Raises the level of an interval.
pub(crate) fn write_level<K: Keeper>(
    alloc: Global,
    books: &mut Books<K>,
    interval: &StoredInterval,
) -> Result<(), KeepFault>
    requires usable { IsUsable K.held K.is_open books.old }
    requires started { 1 ≤ books.old.ledger.start }
    requires store { MayStore books.old.ledger (interval.now ∷ []) [] }
    ensures { TriesStep K.held K.is_open K.may_leave K.faults books.old books.new (Level interval.now) result }
{
    let prepared = books.prepare_level(alloc, interval)?;
    write(books, prepared)
}

/// Writes what was prepared last.
pub(crate) fn write<K: Keeper>(books: &mut Books<K>, prepared: Prepared) -> Result<(), KeepFault>
    requires usable { IsUsable K.held K.is_open books.old }
    requires ready { IsReady K.held K.has_room books.old prepared }
    ensures tried { TriesStep K.held K.is_open K.may_leave K.faults books.old books.new prepared.step result }
    ensures failed { IfErr result (λ fault. fault ≡ KeepFault.Failed) }
{
    match books.write(prepared) {
        Ok(()) => Ok(()),
        Err(_) => Err(KeepFault::Failed),
    }
}
