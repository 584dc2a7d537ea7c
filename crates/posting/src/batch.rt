ghost use Rattle.std.specs.Prelude.{◌≡◌, ◌≤◌, ◌<◌, ◌+◌, ◌^◌, ◌++◌, ◌∷◌, [], length, IfOk, OnOk, IsTrue};
ghost use Rattle.std.specs.List.{All};
ghost use Rattle.lock_entry.specs.Names.{has_distinct_names};
ghost use Rattle.update_records.specs.Grammar.{HasDigits, IsHeldBy, IsUnitKey, MayMark};
ghost use Rattle.update_records.specs.RecordRows.{mark_row, meta_row, unit_rows};
ghost use Rattle.update_records.specs.Spelling.{HasFields};
ghost use Rattle.update_records.specs.declared.records.MarkKind.TheVariants.{Rec};
ghost use Rattle.ledger_steps.specs.Intervals.{HasNr, draw_changes, interval_row, interval_rows};
ghost use Rattle.ledger_steps.specs.Posts.{note_changes};
ghost use Rattle.ledger_steps.specs.Steps.{IsSpelt};

use crate::spots::encode_rows;
use enq_base::{NoMemory, UnitKey};
use keeper_api::Change;
use module_effects::Spot;
use std::alloc::Global;
use update_records::{
    Interval, Mark, MarkKind, StoredInterval, Unit, encode_level, encode_mark, encode_meta,
    encode_unit,
};

/// The change that writes a start number beside so many marks.
pub fn start_batch(alloc: Global, start: u32, marks: u32) -> Result<Vec<Change>, NoMemory>
    ensures { IfOk result (λ batch. batch.items ≡ meta_row start marks ∷ []) }
{
    let mut batch = Vec::new(alloc);
    batch.push(encode_meta(alloc, start, marks as u64)?)?;
    Ok(batch)
}

/// The mark with the number behind so many marks.
pub fn mark_behind(marks: u32, unit: &UnitKey, kind: MarkKind) -> Mark
    ensures { result ≡ record { seq = marks + 1; unit = unit.now; kind = kind } }
{
    Mark {
        seq: marks as u64 + 1,
        unit: *unit,
        kind,
    }
}

/// The row of a mark, and the row that counts it, behind a batch.
fn push_mark(
    batch: &mut Vec<Change>,
    alloc: Global,
    start: u32,
    mark: &Mark,
) -> Result<(), NoMemory>
    requires { MayMark mark.now.kind }
    ensures rows { OnOk result
        (batch.new.items ≡ batch.old.items ++ mark_row mark.now ∷ meta_row start mark.now.seq ∷ []) }
    ensures key { OnOk result (IsUnitKey mark.now.unit) }
    ensures fields { OnOk result (HasFields mark.now.kind) }
{
    batch.push(encode_mark(alloc, mark)?)?;
    batch.push(encode_meta(alloc, start, mark.seq)?)?;
    Ok(())
}

/// The rows of intervals, behind a batch.
fn push_levels(
    batch: &mut Vec<Change>,
    alloc: Global,
    levels: &[StoredInterval],
) -> Result<(), NoMemory>
    requires { All HasNr levels.now }
    ensures { OnOk result (batch.new.items ≡ batch.old.items ++ interval_rows levels.now) }
{
    for level in levels {
        batch.push(encode_interval(alloc, level)?)?;
    }
    Ok(())
}

/// The row of an interval.
fn encode_interval(alloc: Global, level: &StoredInterval) -> Result<Change, NoMemory>
    requires { HasNr level.now }
    ensures { IfOk result (λ change. change ≡ interval_row level.now) }
{
    let interval = Interval {
        from: level.from,
        to: level.to,
        level: level.level,
        buffered: level.buffered,
    };
    encode_level(alloc, &level.object, level.nr, &interval)
}

/// The changes that store intervals anew.
pub fn level_batch(alloc: Global, levels: &[StoredInterval]) -> Result<Vec<Change>, NoMemory>
    requires { All HasNr levels.now }
    ensures { IfOk result (λ batch. batch.items ≡ interval_rows levels.now) }
{
    let mut batch = Vec::new(alloc);
    push_levels(&mut batch, alloc, levels)?;
    Ok(batch)
}

/// The changes that note numbers alone, with the intervals that they leave.
pub fn draw_batch(
    alloc: Global,
    start: u32,
    mark: &Mark,
    levels: &[StoredInterval],
) -> Result<Vec<Change>, NoMemory>
    requires mark { MayMark mark.now.kind }
    requires levels { All HasNr levels.now }
    ensures rows { IfOk result (λ batch. batch.items ≡ draw_changes start mark.now levels.now) }
    ensures key { OnOk result (IsUnitKey mark.now.unit) }
    ensures fields { OnOk result (HasFields mark.now.kind) }
{
    let mut batch = Vec::new(alloc);
    push_mark(&mut batch, alloc, start, mark)?;
    push_levels(&mut batch, alloc, levels)?;
    Ok(batch)
}

/// The changes that record a unit behind so many marks, with the intervals of its numbers.
pub fn unit_batch(
    alloc: Global,
    start: u32,
    marks: u32,
    unit: &Unit,
    levels: &[StoredInterval],
) -> Result<Vec<Change>, NoMemory>
    requires effects { length unit.now.parts.v1 + length unit.now.parts.v2 ≤ 200 }
    requires numbers { length unit.now.numbers ≤ 64 }
    requires digits { All HasDigits unit.now.numbers }
    requires levels { All HasNr levels.now }
    requires entries { length unit.now.entries < 2 ^ 32 }
    requires held { All (IsHeldBy unit.now) unit.now.entries }
    requires distinct { IsTrue (has_distinct_names unit.now.entries) }
    ensures rows { IfOk result (λ batch. batch.items ≡ (unit_rows unit.now
        ++ mark_row (record { seq = marks + 1; unit = unit.now.key; kind = Rec }) ∷ meta_row start (marks + 1) ∷ [])
        ++ interval_rows levels.now) }
    ensures spelt { OnOk result (IsSpelt unit.now) }
{
    let mut batch = encode_unit(alloc, unit)?;
    let mark = mark_behind(marks, &unit.key, MarkKind::Rec);
    push_mark(&mut batch, alloc, start, &mark)?;
    push_levels(&mut batch, alloc, levels)?;
    Ok(batch)
}

/// The changes that note a mark, behind those of the rows that its part leaves.
pub fn note_batch(
    alloc: Global,
    start: u32,
    spots: &[Spot],
    mark: &Mark,
) -> Result<Vec<Change>, NoMemory>
    requires { MayMark mark.now.kind }
    ensures rows { IfOk result (λ batch. batch.items ≡ note_changes start spots.now mark.now) }
    ensures fields { OnOk result (HasFields mark.now.kind) }
{
    let mut batch = encode_rows(alloc, spots)?;
    push_mark(&mut batch, alloc, start, mark)?;
    Ok(batch)
}
