ghost use Rattle.std.specs.Prelude.{◌≡◌, ◌⊎◌, true, IfOk, IsSome, IsTrue, OnOk};
ghost use Rattle.keeper_mem.specs.Memory.{HasMade, IsSettled, held_rows};
ghost use Rattle.posting.specs.BooksView.{IsReady, IsUsable};
ghost use Rattle.ledger_steps.specs.Steps.{IsSetByHand, MayGet};
ghost use Rattle.update_records.specs.Marks.{may_follow};
ghost use Rattle.update_records.specs.declared.records.MarkKind.TheVariants.{Gone};

use super::units::{are_few, name_of, unit_of};
use enq_base::{Key, Parts, Status, UnitKey};
use keeper_mem::MemKeeper;
use ledger_steps::Outcome;
use posting::{Books, Prepared};
use std::alloc::Global;
use std::test::Fail;
use update_records::MarkKind;

/// The most marks that a store has.
pub const MARKS: u32 = 1_048_576;

pub fn opened(alloc: Global, keeper: MemKeeper, raise: bool) -> Result<Books<MemKeeper>, Fail>
    ensures { IfOk result (IsUsable held_rows IsSettled) }
{
    let Ok(books) = Books::open(alloc, keeper, raise) else {
        return Err(Fail::from("refused"));
    };
    Ok(books)
}

/// Reads the store anew.
pub fn reopen(alloc: Global, books: &mut Books<MemKeeper>) -> Result<(), Fail>
    requires usable { IsUsable held_rows IsSettled books.old }
    ensures { OnOk result (IsUsable held_rows IsSettled books.new) }
{
    let Ok(()) = books.reopen(alloc) else {
        return Err(Fail::from("refused anew"));
    };
    Ok(())
}

/// Writes what was prepared.
pub fn write(books: &mut Books<MemKeeper>, prepared: Prepared) -> Result<(), Fail>
    requires usable { IsUsable held_rows IsSettled books.old }
    requires ready { IsReady held_rows HasMade books.old prepared }
    ensures { OnOk result (IsUsable held_rows IsSettled books.new) }
{
    let Ok(()) = books.write(prepared) else {
        return Err(Fail::from("not written"));
    };
    Ok(())
}

/// Records a unit of this start or an earlier one.
pub fn commit(
    alloc: Global,
    books: &mut Books<MemKeeper>,
    unit: &UnitKey,
    parts: Parts,
) -> Result<(), Fail>
    requires usable { IsUsable held_rows IsSettled books.old }
    ensures { OnOk result (IsUsable held_rows IsSettled books.new) }
{
    if books.status(unit).is_some() || books.marks() >= MARKS {
        return Err(Fail::from("a recorded unit"));
    }
    if unit.start == 0 || unit.start > books.start() || !are_few(&parts) {
        return Err(Fail::from("no new unit"));
    }
    let unit = unit_of(alloc, unit, parts)?;
    let prepared = books.prepare_unit(alloc, unit, &[])?;
    write(books, prepared)
}

/// Posts the V1 part of a unit that waits for it.
pub fn post1(alloc: Global, books: &mut Books<MemKeeper>, unit: &UnitKey) -> Result<Outcome, Fail>
    requires usable { IsUsable held_rows IsSettled books.old }
    ensures { OnOk result (IsUsable held_rows IsSettled books.new) }
{
    if books.status(unit) != Some(Status::Open) || books.marks() >= MARKS {
        return Err(Fail::from("no open unit"));
    }
    let Ok((prepared, outcome)) = books.prepare_post1(alloc, unit, None) else {
        return Err(Fail::from("not ready"));
    };
    write(books, prepared)?;
    Ok(outcome)
}

/// The same by what the part came to outside.
pub fn post_drafted(
    alloc: Global,
    books: &mut Books<MemKeeper>,
    unit: &UnitKey,
) -> Result<Outcome, Fail>
    requires usable { IsUsable held_rows IsSettled books.old }
    ensures { OnOk result (IsUsable held_rows IsSettled books.new) }
{
    if books.status(unit) != Some(Status::Open) || books.marks() >= MARKS {
        return Err(Fail::from("no open unit"));
    }
    let draft = books.draft(alloc, unit)?;
    let worked = draft.work(alloc)?;
    let Ok((prepared, outcome)) = books.prepare_post1(alloc, unit, Some(&worked)) else {
        return Err(Fail::from("not ready"));
    };
    write(books, prepared)?;
    Ok(outcome)
}

/// Posts the V2 part of a unit whose V1 part is posted.
pub fn post2(alloc: Global, books: &mut Books<MemKeeper>, unit: &UnitKey) -> Result<Outcome, Fail>
    requires usable { IsUsable held_rows IsSettled books.old }
    ensures { OnOk result (IsUsable held_rows IsSettled books.new) }
{
    if books.status(unit) != Some(Status::Posted) || books.marks() >= MARKS {
        return Err(Fail::from("no posted unit"));
    }
    let Ok((prepared, outcome)) = books.prepare_post2(alloc, unit) else {
        return Err(Fail::from("not ready"));
    };
    write(books, prepared)?;
    Ok(outcome)
}

/// Sets a mark as an administrator does.
fn mark(
    alloc: Global,
    books: &mut Books<MemKeeper>,
    unit: &UnitKey,
    kind: MarkKind,
) -> Result<(), Fail>
    requires usable { IsUsable held_rows IsSettled books.old }
    requires kind { IsSetByHand kind }
    requires follows { MayGet books.old.ledger unit.now kind }
    ensures { OnOk result (IsUsable held_rows IsSettled books.new) }
{
    if books.marks() >= MARKS {
        return Err(Fail::from("no mark left"));
    }
    let prepared = books.prepare_mark(alloc, unit, kind)?;
    write(books, prepared)
}

/// Cancels a unit that is open or was refused.
pub fn cancel(alloc: Global, books: &mut Books<MemKeeper>, unit: &UnitKey) -> Result<(), Fail>
    requires usable { IsUsable held_rows IsSettled books.old }
    ensures { OnOk result (IsUsable held_rows IsSettled books.new) }
{
    if !may_be_cancelled(books.status(unit)) {
        return Err(Fail::from("not to be cancelled"));
    }
    mark(alloc, books, unit, MarkKind::Gone)
}

fn may_be_cancelled(status: Option<Status>) -> bool
    ensures { IsTrue result → IsSome status × (may_follow status Gone ≡ true) }
{
    match status {
        Some(Status::Open) => true,
        Some(Status::Bad) => true,
        Some(Status::Bad2) => true,
        _ => false,
    }
}

/// Lets a refused part of a unit be tried again.
pub fn try_again(alloc: Global, books: &mut Books<MemKeeper>, unit: &UnitKey) -> Result<(), Fail>
    requires usable { IsUsable held_rows IsSettled books.old }
    ensures { OnOk result (IsUsable held_rows IsSettled books.new) }
{
    if books.status(unit) == Some(Status::Bad) {
        return mark(alloc, books, unit, MarkKind::Again1);
    }
    if books.status(unit) == Some(Status::Bad2) {
        return mark(alloc, books, unit, MarkKind::Again2);
    }
    Err(Fail::from("not refused"))
}

/// Whether a business row of table T has this text, or isn't there.
pub fn has_text(
    alloc: Global,
    books: &mut Books<MemKeeper>,
    key: &[u8],
    wanted: Option<&[u8]>,
) -> Result<bool, Fail>
    requires usable { IsUsable held_rows IsSettled books.old }
    ensures { OnOk result (IsUsable held_rows IsSettled books.new) }
{
    let table = name_of(b"T")?;
    let Some(key) = Key::new(key) else {
        return Err(Fail::from("a key"));
    };
    let Ok(text) = books.read(alloc, &table, &key) else {
        return Err(Fail::from("not read"));
    };
    Ok(text.as_ref().map(|text| text.bytes()) == wanted)
}
