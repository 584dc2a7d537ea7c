ghost use Rattle.std.specs.Prelude.{◌≡◌, ◌≤◌, ◌∷◌, [], false, IfOk, IsTrue, OnOk, length};
ghost use Rattle.std.specs.List.{All};
ghost use Rattle.keeper_mem.specs.Memory.{IsSettled, held_rows};
ghost use Rattle.lock_entry.specs.Names.{has_distinct_names};
ghost use Rattle.lock_entry.specs.declared.entry.Entry.{Entry as LockEntry};
ghost use Rattle.posting.specs.BooksView.{IsUsable};
ghost use Rattle.update_records.specs.Grammar.{HasDigits, IsHeldBy};
ghost use Rattle.update_records.specs.declared.records.Unit.{Unit as UnitOfWork};

use super::calls::{MARKS, write};
use super::units::{are_few, name_of};
use enq_base::{Items, Num, Owner, Parts, Pattern, UnitKey};
use keeper_mem::MemKeeper;
use lock_entry::{Entry, Mode};
use posting::{Books, StoredInterval};
use std::alloc::Global;
use std::test::Fail;
use update_records::Unit;

/// The numbers 1 to 99 of STAT, drawn up to this level.
pub fn interval_at(level: u64) -> Result<StoredInterval, Fail>
    ensures { IfOk result (λ interval. interval
        ≡ record {
          object = 83 ∷ 84 ∷ 65 ∷ 84 ∷ [];
          nr = 48 ∷ 49 ∷ [];
          from = 1;
          to = 99;
          level = level;
          buffered = false;
        }) }
{
    let object = name_of(b"STAT")?;
    Ok(StoredInterval {
        object,
        nr: *b"01",
        from: 1,
        to: 99,
        level,
        buffered: false,
    })
}

/// The first two numbers of STAT.
fn first_numbers() -> Result<[Num; 2], Fail>
    ensures { IfOk result (λ numbers. numbers
        ≡ record { object = 83 ∷ 84 ∷ 65 ∷ 84 ∷ []; nr = 48 ∷ 49 ∷ []; number = 1 }
        ∷ record { object = 83 ∷ 84 ∷ 65 ∷ 84 ∷ []; nr = 48 ∷ 49 ∷ []; number = 2 } ∷ []) }
{
    let object = name_of(b"STAT")?;
    let first = Num {
        object,
        nr: *b"01",
        number: 1,
    };
    Ok([first, Num { number: 2, ..first }])
}

/// Stores the interval, of which no number was drawn.
pub fn store(alloc: Global, books: &mut Books<MemKeeper>) -> Result<(), Fail>
    requires usable { IsUsable held_rows IsSettled books.old }
    ensures { OnOk result (IsUsable held_rows IsSettled books.new) }
{
    if books.start() == 0 {
        return Err(Fail::from("of no start"));
    }
    if books.numbers() != 0 {
        return Err(Fail::from("numbers before"));
    }
    let interval = interval_at(0)?;
    let prepared = books.prepare_level(alloc, &interval)?;
    write(books, prepared)
}

/// Notes that a unit drew the first two numbers.
pub fn draw(alloc: Global, books: &mut Books<MemKeeper>, unit: &UnitKey) -> Result<(), Fail>
    requires usable { IsUsable held_rows IsSettled books.old }
    ensures { OnOk result (IsUsable held_rows IsSettled books.new) }
{
    if books.status(unit).is_some() || books.marks() >= MARKS {
        return Err(Fail::from("not new"));
    }
    if books.numbers() != 0 {
        return Err(Fail::from("numbers before"));
    }
    if unit.start == 0 || unit.start > books.start() {
        return Err(Fail::from("of no start"));
    }
    let numbers = first_numbers()?;
    let interval = interval_at(2)?;
    let prepared = books.prepare_numbers(alloc, unit, &numbers, &[interval])?;
    write(books, prepared)
}

/// A lock of MILLER that was handed to a unit.
pub fn lock_of(unit: &UnitKey) -> Result<Entry, Fail>
    ensures { IfOk result
        (λ (entry : LockEntry). (of : UnitOfWork) → of.key ≡ unit.now → of.user ≡ 77 ∷ 73 ∷ 76 ∷ 76 ∷ 69 ∷ 82 ∷ []
        → IsHeldBy of entry) }
{
    let (user, table) = (name_of(b"MILLER")?, name_of(b"T")?);
    let Some(pattern) = Pattern::new(b"1@") else {
        return Err(Fail::from("an argument"));
    };
    Ok(Entry {
        owner: Owner::Upd(*unit),
        user,
        table,
        pattern,
        mode: Mode::X,
        count: 1,
        handed: true,
    })
}

/// A unit of MILLER that drew the first two numbers and holds a lock.
fn locked_unit(alloc: Global, key: &UnitKey, parts: Parts) -> Result<Unit, Fail>
    ensures key { IfOk result (λ unit. unit.key ≡ key.now) }
    ensures parts { IfOk result (λ unit. unit.parts ≡ parts) }
    ensures numbers { IfOk result (λ unit. unit.numbers
        ≡ record { object = 83 ∷ 84 ∷ 65 ∷ 84 ∷ []; nr = 48 ∷ 49 ∷ []; number = 1 }
        ∷ record { object = 83 ∷ 84 ∷ 65 ∷ 84 ∷ []; nr = 48 ∷ 49 ∷ []; number = 2 } ∷ []) }
    ensures few { IfOk result (λ unit. length unit.numbers ≤ 64) }
    ensures digits { IfOk result (λ unit. All HasDigits unit.numbers) }
    ensures lock { IfOk result (λ unit. length unit.entries ≡ 1) }
    ensures held { IfOk result (λ unit. All (IsHeldBy unit) unit.entries) }
    ensures distinct { IfOk result (λ unit. IsTrue (has_distinct_names unit.entries)) }
{
    let user = name_of(b"MILLER")?;
    let numbers = first_numbers()?;
    let lock = lock_of(key)?;
    let numbers = Vec::from_slice(alloc, &numbers)?;
    let entries = vec![in alloc; lock]?;
    Ok(Unit {
        key: *key,
        user,
        numbers: Items::from_vec(numbers),
        parts,
        entries: Items::from_vec(entries),
    })
}

/// Records a unit that drew the first two numbers and holds a lock.
pub fn commit_locked(
    alloc: Global,
    books: &mut Books<MemKeeper>,
    unit: &UnitKey,
    parts: Parts,
) -> Result<(), Fail>
    requires usable { IsUsable held_rows IsSettled books.old }
    ensures { OnOk result (IsUsable held_rows IsSettled books.new) }
{
    if books.status(unit).is_some() || books.marks() >= MARKS {
        return Err(Fail::from("a recorded unit"));
    }
    if books.numbers() != 0 {
        return Err(Fail::from("numbers before"));
    }
    if unit.start == 0 || unit.start > books.start() || !are_few(&parts) {
        return Err(Fail::from("no new unit"));
    }
    let unit = locked_unit(alloc, unit, parts)?;
    let interval = interval_at(2)?;
    let prepared = books.prepare_unit(alloc, unit, &[interval])?;
    write(books, prepared)
}
