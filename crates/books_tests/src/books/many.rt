ghost use Rattle.keeper_mem.specs.Memory.{IsSettled, held_rows};
ghost use Rattle.posting.specs.BooksView.{IsUsable};
ghost use Rattle.std.specs.Prelude.{IfOk};

use super::calls::{commit, has_text, opened, post_drafted, post1};
use super::units::{name_of, unit_key};
use enq_base::{Deed, Effect, Items, Key, Parts, Text};
use keeper_mem::MemKeeper;
use ledger_steps::Outcome;
use posting::Books;
use std::alloc::Global;
use std::test::*;

/// How many units put rows, and how many each of them.
const UNITS: u32 = 1_000;

const ROWS: u32 = 100;

/// The key of a unit's first row is this and the unit's number times that of rows, so that all keys have six digits.
const FIRST_KEY: u32 = 100_000;

fn put(alloc: Global, number: u32, text: &[u8]) -> Result<Effect, Fail> {
    let digits = format!(in alloc; "{number}")?;
    let Some(key) = Key::new(digits.as_bytes()) else {
        return Err(Fail::from("a key"));
    };
    let Ok(text) = Text::new(alloc, text) else {
        return Err(Fail::from("a text"));
    };
    Ok(Effect {
        table: name_of(b"T")?,
        key,
        deed: Deed::Put(text),
    })
}

/// A V1 part that puts so many rows, from this key on.
fn parts_from(alloc: Global, first: u32, count: u32, text: &[u8]) -> Result<Parts, Fail> {
    let mut v1 = Vec::new(alloc);
    for number in first..first.saturating_add(count) {
        v1.push(put(alloc, number, text)?)?;
    }
    Ok(Parts {
        v1: Items::from_vec(v1),
        v2: Items::from_vec(Vec::new(alloc)),
    })
}

/// The books with one unit more, whose rows are put.
fn with_unit(alloc: Global, books: Books<MemKeeper>, number: u32) -> Result<Books<MemKeeper>, Fail>
    requires usable { IsUsable held_rows IsSettled books }
    ensures { IfOk result (IsUsable held_rows IsSettled) }
{
    let mut books = books;
    let unit = unit_key(number.saturating_add(1));
    let first = FIRST_KEY.saturating_add(number.saturating_mul(ROWS));
    let parts = parts_from(alloc, first, ROWS, b"X")?;
    commit(alloc, &mut books, &unit, parts)?;
    if post1(alloc, &mut books, &unit)? != Outcome::Done {
        return Err(Fail::from("not posted"));
    }
    Ok(books)
}

fn with_units(alloc: Global, books: Books<MemKeeper>) -> Result<Books<MemKeeper>, Fail>
    requires usable { IsUsable held_rows IsSettled books }
    ensures { IfOk result (IsUsable held_rows IsSettled) }
{
    let mut books = books;
    for number in 0..UNITS {
        books = with_unit(alloc, books, number)?;
    }
    Ok(books)
}

/// Whether the last row has its text, and another one once a unit has put it that was worked outside.
fn is_put(alloc: Global, books: Books<MemKeeper>) -> Result<bool, Fail>
    requires usable { IsUsable held_rows IsSettled books }
{
    let mut books = books;
    let unit = unit_key(UNITS + 1);
    if !has_text(alloc, &mut books, b"199999", Some(b"X"))? {
        return Ok(false);
    }
    let parts = parts_from(alloc, 199_999, 1, b"Y")?;
    commit(alloc, &mut books, &unit, parts)?;
    if post_drafted(alloc, &mut books, &unit)? != Outcome::Done {
        return Ok(false);
    }
    has_text(alloc, &mut books, b"199999", Some(b"Y"))
}

#[test]
fn a_store_of_a_hundred_thousand_rows_is_opened(rt: HostRuntime) -> Result<(), Fail> {
    let alloc = rt.alloc();
    let keeper = MemKeeper::new(alloc, Vec::new(alloc), Vec::new(alloc))?;
    let books = with_units(alloc, opened(alloc, keeper, true)?)?;
    let again = opened(alloc, books.into_keeper(), true)?;
    assert!(rt; is_put(alloc, again)?);
    Ok(())
}
