ghost use Rattle.std.specs.Prelude.{IfOk, OnOk};
ghost use Rattle.keeper_mem.specs.Memory.{IsSettled, held_rows};
ghost use Rattle.posting.specs.BooksView.{IsUsable};

use super::calls::{
    cancel, commit, has_text, opened, post_drafted, post1, post2, reopen, try_again,
};
use super::drawing::{commit_locked, draw, store};
use super::told::{Seen, Told, are_numbers, are_open, are_views, has_lock, is_told};
use super::units::{Act, parts_of, unit_key};
use keeper_mem::MemKeeper;
use ledger_steps::Outcome;
use posting::Books;
use std::alloc::Global;
use std::test::Fail;

/// What is done with the books, where a unit of the first session is called by its number, and what is told then.
#[derive(Clone, Copy)]
pub enum Step {
    /// They are taken apart and opened again, with the next start or without.
    Open(bool),
    /// The store is read anew.
    Reopen,
    /// A unit is recorded with these parts.
    Record(u32, &'static [Act], &'static [Act]),
    /// A unit is recorded with this V1 part, the first two numbers of STAT, and a lock.
    Lock(u32, &'static [Act]),
    /// A unit draws the first two numbers of STAT alone.
    Draw(u32),
    /// STAT 01 is stored.
    Store,
    /// A unit's V1 part comes to this.
    Post1(u32, Outcome),
    /// The same, worked outside.
    PostDrafted(u32, Outcome),
    /// A unit's V2 part comes to this.
    Post2(u32, Outcome),
    /// The refused part of a unit may be tried again.
    Again(u32),
    Cancel(u32),
    /// A business row of table T has this text, or isn't there.
    Row(&'static [u8], Option<&'static [u8]>),
    /// This is told of a unit, and again after another opening.
    Unit(u32, Told),
    /// The start, and how many marks there are.
    Started(u32, u32),
    /// So many numbers are committed, and STAT 01 has this level, or isn't stored.
    Numbers(u64, Option<u64>),
    /// What is told of the recorded units.
    Views(&'static [Seen]),
    /// The units that wait for their V1 part, and how many locks each has.
    Waiting(&'static [(u32, usize)]),
    /// Whether a unit holds a lock, which is that of `lock_of`, or none.
    Locks(u32, bool),
}

fn wants(holds: bool) -> Result<(), Fail> {
    if holds {
        Ok(())
    } else {
        Err(Fail::from("another answer"))
    }
}

/// Posts, tries again, cancels or reads, and tests that this comes to what was told.
fn act(alloc: Global, books: &mut Books<MemKeeper>, step: &Step) -> Result<(), Fail>
    requires usable { IsUsable held_rows IsSettled books.old }
    ensures { OnOk result (IsUsable held_rows IsSettled books.new) }
{
    match step {
        Step::Post1(luw, outcome) => wants(post1(alloc, books, &unit_key(*luw))? == *outcome),
        Step::PostDrafted(luw, outcome) => {
            wants(post_drafted(alloc, books, &unit_key(*luw))? == *outcome)
        }
        Step::Post2(luw, outcome) => wants(post2(alloc, books, &unit_key(*luw))? == *outcome),
        Step::Again(luw) => try_again(alloc, books, &unit_key(*luw)),
        Step::Cancel(luw) => cancel(alloc, books, &unit_key(*luw)),
        Step::Row(key, text) => wants(has_text(alloc, books, *key, *text)?),
        Step::Reopen => reopen(alloc, books),
        _ => Ok(()),
    }
}

/// Records, draws or stores.
fn enter(alloc: Global, books: &mut Books<MemKeeper>, step: &Step) -> Result<(), Fail>
    requires usable { IsUsable held_rows IsSettled books.old }
    ensures { OnOk result (IsUsable held_rows IsSettled books.new) }
{
    match step {
        Step::Record(luw, v1, v2) => {
            let parts = parts_of(alloc, *v1, *v2)?;
            commit(alloc, books, &unit_key(*luw), parts)
        }
        Step::Lock(luw, v1) => {
            let parts = parts_of(alloc, *v1, &[])?;
            commit_locked(alloc, books, &unit_key(*luw), parts)
        }
        Step::Draw(luw) => draw(alloc, books, &unit_key(*luw)),
        Step::Store => store(alloc, books),
        _ => Ok(()),
    }
}

/// Whether the books tell what they are to tell.
fn tells(alloc: Global, books: &Books<MemKeeper>, step: &Step) -> Result<bool, Fail> {
    match step {
        Step::Unit(luw, told) => Ok(is_told(books, &unit_key(*luw), told)),
        Step::Started(start, marks) => Ok(books.start() == *start && books.marks() == *marks),
        Step::Numbers(count, level) => are_numbers(books, *count, *level),
        Step::Views(views) => are_views(alloc, books, *views),
        Step::Waiting(units) => are_open(alloc, books, *units),
        Step::Locks(luw, locked) => has_lock(alloc, books, &unit_key(*luw), *locked),
        _ => Ok(true),
    }
}

/// Does one step, and tests that all is told as it says.
fn take_step(alloc: Global, books: &mut Books<MemKeeper>, step: &Step) -> Result<(), Fail>
    requires usable { IsUsable held_rows IsSettled books.old }
    ensures { OnOk result (IsUsable held_rows IsSettled books.new) }
{
    enter(alloc, books, step)?;
    act(alloc, books, step)?;
    wants(tells(alloc, books, step)?)
}

/// The books after another opening, where the step asks for one.
fn again(alloc: Global, books: Books<MemKeeper>, step: &Step) -> Result<Books<MemKeeper>, Fail>
    requires usable { IsUsable held_rows IsSettled books }
    ensures { IfOk result (IsUsable held_rows IsSettled) }
{
    match step {
        Step::Open(raise) => opened(alloc, books.into_keeper(), *raise),
        Step::Unit(..) => opened(alloc, books.into_keeper(), true),
        _ => Ok(books),
    }
}

/// Does one step, opens the books again where the step asks for it, and tests that they tell the same then.
fn do_step(alloc: Global, books: Books<MemKeeper>, step: &Step) -> Result<Books<MemKeeper>, Fail>
    requires usable { IsUsable held_rows IsSettled books }
    ensures { IfOk result (IsUsable held_rows IsSettled) }
{
    let mut books = books;
    take_step(alloc, &mut books, step)?;
    let books = again(alloc, books, step)?;
    wants(tells(alloc, &books, step)?)?;
    Ok(books)
}

fn do_each(alloc: Global, books: Books<MemKeeper>, steps: &[Step]) -> Result<Books<MemKeeper>, Fail>
    requires usable { IsUsable held_rows IsSettled books }
    ensures { IfOk result (IsUsable held_rows IsSettled) }
{
    let mut books = books;
    for place in 0..steps.len() {
        books = do_step(alloc, books, &steps[place])?;
    }
    Ok(books)
}

/// Opens a store without rows, and does one step after the other, those of `first` before the others.
pub fn do_steps(alloc: Global, first: &[Step], steps: &[Step]) -> Result<(), Fail> {
    let keeper = MemKeeper::new(alloc, Vec::new(alloc), Vec::new(alloc))?;
    let books = opened(alloc, keeper, true)?;
    let books = do_each(alloc, books, first)?;
    do_each(alloc, books, steps)?;
    Ok(())
}
