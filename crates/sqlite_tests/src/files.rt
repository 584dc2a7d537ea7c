ghost use Rattle.std.specs.Prelude.{◌≡◌, true, OnOk};

use super::calls::{Kept, Page, commit, emptied, has, is_row, opened, page_of, put, wants};
use keeper_api::{Change, Keeper, Row};
use keeper_sqlite::SqliteKeeper;
use std::alloc::Global;
use std::fs;
use std::test::*;

const FIRST: [Kept; 9] = [
    (255, b"\xff\xff\0", Some(b"\xff\xff\0")),
    (255, b"\0\0", Some(b"\0\0")),
    (255, b"a", Some(b"a")),
    (6, b"a\xff", Some(b"last")),
    (6, b"a", Some(b"old\0")),
    (6, b"\0", Some(b"first")),
    (6, b"a\0", Some(b"")),
    (0, b"gone", Some(b"")),
    (6, b"gone", Some(b"x")),
];

// A put over a row, a put of a new one and two deletions, one of a row that isn't there.
const SECOND: [Kept; 4] = [
    (6, b"a", Some(b"new\xff")),
    (0, b"gone", None),
    (0, b"z", Some(b"")),
    (6, b"none", None),
];

const LEFT: [Kept; 11] = [
    (255, b"\xff\xff\0", Some(b"\xff\xff\0")),
    (255, b"\xff", None),
    (255, b"a", Some(b"a")),
    (6, b"a\xff", Some(b"last")),
    (6, b"a", Some(b"new\xff")),
    (6, b"a\0", Some(b"")),
    (6, b"gone", Some(b"x")),
    (0, b"gone", None),
    (0, b"z", Some(b"")),
    (1, b"a", None),
    (6, b"none", None),
];

const PAGES: [Page; 6] = [
    (255, b"", 1000, &[b"\0\0", b"a", b"\xff\xff\0"]),
    (6, b"", 1000, &[b"\0", b"a", b"a\0", b"a\xff", b"gone"]),
    (6, b"a", 2, &[b"a\0", b"a\xff"]),
    (6, b"a\0\0", 1, &[b"a\xff"]),
    (6, b"gone", 5, &[]),
    (1, b"", 1000, &[]),
];

const MANY: u32 = 1003;

// The number of the first row of a page, and how many it has.
const PARTS: [(u32, usize); 3] = [(0, 1000), (3, 1000), (1000, 3)];

/// What is done with a keeper, and what it has.
#[derive(Clone, Copy)]
pub enum Step {
    Commit(&'static [Kept]),
    /// So many rows are put, each with its number as its key and how many come from it on as its value.
    Fill(u32),
    Has(&'static [Kept]),
    Pages(&'static [Page]),
    /// Pages of so many rows that were put by their numbers.
    Parts(&'static [(u32, usize)], u32),
}

const WRITTEN: [Step; 4] = [
    Step::Commit(&FIRST),
    Step::Commit(&SECOND),
    Step::Has(&LEFT),
    Step::Pages(&PAGES),
];

const READ: [Step; 2] = [Step::Has(&LEFT), Step::Pages(&PAGES)];

const BY_PAGES: [Step; 2] = [Step::Fill(MANY), Step::Parts(&PARTS, MANY)];

fn has_keys(page: &[Row], keys: &[&[u8]]) -> bool {
    for (i, row) in page.iter().enumerate() {
        if keys.get(i) != Some(&row.key.as_slice()) {
            return false;
        }
    }
    page.len() == keys.len()
}

fn has_rows(keeper: &mut SqliteKeeper, alloc: Global, rows: &[Kept]) -> Result<(), Fail>
    requires { keeper.old.is_open ≡ true }
    ensures { OnOk result (keeper.new.is_open ≡ true) }
{
    for row in rows {
        wants(has(keeper, alloc, row)?, "the rows")?;
    }
    Ok(())
}

fn has_page(keeper: &mut SqliteKeeper, alloc: Global, page: &Page) -> Result<bool, Fail>
    requires { keeper.old.is_open ≡ true }
    ensures { OnOk result (keeper.new.is_open ≡ true) }
{
    let (table, after, n, keys) = *page;
    let rows = page_of(keeper, alloc, table, after, n)?;
    Ok(has_keys(rows.as_slice(), keys))
}

fn has_pages(keeper: &mut SqliteKeeper, alloc: Global, pages: &[Page]) -> Result<(), Fail>
    requires { keeper.old.is_open ≡ true }
    ensures { OnOk result (keeper.new.is_open ≡ true) }
{
    for page in pages {
        wants(has_page(keeper, alloc, page)?, "the pages")?;
    }
    Ok(())
}

fn key_of(n: u32) -> [u8; 4] {
    n.to_be_bytes()
}

fn many_changes(alloc: Global, n: u32) -> Result<Vec<Change>, Fail> {
    let mut batch = Vec::new(alloc);
    for i in 0..n {
        batch.push(put(alloc, 1, &key_of(i), &key_of(n - i))?)?;
    }
    Ok(batch)
}

fn fill(keeper: &mut SqliteKeeper, alloc: Global, n: u32) -> Result<(), Fail>
    requires { keeper.old.is_open ≡ true }
    ensures { OnOk result (keeper.new.is_open ≡ true) }
{
    let batch = many_changes(alloc, n)?;
    match keeper.commit(batch.as_slice()) {
        Ok(()) => Ok(()),
        Err(fault) => Err(Fail::from(fault)),
    }
}

/// Tests that a page is the rows from `from` on, of `n`.
fn is_part(page: &[Row], from: u32, n: u32) -> bool {
    let mut i = from;
    for row in page {
        if i >= n || !is_row(Some(row), &key_of(i), &key_of(n - i)) {
            return false;
        }
        i += 1;
    }
    true
}

fn has_part(
    keeper: &mut SqliteKeeper,
    alloc: Global,
    part: &(u32, usize),
    n: u32,
) -> Result<bool, Fail>
    requires { keeper.old.is_open ≡ true }
    ensures { OnOk result (keeper.new.is_open ≡ true) }
{
    let (from, len) = *part;
    let last = key_of(from.saturating_sub(1));
    let length = if from == 0 { 0 } else { 4 };
    let page = page_of(keeper, alloc, 1, &last[..length], 1000)?;
    Ok(page.len() == len && is_part(page.as_slice(), from, n))
}

fn has_parts(
    keeper: &mut SqliteKeeper,
    alloc: Global,
    parts: &[(u32, usize)],
    n: u32,
) -> Result<(), Fail>
    requires { keeper.old.is_open ≡ true }
    ensures { OnOk result (keeper.new.is_open ≡ true) }
{
    for part in parts {
        wants(has_part(keeper, alloc, part, n)?, "the parts")?;
    }
    Ok(())
}

fn take_step(keeper: &mut SqliteKeeper, alloc: Global, step: &Step) -> Result<(), Fail>
    requires { keeper.old.is_open ≡ true }
    ensures { OnOk result (keeper.new.is_open ≡ true) }
{
    match step {
        Step::Commit(rows) => commit(keeper, alloc, *rows),
        Step::Fill(n) => fill(keeper, alloc, *n),
        Step::Has(rows) => has_rows(keeper, alloc, *rows),
        Step::Pages(pages) => has_pages(keeper, alloc, *pages),
        Step::Parts(parts, n) => has_parts(keeper, alloc, *parts, *n),
    }
}

fn take_all(keeper: &mut SqliteKeeper, alloc: Global, steps: &[Step]) -> Result<(), Fail>
    requires { keeper.old.is_open ≡ true }
{
    for step in steps {
        take_step(keeper, alloc, step)?;
    }
    Ok(())
}

/// Takes these steps with a keeper of its own.
pub fn follow(rt: HostRuntime, path: &str, steps: &[Step]) -> Result<(), Fail> {
    let mut keeper = opened(rt, path)?;
    take_all(&mut keeper, rt.alloc(), steps)
}

#[test]
fn rows_outlive_their_keeper(rt: HostRuntime) -> Result<(), Fail> {
    emptied(&rt, "keeper_rows")?;
    follow(rt, "keeper_rows/a.db", &WRITTEN)?;
    follow(rt, "keeper_rows/a.db", &READ)?;
    fs::remove_dir_all(&rt, "keeper_rows")?;
    Ok(())
}

#[test]
fn many_rows_are_read_by_pages(rt: HostRuntime) -> Result<(), Fail> {
    emptied(&rt, "keeper_pages")?;
    follow(rt, "keeper_pages/a.db", &BY_PAGES)?;
    fs::remove_dir_all(&rt, "keeper_pages")?;
    Ok(())
}
