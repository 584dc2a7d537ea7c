use crate::calls::{MemHall, commit_parts, logon, no_intervals};
use bk_disk::MemDisk;
use enq_base::{Deed, Effect, Items, Key, Name, Parts, Text, read_name};
use hall_model::Reply;
use keeper_mem::MemKeeper;
use replica_link::MemLink;
use single_calls::SingleCalls;
use std::alloc::Global;
use std::test::*;

// So many units put so many rows each: 100,000 in all.
const UNITS: u32 = 500;

const ROWS: u32 = 200;

const LAST_ROW: u32 = 99_999;

const MARKS: u32 = 1_000;

fn session() -> Result<Name, Fail> {
    Ok(read_name(b"A").ok_or("a name")?)
}

fn table() -> Result<Name, Fail> {
    Ok(read_name(b"T").ok_or("a name")?)
}

fn digit(number: u32, place: u32) -> u8 {
    match u8::try_from(number / place.max(1) % 10) {
        Ok(digit) => b'0'.saturating_add(digit),
        Err(_) => b'0',
    }
}

fn key_of(row: u32) -> Result<Key, Fail> {
    let bytes = [
        digit(row, 10_000),
        digit(row, 1_000),
        digit(row, 100),
        digit(row, 10),
        digit(row, 1),
    ];
    Ok(Key::new(&bytes).ok_or("a key")?)
}

fn put(alloc: Global, row: u32) -> Result<Effect, Fail> {
    let (table, key) = (table()?, key_of(row)?);
    let Ok(text) = Text::new(alloc, b"X") else {
        return Err(Fail::from("a text"));
    };
    Ok(Effect {
        table,
        key,
        deed: Deed::Put(text),
    })
}

fn puts_from(alloc: Global, first: u32) -> Result<Vec<Effect>, Fail> {
    let mut effects = Vec::new(alloc);
    for row in first..first.saturating_add(ROWS) {
        effects.push(put(alloc, row)?)?;
    }
    Ok(effects)
}

// Whether a unit that puts the rows from this one on is recorded and posted.
fn posts(alloc: Global, hall: &mut MemHall, first: u32) -> Result<bool, Fail> {
    let v1 = Items::from_vec(puts_from(alloc, first)?);
    let v2 = Items::from_vec(Vec::new(alloc));
    let session = session()?;
    let committed = commit_parts(alloc, hall, session, Parts { v1, v2 });
    let taken = hall.take1(1, 1);
    let posted = hall.do1(alloc, 1, 1);
    Ok(matches!(
        (committed, taken, posted),
        (Reply::Unit(_), Reply::Unit(_), Reply::Posted(_))
    ))
}

fn fills(alloc: Global, hall: &mut MemHall) -> Result<bool, Fail> {
    logon(hall, session()?)?;
    for unit in 0..UNITS {
        if !posts(alloc, hall, unit.saturating_mul(ROWS))? {
            return Ok(false);
        }
    }
    Ok(true)
}

fn has_row(alloc: Global, hall: &mut MemHall, row: u32) -> Result<bool, Fail> {
    let (session, table, key) = (session()?, table()?, key_of(row)?);
    match hall.read(alloc, 1, session, table, key) {
        Reply::Row(Some(text)) => Ok(text.bytes() == b"X".as_slice()),
        _ => Ok(false),
    }
}

// Whether the first and the last row are there, with two marks for each unit.
fn is_filled(alloc: Global, hall: &mut MemHall) -> Result<bool, Fail> {
    logon(hall, session()?)?;
    Ok(has_row(alloc, hall, 0)? && has_row(alloc, hall, LAST_ROW)? && hall.marks() == MARKS)
}

fn new_hall(alloc: Global) -> Result<MemHall, Fail> {
    let keeper = MemKeeper::new(alloc, Vec::new(alloc), Vec::new(alloc))?;
    let disk = MemDisk::new(alloc, Vec::new(alloc), Vec::new(alloc))?;
    let link = MemLink::new(alloc, Vec::new(alloc))?;
    hall_over(alloc, keeper, disk, link)
}

fn hall_over(
    alloc: Global,
    keeper: MemKeeper,
    disk: MemDisk,
    link: MemLink,
) -> Result<MemHall, Fail> {
    match MemHall::open(alloc, keeper, disk, link, 8, 2_000, no_intervals(alloc)) {
        Ok(hall) => Ok(hall),
        Err(_) => Err(Fail::from("a hall")),
    }
}

fn filled(alloc: Global) -> Result<MemHall, Fail> {
    let mut hall = new_hall(alloc)?;
    match fills(alloc, &mut hall) {
        Ok(true) => Ok(hall),
        Ok(false) => Err(Fail::from("units that are posted")),
        Err(fail) => Err(fail),
    }
}

fn opened_again(alloc: Global, hall: MemHall) -> Result<MemHall, Fail> {
    let (keeper, disk, link, _) = hall.into_site();
    hall_over(alloc, keeper, disk, link)
}

// The next start finds all rows.
#[test]
fn a_store_of_100_000_rows_is_opened_again(rt: HostRuntime) -> Result<(), Fail> {
    let alloc = rt.alloc();
    let hall = filled(alloc)?;
    let mut again = opened_again(alloc, hall)?;
    match is_filled(alloc, &mut again) {
        Ok(true) => Ok(()),
        Ok(false) => Err(Fail::from("all rows")),
        Err(fail) => Err(fail),
    }
}
