ghost use Rattle.std.specs.Prelude.{◌+◌, ◌≤◌, IsTrue, length};

use enq_base::{Deed, Effect, Items, Key, Num, Owner, Parts, Pattern, Text, UnitKey, read_name};
use keeper_api::{Change, Row};
use lock_entry::{Entry, Mode};
use std::alloc::Global;
use std::test::*;
use update_records::{Interval, ReadFault, Unit, decode_row, encode_level, encode_unit};

// Unit 1.2.3, as it begins the keys of its rows.
const UNIT: UnitKey = UnitKey {
    start: 1,
    session: 2,
    luw: 3,
};

const UNIT_KEY: &[u8] = b"\x00\x00\x00\x01\x00\x00\x00\x02\x00\x00\x00\x03";

const PART_KEY: &[u8] = b"\x00\x00\x00\x01\x00\x00\x00\x02\x00\x00\x00\x03\x02";

const STEP_KEY: &[u8] = b"\x00\x00\x00\x01\x00\x00\x00\x02\x00\x00\x00\x03\x02\x00\x07";

const FIRST_STEP_KEY: &[u8] = b"\x00\x00\x00\x01\x00\x00\x00\x02\x00\x00\x00\x03\x01\x00\x01";

const LOCK_KEY: &[u8] = b"\x00\x00\x00\x01\x00\x00\x00\x02\x00\x00\x00\x03\x00\x00\x00\x01";

const MARK_KEY: &[u8] = b"\x00\x00\x00\x00\x00\x00\x00\x09";

const FIRST_MARK_KEY: &[u8] = b"\x00\x00\x00\x00\x00\x00\x00\x00";

const LEVEL_OF_TWO: &[u8] =
    b"\x00\x00\x00\x00\x00\x00\x00\x01\x00\x00\x00\x00\x00\x00\x00\x63\x00\x00\x00\x00\x00\x00\x00\x2a\x02";

// A row: its table, its key and its value.
type Bytes = (u8, &'static [u8], &'static [u8]);

const WHOLE: [Bytes; 15] = [
    (0, b"S", b"\x00\x00\x00\x05\x00\x00\x00\x00\x00\x00\x00\x06"),
    (
        1,
        UNIT_KEY,
        b"\x04ANNA\x00\x02\x00\x01\x00\x00\x00\x03\x00\x01\x02RF01\x00\x00\x00\x00\x00\x00\x00\x2a",
    ),
    (2, PART_KEY, b"\x00\x04"),
    (3, STEP_KEY, b"\x01\x04STAT\x01A\x00\x01x"),
    (3, STEP_KEY, b"\x02\x04STAT\x01A\x00\x01x"),
    (3, STEP_KEY, b"\x03\x04STAT\x01A"),
    (
        3,
        STEP_KEY,
        b"\x04\x04STAT\x01A\xff\xff\xff\xff\xff\xff\xff\xff",
    ),
    (
        4,
        MARK_KEY,
        b"\x01\x00\x00\x00\x01\x00\x00\x00\x02\x00\x00\x00\x03\x00\x01\x02RF01\x00\x00\x00\x00\x00\x00\x00\x2a",
    ),
    (
        4,
        MARK_KEY,
        b"\x02\x00\x00\x00\x01\x00\x00\x00\x02\x00\x00\x00\x03",
    ),
    (
        4,
        MARK_KEY,
        b"\x04\x00\x00\x00\x01\x00\x00\x00\x02\x00\x00\x00\x03\x00\x00\x00\x08\x03",
    ),
    (
        4,
        MARK_KEY,
        b"\x07\x00\x00\x00\x01\x00\x00\x00\x02\x00\x00\x00\x03\x00\x00\x00\x08\x04",
    ),
    (
        4,
        MARK_KEY,
        b"\x09\x00\x00\x00\x01\x00\x00\x00\x02\x00\x00\x00\x03",
    ),
    (
        5,
        b"\x02RF01",
        b"\x00\x00\x00\x00\x00\x00\x00\x01\x00\x00\x00\x00\x00\x00\x00\x63\x00\x00\x00\x00\x00\x00\x00\x2a\x01",
    ),
    (6, b"\x04STATA", b"x"),
    (7, LOCK_KEY, b"\x04STAT\x02\x27\x0f\x03A@B"),
];

// What is wrong with a row, and the row.
const WRONG: [(&str, Bytes); 20] = [
    (
        "another key",
        (0, b"T", b"\x00\x00\x00\x05\x00\x00\x00\x00\x00\x00\x00\x06"),
    ),
    (
        "a user in small letters",
        (
            1,
            UNIT_KEY,
            b"\x04anna\x00\x02\x00\x01\x00\x00\x00\x03\x00\x00",
        ),
    ),
    (
        "a number less than counted",
        (
            1,
            UNIT_KEY,
            b"\x04ANNA\x00\x02\x00\x01\x00\x00\x00\x03\x00\x01",
        ),
    ),
    (
        "part 0",
        (
            2,
            b"\x00\x00\x00\x01\x00\x00\x00\x02\x00\x00\x00\x03\x00",
            b"\x00\x04",
        ),
    ),
    (
        "part 3",
        (
            2,
            b"\x00\x00\x00\x01\x00\x00\x00\x02\x00\x00\x00\x03\x03",
            b"\x00\x04",
        ),
    ),
    (
        "effect 0",
        (
            3,
            b"\x00\x00\x00\x01\x00\x00\x00\x02\x00\x00\x00\x03\x01\x00\x00",
            b"\x03\x04STAT\x01A",
        ),
    ),
    ("verb 5", (3, FIRST_STEP_KEY, b"\x05\x04STAT\x01A")),
    (
        "a deletion with a text",
        (3, FIRST_STEP_KEY, b"\x03\x04STAT\x01A\x00\x01x"),
    ),
    (
        "an empty text",
        (3, FIRST_STEP_KEY, b"\x01\x04STAT\x01A\x00\x00"),
    ),
    ("an empty key", (3, FIRST_STEP_KEY, b"\x03\x04STAT\x00")),
    (
        "kind 0",
        (
            4,
            FIRST_MARK_KEY,
            b"\x00\x00\x00\x00\x01\x00\x00\x00\x02\x00\x00\x00\x03",
        ),
    ),
    (
        "kind 10",
        (
            4,
            FIRST_MARK_KEY,
            b"\x0a\x00\x00\x00\x01\x00\x00\x00\x02\x00\x00\x00\x03",
        ),
    ),
    (
        "reason 5",
        (
            4,
            FIRST_MARK_KEY,
            b"\x04\x00\x00\x00\x01\x00\x00\x00\x02\x00\x00\x00\x03\x00\x00\x00\x08\x05",
        ),
    ),
    (
        "letters for digits",
        (
            5,
            b"\x02RF0A",
            b"\x00\x00\x00\x00\x00\x00\x00\x01\x00\x00\x00\x00\x00\x00\x00\x63\x00\x00\x00\x00\x00\x00\x00\x2a\x01",
        ),
    ),
    ("a flag of 2", (5, b"\x02RF01", LEVEL_OF_TWO)),
    ("no table's name", (6, b"A", b"x")),
    (
        "lock 0",
        (
            7,
            b"\x00\x00\x00\x01\x00\x00\x00\x02\x00\x00\x00\x03\x00\x00\x00\x00",
            b"\x04STAT\x02\x00\x01\x01A",
        ),
    ),
    ("mode 4", (7, LOCK_KEY, b"\x04STAT\x04\x00\x01\x01A")),
    ("a count of 0", (7, LOCK_KEY, b"\x04STAT\x02\x00\x00\x01A")),
    (
        "a count of 10,000",
        (7, LOCK_KEY, b"\x04STAT\x02\x27\x10\x01A"),
    ),
];

/// What a row comes to.
#[derive(Clone, Copy, PartialEq, Eq)]
enum End {
    Read,
    Bad,
    NoMemory,
}

fn end_of(alloc: Global, table: u8, key: Vec<u8>, value: Vec<u8>) -> End {
    let row = Row {
        key: Items::from_vec(key),
        value: Items::from_vec(value),
    };
    match decode_row(alloc, &row, table) {
        Ok(_) => End::Read,
        Err(ReadFault::Bad) => End::Bad,
        Err(_) => End::NoMemory,
    }
}

fn joined(alloc: Global, front: &[u8], behind: &[u8]) -> Result<Vec<u8>, Fail> {
    let mut bytes = front.to_vec(alloc)?;
    bytes.extend_from_slice(behind)?;
    Ok(bytes)
}

/// Whether a row comes to this end, with more bytes behind its key and its value.
fn comes_to(alloc: Global, row: Bytes, more: (&[u8], &[u8]), end: End) -> Result<bool, Fail> {
    let (table, key, value) = row;
    let (behind_key, behind_value) = more;
    let key = joined(alloc, key, behind_key)?;
    let value = joined(alloc, value, behind_value)?;
    Ok(end_of(alloc, table, key, value) == end)
}

/// Whether the row is read, and bad where it is cut or goes on, and in another table.
fn is_whole(alloc: Global, row: Bytes) -> Result<bool, Fail> {
    let (table, key, value) = row;
    let ([shorter_key @ .., _], [shorter_value @ .., _]) = (key, value) else {
        return Err(Fail::from("bytes"));
    };
    Ok(
        comes_to(alloc, row, (b"", b""), End::Read)?
            && comes_to(alloc, (table, shorter_key, value), (b"", b""), End::Bad)?
            && comes_to(alloc, (table, key, shorter_value), (b"", b""), End::Bad)?
            && comes_to(alloc, row, (b"\0", b""), End::Bad)?
            && comes_to(alloc, row, (b"", b"\0"), End::Bad)?
            && comes_to(alloc, (255 - table, key, value), (b"", b""), End::Bad)?,
    )
}

/// The table of the first of these rows that isn't so.
fn not_whole(alloc: Global, rows: &[Bytes]) -> Result<Option<u8>, Fail> {
    for row in rows {
        if !is_whole(alloc, *row)? {
            return Ok(Some(row.0));
        }
    }
    Ok(None)
}

#[test]
fn rows_that_are_cut_or_go_on_are_bad(rt: HostRuntime) -> Result<(), Fail> {
    assert_eq!(rt; not_whole(rt.alloc(), &WHOLE)?, None);
    Ok(())
}

/// The first of these rows that isn't bad.
fn not_bad(alloc: Global, rows: &[(&'static str, Bytes)]) -> Result<Option<&'static str>, Fail> {
    for (what, row) in rows {
        if !comes_to(alloc, *row, (b"", b""), End::Bad)? {
            return Ok(Some(*what));
        }
    }
    Ok(None)
}

#[test]
fn what_is_out_of_range_is_bad(rt: HostRuntime) -> Result<(), Fail> {
    assert_eq!(rt; not_bad(rt.alloc(), &WRONG)?, None);
    Ok(())
}

fn one_effect(alloc: Global, deed: Deed) -> Result<Items<Effect>, Fail> {
    let (Some(table), Some(key)) = (read_name(b"STAT"), Key::new(b"A")) else {
        return Err(Fail::from("words"));
    };
    Ok(Items::from_vec(vec![in alloc; Effect { table, key, deed }]?))
}

fn parts(alloc: Global) -> Result<Parts, Fail> {
    let Ok(text) = Text::new(alloc, b"x") else {
        return Err(Fail::from("a text"));
    };
    let v1 = one_effect(alloc, Deed::Put(text))?;
    let v2 = one_effect(alloc, Deed::Add(-1))?;
    Ok(Parts { v1, v2 })
}

fn are_few(parts: &Parts) -> bool
    ensures { IsTrue result → length parts.now.v1 + length parts.now.v2 ≤ 200 }
{
    parts.v1.as_slice().len() <= 100 && parts.v2.as_slice().len() <= 100
}

/// The rows of a unit with these parts, a number and a lock.
fn rows_with(alloc: Global, parts: Parts) -> Result<Vec<Change>, Fail> {
    let (Some(user), Some(table), Some(pattern)) = (
        read_name(b"ANNA"),
        read_name(b"STAT"),
        Pattern::new(b"A@B"),
    ) else {
        return Err(Fail::from("words"));
    };
    if !are_few(&parts) {
        return Err(Fail::from("few effects"));
    }
    let number = Num {
        object: table,
        nr: *b"01",
        number: 42,
    };
    let lock = Entry {
        owner: Owner::Upd(UNIT),
        user,
        table,
        pattern,
        mode: Mode::E,
        count: 1,
        handed: true,
    };
    let numbers = vec![in alloc; number]?;
    let entries = vec![in alloc; lock]?;
    let unit = Unit {
        key: UNIT,
        user,
        numbers: Items::from_vec(numbers),
        parts,
        entries: Items::from_vec(entries),
    };
    Ok(encode_unit(alloc, &unit)?)
}

// The rows of the unit, with what stands behind it in the key.
const OF_UNIT: [Bytes; 6] = [
    (
        1,
        b"",
        b"\x04ANNA\x00\x01\x00\x01\x00\x00\x00\x01\x00\x01\x04STAT01\x00\x00\x00\x00\x00\x00\x00\x2a",
    ),
    (2, b"\x01", b"\x00\x01"),
    (3, b"\x01\x00\x01", b"\x01\x04STAT\x01A\x00\x01x"),
    (2, b"\x02", b"\x00\x01"),
    (
        3,
        b"\x02\x00\x01",
        b"\x04\x04STAT\x01A\xff\xff\xff\xff\xff\xff\xff\xff",
    ),
    (7, b"\x00\x00\x00\x01", b"\x04STAT\x02\x00\x01\x03A@B"),
];

fn is_put(row: &Change, front: &[u8], wanted: &Bytes) -> bool {
    let (number, behind, bytes) = *wanted;
    match row {
        Change::Put { table, key, value } => {
            let key = key.as_slice();
            *table == number
                && key.starts_with(front)
                && key.ends_with(behind)
                && key.len() == front.len().saturating_add(behind.len())
                && value.as_slice() == bytes
        }
        _ => false,
    }
}

fn are_put(rows: &[Change], front: &[u8], wanted: &[Bytes]) -> bool {
    for (row, wanted) in rows.iter().zip(wanted) {
        if !is_put(row, front, wanted) {
            return false;
        }
    }
    rows.len() == wanted.len()
}

fn is_unit_written(alloc: Global) -> Result<bool, Fail> {
    let parts = parts(alloc)?;
    let rows = rows_with(alloc, parts)?;
    Ok(are_put(&rows, UNIT_KEY, &OF_UNIT))
}

#[test]
fn the_rows_of_a_unit_are_written(rt: HostRuntime) -> Result<(), Fail> {
    assert!(rt; is_unit_written(rt.alloc())?);
    Ok(())
}

const OF_INTERVAL: Bytes = (
    5,
    b"\x02RF01",
    b"\x00\x00\x00\x00\x00\x00\x00\x01\x00\x00\x00\x00\x00\x00\x00\x63\x00\x00\x00\x00\x00\x00\x00\x2a\x01",
);

fn is_interval_written(alloc: Global) -> Result<bool, Fail> {
    let Some(object) = read_name(b"RF") else {
        return Err(Fail::from("a name"));
    };
    let interval = Interval {
        from: 1,
        to: 99,
        level: 42,
        buffered: true,
    };
    let row = encode_level(alloc, &object, *b"01", &interval)?;
    Ok(is_put(&row, b"", &OF_INTERVAL))
}

#[test]
fn the_row_of_an_interval_is_written(rt: HostRuntime) -> Result<(), Fail> {
    assert!(rt; is_interval_written(rt.alloc())?);
    Ok(())
}
