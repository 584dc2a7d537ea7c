ghost use Rattle.std.specs.Prelude.{OnOk};
ghost use Rattle.keeper_mem.specs.Memory.{IsSettled};

use crate::lines::{Line, keeper_of, put_line, put_lines};
use keeper_mem::MemKeeper;
use posting::{Books, BooksFault};
use std::alloc::Global;
use std::test::*;

const META: Line = (0, b"S", b"\0\0\0\x01\0\0\0\0\0\0\0\x05");

const HEADER: Line = (
    1,
    b"\0\0\0\x01\0\0\0\x02\0\0\0\x03",
    b"\x04ANNA\0\x01\0\0\0\0\0\0\0\0",
);

/// At start 1 unit 1.2.3 is posted, unit 1.2.4 refused, and unit 1.2.5 draws number 1.
const GOOD: [Line; 14] = [
    META,
    HEADER,
    (
        1,
        b"\0\0\0\x01\0\0\0\x02\0\0\0\x04",
        b"\x04ANNA\0\x01\0\0\0\0\0\0\0\0",
    ),
    (2, b"\0\0\0\x01\0\0\0\x02\0\0\0\x03\x01", b"\0\x01"),
    (2, b"\0\0\0\x01\0\0\0\x02\0\0\0\x04\x01", b"\0\x01"),
    (
        3,
        b"\0\0\0\x01\0\0\0\x02\0\0\0\x03\x01\0\x01",
        b"\x01\x04STAT\x01A\0\x01X",
    ),
    (
        3,
        b"\0\0\0\x01\0\0\0\x02\0\0\0\x04\x01\0\x01",
        b"\x02\x04STAT\x01A\0\x01Y",
    ),
    (
        4,
        b"\0\0\0\0\0\0\0\x01",
        b"\x02\0\0\0\x01\0\0\0\x02\0\0\0\x03",
    ),
    (
        4,
        b"\0\0\0\0\0\0\0\x02",
        b"\x03\0\0\0\x01\0\0\0\x02\0\0\0\x03",
    ),
    (
        4,
        b"\0\0\0\0\0\0\0\x03",
        b"\x02\0\0\0\x01\0\0\0\x02\0\0\0\x04",
    ),
    (
        4,
        b"\0\0\0\0\0\0\0\x04",
        b"\x04\0\0\0\x01\0\0\0\x02\0\0\0\x04\0\0\0\x01\x01",
    ),
    (
        4,
        b"\0\0\0\0\0\0\0\x05",
        b"\x01\0\0\0\x01\0\0\0\x02\0\0\0\x05\0\x01\x06ZORDNR01\0\0\0\0\0\0\0\x01",
    ),
    (
        5,
        b"\x06ZORDNR01",
        b"\0\0\0\0\0\0\0\x01\0\0\0\0\0\0\0\x09\0\0\0\0\0\0\0\x01\0",
    ),
    (6, b"\x04STATA", b"X"),
];

/// All rows of the good store.
const WHOLE: usize = 14;

/// The row that is left out, the rows that are put over the others, and the place that is named.
type Case = (usize, &'static [Line], (u8, u64));

/// Rows outside their grammar, and a meta row that is missing or wrong.
const FIRST_CASES: [Case; 6] = [
    (WHOLE, &[META], (0, 0)),
    (
        WHOLE,
        &[(2, b"\0\0\0\x01\0\0\0\x02\0\0\0\x04\x01", b"\0\x01\0")],
        (2, 2),
    ),
    (
        WHOLE,
        &[(
            5,
            b"\x06ZORDNR01",
            b"\0\0\0\0\0\0\0\x01\0\0\0\0\0\0\0\x09\0\0\0\0\0\0\0\x01\x02",
        )],
        (5, 1),
    ),
    (0, &[HEADER], (0, 1)),
    (WHOLE, &[(0, b"S", b"\0\0\0\x01\0\0\0\0\0\0\0\x06")], (0, 1)),
    (WHOLE, &[(0, b"S", b"\0\0\0\0\0\0\0\0\0\0\0\x05")], (0, 1)),
];

/// Mark 5 is called 6, V2 comes before V1, a mark is of a later start, and a refusal is told of another effect or for
/// another reason.
const MARK_CASES: [Case; 5] = [
    (
        11,
        &[(
            4,
            b"\0\0\0\0\0\0\0\x06",
            b"\x01\0\0\0\x01\0\0\0\x02\0\0\0\x05\0\x01\x06ZORDNR01\0\0\0\0\0\0\0\x01",
        )],
        (4, 5),
    ),
    (
        WHOLE,
        &[(
            4,
            b"\0\0\0\0\0\0\0\x02",
            b"\x06\0\0\0\x01\0\0\0\x02\0\0\0\x03",
        )],
        (4, 2),
    ),
    (
        WHOLE,
        &[(
            4,
            b"\0\0\0\0\0\0\0\x05",
            b"\x01\0\0\0\x02\0\0\0\x02\0\0\0\x05\0\x01\x06ZORDNR01\0\0\0\0\0\0\0\x01",
        )],
        (4, 5),
    ),
    (
        WHOLE,
        &[(
            4,
            b"\0\0\0\0\0\0\0\x04",
            b"\x04\0\0\0\x01\0\0\0\x02\0\0\0\x04\0\0\0\x02\x01",
        )],
        (4, 4),
    ),
    (
        WHOLE,
        &[(
            4,
            b"\0\0\0\0\0\0\0\x04",
            b"\x04\0\0\0\x01\0\0\0\x02\0\0\0\x04\0\0\0\x01\x02",
        )],
        (4, 4),
    ),
];

/// A unit lacks its effect, no mark records a header, a unit has an effect or a lock more, and nothing posted a
/// business row.
const ROW_CASES: [Case; 6] = [
    (6, &[HEADER], (4, 3)),
    (
        WHOLE,
        &[(
            1,
            b"\0\0\0\x01\0\0\0\x02\0\0\0\x06",
            b"\x04ANNA\0\x01\0\0\0\0\0\0\0\0",
        )],
        (1, 3),
    ),
    (
        WHOLE,
        &[(
            3,
            b"\0\0\0\x01\0\0\0\x02\0\0\0\x03\x01\0\x02",
            b"\x03\x04STAT\x01A",
        )],
        (3, 2),
    ),
    (WHOLE, &[(6, b"\x04STATA", b"Y")], (6, 1)),
    (WHOLE, &[(6, b"\x04STATB", b"X")], (6, 2)),
    (
        WHOLE,
        &[(
            7,
            b"\0\0\0\x01\0\0\0\x02\0\0\0\x03\0\0\0\x01",
            b"\x04STAT\x02\0\x01\x01A",
        )],
        (7, 1),
    ),
];

/// An interval is missing, a number stands twice, and a level is below a number.
const INTERVAL_CASES: [Case; 3] = [
    (12, &[HEADER], (5, 1)),
    (
        WHOLE,
        &[
            (
                4,
                b"\0\0\0\0\0\0\0\x05",
                b"\x01\0\0\0\x01\0\0\0\x02\0\0\0\x05\0\x02\x06ZORDNR01\0\0\0\0\0\0\0\x01\x06ZORDNR01\0\0\0\0\0\0\0\x01",
            ),
            (
                5,
                b"\x06ZORDNR01",
                b"\0\0\0\0\0\0\0\x01\0\0\0\0\0\0\0\x09\0\0\0\0\0\0\0\x01\x01",
            ),
        ],
        (5, 1),
    ),
    (
        WHOLE,
        &[(
            5,
            b"\x06ZORDNR01",
            b"\0\0\0\0\0\0\0\x01\0\0\0\0\0\0\0\x09\0\0\0\0\0\0\0\0\0",
        )],
        (5, 1),
    ),
];

/// The good store without the row at a place, counted from 0, and with these rows put over it.
fn stored(alloc: Global, without: usize, over: &[Line]) -> Result<MemKeeper, Fail> {
    let mut keeper = MemKeeper::new(alloc, Vec::new(alloc), Vec::new(alloc))?;
    put_all(alloc, &mut keeper, without, over)?;
    Ok(keeper)
}

fn put_all(alloc: Global, keeper: &mut MemKeeper, without: usize, over: &[Line]) -> Result<(), Fail>
    requires { IsSettled keeper.old }
{
    put_lines_but(alloc, keeper, &GOOD, without)?;
    put_lines(alloc, keeper, over)
}

fn put_lines_but(
    alloc: Global,
    keeper: &mut MemKeeper,
    lines: &[Line],
    without: usize,
) -> Result<(), Fail>
    requires { IsSettled keeper.old }
    ensures { OnOk result (IsSettled keeper.new) }
{
    for place in 0..lines.len() {
        if place != without {
            put_line(alloc, keeper, &lines[place])?;
        }
    }
    Ok(())
}

/// Why a store isn't opened, or the start at which it is, and its keeper.
fn opened(alloc: Global, keeper: MemKeeper, raise: bool) -> (Result<u32, BooksFault>, MemKeeper) {
    match Books::open(alloc, keeper, raise) {
        Ok(books) => (Ok(books.start()), books.into_keeper()),
        Err((fault, keeper)) => (Err(fault), keeper),
    }
}

/// The place where a store is bad, 0 and 0 where it is opened, and its keeper.
fn place_of(alloc: Global, keeper: MemKeeper) -> Result<((u8, u64), MemKeeper), Fail> {
    match opened(alloc, keeper, true) {
        (Ok(_), keeper) => Ok(((0, 0), keeper)),
        (Err(BooksFault::BadStore { table, row }), keeper) => Ok(((table, row), keeper)),
        _ => Err(Fail::from("another fault")),
    }
}

/// Whether a store is told by this place, and stands as it stood.
fn is_told(alloc: Global, case: &Case) -> Result<bool, Fail> {
    let (without, over, wanted) = *case;
    let (place, keeper) = place_of(alloc, stored(alloc, without, over)?)?;
    let (again, _) = place_of(alloc, keeper)?;
    Ok(place == wanted && again == wanted)
}

/// The place of the first of these stores that isn't told so.
fn not_told(alloc: Global, cases: &[Case]) -> Result<Option<(u8, u64)>, Fail> {
    for case in cases {
        if !is_told(alloc, case)? {
            return Ok(Some(case.2));
        }
    }
    Ok(None)
}

#[test]
fn a_bad_store_is_told_by_its_first_bad_place(rt: HostRuntime) -> Result<(), Fail> {
    let alloc = rt.alloc();
    assert_eq!(rt; not_told(alloc, &FIRST_CASES)?, None);
    assert_eq!(rt; not_told(alloc, &MARK_CASES)?, None);
    assert_eq!(rt; not_told(alloc, &ROW_CASES)?, None);
    assert_eq!(rt; not_told(alloc, &INTERVAL_CASES)?, None);
    Ok(())
}

/// Why a store of these rows isn't opened, or the start at which it is, with the next start and then without.
fn openings_of(
    alloc: Global,
    lines: &[Line],
) -> Result<(Result<u32, BooksFault>, Result<u32, BooksFault>), Fail> {
    let (raised, keeper) = opened(alloc, keeper_of(alloc, lines)?, true);
    let (start, _) = opened(alloc, keeper, false);
    Ok((raised, start))
}

/// Whether a row alone lacks the meta row.
fn is_lacking(alloc: Global, line: Line) -> Result<bool, Fail> {
    let (place, _) = place_of(alloc, keeper_of(alloc, &[line])?)?;
    Ok(place == (0, 1))
}

fn not_lacking(alloc: Global, lines: &[Line]) -> Result<Option<Line>, Fail> {
    for line in lines {
        if !is_lacking(alloc, *line)? {
            return Ok(Some(*line));
        }
    }
    Ok(None)
}

#[test]
fn a_row_alone_lacks_the_meta_row(rt: HostRuntime) -> Result<(), Fail> {
    assert_eq!(rt; not_lacking(rt.alloc(), &GOOD)?, None);
    Ok(())
}

const LAST_START: [Line; 1] = [(0, b"S", b"\xff\xff\xff\xff\0\0\0\0\0\0\0\0")];

#[test]
fn no_start_is_behind_the_last(rt: HostRuntime) -> Result<(), Fail> {
    let (raised, start) = openings_of(rt.alloc(), &LAST_START)?;
    assert_eq!(rt; raised, Err(BooksFault::NoStart));
    assert_eq!(rt; start, Ok(4294967295));
    Ok(())
}

const UNPOSTED: [Line; 2] = [
    (0, b"S", b"\0\0\0\x01\0\0\0\0\0\0\0\0"),
    (6, b"\x01T1", b"X"),
];

#[test]
fn a_business_row_that_nothing_posted_is_bad(rt: HostRuntime) -> Result<(), Fail> {
    let (raised, _) = openings_of(rt.alloc(), &UNPOSTED)?;
    assert_eq!(rt; raised, Err(BooksFault::BadStore { table: 6, row: 1 }));
    Ok(())
}
