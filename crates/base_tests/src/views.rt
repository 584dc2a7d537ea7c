ghost use Rattle.std.specs.Prelude.{◌≡◌, IfOk};

use enq_base::{Condition, Name, Owner, Pattern, Reason, Status, UnitKey, read_name};
use lock_entry::Entry;
use mode_rules::Mode;
use monitors::{ServerView, audit, sm12, sm13, snro};
use number_ranges::{Interval, Range};
use std::alloc::Global;
use std::test::*;
use update_records::UnitView;

const UNIT: UnitKey = UnitKey {
    start: 1,
    session: 1,
    luw: 1,
};

fn name(text: &[u8]) -> Result<Name, Fail> {
    Ok(read_name(text).ok_or("a name")?)
}

fn dialogue_lock() -> Result<Entry, Fail> {
    Ok(Entry {
        owner: Owner::Dlg {
            start: 1,
            session: 1,
        },
        user: name(b"MILLER")?,
        table: name(b"ZORDER")?,
        pattern: Pattern::new(b"1000000000001").ok_or("a pattern")?,
        mode: Mode::E,
        count: 1,
        handed: false,
    })
}

fn order_unit(status: Status, error: Option<(u32, Reason)>) -> Result<UnitView, Fail> {
    Ok(UnitView {
        key: UNIT,
        user: name(b"MILLER")?,
        status,
        v1: 3,
        v2: 2,
        locks: 1,
        numbers: 1,
        error,
    })
}

fn free_range() -> Result<Range, Fail>
    ensures { IfOk result (λ range. range.interval.buffer ≡ 0) }
{
    Ok(Range::new(Interval {
        object: name(b"ZORDNR")?,
        nr: *b"01",
        from: 1,
        to: 9999999999,
        level: 1,
        buffer: 0,
        percent: 10,
    }))
}

fn held_range() -> Result<Range, Fail> {
    let session = name(b"A")?;
    let mut range = free_range()?;
    match range.draw_plain(session) {
        Ok(_) => Ok(range),
        Err(_) => Err(Fail::from("no number")),
    }
}

fn shows_locks(
    alloc: Global,
    line: u32,
    view: &ServerView,
    locks: &[Entry],
    want: &[u8],
) -> Result<bool, Fail> {
    let text = sm12(alloc, line, view, locks)?;
    Ok(text.as_slice() == want)
}

const TWO_LOCKS: &[u8] = b"9 SERVER UP REPLICA DETACHED LOCKS 2 OF 1000\n\
      9 D1.1 MILLER ZORDER E 1 0 - 1000000000001\n\
      9 U1.1.1 MILLER ZORDER E 0 1 H 1000000000001\n\
      9 END\n";

#[test]
fn sm12_shows_the_locks_of_a_server_that_is_up(rt: HostRuntime) -> Result<(), Fail> {
    let dialogue = dialogue_lock()?;
    let update = Entry {
        owner: Owner::Upd(UNIT),
        handed: true,
        ..dialogue
    };
    let view = ServerView {
        condition: Condition::Up,
        attached: false,
        limit: 1000,
    };
    assert!(rt; shows_locks(rt.alloc(), 9, &view, &[dialogue, update], TWO_LOCKS)?);
    Ok(())
}

const SPACES: &[u8] = b"200000 SERVER UP REPLICA ATTACHED LOCKS 1 OF 1\n\
      200000 D1.1 MILLER ZORDER O 9999 0 - 100@@@       \n\
      200000 END\n";

#[test]
fn sm12_keeps_trailing_spaces_and_counts(rt: HostRuntime) -> Result<(), Fail> {
    let lock = Entry {
        pattern: Pattern::new(b"100@@@       ").ok_or("a pattern")?,
        mode: Mode::O,
        count: 9999,
        ..dialogue_lock()?
    };
    let view = ServerView {
        condition: Condition::Up,
        attached: true,
        limit: 1,
    };
    assert!(rt; shows_locks(rt.alloc(), 200000, &view, &[lock], SPACES)?);
    Ok(())
}

/// Whether a lock isn't shown in this condition, but this text is.
fn is_hidden(
    alloc: Global,
    condition: Condition,
    attached: bool,
    want: &[u8],
) -> Result<bool, Fail> {
    let view = ServerView {
        condition,
        attached,
        limit: 1000,
    };
    shows_locks(alloc, 3, &view, &[dialogue_lock()?], want)
}

const ATTACHED: &[u8] = b"3 SERVER NONE REPLICA ATTACHED\n3 END\n";

const DETACHED: &[u8] = b"3 SERVER NONE REPLICA DETACHED\n3 END\n";

#[test]
fn sm12_shows_no_locks_without_a_server(rt: HostRuntime) -> Result<(), Fail> {
    let alloc = rt.alloc();
    assert!(rt; is_hidden(alloc, Condition::NoServer, true, ATTACHED)?);
    assert!(rt; is_hidden(alloc, Condition::NoServer, false, DETACHED)?);
    assert!(rt; is_hidden(alloc, Condition::Doubt(4), false, b"3 DOUBT 4\n3 END\n")?);
    Ok(())
}

// A condition, the status of a unit and its error, and the text that shows it.
type Shown = (Condition, Status, Option<(u32, Reason)>, &'static [u8]);

const UNITS: [Shown; 4] = [
    (
        Condition::Up,
        Status::Open,
        None,
        b"10 1.1.1 MILLER OPEN V1 3 V2 2 LOCKS 1 NUMBERS 1\n10 END\n",
    ),
    (
        Condition::NoServer,
        Status::Bad,
        Some((2, Reason::Duplicate)),
        b"10 1.1.1 MILLER BAD V1 3 V2 2 LOCKS 1 NUMBERS 1 ERROR 2 DUPLICATE\n10 END\n",
    ),
    (
        Condition::Up,
        Status::Bad2,
        Some((1, Reason::NotNumber)),
        b"10 1.1.1 MILLER BAD2 V1 3 V2 2 LOCKS 1 NUMBERS 1 ERROR 1 NOT_NUMBER\n10 END\n",
    ),
    (
        Condition::Doubt(4),
        Status::Bad,
        Some((2, Reason::Duplicate)),
        b"10 DOUBT 4\n10 END\n",
    ),
];

fn shows_unit(alloc: Global, row: &Shown) -> Result<bool, Fail> {
    let (condition, status, error, want) = *row;
    let units = [order_unit(status, error)?];
    let text = sm13(alloc, 10, condition, &units)?;
    Ok(text.as_slice() == want)
}

/// The first of these texts that isn't shown.
fn no_unit(alloc: Global, rows: &[Shown]) -> Result<Option<&'static [u8]>, Fail> {
    for row in rows {
        if !shows_unit(alloc, row)? {
            return Ok(Some(row.3));
        }
    }
    Ok(None)
}

#[test]
fn sm13_shows_units_and_their_errors(rt: HostRuntime) -> Result<(), Fail> {
    assert_eq!(rt; no_unit(rt.alloc(), &UNITS)?, None);
    Ok(())
}

fn shows_range(
    alloc: Global,
    condition: Condition,
    range: Range,
    want: &[u8],
) -> Result<bool, Fail> {
    let text = snro(alloc, 7, condition, &[range])?;
    Ok(text.as_slice() == want)
}

const FREE: &[u8] = b"7 ZORDNR 01 1 9999999999 LEVEL 1 BUFFER 0 PERCENT 10\n7 END\n";

const HELD: &[u8] = b"7 ZORDNR 01 1 9999999999 LEVEL 1 BUFFER 0 PERCENT 10 BY A\n7 END\n";

#[test]
fn snro_shows_intervals_and_their_holders(rt: HostRuntime) -> Result<(), Fail> {
    let alloc = rt.alloc();
    assert!(rt; shows_range(alloc, Condition::Up, free_range()?, FREE)?);
    assert!(rt; shows_range(alloc, Condition::NoServer, held_range()?, HELD)?);
    assert!(rt;
        shows_range(
            alloc,
            Condition::Doubt(4),
            held_range()?,
            b"7 DOUBT 4\n7 END\n"
        )?
    );
    Ok(())
}

fn counts(
    alloc: Global,
    condition: Condition,
    units: &[UnitView],
    marks: u32,
    want: &[u8],
) -> Result<bool, Fail> {
    let text = audit(alloc, 0, condition, units, marks, 1)?;
    Ok(text.as_slice() == want)
}

fn several() -> Result<[UnitView; 4], Fail> {
    Ok([
        order_unit(Status::Bad, Some((2, Reason::Duplicate)))?,
        order_unit(Status::Posted, None)?,
        order_unit(Status::Cancelled, None)?,
        order_unit(Status::Posted, None)?,
    ])
}

const ONE_UNIT: &[u8] =
    b"0 UNITS 1 OPEN 0 POSTED 0 BAD 0 CLOSED 1 BAD2 0 CANCELLED 0 MARKS 3 NUMBERS 1\n0 END\n";

const FOUR_UNITS: &[u8] =
    b"0 UNITS 4 OPEN 0 POSTED 2 BAD 1 CLOSED 0 BAD2 0 CANCELLED 1 MARKS 8 NUMBERS 1\n0 END\n";

#[test]
fn audit_counts_units_by_their_status(rt: HostRuntime) -> Result<(), Fail> {
    let alloc = rt.alloc();
    let closed = [order_unit(Status::Closed, None)?];
    assert!(rt; counts(alloc, Condition::Up, &closed, 3, ONE_UNIT)?);
    assert!(rt; counts(alloc, Condition::NoServer, &several()?, 8, FOUR_UNITS)?);
    assert!(rt;
        counts(
            alloc,
            Condition::Doubt(4),
            &closed,
            3,
            b"0 DOUBT 4\n0 END\n"
        )?
    );
    Ok(())
}
