use enq_base::{
    ArgKind, BackupBad, Bad, Name, Owner, Pattern, Reason, Refusal, Status, Text, UnitKey,
    read_name,
};
use hall_model::Reply;
use number_ranges::Code;
use script_runner::{Text as Line, push_reply};
use std::alloc::Global;
use std::test::*;

const UNIT: UnitKey = UnitKey {
    start: 1,
    session: 2,
    luw: 3,
};

fn name(text: &[u8]) -> Result<Name, Fail> {
    Ok(read_name(text).ok_or("a name")?)
}

/// The words of a reply, as they stand behind the number of its line.
fn is_shown(reply: &Reply, want: &[u8]) -> bool {
    let mut line = Line::new();
    push_reply(&mut line, reply);
    line.as_slice() == want
}

fn is_refusal(refusal: &Refusal, want: &[u8]) -> bool {
    is_shown(&Reply::Refused(*refusal), want)
}

/// The first of these lines that isn't that of the refusal beside it.
fn not_shown(rows: &[(Refusal, &'static [u8])]) -> Option<&'static [u8]> {
    for (refusal, want) in rows {
        if !is_refusal(refusal, *want) {
            return Some(*want);
        }
    }
    None
}

const SESSIONS_AND_LOCKS: [(Refusal, &[u8]); 11] = [
    (Refusal::UnknownSession, b" UNKNOWN_SESSION"),
    (Refusal::SessionExists, b" SESSION_EXISTS"),
    (Refusal::SystemFailure, b" SYSTEM_FAILURE"),
    (
        Refusal::Down(18446744073709551615),
        b" DOWN 18446744073709551615",
    ),
    (Refusal::LocksLost, b" LOCKS_LOST"),
    (
        Refusal::LockTableFull { used: 2, limit: 3 },
        b" LOCK_TABLE_FULL 2 3",
    ),
    (Refusal::CountFull, b" COUNT_FULL"),
    (Refusal::OptimisticLost, b" OPTIMISTIC_LOST"),
    (Refusal::UnknownObject, b" UNKNOWN_OBJECT"),
    (Refusal::ContainerFull, b" CONTAINER_FULL 64"),
    (Refusal::SessionsFull, b" SESSIONS_FULL 1024"),
];

fn foreign_lock() -> Result<Refusal, Fail> {
    Ok(Refusal::ForeignLock {
        owner: Owner::Upd(UNIT),
        user: name(b"MILLER")?,
        table: name(b"ZORDER")?,
        argument: Pattern::new(b"100@@@       ").ok_or("a pattern")?,
    })
}

#[test]
fn refusals_of_sessions_and_locks_are_shown(rt: HostRuntime) -> Result<(), Fail> {
    assert_eq!(rt; not_shown(&SESSIONS_AND_LOCKS), None);
    let wanted = b" FOREIGN_LOCK MILLER ZORDER 100@@@       ";
    assert!(rt; is_refusal(&foreign_lock()?, wanted));
    let unknown = Refusal::UnknownVariable(name(b"N")?);
    assert!(rt; is_refusal(&unknown, b" UNKNOWN_VARIABLE N"));
    Ok(())
}

const CANCELLED: Refusal = Refusal::WrongStatus {
    unit: UNIT,
    status: Status::Cancelled,
};

const UNITS_AND_NUMBERS: [(Refusal, &[u8]); 11] = [
    (Refusal::UnitTooLarge, b" UNIT_TOO_LARGE"),
    (Refusal::IntervalNotFound, b" INTERVAL_NOT_FOUND"),
    (Refusal::IntervalOverflow(100), b" INTERVAL_OVERFLOW 100"),
    (Refusal::Idle, b" IDLE"),
    (Refusal::WorkerBusy(UNIT), b" WORKER_BUSY 1.2.3"),
    (Refusal::NoOrder, b" NO_ORDER"),
    (CANCELLED, b" WRONG_STATUS 1.2.3 CANCELLED"),
    (Refusal::UnknownUnit, b" UNKNOWN_UNIT"),
    (Refusal::UnitClaimed(64), b" UNIT_CLAIMED 64"),
    (Refusal::LogFull, b" LOG_FULL"),
    (Refusal::StoreFull(1048576), b" STORE_FULL 1048576"),
];

#[test]
fn refusals_of_units_and_numbers_are_shown(rt: HostRuntime) -> Result<(), Fail> {
    assert_eq!(rt; not_shown(&UNITS_AND_NUMBERS), None);
    let busy = Refusal::IntervalBusy(name(b"A")?);
    assert!(rt; is_refusal(&busy, b" INTERVAL_BUSY A"));
    Ok(())
}

const UNSOUND: Refusal = Refusal::Unsound(Bad::Backup(BackupBad::Bytes { at: 9 }));

const DEVICES_AND_ARGUMENTS: [(Refusal, &[u8]); 13] = [
    (Refusal::NotAttached, b" NOT_ATTACHED"),
    (Refusal::ServerUp, b" SERVER_UP"),
    (Refusal::StoreFault, b" STORE_FAULT"),
    (Refusal::BackupFault, b" BACKUP_FAULT"),
    (Refusal::NoMemory, b" NO_MEMORY"),
    (Refusal::LinkFault, b" LINK_FAULT"),
    (UNSOUND, b" UNSOUND"),
    (Refusal::BadArgument(ArgKind::Field), b" BAD_ARGUMENT FIELD"),
    (Refusal::BadArgument(ArgKind::Wide), b" BAD_ARGUMENT WIDE"),
    (Refusal::BadArgument(ArgKind::Byte), b" BAD_ARGUMENT BYTE"),
    (
        Refusal::BadArgument(ArgKind::Repeat),
        b" BAD_ARGUMENT REPEAT",
    ),
    (
        Refusal::BadArgument(ArgKind::Length),
        b" BAD_ARGUMENT LENGTH",
    ),
    (
        Refusal::BadArgument(ArgKind::Number),
        b" BAD_ARGUMENT NUMBER",
    ),
];

#[test]
fn refusals_of_devices_and_arguments_are_shown(rt: HostRuntime) -> Result<(), Fail> {
    assert_eq!(rt; not_shown(&DEVICES_AND_ARGUMENTS), None);
    Ok(())
}

#[test]
fn replies_of_units_are_shown(rt: HostRuntime) -> Result<(), Fail> {
    assert!(rt; is_shown(&Reply::Done, b" OK"));
    assert!(rt; is_shown(&Reply::Unit(UNIT), b" OK 1.2.3"));
    assert!(rt; is_shown(&Reply::Posted(UNIT), b" POSTED 1.2.3"));
    assert!(rt; is_shown(&Reply::Closed(UNIT), b" CLOSED 1.2.3"));
    Ok(())
}

// Why an effect is refused, and the lines of units whose V1 part and whose V2 part is refused so.
type Bads = (Reason, &'static [u8], &'static [u8]);

const BADS: [Bads; 4] = [
    (
        Reason::Duplicate,
        b" BAD 1.2.3 2 DUPLICATE",
        b" BAD2 1.2.3 2 DUPLICATE",
    ),
    (
        Reason::Missing,
        b" BAD 1.2.3 2 MISSING",
        b" BAD2 1.2.3 2 MISSING",
    ),
    (
        Reason::NotNumber,
        b" BAD 1.2.3 2 NOT_NUMBER",
        b" BAD2 1.2.3 2 NOT_NUMBER",
    ),
    (
        Reason::Overflow,
        b" BAD 1.2.3 2 OVERFLOW",
        b" BAD2 1.2.3 2 OVERFLOW",
    ),
];

fn are_bad(bads: &Bads) -> bool {
    let (reason, first, second) = *bads;
    let bad = Reply::Bad {
        unit: UNIT,
        index: 2,
        reason,
    };
    let bad2 = Reply::Bad2 {
        unit: UNIT,
        index: 2,
        reason,
    };
    is_shown(&bad, first) && is_shown(&bad2, second)
}

fn not_bad(rows: &[Bads]) -> Option<Reason> {
    for bads in rows {
        if !are_bad(bads) {
            return Some(bads.0);
        }
    }
    None
}

#[test]
fn replies_of_refused_parts_are_shown(rt: HostRuntime) -> Result<(), Fail> {
    assert_eq!(rt; not_bad(&BADS), None);
    Ok(())
}

fn is_number(code: Code, want: &[u8]) -> bool {
    is_shown(&Reply::Number { number: 98, code }, want)
}

fn is_row(alloc: Global, text: &[u8], want: &[u8]) -> Result<bool, Fail> {
    let Ok(text) = Text::new(alloc, text) else {
        return Err(Fail::from("a text"));
    };
    Ok(is_shown(&Reply::Row(Some(text)), want))
}

#[test]
fn replies_of_numbers_and_rows_are_shown(rt: HostRuntime) -> Result<(), Fail> {
    assert!(rt; is_number(Code::Blank, b" OK 98 -"));
    assert!(rt; is_number(Code::Critical, b" OK 98 1"));
    assert!(rt; is_number(Code::Last, b" OK 98 2"));
    assert!(rt; is_shown(&Reply::Level(10), b" OK 10"));
    assert!(rt; is_row(rt.alloc(), b" NEW  ORDER ", b" OK  NEW  ORDER ")?);
    assert!(rt; is_shown(&Reply::Row(None), b" NONE"));
    Ok(())
}
