use crate::runs::{Given, Left, REPLAY, disk_of, empty_store, run};
use enq_cmd::Why;
use std::alloc::Global;
use std::process::Abort;
use std::sync::Wait;
use std::test::*;
use std::thread::Threads;

// The words of a command line, which writes fail, how the program then ends, after so many calls of the hall, and what
// it has written.
struct Row {
    words: &'static [u8],
    writes: &'static [u64],
    why: Why,
    status: u8,
    calls: usize,
    text: &'static [u8],
}

const ROWS: [Row; 5] = [
    Row {
        words: b"gen 1",
        writes: &[],
        why: Why::Done,
        status: 0,
        calls: 0,
        text: b"S1 LOGON U1\n\
            S2 LOGON U2\n\
            S3 LOGON U3\n\
            S4 LOGON U4\n\
            S1 ENQ EZORDER E 2 MANDT=100 ORDNR=0000000001\n\
            S1 NUM ZORDNR 01 N\n\
            S1 V1 INS VBAK $N ORDER 1\n\
            S1 V1 INS VBAP $N-10 ITEM 1\n\
            S1 V2 ADD STAT ORDERS 1\n\
            S1 COMMIT\n\
            @1 TAKE1\n\
            @1 DO1\n\
            @1 TAKE2\n\
            @1 DO2\n",
    },
    Row {
        words: b"gen 1",
        writes: &[1],
        why: Why::SinkFault,
        status: 6,
        calls: 0,
        text: b"",
    },
    Row {
        words: b"load 3",
        writes: &[],
        why: Why::Done,
        status: 0,
        calls: 25,
        text: b"0 UNITS 3 OPEN 0 POSTED 0 BAD 0 CLOSED 3 BAD2 0 CANCELLED 0 MARKS 9 NUMBERS 3\n0 END\n",
    },
    Row {
        words: b"load 1",
        writes: &[1],
        why: Why::SinkFault,
        status: 6,
        calls: 11,
        text: b"",
    },
    Row {
        words: b"load 1000",
        writes: &[],
        why: Why::Done,
        status: 0,
        calls: 7004,
        text: b"0 UNITS 1000 OPEN 0 POSTED 0 BAD 0 CLOSED 1000 BAD2 0 CANCELLED 0 MARKS 3000 NUMBERS 1000\n0 END\n",
    },
];

const BAD_WORDS: [&[u8]; 24] = [
    b"gen",
    b"load",
    b"gen 0",
    b"load 0",
    b"gen 01",
    b"load +1",
    b"load -1",
    b"gen 10001",
    b"load 10001",
    b"gen 1 2",
    b"Gen 1",
    b"replay 1",
    b"run",
    b"run 1",
    b"run --workers",
    b"run --workers 0",
    b"run --workers 17",
    b"run --workers 01",
    b"run --workers=",
    b"run --workers=17",
    b"run --workers=1 1",
    b"run --worker 1",
    b"Run --workers 1",
    b"replay --workers 1",
];

// Does these words, with a script that nobody is to read.
fn run_row<R: Threads + Wait + Sync>(
    rt: &R,
    alloc: Global,
    words: &'static [u8],
    writes: &'static [u64],
) -> Result<Left, Fail> {
    let given = Given {
        words,
        script: b"A LOGON MILLER\n",
        fails: [&[], &[], writes],
        ..REPLAY
    };
    let disk = disk_of(alloc, b"")?;
    let keeper = empty_store(alloc)?;
    run(rt, alloc, &given, keeper, disk)
}

fn ends_so<R: Abort + Threads + Wait + Sync>(rt: &R, alloc: Global, row: &Row) -> Result<(), Fail> {
    let left = run_row(rt, alloc, row.words, row.writes)?;
    assert_eq!(rt; left.replies.as_slice(), row.text);
    assert_eq!(rt;
        (left.why, left.status, left.calls),
        (row.why, row.status, row.calls)
    );
    Ok(())
}

#[test]
fn scripts_are_written_and_done(rt: HostRuntime) -> Result<(), Fail> {
    for row in &ROWS {
        ends_so(&rt, rt.alloc(), row)?;
    }
    Ok(())
}

fn is_refused<R: Abort + Threads + Wait + Sync>(
    rt: &R,
    alloc: Global,
    words: &'static [u8],
) -> Result<(), Fail> {
    let left = run_row(rt, alloc, words, &[])?;
    assert_eq!(rt; (left.status, left.calls, left.replies.len()), (2, 0, 0));
    Ok(())
}

#[test]
fn other_numbers_of_units_are_refused(rt: HostRuntime) -> Result<(), Fail> {
    for words in &BAD_WORDS {
        is_refused(&rt, rt.alloc(), words)?;
    }
    Ok(())
}
