use crate::runs::{Given, REPLAY, disk_of, empty_store, run};
use enq_cmd::Why;
use std::alloc::Global;
use std::process::Abort;
use std::sync::Wait;
use std::test::*;
use std::thread::Threads;

// A run that ends before its script does: what it is given, why it ends, how many calls its history has, and how many
// bytes of the script are left.
type Ending = (Given, Why, usize, usize);

const SERVED: Given = Given {
    landscape: b"",
    script: b"A LOGON MILLER\nA LOGOFF\n",
    ..REPLAY
};

const ENDINGS: [Ending; 6] = [
    (SERVED, Why::Done, 2, 0),
    (
        Given {
            words: b"run",
            ..SERVED
        },
        Why::BadWords,
        0,
        24,
    ),
    (
        Given {
            fails: [&[1], &[], &[]],
            ..SERVED
        },
        Why::SourceFault,
        0,
        24,
    ),
    (
        Given {
            landscape: b"max_locks = 0",
            ..SERVED
        },
        Why::BadLandscape { rule: 4, place: 0 },
        0,
        24,
    ),
    // The second line isn't read to its end, and isn't done.
    (
        Given {
            fails: [&[], &[18], &[]],
            ..SERVED
        },
        Why::SourceFault,
        1,
        7,
    ),
    // The second line is done, and its reply isn't written.
    (
        Given {
            fails: [&[], &[], &[2]],
            ..SERVED
        },
        Why::SinkFault,
        2,
        0,
    ),
];

fn ends_so<R: Abort + Threads + Wait + Sync>(
    rt: &R,
    alloc: Global,
    ending: &Ending,
) -> Result<(), Fail> {
    let (given, why, calls, unread) = ending;
    let disk = disk_of(alloc, b"")?;
    let keeper = empty_store(alloc)?;
    let left = run(rt, alloc, given, keeper, disk)?;
    assert_eq!(rt;
        (left.why, left.calls, left.unread),
        (*why, *calls, *unread)
    );
    Ok(())
}

#[test]
fn an_end_leaves_the_calls_before_it_and_the_rest_unread(rt: HostRuntime) -> Result<(), Fail> {
    for ending in &ENDINGS {
        ends_so(&rt, rt.alloc(), ending)?;
    }
    Ok(())
}
