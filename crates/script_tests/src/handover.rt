ghost use Rattle.std.specs.Prelude.{◌≤◌};

use crate::runs::{Given, Left, NEVER, REPLAY, contains, disk_of, empty_store, run};
use bk_disk::MemDisk;
use enq_base::{BackupBad, UnitKey};
use enq_cmd::Why;
use keeper_mem::MemKeeper;
use std::alloc::Global;
use std::process::Abort;
use std::sync::Wait;
use std::test::*;
use std::thread::Threads;

// A start that replays a script over a store and a backup file, whose disk stops at a call.
fn start<R: Threads + Wait + Sync>(
    rt: &R,
    alloc: Global,
    script: &'static [u8],
    stop: u64,
    keeper: MemKeeper,
    disk: MemDisk,
) -> Result<Left, Fail> {
    let given = Given {
        script,
        stop,
        ..REPLAY
    };
    run(rt, alloc, &given, keeper, disk)
}

// The next start, where nothing fails any more.
fn next_start<R: Threads + Wait + Sync>(
    rt: &R,
    alloc: Global,
    script: &'static [u8],
    keeper: MemKeeper,
    disk: MemDisk,
) -> Result<Left, Fail> {
    let keeper = keeper.again(Vec::new(alloc), Vec::new(alloc));
    start(rt, alloc, script, NEVER, keeper, disk)
}

// A start over this file, without a row in the store.
fn first_start<R: Threads + Wait + Sync>(
    rt: &R,
    alloc: Global,
    script: &'static [u8],
    stop: u64,
    file: &[u8],
) -> Result<Left, Fail> {
    let disk = disk_of(alloc, file)?;
    let keeper = empty_store(alloc)?;
    start(rt, alloc, script, stop, keeper, disk)
}

// A unit with one lock is recorded, and its V1 part is posted.
const ORDER: &[u8] = b"A LOGON MILLER\n\
    A ENQ EZORDER E 2 MANDT=100 ORDNR=0000000001\n\
    A V1 PUT ZORDER 1 X\n\
    A COMMIT\n\
    @1 TAKE1\n\
    @1 DO1\n";

// The same until the unit waits.
const COMMIT: &[u8] = b"A LOGON MILLER\n\
    A ENQ EZORDER E 2 MANDT=100 ORDNR=0000000001\n\
    A V1 PUT ZORDER 1 X\n\
    A COMMIT\n";

// Another user asks for the lock at the next start.
const ASKED: &[u8] = b"B LOGON SMITH\nB ENQ EZORDER E 1 MANDT=100 ORDNR=0000000001\n? SM13\n";

const GRANTED: &[u8] = b"1 OK\n2 OK\n3 ";

const BARRED: &[u8] = b"1 OK\n2 FOREIGN_LOCK MILLER ZORDER 1000000000001\n3 ";

// Whether the unit waits for its V1 part behind what was answered. The store kept what it failed in, or not.
fn waits(replies: &[u8], kept: bool) -> bool {
    if contains(replies, b"\n6 POSTED 1.1.1\n") || contains(replies, b"\n6 BACKUP_FAULT\n") {
        return false;
    }
    if contains(replies, b"\n6 STORE_FAULT\n") {
        return !kept;
    }
    let failed = contains(replies, b"\n4 STORE_FAULT\n");
    contains(replies, b"\n4 OK 1.1.1\n") || failed && kept
}

// Tests that the lock is barred just where its unit is open, which it is where it waits.
fn check_next(rt: &impl Abort, next: &Left, waits: bool) {
    let replies = next.replies.as_slice();
    let is_open = contains(replies, b"3 1.1.1 MILLER OPEN ");
    let wanted = if is_open { BARRED } else { GRANTED };
    assert_eq!(rt; next.why, Why::Done);
    assert!(rt; replies.starts_with(wanted));
    assert_eq!(rt; is_open, waits);
}

// The next start: no lock is lost, and none stands too many.
fn goes_on<R: Abort + Threads + Wait + Sync>(
    rt: &R,
    alloc: Global,
    keeper: MemKeeper,
    disk: MemDisk,
    waits: bool,
) -> Result<(), Fail> {
    let next = next_start(rt, alloc, ASKED, keeper, disk)?;
    check_next(rt, &next, waits);
    Ok(())
}

// More calls of a device than the script makes.
const CALLS: u64 = 40;

// Stops the store at a call, which is kept or not.
fn stop_store<R: Abort + Threads + Wait + Sync>(
    rt: &R,
    alloc: Global,
    call: u64,
    kept: bool,
) -> Result<(), Fail> {
    let disk = disk_of(alloc, b"")?;
    let keeper = empty_store(alloc)?.stop(call, kept);
    let stopped = start(rt, alloc, ORDER, NEVER, keeper, disk)?;
    let waits = waits(stopped.replies.as_slice(), kept);
    goes_on(rt, alloc, stopped.keeper, stopped.disk, waits)
}

#[test]
fn a_stop_at_any_call_of_the_store_leaves_just_the_locks_of_the_unit(
    rt: HostRuntime,
) -> Result<(), Fail> {
    for call in 1..CALLS {
        for kept in [false, true] {
            stop_store(&rt, rt.alloc(), call, kept)?;
        }
    }
    Ok(())
}

// The disk that a crash leaves, by one of its images.
fn left_by_crash(alloc: Global, disk: MemDisk, pick: u8) -> Result<MemDisk, Fail>
    requires { pick ≤ 3 }
{
    let image = disk.image(alloc, pick)?;
    disk_of(alloc, image.as_slice())
}

// Stops the disk at a call.
fn stop_disk<R: Abort + Threads + Wait + Sync>(
    rt: &R,
    alloc: Global,
    call: u64,
    pick: u8,
) -> Result<(), Fail>
    requires { pick ≤ 3 }
{
    let stopped = first_start(rt, alloc, ORDER, call, b"")?;
    let waits = waits(stopped.replies.as_slice(), true);
    let disk = left_by_crash(alloc, stopped.disk, pick)?;
    goes_on(rt, alloc, stopped.keeper, disk, waits)
}

// From each image that a crash may leave of the file.
#[test]
fn a_stop_at_any_call_of_the_disk_leaves_just_the_locks_of_the_unit(
    rt: HostRuntime,
) -> Result<(), Fail> {
    for call in 1..CALLS {
        for pick in 0..4 {
            stop_disk(&rt, rt.alloc(), call, pick)?;
        }
    }
    Ok(())
}

const SHOWN: &[u8] = b"? SM12\n? SM13\n";

fn shows_no_lock<R: Abort + Threads + Wait + Sync>(
    rt: &R,
    alloc: Global,
    keeper: MemKeeper,
    disk: MemDisk,
) -> Result<(), Fail> {
    let next = next_start(rt, alloc, SHOWN, keeper, disk)?;
    let shown = contains(next.replies.as_slice(), b"MILLER");
    assert_eq!(rt; (next.status, shown), (0, false));
    Ok(())
}

// Whether the disk fails in the commit where it stops at this call. Each call behind it isn't served then.
fn is_in_doubt<R: Abort + Threads + Wait + Sync>(
    rt: &R,
    alloc: Global,
    call: u64,
) -> Result<bool, Fail> {
    let stopped = first_start(rt, alloc, ORDER, call, b"")?;
    let replies = stopped.replies.as_slice();
    if !contains(replies, b"\n4 BACKUP_FAULT\n") {
        return Ok(false);
    }
    assert!(rt; replies.ends_with(b"\n5 DOWN 3\n6 DOWN 3\n"));
    assert_eq!(rt; (stopped.why, stopped.status), (Why::BackupFault(3), 8));
    shows_no_lock(rt, alloc, stopped.keeper, stopped.disk)?;
    Ok(true)
}

// Where the disk fails in it a commit is answered so, every call behind it isn't served, and the status is 8.
#[test]
fn a_disk_that_fails_in_a_commit_puts_the_server_in_doubt(rt: HostRuntime) -> Result<(), Fail> {
    let mut met = false;
    for call in 1..CALLS {
        met = is_in_doubt(&rt, rt.alloc(), call)? || met;
    }
    assert!(rt; met);
    Ok(())
}

// Texts that are among the replies of the start that shows the waiting unit.
const WAITING: [&[u8]; 2] = [b"U1.1.1", b"1.1.1 MILLER OPEN V1 1 V2 0 LOCKS 1 NUMBERS 0"];

fn check_waiting(rt: &impl Abort, next: &Left) {
    assert_eq!(rt; next.why, Why::Done);
    for text in &WAITING {
        assert!(rt; contains(next.replies.as_slice(), text));
    }
}

// Shows the unit, and posts it at the start behind that.
fn posts<R: Abort + Threads + Wait + Sync>(
    rt: &R,
    alloc: Global,
    keeper: MemKeeper,
    disk: MemDisk,
) -> Result<(), Fail> {
    let next = next_start(rt, alloc, SHOWN, keeper, disk)?;
    check_waiting(rt, &next);
    let posted = next_start(rt, alloc, b"@1 TAKE1\n@1 DO1\n", next.keeper, next.disk)?;
    let wanted: &[u8] = b"1 OK 1.1.1\n2 POSTED 1.1.1\n";
    assert_eq!(rt; posted.replies.as_slice(), wanted);
    goes_on(rt, alloc, posted.keeper, posted.disk, false)
}

// A start that records a unit.
fn recorded<R: Abort + Threads + Wait + Sync>(
    rt: &R,
    alloc: Global,
    script: &'static [u8],
) -> Result<Left, Fail> {
    let left = first_start(rt, alloc, script, NEVER, b"")?;
    assert_eq!(rt; left.why, Why::Done);
    Ok(left)
}

// What the file has is shown with the unit at the next start.
#[test]
fn the_locks_of_a_unit_that_waits_stand_at_the_next_start(rt: HostRuntime) -> Result<(), Fail> {
    let first = recorded(&rt, rt.alloc(), COMMIT)?;
    posts(&rt, rt.alloc(), first.keeper, first.disk)
}

// The file that has one exclusive lock of unit 1.1.1.
const FILE: &[u8] = b"ENQBCK01\x01\x01\0\0\0\x2f\0\0\0\x01\0\0\0\x01\0\0\0\x01\
    \x06MILLER\0\0\0\x01\x06ZORDER\x02\0\x01\x0d1000000000001\0";

// The same in version 2: the slots behind its list, of which the first names the log at 101, and the log.
const MIGRATED: &[u8] = b"ENQBCK01\x01\x01\0\0\0\x2f\0\0\0\x01\0\0\0\x01\0\0\0\x01\
    \x06MILLER\0\0\0\x01\x06ZORDER\x02\0\x01\x0d1000000000001\
    \x01\x03\0\0\0\x22\x01\0\0\0\0\0\0\0\x01\0\0\0\0\0\0\0\x65\0\0\0\0\0\0\0\0\0\0\0\0\0\0\0\0\0\
    \x01\x01\0\0\0\x2f\0\0\0\x01\0\0\0\x01\0\0\0\x01\
    \x06MILLER\0\0\0\x01\x06ZORDER\x02\0\x01\x0d1000000000001\0";

// The same with its list ended, and a log without records at 173, which the second slot names.
const FREED: &[u8] = b"ENQBCK01\x01\x01\0\0\0\x2f\0\0\0\x01\0\0\0\x01\0\0\0\x01\
    \x06MILLER\0\0\0\x01\x06ZORDER\x02\0\x01\x0d1000000000001\
    \x01\x03\0\0\0\x22\x01\0\0\0\0\0\0\0\x01\0\0\0\0\0\0\0\x65\x01\0\0\0\0\0\0\0\x02\0\0\0\0\0\0\0\xad\
    \x01\x01\0\0\0\x2f\0\0\0\x01\0\0\0\x01\0\0\0\x01\
    \x06MILLER\0\0\0\x01\x06ZORDER\x02\0\x01\x0d1000000000001\x01\x02\0\0\0\x0c\0\0\0\x01\0\0\0\x01\0\0\0\x01\0\0";

// A file without lists, as it is made anew.
const ANEW: &[u8] = b"ENQBCK01\
    \x01\x03\0\0\0\x22\x01\0\0\0\0\0\0\0\x01\0\0\0\0\0\0\0\x30\0\0\0\0\0\0\0\0\0\0\0\0\0\0\0\0\0\0";

// Opens a file without a row in the store, and tells the file behind it.
fn file_behind<R: Abort + Threads + Wait + Sync>(
    rt: &R,
    alloc: Global,
    file: &[u8],
) -> Result<Vec<u8>, Fail> {
    let next = first_start(rt, alloc, b"", NEVER, file)?;
    assert_eq!(rt; next.status, 0);
    Ok(next.disk.image(alloc, 1)?)
}

// A list whose unit was never recorded is ended, and then the log is written anew.
#[test]
fn a_list_without_its_unit_is_freed(rt: HostRuntime) -> Result<(), Fail> {
    let bytes = file_behind(&rt, rt.alloc(), FILE)?;
    assert_eq!(rt; (FILE.len(), bytes.as_slice()), (62, FREED));
    let anew = file_behind(&rt, rt.alloc(), b"")?;
    assert_eq!(rt; (ANEW.len(), anew.as_slice()), (49, ANEW));
    Ok(())
}

// Files that stand for nothing, with the place where they break.
const BROKEN: [(&[u8], u64); 4] = [
    (
        b"ENQBCK01\x01\x01\0\0\0\x2f\0\0\0\x01\0\0\0\x01\0\0\0\x01\x06MILLER\0\0\0\x01\x06ZO",
        8,
    ),
    (
        b"ENQBCK01\x01\x01\0\0\xff\xff\0\0\0\x01\0\0\0\x01\0\0\0\x01\
        \x06MILLER\0\0\0\x01\x06ZORDER\x02\0\x01\x0d1000000000001\0",
        8,
    ),
    (
        b"ENQBCK01\x01\x01\0\0\0\x2f\0\0\0\x01\0\0\0\x01\0\0\0\x01\
        \x06MILLER\0\0\0\x01\x06ZORDER\x02\0\x01\x0d1000000000001",
        61,
    ),
    (b"ENQBACK1\0\0\0", 0),
];

// Tests that the program ended, no line was read, and the file has these bytes.
fn check_refused(
    rt: &impl Abort,
    alloc: Global,
    ended: &Left,
    bytes: &[u8],
    bad: BackupBad,
) -> Result<(), Fail> {
    let left = ended.disk.image(alloc, 1)?;
    assert_eq!(rt;
        (ended.why, ended.status, ended.replies.len()),
        (Why::BadBackup(bad), 10, 0)
    );
    assert_eq!(rt; left.as_slice(), bytes);
    Ok(())
}

fn is_refused<R: Abort + Threads + Wait + Sync>(
    rt: &R,
    alloc: Global,
    bytes: &[u8],
    at: u64,
) -> Result<(), Fail> {
    let ended = first_start(rt, alloc, ASKED, NEVER, bytes)?;
    check_refused(rt, alloc, &ended, bytes, BackupBad::Bytes { at })
}

#[test]
fn a_file_that_breaks_is_left_as_it_was(rt: HostRuntime) -> Result<(), Fail> {
    for (bytes, at) in &BROKEN {
        is_refused(&rt, rt.alloc(), bytes, *at)?;
    }
    Ok(())
}

#[test]
fn a_file_of_zeros_is_left_as_it_was(rt: HostRuntime) -> Result<(), Fail> {
    let zeros = vec![in rt.alloc(); 0u8; 1_048_576]?;
    is_refused(&rt, rt.alloc(), zeros.as_slice(), 0)
}

const CLOSED: &[u8] =
    b"ENQBCK01\0\x01\0\0\0\x2f\0\0\0\x01\0\0\0\x01\0\0\0\x01\x06MILLER\0\0\0\x01\x06ZO";

// Bytes behind a closed gate count as nothing.
#[test]
fn a_closed_gate_ends_the_file(rt: HostRuntime) -> Result<(), Fail> {
    let _bytes = file_behind(&rt, rt.alloc(), CLOSED)?;
    Ok(())
}

const UNIT: UnitKey = UnitKey {
    start: 1,
    session: 1,
    luw: 1,
};

// The store has a unit's locks, of which the file lacks the one of this place. It is left as one of version 2.
fn lacks<R: Abort + Threads + Wait + Sync>(
    rt: &R,
    alloc: Global,
    script: &'static [u8],
    file: &[u8],
    left: &[u8],
    at: u32,
) -> Result<(), Fail> {
    let disk = disk_of(alloc, file)?;
    let first = recorded(rt, alloc, script)?;
    let ended = next_start(rt, alloc, ASKED, first.keeper, disk)?;
    check_refused(
        rt,
        alloc,
        &ended,
        left,
        BackupBad::Missing { unit: UNIT, at },
    )
}

const TWO_LOCKS: &[u8] = b"A LOGON MILLER\n\
    A ENQ EZORDER E 2 MANDT=100 ORDNR=0000000001\n\
    A ENQ EZORDER E 2 MANDT=100 ORDNR=0000000002\n\
    A V1 PUT ZORDER 1 X\n\
    A COMMIT\n";

// Two locks where the unit's list has one, or none where it has one.
#[test]
fn a_file_that_lacks_a_lock_is_told(rt: HostRuntime) -> Result<(), Fail> {
    lacks(&rt, rt.alloc(), COMMIT, b"ENQBCK01\0", ANEW, 1)?;
    lacks(&rt, rt.alloc(), TWO_LOCKS, FILE, MIGRATED, 2)
}
