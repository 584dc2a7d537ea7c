ghost use Rattle.std.specs.Prelude.{◌≤◌};

use bk_disk::{Disk, MemDisk, StopDisk};
use enq_base::Items;
use enq_cmd::Site;
use io_edge::{MemSink, MemSource};
use keeper_wal::WalKeeper;
use replica_link::MemLink;
use std::alloc::Global;
use std::sync::Wait;
use std::test::*;
use std::thread::Threads;
use wal_server::journal_main;

const LANDSCAPE: &[u8] = b"max_locks = 1000\n\
[[object]]\n\
name = \"EZORDER\"\n\
fields = [{ name = \"MANDT\", width = 3 }, { name = \"ORDNR\", width = 10 }]\n\
[[object.table]]\n\
name = \"ZORDER\"\n\
keys = [\"MANDT\", \"ORDNR\"]\n\
[[range]]\n\
object = \"ZORDNR\"\n\
nr = \"01\"\n\
from = 1\n\
to = 9999999999\n\
buffer = 0\n\
percent = 10\n\
[[range]]\n\
object = \"ZBUF\"\n\
nr = \"01\"\n\
from = 1\n\
to = 1000\n\
buffer = 10\n\
percent = 0\n";

/// What a start has left.
#[derive(Drop)]
struct Left<D: Disk + Drop> {
    answers: MemSink,
    status: u8,
    journal: D,
    backup: MemDisk,
}

/// What a start is given beside its disks.
#[derive(Drop)]
struct Given {
    word: Items<u8>,
    landscape: MemSource,
    script: MemSource,
    answers: MemSink,
    link: MemLink,
}

fn disk_of(alloc: Global, bytes: &[u8]) -> Result<MemDisk, Fail> {
    Ok(MemDisk::new(alloc, bytes.to_vec(alloc)?, Vec::new(alloc))?)
}

fn source_of(alloc: Global, bytes: &[u8]) -> Result<MemSource, Fail> {
    Ok(MemSource::new(bytes.to_vec(alloc)?, Vec::new(alloc))?)
}

fn make_given(alloc: Global, script: &[u8]) -> Result<Given, Fail> {
    let landscape = source_of(alloc, LANDSCAPE)?;
    let script = source_of(alloc, script)?;
    let answers = MemSink::new(alloc, Vec::new(alloc))?;
    let link = MemLink::new(alloc, Vec::new(alloc))?;
    let word = Items::from_vec(b"replay".to_vec(alloc)?);
    Ok(Given {
        word,
        landscape,
        script,
        answers,
        link,
    })
}

/// A start that replays a script, over a journal and a backup file.
fn start<R: Threads + Wait + Sync, D: Disk + Send + Drop>(
    rt: &R,
    alloc: Global,
    given: Given,
    journal: D,
    backup: MemDisk,
) -> Left<D> {
    let Given {
        word,
        mut landscape,
        mut script,
        mut answers,
        link,
    } = given;
    let words = [word];
    let ended = journal_main(
        rt,
        alloc,
        &words,
        &mut landscape,
        &mut script,
        &mut answers,
        Site {
            keeper: WalKeeper::new(alloc, journal),
            disk: backup,
            link,
        },
    );
    Left {
        answers,
        status: ended.status,
        journal: ended.site.keeper.into_disk(),
        backup: ended.site.disk,
    }
}

/// A start over a journal of these bytes, and no backup file.
fn start_over<R: Threads + Wait + Sync>(
    rt: &R,
    alloc: Global,
    journal: &[u8],
) -> Result<Left<MemDisk>, Fail> {
    let given = make_given(alloc, b"")?;
    let journal = disk_of(alloc, journal)?;
    let backup = disk_of(alloc, b"")?;
    Ok(start(rt, alloc, given, journal, backup))
}

// A first start without a line. In table 0 the row `S` gets start 1 and no marks.
const JOURNAL: [u8; 57] = *b"ENQWAL01\x01\0\0\0\0\0\0\0\x27\0\0\0\0\0\0\0\x01\
    \x01\0\0\0\0\0\0\0\0\x01S\0\0\0\0\0\0\0\x0c\0\0\0\x01\0\0\0\0\0\0\0\0\0";

fn is_image(alloc: Global, disk: &MemDisk, pick: u8, bytes: &[u8]) -> Result<bool, Fail>
    requires { pick ≤ 3 }
{
    let image = disk.image(alloc, pick)?;
    Ok(image.as_slice() == bytes)
}

/// Whether a start over these bytes has this status. Where they are refused they stay.
fn ends_with<R: Threads + Wait + Sync>(
    rt: &R,
    alloc: Global,
    bytes: &[u8],
    status: u8,
) -> Result<bool, Fail> {
    let left = start_over(rt, alloc, bytes)?;
    Ok(left.status == status && (status == 0 || is_image(alloc, &left.journal, 1, bytes)?))
}

fn is_first<R: Threads + Wait + Sync>(rt: &R, alloc: Global, journal: &[u8]) -> Result<bool, Fail> {
    let left = start_over(rt, alloc, b"")?;
    Ok(left.status == 0 && is_image(alloc, &left.journal, 0, journal)?)
}

#[test]
fn a_start_writes_the_journal(rt: HostRuntime) -> Result<(), Fail> {
    assert!(&rt; is_first(&rt, rt.alloc(), &JOURNAL)?);
    Ok(())
}

/// The first length at which a journal that is cut has another status.
fn wrong_cut<R: Threads + Wait + Sync>(
    rt: &R,
    alloc: Global,
    journal: &[u8],
) -> Result<Option<usize>, Fail> {
    for length in 0..journal.len() + 1 {
        let status = if length < 10 || length == 57 { 0 } else { 7 };
        if !ends_with(rt, alloc, &journal[..length], status)? {
            return Ok(Some(length));
        }
    }
    Ok(None)
}

#[test]
fn a_start_refuses_a_journal_that_is_cut(rt: HostRuntime) -> Result<(), Fail> {
    assert_eq!(&rt; wrong_cut(&rt, rt.alloc(), &JOURNAL)?, None);
    Ok(())
}

/// The status of a start over the journal with this byte in this place.
fn status_of(at: usize, byte: u8) -> u8 {
    match (at, byte) {
        // A closed gate, a table that isn't read, another start.
        (8 | 26 | 44..=46 | 56, _) | (47, 0xff) => 0,
        // Another row than the store's own, start 0, more marks than there are.
        (35 | 47 | 48..=55, _) => 9,
        // No journal.
        _ => 7,
    }
}

fn with_byte(alloc: Global, journal: &[u8], at: usize, byte: u8) -> Result<Vec<u8>, Fail> {
    let mut bytes = journal.to_vec(alloc)?;
    if let Some(place) = bytes.get_mut(at) {
        *place = byte;
    }
    Ok(bytes)
}

/// Whether a start over the journal with this byte in this place, where another one stands, has its status.
fn is_other<R: Threads + Wait + Sync>(
    rt: &R,
    alloc: Global,
    journal: &[u8],
    at: usize,
    byte: u8,
) -> Result<bool, Fail> {
    if journal.get(at) == Some(&byte) {
        return Ok(true);
    }
    let bytes = with_byte(alloc, journal, at, byte)?;
    ends_with(rt, alloc, &bytes, status_of(at, byte))
}

/// The first place at which a journal with another byte has another status.
fn wrong_byte<R: Threads + Wait + Sync>(
    rt: &R,
    alloc: Global,
    journal: &[u8],
) -> Result<Option<usize>, Fail> {
    for at in 0..journal.len() {
        if !is_other(rt, alloc, journal, at, 0)? || !is_other(rt, alloc, journal, at, 0xff)? {
            return Ok(Some(at));
        }
    }
    Ok(None)
}

#[test]
fn a_start_reads_a_journal_with_another_byte(rt: HostRuntime) -> Result<(), Fail> {
    assert_eq!(&rt; wrong_byte(&rt, rt.alloc(), &JOURNAL)?, None);
    Ok(())
}

// Numbers, a unit whose parts are both posted, and one that is refused, tried again and cancelled.
const SCRIPT: &[u8] = b"A LOGON MILLER\n\
    A NUM ZORDNR 01 N\n\
    A NUM ZBUF 01 M\n\
    A ENQ EZORDER E 2 MANDT=100 ORDNR=0000000001\n\
    A V1 PUT T 1 X\n\
    A V2 ADD STAT N 1\n\
    A COMMIT\n\
    @1 TAKE1\n\
    @1 DO1\n\
    @1 TAKE2\n\
    @1 DO2\n\
    A ENQ EZORDER E 2 MANDT=100 ORDNR=0000000002\n\
    A V1 DEL T 9\n\
    A COMMIT\n\
    @1 TAKE1\n\
    @1 DO1\n\
    ! RESUBMIT 1.1.2\n\
    ! CANCEL 1.1.2\n\
    ? AUDIT\n";

const REPLIES: &[u8] =
    b"1 OK\n2 OK 1 -\n3 OK 1 -\n4 OK\n5 OK\n6 OK\n7 OK 1.1.1\n8 OK 1.1.1\n9 POSTED 1.1.1\n\
    10 OK 1.1.1\n11 CLOSED 1.1.1\n12 OK\n13 OK\n14 OK 1.1.2\n15 OK 1.1.2\n16 BAD 1.1.2 1 MISSING\n17 OK 1.1.2\n\
    18 OK 1.1.2\n19 UNITS 2 OPEN 0 POSTED 0 BAD 0 CLOSED 1 BAD2 0 CANCELLED 1 MARKS 7 NUMBERS 2\n19 END\n";

const NO_UNITS: &[u8] =
    b"1 UNITS 0 OPEN 0 POSTED 0 BAD 0 CLOSED 0 BAD2 0 CANCELLED 0 MARKS 0 NUMBERS 0\n1 END\n";

// What each line is answered that changes a unit, and the counts behind it.
const STEPS: [(&[u8], &[u8]); 7] = [
    (
        b"\n7 OK 1.1.1\n",
        b"1 UNITS 1 OPEN 1 POSTED 0 BAD 0 CLOSED 0 BAD2 0 CANCELLED 0 MARKS 1 NUMBERS 2\n1 END\n",
    ),
    (
        b"\n9 POSTED 1.1.1\n",
        b"1 UNITS 1 OPEN 0 POSTED 1 BAD 0 CLOSED 0 BAD2 0 CANCELLED 0 MARKS 2 NUMBERS 2\n1 END\n",
    ),
    (
        b"\n11 CLOSED 1.1.1\n",
        b"1 UNITS 1 OPEN 0 POSTED 0 BAD 0 CLOSED 1 BAD2 0 CANCELLED 0 MARKS 3 NUMBERS 2\n1 END\n",
    ),
    (
        b"\n14 OK 1.1.2\n",
        b"1 UNITS 2 OPEN 1 POSTED 0 BAD 0 CLOSED 1 BAD2 0 CANCELLED 0 MARKS 4 NUMBERS 2\n1 END\n",
    ),
    (
        b"\n16 BAD 1.1.2 1 MISSING\n",
        b"1 UNITS 2 OPEN 0 POSTED 0 BAD 1 CLOSED 1 BAD2 0 CANCELLED 0 MARKS 5 NUMBERS 2\n1 END\n",
    ),
    (
        b"\n17 OK 1.1.2\n",
        b"1 UNITS 2 OPEN 1 POSTED 0 BAD 0 CLOSED 1 BAD2 0 CANCELLED 0 MARKS 6 NUMBERS 2\n1 END\n",
    ),
    (
        b"\n18 OK 1.1.2\n",
        b"1 UNITS 2 OPEN 0 POSTED 0 BAD 0 CLOSED 1 BAD2 0 CANCELLED 1 MARKS 7 NUMBERS 2\n1 END\n",
    ),
];

fn contains(bytes: &[u8], part: &[u8]) -> bool {
    for at in 0..bytes.len() {
        if bytes[at..].starts_with(part) {
            return true;
        }
    }
    false
}

/// Whether the counts are those behind the lines that were answered, or behind the one after them too.
fn may_be(replies: &[u8], counts: &[u8], steps: &[(&'static [u8], &'static [u8])]) -> bool {
    let mut answered = NO_UNITS;
    for (answer, next) in steps {
        if !contains(replies, *answer) {
            return counts == answered || counts == *next;
        }
        answered = *next;
    }
    counts == answered
}

/// What a start leaves over a journal whose disk stops at a call.
fn stopped_at<R: Threads + Wait + Sync>(
    rt: &R,
    alloc: Global,
    k: u64,
) -> Result<Left<MemDisk>, Fail> {
    let given = make_given(alloc, SCRIPT)?;
    let backup = disk_of(alloc, b"")?;
    let journal = StopDisk::new(disk_of(alloc, b"")?, k);
    let left = start(rt, alloc, given, journal, backup);
    Ok(Left {
        answers: left.answers,
        status: left.status,
        journal: left.journal.into_disk(),
        backup: left.backup,
    })
}

fn image_of(alloc: Global, disk: &MemDisk, pick: u8) -> Result<MemDisk, Fail>
    requires { pick ≤ 3 }
{
    let bytes = disk.image(alloc, pick)?;
    disk_of(alloc, &bytes)
}

/// Whether a start over the images that a crash then leaves shows what was answered.
fn is_shown<R: Threads + Wait + Sync>(
    rt: &R,
    alloc: Global,
    left: &Left<MemDisk>,
    pick: u8,
) -> Result<bool, Fail>
    requires { pick ≤ 3 }
{
    let given = make_given(alloc, b"? AUDIT\n")?;
    let journal = image_of(alloc, &left.journal, pick)?;
    let backup = image_of(alloc, &left.backup, pick)?;
    let next = start(rt, alloc, given, journal, backup);
    Ok(next.status == 0 && may_be(left.answers.bytes(), next.answers.bytes(), &STEPS))
}

fn are_shown<R: Threads + Wait + Sync>(
    rt: &R,
    alloc: Global,
    left: &Left<MemDisk>,
) -> Result<bool, Fail> {
    for pick in 0..4 {
        if !is_shown(rt, alloc, left, pick)? {
            return Ok(false);
        }
    }
    Ok(true)
}

/// Stops at a call of the journal's disk, and starts from each image that a crash then leaves. Tells whether the script
/// came to its end before.
fn stop_at<R: Threads + Wait + Sync>(rt: &R, alloc: Global, k: u64) -> Result<bool, Fail> {
    let left = stopped_at(rt, alloc, k)?;
    let is_done = left.answers.bytes() == REPLIES;
    let is_told = left.status == if is_done { 0 } else { 7 };
    if are_shown(rt, alloc, &left)? && is_told {
        Ok(is_done)
    } else {
        Err(Fail::from("another status, or other counts"))
    }
}

#[test]
fn a_stop_leaves_what_was_answered(rt: HostRuntime) -> Result<(), Fail> {
    for k in 1..100 {
        if stop_at(&rt, rt.alloc(), k)? {
            return Ok(());
        }
    }
    Err(Fail::from("the script never came to its end"))
}
