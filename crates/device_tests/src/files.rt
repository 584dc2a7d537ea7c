ghost use Rattle.std.specs.Prelude.{◌≡◌, ◌<◌, ◌≤◌, false, IfOk};
ghost use Rattle.backup_file.specs.Handing.{MayBeHanded};

use crate::locks::disk_of;
use backup_file::{BackFault, Backup, Handed};
use bk_disk::{Disk, MemDisk, StopDisk};
use enq_base::{Owner, Pattern, UnitKey, read_name};
use lock_entry::{Entry, Mode};
use std::alloc::Global;
use std::process::Abort;
use std::test::Fail;

// In version 1, one hand of unit 1.1.1, of user MILLER: ZORDER, E, once.
const FILE: [u8; 62] = [
    0x45, 0x4e, 0x51, 0x42, 0x43, 0x4b, 0x30, 0x31, 0x01, 0x01, 0x00, 0x00, 0x00, 0x2f, 0x00, 0x00,
    0x00, 0x01, 0x00, 0x00, 0x00, 0x01, 0x00, 0x00, 0x00, 0x01, 0x06, 0x4d, 0x49, 0x4c, 0x4c, 0x45,
    0x52, 0x00, 0x00, 0x00, 0x01, 0x06, 0x5a, 0x4f, 0x52, 0x44, 0x45, 0x52, 0x02, 0x00, 0x01, 0x0d,
    0x31, 0x30, 0x30, 0x30, 0x30, 0x30, 0x30, 0x30, 0x30, 0x30, 0x30, 0x30, 0x31, 0x00,
];

const UNIT: UnitKey = UnitKey {
    start: 1,
    session: 1,
    luw: 1,
};

const OTHER: UnitKey = UnitKey {
    start: 1,
    session: 2,
    luw: 1,
};

/// The unit's lock of the file.
fn lock_of(unit: &UnitKey) -> Result<Entry, Fail>
    ensures { IfOk result (MayBeHanded unit.now) }
{
    Ok(Entry {
        owner: Owner::Upd(*unit),
        user: read_name(b"MILLER").ok_or("a name")?,
        table: read_name(b"ZORDER").ok_or("a name")?,
        pattern: Pattern::new(b"1000000000001").ok_or("an argument")?,
        mode: Mode::E,
        count: 1,
        handed: false,
    })
}

/// How many lists a disk stands for, or the offset where it breaks.
fn lists_on<D: Disk + Drop>(alloc: Global, disk: D) -> Result<usize, BackFault> {
    match Backup::open(alloc, disk) {
        Ok((_, lists)) => Ok(lists.len()),
        Err((fault, _)) => Err(fault),
    }
}

/// How many lists a file stands for, or the offset where it breaks.
fn opened(alloc: Global, bytes: &[u8]) -> Result<Result<usize, BackFault>, Fail> {
    let disk = disk_of(alloc, bytes, &[])?;
    Ok(lists_on(alloc, disk))
}

/// Hands a lock over to a file that has so many lists.
fn hand_in<D: Disk>(
    rt: &impl Abort,
    alloc: Global,
    backup: &mut Backup<D>,
    unit: &UnitKey,
    lock: &Entry,
) -> bool
    requires usable { backup.old.failed ≡ false }
    requires lock { MayBeHanded unit.now lock.now }
{
    assert!(rt; !backup.stands(unit));
    let done = backup.hand(alloc, unit, &[*lock]).is_ok();
    assert!(rt; !done || backup.stands(unit));
    done
}

/// Hands a unit's lock over where the file has so many lists, and gives the disk back.
fn hand_over<D: Disk>(
    rt: &impl Abort,
    alloc: Global,
    disk: D,
    unit: &UnitKey,
    lock: &Entry,
    known: usize,
) -> (D, bool)
    requires { MayBeHanded unit.now lock.now }
{
    match Backup::open(alloc, disk) {
        Ok((mut backup, lists)) => {
            assert_eq!(rt; lists.len(), known);
            let done = hand_in(rt, alloc, &mut backup, unit, lock);
            (backup.into_disk(), done)
        }
        Err((fault, disk)) => {
            assert_eq!(rt; fault, BackFault::Failed);
            (disk, false)
        }
    }
}

/// Whether this is the one list, with a lock that was handed over.
fn is_handed(lists: &[Handed], lock: &Entry) -> bool {
    let mut wanted = *lock;
    wanted.handed = true;
    match lists {
        [list] => list.unit == UNIT && list.entries.as_slice() == [wanted].as_slice(),
        _ => false,
    }
}

/// Frees the unit.
fn free_in<D: Disk>(rt: &impl Abort, backup: &mut Backup<D>) -> bool
    requires { backup.old.failed ≡ false }
{
    let stands = backup.stands(&UNIT);
    assert!(rt; stands);
    let done = backup.free(&UNIT).is_ok();
    assert!(rt; !done || !backup.stands(&UNIT));
    done
}

/// Frees the unit, whose list has this lock, and gives the disk back.
fn free_unit<D: Disk>(rt: &impl Abort, alloc: Global, disk: D, lock: &Entry) -> (D, bool) {
    match Backup::open(alloc, disk) {
        Ok((mut backup, lists)) => {
            assert!(rt; is_handed(lists.as_slice(), lock));
            let done = free_in(rt, &mut backup);
            (backup.into_disk(), done)
        }
        Err((fault, disk)) => {
            assert_eq!(rt; fault, BackFault::Failed);
            (disk, false)
        }
    }
}

/// A unit, and the number of lists that stand where it hands its lock over, or none where it is freed.
type Change = (UnitKey, Option<usize>);

const FIRST: Change = (UNIT, Some(0));

const SECOND: Change = (OTHER, Some(1));

const FREED: Change = (UNIT, None);

fn change<D: Disk>(
    rt: &impl Abort,
    alloc: Global,
    disk: D,
    change: &Change,
    lock: &Entry,
) -> (D, bool)
    requires { MayBeHanded change.now.0 lock.now }
{
    let (unit, known) = change;
    match known {
        Some(known) => hand_over(rt, alloc, disk, unit, lock, *known),
        None => free_unit(rt, alloc, disk, lock),
    }
}

/// The disk behind a change of a file, where the call of this number and all behind it fail, and whether it was done.
fn changed(
    rt: &impl Abort,
    alloc: Global,
    file: &[u8],
    made: &Change,
    stop: u64,
) -> Result<(MemDisk, bool), Fail> {
    let lock = lock_of(&made.0)?;
    let disk = disk_of(alloc, file, &[])?;
    let (stopped, done) = change(rt, alloc, StopDisk::new(disk, stop), made, &lock);
    Ok((stopped.into_disk(), done))
}

// No change makes so many calls.
const NEVER: u64 = 100;

/// The file behind a change that is done.
fn bytes_after(
    rt: &impl Abort,
    alloc: Global,
    file: &[u8],
    made: &Change,
) -> Result<Vec<u8>, Fail> {
    let (disk, done) = changed(rt, alloc, file, made, NEVER)?;
    assert!(rt; done);
    Ok(disk.image(alloc, 0)?)
}

// The file that is made anew: its name, an open gate, the slots, of which the first names the log at 48, and a closed
// gate.
const ANEW: [u8; 49] = [
    0x45, 0x4e, 0x51, 0x42, 0x43, 0x4b, 0x30, 0x31, 0x01, 0x03, 0x00, 0x00, 0x00, 0x22, 0x01, 0x00,
    0x00, 0x00, 0x00, 0x00, 0x00, 0x00, 0x01, 0x00, 0x00, 0x00, 0x00, 0x00, 0x00, 0x00, 0x30, 0x00,
    0x00, 0x00, 0x00, 0x00, 0x00, 0x00, 0x00, 0x00, 0x00, 0x00, 0x00, 0x00, 0x00, 0x00, 0x00, 0x00,
    0x00,
];

/// Such a file with the hand of the other one.
fn small(alloc: Global) -> Result<Vec<u8>, Fail> {
    let mut bytes = ANEW.to_vec(alloc)?;
    let _ = bytes.pop();
    bytes.extend_from_slice(&FILE[8..])?;
    Ok(bytes)
}

#[test]
fn an_empty_file_is_made_anew_in_49_bytes(rt: HostRuntime) -> Result<(), Fail> {
    let alloc = rt.alloc();
    let disk = disk_of(alloc, b"", &[])?;
    let (disk, lists) = left_open(alloc, disk);
    assert_eq!(rt;
        (lists, disk.image(alloc, 0)?.as_slice()),
        (Ok(0), ANEW.as_slice())
    );
    Ok(())
}

#[test]
fn a_hand_is_written_behind_the_slots(rt: HostRuntime) -> Result<(), Fail> {
    let alloc = rt.alloc();
    let bytes = bytes_after(&rt, alloc, b"", &FIRST)?;
    assert_eq!(rt; bytes.as_slice(), small(alloc)?.as_slice());
    Ok(())
}

/// How many lists a disk stands for, or the offset where it breaks, and the disk.
fn left_open<D: Disk>(alloc: Global, disk: D) -> (D, Result<usize, BackFault>) {
    match Backup::open(alloc, disk) {
        Ok((backup, lists)) => {
            let count = lists.len();
            (backup.into_disk(), Ok(count))
        }
        Err((fault, disk)) => (disk, Err(fault)),
    }
}

// From the gate of version 1 on: the slots' record, the one list again, and a closed gate.
const SLOTS: [u8; 40] = [
    0x01, 0x03, 0x00, 0x00, 0x00, 0x22, 0x01, 0x00, 0x00, 0x00, 0x00, 0x00, 0x00, 0x00, 0x01, 0x00,
    0x00, 0x00, 0x00, 0x00, 0x00, 0x00, 0x65, 0x00, 0x00, 0x00, 0x00, 0x00, 0x00, 0x00, 0x00, 0x00,
    0x00, 0x00, 0x00, 0x00, 0x00, 0x00, 0x00, 0x00,
];

/// The file of version 1 as one of version 2.
fn migrated(alloc: Global) -> Result<Vec<u8>, Fail> {
    let mut bytes = FILE[..61].to_vec(alloc)?;
    bytes.extend_from_slice(&SLOTS)?;
    bytes.extend_from_slice(&FILE[8..])?;
    Ok(bytes)
}

#[test]
fn a_file_of_version_1_is_migrated_once(rt: HostRuntime) -> Result<(), Fail> {
    let alloc = rt.alloc();
    let wanted = migrated(alloc)?;
    let (disk, lists) = left_open(alloc, disk_of(alloc, &FILE, &[])?);
    let first = disk.image(alloc, 0)?;
    let (disk, again) = left_open(alloc, disk);
    let second = disk.image(alloc, 0)?;
    assert_eq!(rt; (lists, again), (Ok(1), Ok(1)));
    assert!(rt; first.as_slice() == wanted.as_slice() && second.as_slice() == wanted.as_slice());
    Ok(())
}

/// What the small file stands for that is cut after so many bytes.
fn meaning_cut(length: usize) -> Result<usize, BackFault> {
    match length {
        0..=9 => Ok(0),
        10..=47 => Err(BackFault::Bad(8)),
        48 => Err(BackFault::Bad(14)),
        49..=100 => Err(BackFault::Bad(48)),
        101 => Err(BackFault::Bad(101)),
        _ => Ok(1),
    }
}

/// What the file of version 1 stands for that is cut after so many bytes.
fn first_meaning_cut(length: usize) -> Result<usize, BackFault> {
    match length {
        0..=9 => Ok(0),
        10..=60 => Err(BackFault::Bad(8)),
        61 => Err(BackFault::Bad(61)),
        _ => Ok(1),
    }
}

/// The first bytes of a file, or all of it where it is shorter.
fn first_bytes(bytes: &[u8], length: usize) -> &[u8] {
    match bytes.get(..length) {
        Some(part) => part,
        None => bytes,
    }
}

#[test]
fn a_file_that_is_cut_breaks(rt: HostRuntime) -> Result<(), Fail> {
    let alloc = rt.alloc();
    let small = small(alloc)?;
    for length in 0..103 {
        let whole = opened(alloc, first_bytes(small.as_slice(), length))?;
        assert_eq!(rt; whole, meaning_cut(length), "{length}");
    }
    for length in 0..63 {
        let first = opened(alloc, first_bytes(&FILE, length))?;
        assert_eq!(rt; first, first_meaning_cut(length), "{length}");
    }
    Ok(())
}

/// What the small file stands for with this byte in this place.
fn meaning_of(at: usize, byte: u8) -> Result<usize, BackFault> {
    match (at, byte) {
        (0..=7, _) => Err(BackFault::Bad(0)),
        (8, _) | (48, _) => Ok(0),
        // The high bytes of numbers are 0 already.
        (10..=12, 0) | (15..=29, 0) | (50..=52, 0) | (73..=75, 0) | (85, 0) => Ok(1),
        // A generation may be any where the other slot is closed, and so may what that one has, and a unit.
        (15..=22, _) | (31..=47, _) | (54..=65, _) => Ok(1),
        // A count of 255, and another closed gate.
        (86, 0xff) | (101, _) => Ok(1),
        // No slot is open, or the start of the first lies outside.
        (14, _) | (23..=30, _) => Err(BackFault::Bad(14)),
        (9..=13, _) => Err(BackFault::Bad(8)),
        _ => Err(BackFault::Bad(48)),
    }
}

/// What becomes of the small file with this byte in this place.
fn opened_with(alloc: Global, at: usize, byte: u8) -> Result<Result<usize, BackFault>, Fail> {
    let mut file = small(alloc)?;
    if at < file.len() {
        file[at] = byte;
    }
    opened(alloc, file.as_slice())
}

#[test]
fn a_file_with_another_byte_is_read_as_its_grammar_says(rt: HostRuntime) -> Result<(), Fail> {
    let alloc = rt.alloc();
    for at in 0..102 {
        let low = opened_with(alloc, at, 0)?;
        let high = opened_with(alloc, at, 0xff)?;
        assert_eq!(rt;
            (low, high),
            (meaning_of(at, 0), meaning_of(at, 0xff)),
            "{at}"
        );
    }
    Ok(())
}

/// What becomes of the file that is made anew with these bytes in these places.
fn anew_with(alloc: Global, places: &[(usize, u8)]) -> Result<Result<usize, BackFault>, Fail> {
    let mut file = ANEW;
    for place in places {
        let (at, byte) = *place;
        if at < file.len() {
            file[at] = byte;
        }
    }
    opened(alloc, &file)
}

// The second slot is open too: with the first one's generation, with a greater one and no start, with a smaller one.
const EQUAL: [(usize, u8); 2] = [(31, 1), (39, 1)];

const GREATER: [(usize, u8); 2] = [(31, 1), (39, 2)];

const SMALLER: [(usize, u8); 1] = [(31, 1)];

#[test]
fn of_two_open_slots_the_greater_generation_counts(rt: HostRuntime) -> Result<(), Fail> {
    let alloc = rt.alloc();
    let answers = (
        anew_with(alloc, &EQUAL)?,
        anew_with(alloc, &GREATER)?,
        anew_with(alloc, &SMALLER)?,
    );
    assert_eq!(rt;
        answers,
        (Err(BackFault::Bad(14)), Err(BackFault::Bad(31)), Ok(0))
    );
    Ok(())
}

#[test]
fn a_file_with_a_long_record_breaks(rt: HostRuntime) -> Result<(), Fail> {
    let mut long = FILE;
    long[12] = 0xff;
    long[13] = 0xff;
    assert_eq!(rt; opened(rt.alloc(), &long)?, Err(BackFault::Bad(8)));
    Ok(())
}

/// How many lists an image of a disk stands for.
fn image_opened(alloc: Global, disk: &MemDisk, pick: u8) -> Result<Result<usize, BackFault>, Fail>
    requires { pick ≤ 3 }
{
    let image = disk.image(alloc, pick)?;
    opened(alloc, image.as_slice())
}

/// Whether each image of a disk stands for so many lists.
fn images_have(rt: &impl Abort, alloc: Global, disk: &MemDisk, lists: usize) -> Result<(), Fail> {
    for pick in 0..4 {
        let found = image_opened(alloc, disk, pick)?;
        assert_eq!(rt; found, Ok(lists), "image {pick}");
    }
    Ok(())
}

// An opening of version 2 makes three calls, and a record four: the write of the record, a sync, the write of the gate,
// a sync. Until the last sync the gate may be closed or open.
fn check_stop(
    rt: &impl Abort,
    alloc: Global,
    made: &Change,
    after: usize,
    stop: u64,
) -> Result<(), Fail> {
    let (disk, done) = changed(rt, alloc, small(alloc)?.as_slice(), made, stop)?;
    assert_eq!(rt; done, stop > 7, "stopped at {stop}");
    let wanted = match stop {
        0..=6 => [1, 1, 1, 1],
        7 => [1, after, 1, after],
        _ => [after, after, after, after],
    };
    for pick in 0..4 {
        let lists = image_opened(alloc, &disk, pick)?;
        assert_eq!(rt; lists, Ok(wanted[pick as usize]), "stopped at {stop}");
    }
    Ok(())
}

#[test]
fn a_stop_leaves_the_lists_before_or_after(rt: HostRuntime) -> Result<(), Fail> {
    for stop in 1..9 {
        check_stop(&rt, rt.alloc(), &SECOND, 2, stop)?;
        check_stop(&rt, rt.alloc(), &FREED, 0, stop)?;
    }
    Ok(())
}

/// The disk behind an opening of a file, where the call of this number and all behind it fail.
fn opened_until(alloc: Global, file: &[u8], stop: u64) -> Result<MemDisk, Fail> {
    let disk = disk_of(alloc, file, &[])?;
    let (stopped, _lists) = left_open(alloc, StopDisk::new(disk, stop));
    Ok(stopped.into_disk())
}

#[test]
fn a_stop_within_a_migration_leaves_the_lists(rt: HostRuntime) -> Result<(), Fail> {
    let alloc = rt.alloc();
    for stop in 1..11 {
        let first = opened_until(alloc, &FILE, stop)?;
        images_have(&rt, alloc, &first, 1)?;
        let anew = opened_until(alloc, b"ENQ", stop)?;
        images_have(&rt, alloc, &anew, 0)?;
    }
    Ok(())
}

/// Writes the log of an open file anew.
fn compact_in<D: Disk>(alloc: Global, backup: &mut Backup<D>) -> bool
    requires { backup.old.failed ≡ false }
{
    backup.compact(alloc).is_ok()
}

/// Writes the log of a file anew, and gives the disk back.
fn compacted<D: Disk>(alloc: Global, disk: D) -> (D, bool) {
    match Backup::open(alloc, disk) {
        Ok((mut backup, _lists)) => {
            let done = compact_in(alloc, &mut backup);
            (backup.into_disk(), done)
        }
        Err((_fault, disk)) => (disk, false),
    }
}

/// The bytes of a file whose log was written anew.
fn compact_bytes(alloc: Global, file: &[u8]) -> Result<Vec<u8>, Fail> {
    let (disk, done) = compacted(alloc, disk_of(alloc, file, &[])?);
    if !done {
        return Err(Fail::from("not written anew"));
    }
    Ok(disk.image(alloc, 0)?)
}

/// The disk behind such a call, where the call of this number and all behind it fail.
fn compacted_until(alloc: Global, file: &[u8], stop: u64) -> Result<MemDisk, Fail> {
    let disk = disk_of(alloc, file, &[])?;
    let (stopped, _done) = compacted(alloc, StopDisk::new(disk, stop));
    Ok(stopped.into_disk())
}

// The second slot of the file of version 1, once its list was freed: open, of generation 2, with its log at 173.
const SECOND_SLOT: [u8; 17] = [1, 0, 0, 0, 0, 0, 0, 0, 2, 0, 0, 0, 0, 0, 0, 0, 0xad];

/// Whether these bytes are the second slot of the file of version 1 that was migrated.
fn has_second_slot(bytes: &[u8], slot: &[u8]) -> bool {
    match bytes.get(84..101) {
        Some(part) => part == slot,
        None => false,
    }
}

// A free takes the place of the first list, so the new log stands behind the old one, and the next one before it.
#[test]
fn a_compaction_leaves_the_log_of_the_lists_alone(rt: HostRuntime) -> Result<(), Fail> {
    let alloc = rt.alloc();
    let freed = bytes_after(&rt, alloc, migrated(alloc)?.as_slice(), &FREED)?;
    let first = compact_bytes(alloc, freed.as_slice())?;
    let again = compact_bytes(alloc, first.as_slice())?;
    assert_eq!(rt; (freed.len(), first.len(), again.len()), (173, 174, 174));
    assert!(rt; has_second_slot(first.as_slice(), &SECOND_SLOT));
    assert!(rt; first.as_slice().ends_with(&[0]));
    let handed = bytes_after(&rt, alloc, first.as_slice(), &FIRST)?;
    let freed = bytes_after(&rt, alloc, handed.as_slice(), &FREED)?;
    let second = compact_bytes(alloc, freed.as_slice())?;
    assert_eq!(rt; (handed.len(), freed.len(), second.len()), (227, 245, 102));
    Ok(())
}

#[test]
fn a_stop_within_a_compaction_leaves_the_lists(rt: HostRuntime) -> Result<(), Fail> {
    let alloc = rt.alloc();
    let freed = bytes_after(&rt, alloc, migrated(alloc)?.as_slice(), &FREED)?;
    let first = compact_bytes(alloc, freed.as_slice())?;
    let handed = bytes_after(&rt, alloc, first.as_slice(), &FIRST)?;
    let freed_again = bytes_after(&rt, alloc, handed.as_slice(), &FREED)?;
    let both = bytes_after(&rt, alloc, handed.as_slice(), &SECOND)?;
    for stop in 1..20 {
        let behind = compacted_until(alloc, freed.as_slice(), stop)?;
        images_have(&rt, alloc, &behind, 0)?;
        let before = compacted_until(alloc, freed_again.as_slice(), stop)?;
        images_have(&rt, alloc, &before, 0)?;
        let two = compacted_until(alloc, both.as_slice(), stop)?;
        images_have(&rt, alloc, &two, 2)?;
    }
    Ok(())
}

/// The bytes of a file with this generation in the first slot of the file of version 1 that was migrated.
fn with_generation(alloc: Global, file: &[u8], generation: u64) -> Result<Vec<u8>, Fail> {
    let number = generation.to_be_bytes();
    let mut bytes = Vec::new(alloc);
    for (place, byte) in file.iter().enumerate() {
        if place >= 68 && place < 76 {
            bytes.push(number[place - 68])?;
        } else {
            bytes.push(*byte)?;
        }
    }
    Ok(bytes)
}

/// The file whose list was freed, with this generation in force.
fn aged(rt: &impl Abort, alloc: Global, generation: u64) -> Result<Vec<u8>, Fail> {
    let freed = bytes_after(rt, alloc, migrated(alloc)?.as_slice(), &FREED)?;
    with_generation(alloc, freed.as_slice(), generation)
}

const LAST: u64 = 9_223_372_036_854_775_808;

// The second slot behind the last compaction: open, of the last generation, with its log at 173.
const LAST_SLOT: [u8; 17] = [1, 0x80, 0, 0, 0, 0, 0, 0, 0, 0, 0, 0, 0, 0, 0, 0, 0xad];

#[test]
fn a_file_of_the_last_generation_stays(rt: HostRuntime) -> Result<(), Fail> {
    let alloc = rt.alloc();
    let last = aged(&rt, alloc, LAST)?;
    let stays = compact_bytes(alloc, last.as_slice())?;
    assert!(rt; stays.as_slice() == last.as_slice());
    let before = aged(&rt, alloc, LAST - 1)?;
    let goes = compact_bytes(alloc, before.as_slice())?;
    assert_eq!(rt; goes.len(), 174);
    assert!(rt; has_second_slot(goes.as_slice(), &LAST_SLOT));
    Ok(())
}
