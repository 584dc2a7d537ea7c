use crate::locks::disk_of;
use bk_disk::{Disk, Failed, FileDisk, MemDisk};
use enq_base::Short;
use std::alloc::Global;
use std::fs::remove_file;
use std::process::Abort;
use std::test::*;

/// Tests the length of a disk and all that is read from it.
fn check<D: Disk>(rt: &impl Abort, disk: &mut D, bytes: &[u8]) {
    let length = disk.length();
    let mut into = [0xee; 16];
    let read = disk.read_at(0, &mut into);
    let all = &into[..bytes.len().min(16)];
    assert_eq!(rt;
        (length, read, all),
        (Ok(bytes.len() as u64), Ok(bytes.len()), bytes)
    );
}

#[derive(Clone, Copy)]
enum Act {
    Write(u64, &'static [u8]),
    Cut(u64),
    Sync,
}

/// What is done, and which bytes the disk has then.
const ACTS: [(Act, &[u8]); 9] = [
    (Act::Cut(0), b""),
    (Act::Write(0, b"abcdef"), b"abcdef"),
    (Act::Write(2, b"xy"), b"abxyef"),
    (Act::Sync, b"abxyef"),
    (Act::Cut(2), b"ab"),
    (Act::Cut(4), b"ab\0\0"),
    (Act::Write(6, b"z"), b"ab\0\0\0\0z"),
    (Act::Write(7, b""), b"ab\0\0\0\0z"),
    (Act::Sync, b"ab\0\0\0\0z"),
];

fn make<D: Disk>(disk: &mut D, act: Act) -> Result<(), Failed> {
    match act {
        Act::Write(at, bytes) => disk.write_at(at, bytes),
        Act::Cut(length) => disk.cut(length),
        Act::Sync => disk.sync(),
    }
}

/// Tests reads at the end of `ab`, four zeros and `z`.
fn check_ends<D: Disk>(rt: &impl Abort, disk: &mut D) {
    let mut into = [0xee; 4];
    let read = disk.read_at(5, &mut into);
    assert_eq!(rt; (read, into), (Ok(2), [0, b'z', 0xee, 0xee]));
    assert_eq!(rt; disk.read_at(7, &mut into), Ok(0));
}

/// Writes, cuts and reads, which leaves `ab`, four zeros and `z`.
fn exercise<D: Disk>(rt: &impl Abort, disk: &mut D) {
    for (done, bytes) in &ACTS {
        assert_eq!(rt; make(disk, *done), Ok(()));
        check(rt, disk, bytes);
    }
    check_ends(rt, disk);
}

#[test]
fn a_disk_in_memory_is_written_and_read(rt: HostRuntime) -> Result<(), Fail> {
    let mut disk = disk_of(rt.alloc(), b"old bytes", &[])?;
    check(&rt, &mut disk, b"old bytes");
    exercise(&rt, &mut disk);
    Ok(())
}

fn exercise_file(host: HostRuntime, rt: &impl Abort, path: Short) {
    let mut disk = FileDisk::new(host, path);
    exercise(rt, &mut disk);
    let mut again = FileDisk::new(host, path);
    check(rt, &mut again, b"ab\0\0\0\0z");
}

#[test]
fn a_file_is_written_and_read(rt: HostRuntime) -> Result<(), Fail> {
    let path = "a_file_is_written_and_read.disk";
    exercise_file(rt, &rt, Short::new(path.as_bytes()).ok_or("a path")?);
    remove_file(&rt, path)?;
    Ok(())
}

#[test]
fn a_file_in_no_folder_is_not_written(rt: HostRuntime) -> Result<(), Fail> {
    let nowhere = Short::new(b"no such folder/file").ok_or("a path")?;
    let mut disk = FileDisk::new(rt, nowhere);
    let answers = (disk.length(), disk.write_at(0, b"a"));
    assert_eq!(rt; answers, (Err(Failed), Err(Failed)));
    Ok(())
}

/// Tests the images of a disk, one for each pick.
fn leaves(rt: &impl Abort, alloc: Global, disk: &MemDisk, images: &[&[u8]; 4]) -> Result<(), Fail> {
    for pick in 0..4 {
        let image = disk.image(alloc, pick)?;
        assert_eq!(rt; image.as_slice(), images[pick as usize], "{pick}");
    }
    Ok(())
}

/// What is done to `abcd` before the crash, and what it is answered where the third write fails.
const CRASHING: [(Act, Result<(), Failed>); 3] = [
    (Act::Write(1, b"xy"), Ok(())),
    (Act::Write(5, b"z"), Ok(())),
    (Act::Write(0, b"w"), Err(Failed)),
];

const UNSYNCED: [&[u8]; 4] = [
    b"abcd",
    b"axyd\0z",
    b"\xff\xff\xffd\0\xff",
    b"\x01\x01\x01d\0\x01",
];

const SYNCED: [&[u8]; 4] = [b"axyd\0z", b"axyd\0z", b"axyd\0z", b"axyd\0z"];

fn crash(rt: &impl Abort, alloc: Global, disk: &mut MemDisk) -> Result<(), Fail> {
    for (done, answer) in &CRASHING {
        assert_eq!(rt; make(disk, *done), *answer);
    }
    leaves(rt, alloc, disk, &UNSYNCED)?;
    assert_eq!(rt; (disk.sync(), disk.refused()), (Ok(()), 0));
    leaves(rt, alloc, disk, &SYNCED)
}

#[test]
fn a_crash_may_leave_each_image(rt: HostRuntime) -> Result<(), Fail> {
    let mut disk = disk_of(rt.alloc(), b"abcd", &[3])?;
    crash(&rt, rt.alloc(), &mut disk)
}
