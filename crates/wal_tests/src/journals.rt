use crate::rows::put;
use bk_disk::MemDisk;
use keeper_api::{Bytes, KeepFault, Keeper};
use keeper_wal::WalKeeper;
use std::alloc::Global;
use std::test::*;

// One batch: in table 6 the row `K` gets the value `V`.
const JOURNAL: [u8; 46] = [
    0x45, 0x4e, 0x51, 0x57, 0x41, 0x4c, 0x30, 0x31, 0x01, 0, 0, 0, 0, 0, 0, 0, 0x1c, 0, 0, 0, 0, 0,
    0, 0, 1, 1, 6, 0, 0, 0, 0, 0, 0, 0, 1, 0x4b, 0, 0, 0, 0, 0, 0, 0, 1, 0x56, 0,
];

fn disk_of(alloc: Global, bytes: &[u8]) -> Result<MemDisk, Fail> {
    Ok(MemDisk::new(alloc, bytes.to_vec(alloc)?, Vec::new(alloc))?)
}

fn open_and_put(alloc: Global, keeper: &mut WalKeeper<MemDisk>) -> Result<(), Fail> {
    match keeper.reopen(alloc) {
        Ok(()) => {}
        Err(_) => return Err(Fail::from("not opened")),
    }
    if put(alloc, keeper, b"V")? {
        Ok(())
    } else {
        Err(Fail::from("not committed"))
    }
}

/// Puts the row `K` of table 6, and gives the disk back.
fn put_once(alloc: Global, disk: MemDisk) -> Result<MemDisk, Fail> {
    let mut keeper = WalKeeper::new(alloc, disk);
    open_and_put(alloc, &mut keeper)?;
    Ok(keeper.into_disk())
}

fn is_image(alloc: Global, disk: &MemDisk, wanted: &[u8]) -> Result<bool, Fail> {
    let image = disk.image(alloc, 0)?;
    Ok(image.as_slice() == wanted)
}

fn is_written(alloc: Global, wanted: &[u8]) -> Result<bool, Fail> {
    let disk = put_once(alloc, disk_of(alloc, b"")?)?;
    is_image(alloc, &disk, wanted)
}

#[test]
fn a_commit_writes_the_journal(rt: HostRuntime) -> Result<(), Fail> {
    assert!(rt; is_written(rt.alloc(), &JOURNAL)?);
    Ok(())
}

/// The value of the one row, where the journal is opened.
fn value_in(alloc: Global, keeper: &mut WalKeeper<MemDisk>) -> Result<Option<Bytes>, KeepFault> {
    keeper.reopen(alloc)?;
    keeper.get(alloc, 6, b"K")
}

/// Whether the journal is opened and has the row.
fn has_row(alloc: Global, bytes: &[u8]) -> Result<bool, Fail> {
    let mut keeper = WalKeeper::new(alloc, disk_of(alloc, bytes)?);
    match value_in(alloc, &mut keeper) {
        Ok(value) => Ok(value.as_ref().map(|v| v.as_slice()) == Some(b"V".as_slice())),
        Err(_) => Err(Fail::from("not opened")),
    }
}

const CLOSED: [u8; 46] = [
    0x45, 0x4e, 0x51, 0x57, 0x41, 0x4c, 0x30, 0x31, 0, 0, 0, 0, 0, 0, 0, 0, 0x1c, 0, 0, 0, 0, 0, 0,
    0, 1, 1, 6, 0, 0, 0, 0, 0, 0, 0, 1, 0x4b, 0, 0, 0, 0, 0, 0, 0, 1, 0x56, 0,
];

#[test]
fn a_journal_is_read(rt: HostRuntime) -> Result<(), Fail> {
    assert!(rt; has_row(rt.alloc(), &JOURNAL)?);
    assert!(rt; !has_row(rt.alloc(), &CLOSED)?);
    Ok(())
}

/// The offset at which the journal breaks. It may fail by want of memory alone.
fn breaking(alloc: Global, keeper: &mut WalKeeper<MemDisk>) -> Result<Option<u64>, Fail> {
    match value_in(alloc, keeper) {
        Ok(_) | Err(KeepFault::Failed) => Ok(keeper.bad()),
        Err(_) => Err(Fail::from("no memory")),
    }
}

fn broken_at(alloc: Global, bytes: &[u8]) -> Result<Option<u64>, Fail> {
    let mut keeper = WalKeeper::new(alloc, disk_of(alloc, bytes)?);
    breaking(alloc, &mut keeper)
}

/// Where the journal breaks that is cut to this length.
fn cut_at(length: usize) -> Option<u64> {
    match length {
        10..=44 => Some(8),
        45 => Some(45),
        _ => None,
    }
}

/// The first length at which a journal that is cut breaks elsewhere.
fn wrong_cut(alloc: Global, journal: &[u8]) -> Result<Option<usize>, Fail> {
    for length in 0..journal.len() + 1 {
        if broken_at(alloc, &journal[..length])? != cut_at(length) {
            return Ok(Some(length));
        }
    }
    Ok(None)
}

#[test]
fn a_journal_that_is_cut_breaks(rt: HostRuntime) -> Result<(), Fail> {
    assert_eq!(rt; wrong_cut(rt.alloc(), &JOURNAL)?, None);
    Ok(())
}

/// Where the journal breaks with this byte in this place.
fn breaks(at: usize, byte: u8) -> Option<u64> {
    match (at, byte) {
        (0..=7, _) => Some(0),
        // A length, a count or a kind that is another.
        (9..=25 | 27..=34 | 36..=43, _) => Some(8),
        // The second gate is open, and nothing stands behind it.
        (45, 1) => Some(45),
        _ => None,
    }
}

fn with_byte(alloc: Global, journal: &[u8], at: usize, byte: u8) -> Result<Vec<u8>, Fail> {
    let mut bytes = journal.to_vec(alloc)?;
    if let Some(place) = bytes.get_mut(at) {
        *place = byte;
    }
    Ok(bytes)
}

/// Whether the journal breaks so with this byte in this place, where another one stands.
fn breaks_so(alloc: Global, journal: &[u8], at: usize, byte: u8) -> Result<bool, Fail> {
    if journal.get(at) == Some(&byte) {
        return Ok(true);
    }
    let bytes = with_byte(alloc, journal, at, byte)?;
    Ok(broken_at(alloc, &bytes)? == breaks(at, byte))
}

/// The first place at which a journal with another byte breaks elsewhere.
fn wrong_byte(alloc: Global, journal: &[u8]) -> Result<Option<usize>, Fail> {
    for at in 0..journal.len() {
        if !breaks_so(alloc, journal, at, 0)?
            || !breaks_so(alloc, journal, at, 1)?
            || !breaks_so(alloc, journal, at, 0xff)?
        {
            return Ok(Some(at));
        }
    }
    Ok(None)
}

#[test]
fn another_byte_breaks_the_journal_or_is_another_row(rt: HostRuntime) -> Result<(), Fail> {
    assert_eq!(rt; wrong_byte(rt.alloc(), &JOURNAL)?, None);
    Ok(())
}
