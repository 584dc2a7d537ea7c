ghost use Rattle.std.specs.Prelude.{IsTrue, IfOk};
ghost use Rattle.sqlite_disk.specs.Memory.{memory_is_usable};

use super::calls::{delete, is_row, put};
use keeper_api::{Change, KeepFault, Keeper, Row};
use keeper_sqlite::AdoptedKeeper;
use sqlite::{Alter, Connection, FileStore, Files, Leftover, Options};
use sqlite_disk::{Crash, Disk, Fuse, Memory};
use std::alloc::Global;
use std::test::*;

/// The log and the database file as bytes.
#[derive(Drop)]
struct Image {
    log: Vec<u8>,
    db: Vec<u8>,
}

type Fused = FileStore<Fuse<Memory>>;

fn memory_with(alloc: Global, bytes: &[u8]) -> Result<Memory, Fail>
    ensures { IfOk result (λ file. IsTrue (memory_is_usable file)) }
{
    let mut file = Memory::new(alloc);
    match file.write_at(0, bytes) {
        Ok(()) => Ok(file),
        Err(error) => Err(Fail::from(error)),
    }
}

fn files_left(left: Leftover<Fuse<Memory>>) -> Files<Fuse<Memory>> {
    left.into_files()
}

fn files_in(connection: Connection<Fused>) -> Files<Fuse<Memory>> {
    connection.into_store().close()
}

/// Opens the files of these bytes, each of which stops after so many calls.
fn open_fused(
    alloc: Global,
    log: &[u8],
    db: &[u8],
    calls: u64,
) -> Result<Result<Connection<Fused>, Files<Fuse<Memory>>>, Fail> {
    let log = Fuse::new(memory_with(alloc, log)?, calls);
    let db = Fuse::new(memory_with(alloc, db)?, calls);
    match Connection::open_files(alloc, Files { log, db }, Options::new(1)) {
        Ok(connection) => Ok(Ok(connection)),
        Err((_, left)) => Ok(Err(files_left(left))),
    }
}

const LAST: &[u8] = b"last";

/// A batch puts a row of its own, takes away that of the batch but one before it, and puts its number.
fn batch_of(alloc: Global, number: u8) -> Result<Vec<Change>, Fail> {
    let mut batch = Vec::new(alloc);
    batch.push(put(alloc, 1, &[number], &[number; 600])?)?;
    if number > 2 {
        batch.push(delete(alloc, 1, &[number - 2])?)?;
    }
    batch.push(put(alloc, 1, LAST, &[number])?)?;
    Ok(batch)
}

/// Commits six batches, up to the first that fails, and answers how many were answered Ok.
fn commit_all<S: Alter>(keeper: &mut AdoptedKeeper<S>, alloc: Global) -> Result<u8, Fail> {
    let Ok(()) = keeper.reopen(alloc) else {
        return Ok(0);
    };
    for done in 0..6 {
        let batch = batch_of(alloc, done + 1)?;
        let Ok(()) = keeper.commit(batch.as_slice()) else {
            return Ok(done);
        };
    }
    Ok(6)
}

/// Commits the batches through a keeper, which can't be opened again.
fn commit_once<S: Alter>(keeper: &mut AdoptedKeeper<S>, alloc: Global) -> Result<u8, Fail> {
    let answered = commit_all(keeper, alloc)?;
    if keeper.reopen(alloc) != Err(KeepFault::Failed) {
        return Err(Fail::from("a second opening"));
    }
    Ok(answered)
}

/// Commits the batches through a keeper, and gives the connection back.
fn run_over<S: Alter + Drop>(
    connection: Connection<S>,
    alloc: Global,
) -> Result<(u8, Connection<S>), Fail> {
    let mut keeper = AdoptedKeeper::new(connection);
    let answered = commit_once(&mut keeper, alloc)?;
    Ok((answered, keeper.into_connection()))
}

/// How many batches the rows are those of, where there is such a number.
fn batches_in<S: Alter>(
    keeper: &mut AdoptedKeeper<S>,
    alloc: Global,
) -> Result<Option<u8>, KeepFault> {
    keeper.reopen(alloc)?;
    let page = keeper.page(alloc, 1, b"", 1000)?;
    let last = keeper.get(alloc, 1, LAST)?;
    if last.is_some() == page.is_empty() {
        return Ok(None);
    }
    Ok(count_of(page.as_slice()))
}

fn batches_over<S: Alter + Drop>(connection: Connection<S>, alloc: Global) -> Option<u8> {
    let mut keeper = AdoptedKeeper::new(connection);
    match batches_in(&mut keeper, alloc) {
        Ok(count) => count,
        Err(_) => None,
    }
}

fn count_of(page: &[Row]) -> Option<u8> {
    let [rows @ .., last] = page else {
        return Some(0);
    };
    let count = *last.value.as_slice().first()?;
    if !is_row(Some(last), LAST, &[count]) {
        return None;
    }
    let mut number = count.saturating_sub(2).saturating_add(1);
    for row in rows {
        if !is_row(Some(row), &[number], &[number; 600]) {
            return None;
        }
        number = number.saturating_add(1);
    }
    if number == count.saturating_add(1) {
        Some(count)
    } else {
        None
    }
}

fn image_of(alloc: Global, files: &Files<Fuse<Memory>>) -> Result<Image, Fail> {
    Ok(Image {
        log: files.log.inner().bytes().to_vec(alloc)?,
        db: files.db.inner().bytes().to_vec(alloc)?,
    })
}

/// What a process leaves that dies, and what a machine leaves that stops.
fn images_of(alloc: Global, files: Files<Fuse<Memory>>) -> Result<[Image; 2], Fail> {
    let mut files = files;
    let kept = image_of(alloc, &files)?;
    files.log.crash();
    files.db.crash();
    let synced = image_of(alloc, &files)?;
    Ok([kept, synced])
}

/// Runs the batches until each file has had so many calls, and answers how many were answered and what is left.
fn run_to(alloc: Global, calls: u64) -> Result<(u8, [Image; 2]), Fail> {
    let connection = match open_fused(alloc, b"", b"", calls)? {
        Ok(connection) => connection,
        Err(files) => return Ok((0, images_of(alloc, files)?)),
    };
    let (answered, connection) = run_over(connection, alloc)?;
    Ok((answered, images_of(alloc, files_in(connection))?))
}

fn count_in(alloc: Global, image: &Image) -> Result<Option<u8>, Fail> {
    match open_fused(alloc, image.log.as_slice(), image.db.as_slice(), u64::MAX)? {
        Ok(connection) => Ok(batches_over(connection, alloc)),
        Err(_) => Ok(None),
    }
}

/// Whether an image has the batches that were answered, or one more.
fn is_prefix(alloc: Global, image: &Image, answered: u8) -> Result<bool, Fail> {
    let count = count_in(alloc, image)?;
    Ok(count == Some(answered) || count == Some(answered.saturating_add(1)))
}

fn are_prefixes(alloc: Global, images: &[Image; 2], answered: u8) -> Result<bool, Fail> {
    Ok(is_prefix(alloc, &images[0], answered)? && is_prefix(alloc, &images[1], answered)?)
}

/// How many batches are answered before each file has had so many calls, where what is left is a prefix of them.
fn answered_at(alloc: Global, calls: u64) -> Result<u8, Fail> {
    let (answered, images) = run_to(alloc, calls)?;
    if are_prefixes(alloc, &images, answered)? {
        Ok(answered)
    } else {
        Err(Fail::from("rows of no prefix"))
    }
}

#[test]
fn a_stop_leaves_a_prefix_of_the_batches(rt: HostRuntime) -> Result<(), Fail> {
    for calls in 0..1000 {
        if answered_at(rt.alloc(), calls)? == 6 {
            assert!(rt; calls > 20, "{calls}");
            return Ok(());
        }
    }
    Err(Fail::from("each run stopped"))
}
