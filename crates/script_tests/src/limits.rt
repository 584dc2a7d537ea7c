ghost use Rattle.ledger_steps.specs.Levels.{AreIntervals};

use crate::runs::{Script, disk_of, empty_store, new_link};
use bk_disk::{Disk, MemDisk};
use enq_base::{Items, Name, read_name};
use hall::Hall;
use io_edge::{MemSink, MemSource};
use keeper_api::Keeper;
use keeper_mem::MemKeeper;
use lock_entry::LockStore;
use lock_objects::{Field, KeyTable, LockObject};
use lock_table::ListTable;
use number_ranges::Interval;
use replica_link::{Link, MemLink};
use script_runner::replay;
use std::alloc::Global;
use std::test::*;

// What scripts are answered by a server that may have one lock and two marks.
const SCRIPTS: [Script; 2] = [
    (
        b"A LOGON MILLER\n\
            A ENQ EZORDER E 1 ORDNR=1\n\
            A ENQ EZORDER E 1 ORDNR=1\n\
            A ENQ EZORDER E 1 ORDNR=2\n\
            A DEQ_ALL\n\
            A ENQ EZORDER E 1 ORDNR=2\n",
        b"1 OK\n\
            2 OK\n\
            3 OK\n\
            4 LOCK_TABLE_FULL 1 1\n\
            5 OK\n\
            6 OK\n",
    ),
    // A unit takes a mark when it is recorded, and one when it is posted.
    (
        b"A LOGON MILLER\n\
            A V1 PUT T 1 X\n\
            A COMMIT\n\
            @1 TAKE1\n\
            @1 DO1\n\
            A COMMIT\n\
            A V1 PUT T 1 Y\n\
            A COMMIT\n\
            ! CANCEL 1.1.1\n",
        b"1 OK\n\
            2 OK\n\
            3 OK 1.1.1\n\
            4 OK 1.1.1\n\
            5 POSTED 1.1.1\n\
            6 OK\n\
            7 OK\n\
            8 STORE_FULL 2\n\
            9 WRONG_STATUS 1.1.1 CLOSED\n",
    ),
];

fn name(text: &[u8]) -> Result<Name, Fail> {
    Ok(read_name(text).ok_or("a name")?)
}

// Orders, locked by their number.
fn orders(alloc: Global) -> Result<LockObject, Fail> {
    let field = name(b"ORDNR")?;
    let mut keys = Vec::new(alloc);
    keys.push(field)?;
    let mut tables = Vec::new(alloc);
    tables.push(KeyTable {
        name: name(b"ZORDER")?,
        keys: Items::from_vec(keys),
    })?;
    let mut fields = Vec::new(alloc);
    fields.push(Field {
        name: field,
        width: 10,
    })?;
    match LockObject::new(name(b"EZORDER")?, fields, tables) {
        Ok(object) => Ok(object),
        Err(_) => Err(Fail::from("no object")),
    }
}

// A landscape without number ranges.
fn no_intervals(alloc: Global) -> Vec<Interval>
    ensures { AreIntervals result.items }
{
    Vec::new(alloc)
}

// Opens a hall that may have one lock and two marks, and does a script with it. It says whether a hall was opened.
fn is_replayed<T: LockStore, K: Keeper + Drop, D: Disk + Drop, L: Link + Drop>(
    alloc: Global,
    source: &mut MemSource,
    sink: &mut MemSink,
    objects: &[LockObject],
    keeper: K,
    disk: D,
    link: L,
) -> bool {
    let intervals = no_intervals(alloc);
    match Hall::<T, K, D, L>::open(alloc, keeper, disk, link, 1, 2, intervals) {
        Ok(mut hall) => {
            let _why = replay(alloc, source, sink, &mut hall, objects);
            true
        }
        Err(_) => false,
    }
}

// Does a script with a new hall.
fn replayed(
    alloc: Global,
    source: &mut MemSource,
    sink: &mut MemSink,
    objects: &[LockObject],
) -> Result<bool, Fail> {
    let disk = disk_of(alloc, b"")?;
    let link = new_link(alloc)?;
    let keeper = empty_store(alloc)?;
    Ok(is_replayed::<ListTable, MemKeeper, MemDisk, MemLink>(
        alloc, source, sink, objects, keeper, disk, link,
    ))
}

fn replies(alloc: Global, script: &[u8]) -> Result<Vec<u8>, Fail> {
    let mut source = MemSource::new(script.to_vec(alloc)?, Vec::new(alloc))?;
    let mut sink = MemSink::new(alloc, Vec::new(alloc))?;
    let objects = [orders(alloc)?];
    if !replayed(alloc, &mut source, &mut sink, &objects)? {
        return Err(Fail::from("no hall"));
    }
    Ok(sink.bytes().to_vec(alloc)?)
}

#[test]
fn full_tables_are_answered(rt: HostRuntime) -> Result<(), Fail> {
    let alloc = rt.alloc();
    for (script, wanted) in SCRIPTS {
        assert_eq!(rt; replies(alloc, script)?.as_slice(), wanted);
    }
    Ok(())
}
