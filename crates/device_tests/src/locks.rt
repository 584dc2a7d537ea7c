ghost use Rattle.std.specs.Prelude.{◌≡◌, IfOk};
ghost use Rattle.enq_base.specs.declared.owner.Owner.TheVariants.{Upd};
ghost use Rattle.lock_entry.specs.Pairs.{IsPair};

use bk_disk::MemDisk;
use enq_base::{Items, Name, Owner, Pattern, UnitKey, read_name};
use lock_entry::{Asked, Asker, Entry, Mode, UnitLocks};
use replica_link::MemLink;
use std::alloc::Global;
use std::test::Fail;

pub const F1: &[u8] = b"1000000000001";

pub const F2: &[u8] = b"1000000000002";

/// A lock of a unit: the unit's session, the argument, the mode, the count, and whether it was handed over.
pub type Row = (u32, &'static [u8], Mode, u16, bool);

/// A session's first unit, and the locks that its rows have.
pub type Unit = (u32, &'static [Row]);

/// The first unit of a session.
pub fn unit_key(session: u32) -> UnitKey
    ensures { result ≡ record { start = 1; session = session; luw = 1 } }
{
    UnitKey {
        start: 1,
        session,
        luw: 1,
    }
}

pub fn asker(session: u32) -> Asker
    ensures pair { IsPair result }
    ensures update { result.update ≡ Upd (record { start = 1; session = session; luw = 1 }) }
{
    Asker {
        dialogue: Owner::Dlg { start: 1, session },
        update: Owner::Upd(unit_key(session)),
    }
}

pub fn user() -> Result<Name, Fail> {
    Ok(read_name(b"MILLER").ok_or("a name")?)
}

pub fn asked(argument: &[u8], mode: Mode) -> Result<Asked, Fail> {
    Ok(Asked {
        table: read_name(b"ZORDER").ok_or("a name")?,
        pattern: Pattern::new(argument).ok_or("an argument")?,
        mode,
    })
}

/// A lock of a unit, held once and handed over.
pub fn lock_of(unit: &UnitKey, argument: &[u8], mode: Mode) -> Result<Entry, Fail>
    ensures owner { IfOk result (λ lock. lock.owner ≡ Upd unit.now) }
    ensures mode { IfOk result (λ lock. lock.mode ≡ mode) }
    ensures count { IfOk result (λ lock. lock.count ≡ 1) }
{
    let asked = asked(argument, mode)?;
    Ok(Entry {
        owner: Owner::Upd(*unit),
        user: user()?,
        table: asked.table,
        pattern: asked.pattern,
        mode,
        count: 1,
        handed: true,
    })
}

fn entry(row: &Row) -> Result<Entry, Fail> {
    let (session, argument, mode, count, handed) = *row;
    let mut lock = lock_of(&unit_key(session), argument, mode)?;
    lock.count = count;
    lock.handed = handed;
    Ok(lock)
}

pub fn list_of(alloc: Global, rows: &[Row]) -> Result<Vec<Entry>, Fail> {
    let mut list = Vec::new(alloc);
    for row in rows {
        list.push(entry(row)?)?;
    }
    Ok(list)
}

fn unit_of(alloc: Global, unit: &Unit) -> Result<UnitLocks, Fail> {
    let (session, rows) = *unit;
    Ok(UnitLocks {
        unit: unit_key(session),
        entries: Items::from_vec(list_of(alloc, rows)?),
    })
}

pub fn units_of(alloc: Global, units: &[Unit]) -> Result<Vec<UnitLocks>, Fail> {
    let mut list = Vec::new(alloc);
    for unit in units {
        list.push(unit_of(alloc, unit)?)?;
    }
    Ok(list)
}

/// A disk with these bytes, whose calls with these numbers fail.
pub fn disk_of(alloc: Global, bytes: &[u8], fails: &[u64]) -> Result<MemDisk, Fail> {
    let bytes = bytes.to_vec(alloc)?;
    let fails = fails.to_vec(alloc)?;
    Ok(MemDisk::new(alloc, bytes, fails)?)
}

/// A link whose calls with these numbers fail.
pub fn link_of(alloc: Global, fails: &[u64]) -> Result<MemLink, Fail> {
    Ok(MemLink::new(alloc, fails.to_vec(alloc)?)?)
}
