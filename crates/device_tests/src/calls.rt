ghost use Rattle.std.specs.Prelude.{◌≡◌, false, OnOk};

use crate::locks::{Unit, asked, asker, lock_of, units_of, user};
use backup_file::WriteFault;
use bk_disk::Disk;
use enq_base::UnitKey;
use enq_server::{EnqServer, OpenFault, OverFault, ServerFault};
use lock_entry::{AskFault, Asked, LockStore, Mode, Request};
use replica_link::Link;
use std::alloc::Global;
use std::test::Fail;

/// The limit of each table.
pub const LIMIT: u32 = 100;

/// What a call is answered.
#[derive(Clone, Copy, Debug, PartialEq, Eq)]
pub enum Answer {
    Done,
    /// So many locks stand in the file.
    Saved(u32),
    /// The first lock of the table stands in the way.
    First,
    NotOpened(OpenFault),
    NotTakenOver(OverFault),
    Attached,
    Detached,
    /// Another answer; or no call, since it wants a table where none stands, or none where one does.
    Other,
}

/// The session's update owner asks for a lock.
pub fn ask<T: LockStore, D: Disk, L: Link>(
    alloc: Global,
    server: &mut EnqServer<T, D, L>,
    session: u32,
    asked: &Asked,
) -> Result<Answer, Fail>
    ensures { server.new.file ≡ server.old.file }
{
    if !server.stands() {
        return Ok(Answer::Other);
    }
    let user = user()?;
    let request = Request {
        asked: *asked,
        dialogue: false,
        update: true,
    };
    match server.ask(alloc, &asker(session), &user, &[request]) {
        Ok(()) => Ok(Answer::Done),
        Err(ServerFault::Ask(AskFault::Foreign(lock))) if server.at(1) == Some(lock) => {
            Ok(Answer::First)
        }
        Err(_) => Ok(Answer::Other),
    }
}

/// The first session's update owner converts an optimistic lock.
pub fn convert<T: LockStore, D: Disk, L: Link>(
    alloc: Global,
    server: &mut EnqServer<T, D, L>,
    argument: &[u8],
) -> Result<Answer, Fail>
    ensures { server.new.file ≡ server.old.file }
{
    if !server.stands() {
        return Ok(Answer::Other);
    }
    let asked = asked(argument, Mode::O)?;
    match server.convert(alloc, &asker(1), &[asked]) {
        Ok(()) => Ok(Answer::Done),
        Err(_) => Ok(Answer::Other),
    }
}

/// A session's unit is granted an exclusive lock again.
pub fn readmit<T: LockStore, D: Disk, L: Link>(
    alloc: Global,
    server: &mut EnqServer<T, D, L>,
    session: u32,
    argument: &[u8],
) -> Result<(), Fail>
    requires { server.old.file.failed ≡ false }
    ensures { OnOk result (server.new.file.failed ≡ false) }
{
    if !server.stands() {
        return Err(Fail::from("no table"));
    }
    let unit = UnitKey {
        start: 1,
        session,
        luw: 1,
    };
    let lock = lock_of(&unit, argument, Mode::E)?;
    match server.readmit(alloc, &asker(session), &unit, &[lock]) {
        Ok(()) => Ok(()),
        Err(_) => Err(Fail::from("not granted again")),
    }
}

/// Ends a unit.
pub fn end<T: LockStore, D: Disk, L: Link>(
    server: &mut EnqServer<T, D, L>,
    unit: &UnitKey,
) -> Result<(), Fail>
    requires { server.old.file.failed ≡ false }
    ensures { OnOk result (server.new.file.failed ≡ false) }
{
    match server.end_unit(unit) {
        Ok(()) => Ok(()),
        Err(_) => Err(Fail::from("not ended")),
    }
}

/// Writes a unit's list.
pub fn save<T: LockStore, D: Disk, L: Link>(
    alloc: Global,
    server: &mut EnqServer<T, D, L>,
    unit: &UnitKey,
) -> Result<Answer, Fail>
    requires { server.old.file.failed ≡ false }
    ensures { OnOk result (server.new.file.failed ≡ false) }
{
    let user = user()?;
    match server.save(alloc, unit, &user) {
        Ok(count) => Ok(Answer::Saved(count)),
        Err(_) => Err(Fail::from("not saved")),
    }
}

/// Ends the server, where one stands.
pub fn kill<T: LockStore, D: Disk, L: Link>(server: &mut EnqServer<T, D, L>) -> Answer
    ensures ended { server.new.stands ≡ false }
    ensures file { server.new.file ≡ server.old.file }
{
    if server.stands() {
        server.kill();
        Answer::Done
    } else {
        Answer::Other
    }
}

/// Has a replica follow the table.
pub fn attach<T: LockStore, D: Disk, L: Link>(
    alloc: Global,
    server: &mut EnqServer<T, D, L>,
) -> Answer
    ensures { server.new.file ≡ server.old.file }
{
    if !server.stands() {
        return Answer::Other;
    }
    match server.attach(alloc) {
        Ok(()) => Answer::Done,
        Err(_) => Answer::Other,
    }
}

/// Takes the replica's list over.
pub fn fail_over<T: LockStore, D: Disk, L: Link>(
    alloc: Global,
    server: &mut EnqServer<T, D, L>,
) -> Answer
    ensures { server.new.file ≡ server.old.file }
{
    if server.stands() {
        return Answer::Other;
    }
    match server.fail_over(alloc, LIMIT) {
        Ok(()) => Answer::Done,
        Err(fault) => Answer::NotTakenOver(fault),
    }
}

/// Makes the table anew, where none stands.
pub fn restart<T: LockStore, D: Disk, L: Link>(
    alloc: Global,
    server: &mut EnqServer<T, D, L>,
    units: &[Unit],
) -> Result<Answer, Fail>
    ensures { OnOk result (server.new.file.failed ≡ false) }
{
    if server.stands() {
        return Err(Fail::from("a table"));
    }
    let units = units_of(alloc, units)?;
    match server.restart(alloc, LIMIT, units.as_slice()) {
        Ok(()) => Ok(Answer::Done),
        Err(_) => Err(Fail::from("not made anew")),
    }
}

/// Writes a unit's list, which fails, ends the server, and makes the table anew for no unit.
pub fn save_and_restart<T: LockStore, D: Disk, L: Link>(
    alloc: Global,
    server: &mut EnqServer<T, D, L>,
    unit: &UnitKey,
) -> Result<Answer, Fail>
    requires { server.old.file.failed ≡ false }
    ensures { OnOk result (server.new.file.failed ≡ false) }
{
    let user = user()?;
    match server.save(alloc, unit, &user) {
        Err(WriteFault::Failed) => {}
        _ => return Err(Fail::from("saved")),
    }
    let _ = kill(server);
    restart(alloc, server, &[])
}

/// Why the table isn't made anew. None stands then.
fn refused<T: LockStore, D: Disk, L: Link>(
    alloc: Global,
    server: &mut EnqServer<T, D, L>,
    units: &[Unit],
) -> Result<OpenFault, Fail> {
    if server.stands() {
        return Err(Fail::from("a table"));
    }
    let units = units_of(alloc, units)?;
    match server.restart(alloc, LIMIT, units.as_slice()) {
        Err(fault) if !server.stands() => Ok(fault),
        _ => Err(Fail::from("made anew")),
    }
}

/// Makes the table anew for these units, which is refused, and then for no unit.
pub fn restart_twice<T: LockStore, D: Disk, L: Link>(
    alloc: Global,
    server: &mut EnqServer<T, D, L>,
    units: &[Unit],
) -> Result<Answer, Fail>
    ensures { OnOk result (server.new.file.failed ≡ false) }
{
    let fault = refused(alloc, server, units)?;
    let _ = restart(alloc, server, &[])?;
    Ok(Answer::NotOpened(fault))
}
