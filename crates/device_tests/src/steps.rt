ghost use Rattle.std.specs.Prelude.{◌≡◌, false, OnOk};

use crate::calls::{
    Answer, LIMIT, ask, attach, convert, end, fail_over, kill, readmit, restart, restart_twice,
    save, save_and_restart,
};
use crate::locks::{F1, Row, Unit, asked, disk_of, link_of, list_of, unit_key, units_of};
use bk_disk::{Disk, MemDisk};
use enq_base::Owner;
use enq_server::{EnqServer, OpenFault};
use lock_entry::{Entry, LockStore, Mode};
use lock_table::ListTable;
use replica_link::{Link, MemLink};
use std::alloc::Global;
use std::process::Abort;
use std::test::Fail;

/// What is done with a server. An update owner is named by its session.
#[derive(Clone, Copy, Debug)]
pub enum Act {
    Look,
    Ask(u32, &'static [u8], Mode),
    Convert(&'static [u8]),
    Free(&'static [u8], Mode),
    FreeAll(u32),
    Flag,
    /// The owner is granted an exclusive lock again.
    Readmit(u32),
    Save,
    /// The list isn't saved, and the server is ended and its table made anew for no unit.
    FailToSave,
    End(u32),
    /// The server is ended: no lock stands.
    Kill,
    Restart(&'static [Unit]),
    /// The table isn't made anew for these units, but for none.
    FailToRestart(&'static [Unit]),
    Attach,
    /// Asks whether a replica follows.
    IsAttached,
    FailOver,
}

/// What is done, what it is answered, and which locks stand then.
pub type Step = (Act, Answer, &'static [Row]);

/// The units for which a server is opened, why it isn't opened, and steps of one that is.
pub type Life<'a> = (&'static [Unit], Option<OpenFault>, &'a [Step]);

/// Attaches a replica, ends the server, or takes the replica's list over.
fn follow<T: LockStore, D: Disk, L: Link>(
    alloc: Global,
    server: &mut EnqServer<T, D, L>,
    act: &Act,
) -> Answer
    ensures { server.new.file ≡ server.old.file }
{
    match act {
        Act::Attach => attach(alloc, server),
        Act::Kill => kill(server),
        Act::FailOver => fail_over(alloc, server),
        Act::IsAttached if server.attached() => Answer::Attached,
        Act::IsAttached => Answer::Detached,
        _ => Answer::Done,
    }
}

/// Changes the table.
fn change<T: LockStore, D: Disk, L: Link>(
    alloc: Global,
    server: &mut EnqServer<T, D, L>,
    act: &Act,
) -> Result<Answer, Fail>
    ensures { server.new.file ≡ server.old.file }
{
    match act {
        Act::Ask(session, argument, mode) => {
            let asked = asked(argument, *mode)?;
            return ask(alloc, server, *session, &asked);
        }
        Act::Convert(argument) => return convert(alloc, server, argument),
        Act::Free(argument, mode) => {
            let asked = asked(argument, *mode)?;
            server.free_one(&Owner::Upd(unit_key(1)), &asked);
        }
        Act::FreeAll(session) => server.free_owner(&Owner::Upd(unit_key(*session))),
        Act::Flag => server.flag(&unit_key(1)),
        _ => {}
    }
    Ok(follow(alloc, server, act))
}

/// Does what the step says.
fn take<T: LockStore, D: Disk, L: Link>(
    alloc: Global,
    server: &mut EnqServer<T, D, L>,
    act: &Act,
) -> Result<Answer, Fail>
    requires { server.old.file.failed ≡ false }
    ensures { OnOk result (server.new.file.failed ≡ false) }
{
    match act {
        Act::Readmit(session) => {
            readmit(alloc, server, *session, F1)?;
            Ok(Answer::Done)
        }
        Act::Save => save(alloc, server, &unit_key(1)),
        Act::FailToSave => save_and_restart(alloc, server, &unit_key(1)),
        Act::End(session) => {
            end(server, &unit_key(*session))?;
            Ok(Answer::Done)
        }
        Act::Restart(units) => restart(alloc, server, units),
        Act::FailToRestart(units) => restart_twice(alloc, server, units),
        _ => change(alloc, server, act),
    }
}

/// Whether the server tells just these locks by their places.
fn tells<T: LockStore, D: Disk, L: Link>(server: &EnqServer<T, D, L>, locks: &[Entry]) -> bool {
    server.len() as usize == locks.len()
        && server.at(0).is_none()
        && server.at(1) == locks.first().copied()
}

/// Tests that just these locks stand.
fn check_locks<T: LockStore, D: Disk, L: Link>(
    rt: &impl Abort,
    alloc: Global,
    server: &EnqServer<T, D, L>,
    rows: &[Row],
) -> Result<(), Fail> {
    let wanted = list_of(alloc, rows)?;
    let list = server.list(alloc)?;
    assert_eq!(rt; list.as_slice(), wanted.as_slice());
    assert!(rt; tells(server, wanted.as_slice()));
    Ok(())
}

fn check_step<T: LockStore, D: Disk, L: Link>(
    rt: &impl Abort,
    alloc: Global,
    server: &mut EnqServer<T, D, L>,
    step: &Step,
) -> Result<(), Fail>
    requires { server.old.file.failed ≡ false }
    ensures { OnOk result (server.new.file.failed ≡ false) }
{
    let (act, wanted, rows) = step;
    let answer = take(alloc, server, act)?;
    assert_eq!(rt; answer, *wanted, "{act:?}");
    check_locks(rt, alloc, server, rows)
}

fn check_steps<T: LockStore, D: Disk, L: Link>(
    rt: &impl Abort,
    alloc: Global,
    server: &mut EnqServer<T, D, L>,
    steps: &[Step],
) -> Result<(), Fail>
    requires { server.old.file.failed ≡ false }
{
    for step in steps {
        check_step(rt, alloc, server, step)?;
    }
    Ok(())
}

/// Opens a server, takes its steps, and gives the disk back.
pub fn live<T: LockStore, D: Disk + Drop, L: Link + Drop>(
    rt: &impl Abort,
    alloc: Global,
    disk: D,
    link: L,
    life: &Life,
) -> Result<D, Fail> {
    let (units, refused, steps) = *life;
    let units = units_of(alloc, units)?;
    match EnqServer::<T, D, L>::open(alloc, disk, link, LIMIT, units.as_slice()) {
        Ok(server) => {
            let mut server = server;
            let told = check_steps(rt, alloc, &mut server, steps);
            let (disk, _link) = server.into_parts();
            assert_eq!(rt; refused, None);
            told?;
            Ok(disk)
        }
        Err((fault, disk, _link)) => {
            assert_eq!(rt; Some(fault), refused);
            Ok(disk)
        }
    }
}

/// The bytes of the disk, and the numbers of its calls and of the link's that fail.
pub type Devices = (&'static [u8], &'static [u64], &'static [u64]);

/// Opens one server after the other over one disk, each with a link of its own.
pub fn check(
    rt: &impl Abort,
    alloc: Global,
    devices: &Devices,
    lives: &[Life],
) -> Result<(), Fail> {
    let (bytes, disk_fails, link_fails) = *devices;
    let mut disk = disk_of(alloc, bytes, disk_fails)?;
    for life in lives {
        let link = link_of(alloc, link_fails)?;
        disk = live::<ListTable, MemDisk, MemLink>(rt, alloc, disk, link, life)?;
    }
    Ok(())
}
