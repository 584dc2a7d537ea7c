ghost use Rattle.std.specs.Prelude.{◌≡◌, true};

use super::calls::{Kept, commit, emptied, keeper_at, opened, wants};
use super::files::{Step, follow};
use keeper_api::{KeepFault, Keeper};
use keeper_sqlite::SqliteKeeper;
use std::fs;
use std::test::*;

const TEXT: &[u8] = b"ENQWAL01 is no database, and is longer than the first page of none";

const PATH: &str = "keeper_refusals/a.db";

const ROW: [Kept; 1] = [(0, b"a", Some(b"b"))];

const PUT: [Step; 1] = [Step::Commit(&ROW)];

/// What stands at a path in place of a database that can be written.
#[derive(Clone, Copy, Debug, PartialEq, Eq)]
enum Obstacle {
    Text,
    Folder,
    ReadOnly,
}

const OBSTACLES: [Obstacle; 3] = [Obstacle::Text, Obstacle::Folder, Obstacle::ReadOnly];

fn make_read_only(rt: HostRuntime) -> Result<(), Fail> {
    follow(rt, PATH, &PUT)?;
    let mut permissions = fs::metadata(&rt, PATH)?.permissions();
    permissions.set_readonly(true);
    fs::set_permissions(&rt, PATH, permissions)?;
    Ok(())
}

fn lay(rt: HostRuntime, obstacle: Obstacle) -> Result<(), Fail> {
    match obstacle {
        Obstacle::Text => Ok(fs::write(&rt, PATH, TEXT)?),
        Obstacle::Folder => Ok(fs::create_dir(&rt, PATH)?),
        Obstacle::ReadOnly => make_read_only(rt),
    }
}

/// Whether the file can be written all the same, as by root.
fn is_writable(rt: HostRuntime) -> bool {
    let mut options = fs::OpenOptions::new();
    options.append(true);
    options.open(&rt, PATH).is_ok()
}

/// Whether a keeper is refused, and leaves the file as it was.
fn is_refused(rt: HostRuntime, keeper: &mut SqliteKeeper, path: &str) -> bool {
    let before = fs::read(&rt, path).ok();
    let answer = keeper.reopen(rt.alloc());
    answer == Err(KeepFault::Failed) && fs::read(&rt, path).ok() == before
}

fn is_refused_twice(rt: HostRuntime, path: &str) -> Result<bool, Fail> {
    let mut keeper = keeper_at(rt, path)?;
    Ok(is_refused(rt, &mut keeper, path) && is_refused(rt, &mut keeper, path))
}

#[test]
fn what_is_no_database_to_write_is_refused(rt: HostRuntime) -> Result<(), Fail> {
    for obstacle in OBSTACLES.iter() {
        emptied(&rt, "keeper_refusals")?;
        lay(rt, *obstacle)?;
        if *obstacle == Obstacle::ReadOnly && is_writable(rt) {
            continue;
        }
        wants(
            is_refused_twice(rt, PATH)?,
            "a refusal, and the file as it was",
        )?;
    }
    fs::remove_dir_all(&rt, "keeper_refusals")?;
    Ok(())
}

const LOCKED: &str = "keeper_locked/a.db";

fn is_refused_beside(
    rt: HostRuntime,
    keeper: &mut SqliteKeeper,
    other: &mut SqliteKeeper,
) -> Result<bool, Fail>
    requires { keeper.old.is_open ≡ true }
{
    commit(keeper, rt.alloc(), &ROW)?;
    Ok(is_refused(rt, other, LOCKED))
}

/// Whether a keeper is refused while another one has the file.
fn is_locked(rt: HostRuntime, other: &mut SqliteKeeper) -> Result<bool, Fail> {
    let mut keeper = opened(rt, LOCKED)?;
    is_refused_beside(rt, &mut keeper, other)
}

fn is_locked_and_let_go(rt: HostRuntime) -> Result<bool, Fail> {
    let mut other = keeper_at(rt, LOCKED)?;
    let is_locked = is_locked(rt, &mut other)?;
    Ok(is_locked && other.reopen(rt.alloc()) == Ok(()) && other.reopen(rt.alloc()) == Ok(()))
}

#[test]
fn a_file_is_locked_until_its_keeper_is_gone(rt: HostRuntime) -> Result<(), Fail> {
    emptied(&rt, "keeper_locked")?;
    wants(
        is_locked_and_let_go(rt)?,
        "a lock as long as there is a keeper",
    )?;
    fs::remove_dir_all(&rt, "keeper_locked")?;
    Ok(())
}
