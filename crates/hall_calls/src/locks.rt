ghost use Rattle.std.specs.Prelude.{◌≡◌, fold, true};
ghost use Rattle.std.specs.List.{AllByRecursion};
ghost use Rattle.enq_server.specs.Replica.{IsLostWith, KeepsOn};
ghost use Rattle.hall_model.specs.declared.command.Command.TheVariants as command;
ghost use Rattle.hall_calls.specs.Serving.{is_of_locks};
ghost use Rattle.hall_model.specs.Acts.{Admits, IsAct};
ghost use Rattle.hall_model.specs.Calls.{call_of};
ghost use Rattle.hall_model.specs.Kept.{IsYoung};
ghost use Rattle.hall_model.specs.State.{State};
ghost use Rattle.hall_model.specs.Step.{answer_of, ask_refusal, fault_refusal};
ghost use Rattle.lock_entry.specs.Freeing.{freed, freed_owner};
ghost use Rattle.lock_entry.specs.Names.{halves, halves_of};
ghost use Rattle.lock_entry.specs.Table.{with_entries};

use crate::sessions::{Sessions, pair_of, session_of};
use bk_disk::Disk;
use enq_base::{Name, Refusal};
use enq_server::{EnqServer, ServerFault};
use hall_model::Command;
use lock_entry::{AskFault, Asked, Asker, LockStore, Request};
use replica_link::Link;
use std::alloc::Global;

/// Does a call that the lock server alone answers.
pub(crate) fn lock<T: LockStore, D: Disk, L: Link>(
    alloc: Global,
    start: u32,
    sessions: &mut Sessions,
    locks: &mut EnqServer<T, D, L>,
    command: &Command,
) -> Result<(), Refusal>
    requires of_locks { is_of_locks (call_of command.now) ≡ true }
    requires stands { locks.old.stands ≡ true }
    requires young { AllByRecursion (IsYoung 262145) sessions.old }
    ensures act { (s : State) → s.stored.start ≡ start → s.sessions ≡ sessions.old
        → s.locks ≡ locks.old.table.entries
        → s.limit ≡ locks.old.table.limit → Admits s command.now
        → IsAct s command.now
        (record s { sessions = sessions.new; locks = locks.new.table.entries }) (answer_of result) }
    ensures limit { locks.new.table.limit ≡ locks.old.table.limit }
    ensures standing { locks.new.stands ≡ locks.old.stands }
    ensures file { locks.new.file ≡ locks.old.file }
    ensures replica { KeepsOn L.applied L.faults L.refusals locks.old.replica locks.new.replica }
    ensures lost { IsLostWith locks.old.replica locks.new.replica locks.old.table locks.new.table }
{
    match command {
        Command::Logoff { session } => log_off(start, sessions, locks, session),
        Command::Ask { session, requests } => {
            ask(alloc, start, sessions, locks, session, requests.as_slice())
        }
        Command::Free { session, requests } => free(
            start,
            sessions,
            locks,
            session,
            requests.as_slice(),
        ),
        Command::FreeAll { session } => free_all(start, sessions, locks, session),
        Command::Convert { session, asked } => {
            convert(alloc, start, sessions, locks, session, asked.as_slice())
        }
        Command::Rollback { session } => roll_back(alloc, start, sessions, locks, session),
        _ => unreachable!(),
    }
}

/// Asks for locks on behalf of a session.
fn ask<T: LockStore, D: Disk, L: Link>(
    alloc: Global,
    start: u32,
    sessions: &Sessions,
    locks: &mut EnqServer<T, D, L>,
    name: &Name,
    requests: &[Request],
) -> Result<(), Refusal>
    requires { locks.old.stands ≡ true }
    ensures act { (s : State) → s.stored.start ≡ start → s.sessions ≡ sessions.now
        → s.locks ≡ locks.old.table.entries
        → s.limit ≡ locks.old.table.limit → Admits s (command.Ask name.now requests.now)
        → IsAct s (command.Ask name.now requests.now)
        (record s { locks = locks.new.table.entries }) (answer_of result) }
    ensures limit { locks.new.table.limit ≡ locks.old.table.limit }
    ensures standing { locks.new.stands ≡ locks.old.stands }
    ensures file { locks.new.file ≡ locks.old.file }
    ensures replica { KeepsOn L.applied L.faults L.refusals locks.old.replica locks.new.replica }
    ensures lost { IsLostWith locks.old.replica locks.new.replica locks.old.table locks.new.table }
{
    let session = session_of(sessions, name)?;
    let pair = pair_of(start, session);
    match locks.ask(alloc, &pair, &session.user, requests) {
        Ok(()) => Ok(()),
        Err(fault) => Err(refusal_of(fault)),
    }
}

/// How a refusal of the lock server is told. Only what writes the backup file can fail.
pub(crate) fn refusal_of(fault: ServerFault) -> Refusal
    ensures { result ≡ fault_refusal fault }
{
    match fault {
        ServerFault::Ask(fault) => table_refusal_of(fault),
        ServerFault::Failed => Refusal::BackupFault,
        ServerFault::NoMemory => Refusal::NoMemory,
    }
}

pub(crate) fn table_refusal_of(fault: AskFault) -> Refusal
    ensures { result ≡ ask_refusal fault }
{
    match fault {
        AskFault::Foreign(entry) => Refusal::ForeignLock {
            owner: entry.owner,
            user: entry.user,
            table: entry.table,
            argument: entry.pattern,
        },
        AskFault::Full { used, limit } => Refusal::LockTableFull { used, limit },
        AskFault::Count => Refusal::CountFull,
        AskFault::Lost => Refusal::OptimisticLost,
        AskFault::NoMemory => Refusal::NoMemory,
    }
}

/// Frees locks on behalf of a session.
fn free<T: LockStore, D: Disk, L: Link>(
    start: u32,
    sessions: &Sessions,
    locks: &mut EnqServer<T, D, L>,
    name: &Name,
    requests: &[Request],
) -> Result<(), Refusal>
    ensures act { (s : State) → s.stored.start ≡ start → s.sessions ≡ sessions.now
        → s.locks ≡ locks.old.table.entries → Admits s (command.Free name.now requests.now)
        → IsAct s (command.Free name.now requests.now)
        (record s { locks = locks.new.table.entries }) (answer_of result) }
    ensures limit { locks.new.table.limit ≡ locks.old.table.limit }
    ensures standing { locks.new.stands ≡ locks.old.stands }
    ensures file { locks.new.file ≡ locks.old.file }
    ensures replica { KeepsOn L.applied L.faults L.refusals locks.old.replica locks.new.replica }
    ensures lost { IsLostWith locks.old.replica locks.new.replica locks.old.table locks.new.table }
{
    let session = session_of(sessions, name)?;
    free_requests(locks, &pair_of(start, session), requests);
    Ok(())
}

fn free_requests<T: LockStore, D: Disk, L: Link>(
    locks: &mut EnqServer<T, D, L>,
    pair: &Asker,
    requests: &[Request],
)
    ensures table { locks.new.table ≡ with_entries locks.old.table
        (fold freed locks.old.table.entries (halves pair.now requests.now)) }
    ensures standing { locks.new.stands ≡ locks.old.stands }
    ensures file { locks.new.file ≡ locks.old.file }
    ensures replica { KeepsOn L.applied L.faults L.refusals locks.old.replica locks.new.replica }
    ensures lost { IsLostWith locks.old.replica locks.new.replica locks.old.table locks.new.table }
{
    for request in requests {
        free_request(locks, pair, request);
    }
}

fn free_request<T: LockStore, D: Disk, L: Link>(
    locks: &mut EnqServer<T, D, L>,
    pair: &Asker,
    request: &Request,
)
    ensures table { locks.new.table ≡ with_entries locks.old.table
        (fold freed locks.old.table.entries (halves_of pair.now request.now)) }
    ensures standing { locks.new.stands ≡ locks.old.stands }
    ensures file { locks.new.file ≡ locks.old.file }
    ensures replica { KeepsOn L.applied L.faults L.refusals locks.old.replica locks.new.replica }
    ensures lost { IsLostWith locks.old.replica locks.new.replica locks.old.table locks.new.table }
{
    if request.dialogue {
        locks.free_one(&pair.dialogue, &request.asked);
    }
    if request.update {
        locks.free_one(&pair.update, &request.asked);
    }
}

/// Logs a session off: it goes, and the locks of its two owners with it.
fn log_off<T: LockStore, D: Disk, L: Link>(
    start: u32,
    sessions: &mut Sessions,
    locks: &mut EnqServer<T, D, L>,
    name: &Name,
) -> Result<(), Refusal>
    ensures act { (s : State) → s.stored.start ≡ start → s.sessions ≡ sessions.old
        → s.locks ≡ locks.old.table.entries → Admits s (command.Logoff name.now)
        → IsAct s (command.Logoff name.now)
        (record s { sessions = sessions.new; locks = locks.new.table.entries }) (answer_of result) }
    ensures limit { locks.new.table.limit ≡ locks.old.table.limit }
    ensures standing { locks.new.stands ≡ locks.old.stands }
    ensures file { locks.new.file ≡ locks.old.file }
    ensures replica { KeepsOn L.applied L.faults L.refusals locks.old.replica locks.new.replica }
    ensures lost { IsLostWith locks.old.replica locks.new.replica locks.old.table locks.new.table }
{
    let session = session_of(sessions, name)?;
    let own_name = session.name;
    free_pair(locks, &pair_of(start, session));
    sessions.leave(&own_name);
    Ok(())
}

/// Frees all locks of a session's two owners.
fn free_all<T: LockStore, D: Disk, L: Link>(
    start: u32,
    sessions: &Sessions,
    locks: &mut EnqServer<T, D, L>,
    name: &Name,
) -> Result<(), Refusal>
    ensures act { (s : State) → s.stored.start ≡ start → s.sessions ≡ sessions.now
        → s.locks ≡ locks.old.table.entries → Admits s (command.FreeAll name.now)
        → IsAct s (command.FreeAll name.now)
        (record s { locks = locks.new.table.entries }) (answer_of result) }
    ensures limit { locks.new.table.limit ≡ locks.old.table.limit }
    ensures standing { locks.new.stands ≡ locks.old.stands }
    ensures file { locks.new.file ≡ locks.old.file }
    ensures replica { KeepsOn L.applied L.faults L.refusals locks.old.replica locks.new.replica }
    ensures lost { IsLostWith locks.old.replica locks.new.replica locks.old.table locks.new.table }
{
    let session = session_of(sessions, name)?;
    free_pair(locks, &pair_of(start, session));
    Ok(())
}

/// Frees all locks of two owners.
fn free_pair<T: LockStore, D: Disk, L: Link>(locks: &mut EnqServer<T, D, L>, asker: &Asker)
    ensures table { locks.new.table ≡ with_entries locks.old.table
        (freed_owner (freed_owner locks.old.table.entries asker.now.dialogue) asker.now.update) }
    ensures standing { locks.new.stands ≡ locks.old.stands }
    ensures file { locks.new.file ≡ locks.old.file }
    ensures replica { KeepsOn L.applied L.faults L.refusals locks.old.replica locks.new.replica }
    ensures lost { IsLostWith locks.old.replica locks.new.replica locks.old.table locks.new.table }
{
    locks.free_owner(&asker.dialogue);
    locks.free_owner(&asker.update);
}

/// Turns optimistic locks of a session into exclusive ones.
fn convert<T: LockStore, D: Disk, L: Link>(
    alloc: Global,
    start: u32,
    sessions: &Sessions,
    locks: &mut EnqServer<T, D, L>,
    name: &Name,
    asked: &[Asked],
) -> Result<(), Refusal>
    requires { locks.old.stands ≡ true }
    ensures act { (s : State) → s.stored.start ≡ start → s.sessions ≡ sessions.now
        → s.locks ≡ locks.old.table.entries → Admits s (command.Convert name.now asked.now)
        → IsAct s (command.Convert name.now asked.now)
        (record s { locks = locks.new.table.entries }) (answer_of result) }
    ensures limit { locks.new.table.limit ≡ locks.old.table.limit }
    ensures standing { locks.new.stands ≡ locks.old.stands }
    ensures file { locks.new.file ≡ locks.old.file }
    ensures replica { KeepsOn L.applied L.faults L.refusals locks.old.replica locks.new.replica }
    ensures lost { IsLostWith locks.old.replica locks.new.replica locks.old.table locks.new.table }
{
    let session = session_of(sessions, name)?;
    let pair = pair_of(start, session);
    match locks.convert(alloc, &pair, asked) {
        Ok(()) => Ok(()),
        Err(fault) => Err(refusal_of(fault)),
    }
}

/// Rolls a session back: the locks of its open unit go, and the next unit is open.
fn roll_back<T: LockStore, D: Disk, L: Link>(
    alloc: Global,
    start: u32,
    sessions: &mut Sessions,
    locks: &mut EnqServer<T, D, L>,
    name: &Name,
) -> Result<(), Refusal>
    requires { AllByRecursion (IsYoung 262145) sessions.old }
    ensures act { (s : State) → s.stored.start ≡ start → s.sessions ≡ sessions.old
        → s.locks ≡ locks.old.table.entries → Admits s (command.Rollback name.now)
        → IsAct s (command.Rollback name.now)
        (record s { sessions = sessions.new; locks = locks.new.table.entries }) (answer_of result) }
    ensures limit { locks.new.table.limit ≡ locks.old.table.limit }
    ensures standing { locks.new.stands ≡ locks.old.stands }
    ensures file { locks.new.file ≡ locks.old.file }
    ensures replica { KeepsOn L.applied L.faults L.refusals locks.old.replica locks.new.replica }
    ensures lost { IsLostWith locks.old.replica locks.new.replica locks.old.table locks.new.table }
{
    let session = session_of(sessions, name)?;
    let own_name = session.name;
    let pair = pair_of(start, session);
    locks.free_owner(&pair.update);
    sessions.begin_fresh_unit(alloc, &own_name);
    Ok(())
}
