ghost use Rattle.std.specs.Prelude.{◌≡◌, ◌↔◌, ℕ, true, false, length, replicate, None, Some, IfErr, IfOk, IsSomeAnd, IsTrue, OnOk, is_some};
ghost use Rattle.std.specs.List.{AllByRecursion};
ghost use Rattle.enq_server.specs.Replica.{IsLater};
ghost use Rattle.hall_model.specs.declared.command.Command.TheVariants as command;
ghost use Rattle.hall_model.specs.Acts.{Admits, IsTelling};
ghost use Rattle.hall_model.specs.Devices.{IsAsBefore, is_doubt};
ghost use Rattle.hall_calls.specs.Filing.{AllRecover, HasFileCause};
ghost use Rattle.hall_model.specs.Kept.{IsKnownRight, IsYoung, OutsideDoubt};
ghost use Rattle.hall_model.specs.OpenUnits.{OfInFlight, open_entries};
ghost use Rattle.hall_calls.specs.Remaking.{IsFoundRight, IsNotTaken, IsReadAs, IsTakenUp, IsUnread, IsUnreadInDoubt, IsUsableAs, ledger_read, taken_in, taken_read, IsLeftReady, LeavesKnown, LeavesRemade, OnNotRemade, OnRefusedFirst, OnRemade, flight_over, remade_condition, remade_failure, remade_over, remade_reply, remade_state, remade_taken, remake_refusal, books_refusal, IsOtherRefusal, IsStoreRefusal};
ghost use Rattle.hall_calls.specs.Serving.{DoesStore};
ghost use Rattle.hall_model.specs.History.{known_behind};
ghost use Rattle.hall_model.specs.State.{State, is_up};
ghost use Rattle.keeper_api.specs.Keeping.{IsWithin};
ghost use Rattle.hall_model.specs.Unsound.{is_unsound_file, is_unsound_store};
ghost use Rattle.lock_entry.specs.Sound.{IsSound};
ghost use Rattle.posting.specs.BooksView.{IsUsable};
ghost use Rattle.ledger_steps.specs.Levels.{intervals_of};
ghost use Rattle.ledger_steps.specs.Views.{open_locks};

use crate::sessions::Sessions;
use crate::units::Failure;
use bk_disk::Disk;
use enq_base::{Bad, Condition, NoMemory, Refusal, UnitKey};
use enq_server::{EnqServer, OpenFault};
use hall_model::{Answer, PastEntry, Reply};
use keeper_api::Keeper;
use lock_entry::{LockStore, UnitLocks};
use posting::{Books, BooksFault, Reread, SettleFault, Unlike};
use range_list::Ranges;
use replica_link::Link;
use std::alloc::Global;
use update_records::tables;

/// What came of making a lock server anew.
#[derive(Drop)]
pub(crate) enum Remade {
    /// It was done, and the store has the change that was in flight, or hasn't.
    Done(bool),
    /// Nothing was done, for this reason. No device was called.
    Refused(Refusal),
    /// A device failed; or behind its first call memory was wanting, or what it has isn't good. With what was read of
    /// the change in flight, if the store was read.
    InDoubt(Refusal, Option<bool>),
}

/// The units that wait for their V1 part, with their locks, and what the store has that was read anew.
#[derive(Drop)]
struct Waiting {
    units: Vec<UnitLocks>,
    reread: Option<Reread>,
}

/// What a restart goes by: how the server stands, the failure since which it is in doubt, the ranges of the landscape,
/// and how many locks this allows.
#[derive(Drop)]
pub(crate) struct Basis<'a> {
    pub(crate) condition: Condition,
    pub(crate) failure: &'a Failure,
    pub(crate) ranges: &'a Ranges,
    pub(crate) max_locks: u32,
}

/// Makes the lock server anew, with the locks of the units that wait for their V1 part. In doubt the store is read anew
/// first, and tells what became of the change in flight. The sessions that are marked lose, one in whose call a device
/// failed too, and no order stands.
pub(crate) fn remake<T: LockStore, K: Keeper, D: Disk, L: Link>(
    alloc: Global,
    basis: &Basis<'_>,
    sessions: &mut Sessions,
    orders: &mut Vec<Option<UnitKey>>,
    locks: &mut EnqServer<T, D, L>,
    books: &mut Books<K>,
) -> Remade
    requires ended { locks.old.stands ≡ is_up basis.now.condition }
    requires young { AllByRecursion (IsYoung 262145) sessions.old }
    requires places { length orders.old.items ≡ 256 }
    requires usable { OutsideDoubt basis.now.condition (IsUsable K.held K.is_open books.old) }
    requires unknown { OutsideDoubt basis.now.condition (basis.now.failure.now.found ≡ None) }
    requires settled { OutsideDoubt basis.now.condition (basis.now.failure.now.in_flight ≡ None) }
    requires known { IsKnownRight basis.now.failure.now.found books.old.ledger
        (flight_over books.old.ledger basis.now.failure.now) }
    requires left { LeavesKnown K.held K.may_leave books.old.keeper basis.now.failure.now.found books.old.ledger
        (flight_over books.old.ledger basis.now.failure.now) }
    requires lists { AllRecover D.tells D.may_leave basis.now.condition books.old.ledger
        (flight_over books.old.ledger basis.now.failure.now) basis.now.failure.now.found locks.old.file }
    ensures act { (s : State) → s.condition ≡ basis.now.condition → s.sessions ≡ sessions.old
        → s.stored ≡ books.old.ledger → s.in_flight ≡ flight_over books.old.ledger basis.now.failure.now
        → s.found ≡ basis.now.failure.now.found
        → s.failed_caller ≡ basis.now.failure.now.caller
        → s.max_locks ≡ basis.now.max_locks → Admits s command.Restart
        → IsTelling s command.Restart (remade_taken result)
        (remade_state s sessions.new orders.new.items locks.new.table books.new.ledger result) (remade_reply result) }
    ensures sessions { OnNotRemade result (sessions.new ≡ sessions.old) }
    ensures orders { OnNotRemade result (orders.new.items ≡ orders.old.items) }
    ensures stands { (calls : ℕ) → locks.new.stands ≡ is_up (remade_condition basis.now.condition calls result) }
    ensures ledger { OnNotRemade result (books.new.ledger ≡ books.old.ledger) }
    ensures usable { OnRemade result (IsUsable K.held K.is_open books.new) }
    ensures apart { OnRefusedFirst result (books.new ≡ books.old) }
    ensures store { DoesStore K.held K.may_leave K.faults true (is_doubt basis.now.condition) books.old.keeper
        books.new.keeper (remade_reply result) }
    ensures left { LeavesRemade K.held K.may_leave books.new.keeper books.old.ledger books.new.ledger
        basis.now.failure.now result }
    ensures file { IsLeftReady D.tells D.reads D.may_leave books.old.ledger books.new.ledger basis.now.failure.now
        locks.old.file locks.new.file result }
    ensures cause { HasFileCause (D.faults locks.old.file.disk) (D.faults locks.new.file.disk) (remade_reply result) }
    ensures replica { IsLater L.applied L.faults L.refusals locks.old.replica locks.new.replica }
    ensures detached { OnRemade result (locks.new.replica.attached ≡ false) }
    ensures untouched { OnRefusedFirst result (locks.new ≡ locks.old) }
    // A file whose images have the lists of the open units is good.
    ensures good_file { IsTrue D.tells → IsSound (open_entries books.old.ledger)
        → OfInFlight (flight_over books.old.ledger basis.now.failure.now) (λ ledger. IsSound (open_entries ledger))
        → is_unsound_file (remade_reply result) ≡ false }
    // A store that tells its rows is good, and has what it had or the change in flight.
    ensures good_store { is_some (K.held books.old.keeper) ≡ true → is_unsound_store (remade_reply result) ≡ false }
{
    if let Condition::Up = basis.condition {
        return Remade::Refused(Refusal::ServerUp);
    }
    let waiting = match read_waiting(alloc, basis, books) {
        Ok(waiting) => waiting,
        Err(remade) => return remade,
    };
    match locks.restart(alloc, basis.max_locks, waiting.units.as_slice()) {
        Ok(()) => {
            sessions.bereave(alloc, &basis.failure.caller);
            drop_orders(orders);
            Remade::Done(adopt(books, waiting.reread))
        }
        Err(fault) => Remade::InDoubt(remake_refusal(fault), taken_in(&waiting.reread)),
    }
}

/// The units that wait for their V1 part: those of the books, or in doubt those of the store, which is read anew.
fn read_waiting<K: Keeper>(
    alloc: Global,
    basis: &Basis<'_>,
    books: &mut Books<K>,
) -> Result<Waiting, Remade>
    requires known { IsKnownRight basis.now.failure.now.found books.old.ledger
        (flight_over books.old.ledger basis.now.failure.now) }
    requires left { LeavesKnown K.held K.may_leave books.old.keeper basis.now.failure.now.found books.old.ledger
        (flight_over books.old.ledger basis.now.failure.now) }
    ensures units { IfOk result (λ w. w.units.items ≡ open_locks (ledger_read books.old.ledger w.reread)) }
    ensures read { IfOk result (λ w. IsReadAs basis.now.condition books.old.ledger basis.now.failure.now w.reread) }
    ensures usable { IfOk result (λ w. IsUsableAs K.held K.is_open books.new w.reread) }
    ensures counts { OnOk result (K.faults books.new.keeper ≡ K.faults books.old.keeper) }
    ensures left { IfOk result
        (λ w. LeavesKnown K.held K.may_leave books.new.keeper
        (known_behind basis.now.failure.now.found (taken_in w.reread)) books.old.ledger
        (flight_over books.old.ledger basis.now.failure.now)) }
    ensures unread { IfErr result (IsUnread K.held K.may_leave K.faults basis.now.condition basis.now.failure.now
        books.old books.new) }
    ensures good_store { is_some (K.held books.old.keeper) ≡ true
        → IfErr result (λ remade. is_unsound_store (remade_reply remade) ≡ false) }
    ensures ledger { books.new.ledger ≡ books.old.ledger }
    ensures apart { is_doubt basis.now.condition ≡ false → books.new ≡ books.old }
    ensures told { is_some (K.held books.new.keeper) ≡ is_some (K.held books.old.keeper) }
    ensures within { IsWithin (K.may_leave books.new.keeper) (K.may_leave books.old.keeper) }
{
    match basis.condition {
        Condition::Doubt(_) => reread(alloc, basis, books),
        Condition::Up | Condition::NoServer => match books.open_units(alloc) {
            Ok(units) => Ok(Waiting {
                units,
                reread: None,
            }),
            Err(_) => Err(Remade::Refused(Refusal::NoMemory)),
        },
    }
}

/// Reads the store anew. It has to have what it had or the change in flight, and what was read of it before.
fn reread<K: Keeper>(
    alloc: Global,
    basis: &Basis<'_>,
    books: &mut Books<K>,
) -> Result<Waiting, Remade>
    requires known { IsKnownRight basis.now.failure.now.found books.old.ledger
        (flight_over books.old.ledger basis.now.failure.now) }
    requires left { LeavesKnown K.held K.may_leave books.old.keeper basis.now.failure.now.found books.old.ledger
        (flight_over books.old.ledger basis.now.failure.now) }
    ensures units { IfOk result (λ w. w.units.items ≡ open_locks (ledger_read books.old.ledger w.reread)) }
    ensures read { IfOk result (λ w. IsSomeAnd w.reread (IsFoundRight books.old.ledger basis.now.failure.now)) }
    ensures usable { IfOk result (λ w. IsUsableAs K.held K.is_open books.new w.reread) }
    ensures counts { OnOk result (K.faults books.new.keeper ≡ K.faults books.old.keeper) }
    ensures left { IfOk result
        (λ w. LeavesKnown K.held K.may_leave books.new.keeper
        (known_behind basis.now.failure.now.found (taken_in w.reread)) books.old.ledger
        (flight_over books.old.ledger basis.now.failure.now)) }
    ensures unread { IfErr result
        (λ remade. IsUnreadInDoubt K.held K.may_leave K.faults basis.now.failure.now books.old books.new remade) }
    ensures good_store { is_some (K.held books.old.keeper) ≡ true
        → IfErr result (λ remade. is_unsound_store (remade_reply remade) ≡ false) }
    ensures ledger { books.new.ledger ≡ books.old.ledger }
    ensures told { is_some (K.held books.new.keeper) ≡ is_some (K.held books.old.keeper) }
    ensures within { IsWithin (K.may_leave books.new.keeper) (K.may_leave books.old.keeper) }
{
    match books.reread(alloc, basis.failure.in_flight.as_ref()) {
        Ok(reread) => taken_up(alloc, basis.failure.found, reread),
        Err(fault) => Err(Remade::InDoubt(store_refusal(&fault, basis.ranges), None)),
    }
}

/// Takes up what was read, where it is as it was read before, if it was.
fn taken_up(alloc: Global, found: Option<bool>, reread: Reread) -> Result<Waiting, Remade>
    ensures taken { IfOk result (λ w. IsTakenUp found reread w.units.items w.reread) }
    ensures refused { IfErr result (IsNotTaken found reread.taken) }
{
    let taken = reread.taken();
    if !is_as_before(found, taken) {
        return Err(Remade::InDoubt(Refusal::Unsound(Bad::Store { table: 0, row: 0 }), None));
    }
    match reread.open_units(alloc) {
        Ok(units) => Ok(Waiting {
            units,
            reread: Some(reread),
        }),
        Err(_) => Err(Remade::InDoubt(Refusal::NoMemory, Some(taken))),
    }
}

/// Whether what was read is as it was read before, if it was.
fn is_as_before(found: Option<bool>, taken: bool) -> bool
    ensures { IsTrue result ↔ IsAsBefore found taken }
{
    match found {
        Some(known) => taken == known,
        None => true,
    }
}

/// Whether the change in flight was found, where the store was read anew.
fn taken_in(reread: &Option<Reread>) -> Option<bool>
    ensures { result ≡ taken_in reread.now }
{
    match reread {
        Some(reread) => Some(reread.taken()),
        None => None,
    }
}

/// Takes what was read for the ledger, where the store was read anew, and tells whether it has the change in flight.
fn adopt<K: Keeper>(books: &mut Books<K>, reread: Option<Reread>) -> bool
    ensures taken { result ≡ taken_read reread }
    ensures ledger { books.new.ledger ≡ ledger_read books.old.ledger reread }
    ensures keeper { books.new.keeper ≡ books.old.keeper }
    ensures apart { reread ≡ None → books.new ≡ books.old }
{
    match reread {
        Some(reread) => {
            let taken = reread.taken();
            books.adopt(reread);
            taken
        }
        None => false,
    }
}

/// Why the lock server wasn't made anew, by its backup file.
fn remake_refusal(fault: OpenFault) -> Refusal
    ensures { result ≡ remake_refusal fault }
{
    match fault {
        OpenFault::Failed => Refusal::BackupFault,
        OpenFault::Bad(place) => Refusal::Unsound(Bad::Backup(place)),
        OpenFault::NoMemory => Refusal::NoMemory,
    }
}

/// And by its store.
fn store_refusal(fault: &SettleFault, ranges: &Ranges) -> Refusal
    ensures { IsStoreRefusal (intervals_of ranges.now) fault.now result }
{
    match fault {
        SettleFault::Books(fault) => books_refusal(*fault),
        SettleFault::Other(found) => other_refusal(found, ranges),
    }
}

/// Where it isn't read.
fn books_refusal(fault: BooksFault) -> Refusal
    ensures { result ≡ books_refusal fault }
{
    match fault {
        BooksFault::StoreFault => Refusal::StoreFault,
        BooksFault::BadStore { table, row } => Refusal::Unsound(Bad::Store { table, row }),
        BooksFault::NoStart | BooksFault::NoMemory => Refusal::NoMemory,
    }
}

/// Where it has neither what it had nor the change in flight: the row of the first of its intervals that isn't one of
/// the landscape, if there is such a row.
fn other_refusal(found: &Unlike, ranges: &Ranges) -> Refusal
    ensures { IsOtherRefusal (intervals_of ranges.now) found.now.levels result }
{
    match ranges.first_unfit(found.intervals()) {
        Some(row) => Refusal::Unsound(Bad::Store {
            table: tables::LEVELS,
            row,
        }),
        None => Refusal::Unsound(Bad::Store { table: 0, row: 0 }),
    }
}

/// No worker has an order then.
fn drop_orders(orders: &mut Vec<Option<UnitKey>>)
    ensures { orders.new.items ≡ replicate (length orders.old.items) None }
{
    orders.fill(None);
}

/// What a restart is answered, and whether the server is up then. Done, it leaves nothing of a failure.
pub(crate) fn settled(
    condition: &mut Condition,
    taken_over: &mut bool,
    failure: &mut Failure,
    past: &Vec<PastEntry>,
    remade: Remade,
) -> Answer
    ensures reply { result.reply ≡ remade_reply remade }
    ensures taken { result.taken ≡ remade_taken remade }
    ensures condition { condition.new ≡ remade_condition condition.old (length past.now.items) remade }
    ensures over { taken_over.new ≡ remade_over taken_over.old remade }
    ensures failure { failure.new ≡ remade_failure failure.old remade }
{
    match remade {
        Remade::Done(taken) => {
            *condition = Condition::Up;
            *taken_over = false;
            drop(std::mem::replace(failure, Failure::none()));
            Answer {
                reply: Reply::Done,
                taken,
            }
        }
        Remade::Refused(refusal) => Answer::of(Reply::Refused(refusal)),
        Remade::InDoubt(refusal, read) => {
            *condition = Condition::Doubt(past.len() as u64 + 1);
            if read.is_some() {
                failure.found = read;
            }
            Answer::of(Reply::Refused(refusal))
        }
    }
}
