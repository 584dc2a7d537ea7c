ghost use Rattle.std.specs.Prelude.{ℕ, ◌≡◌, ◌⊎◌, ◌≤◌, ◌<◌, ◌+◌, ◌^◌, ◌++◌, None, Ok, Some, Contains, IfErr, IfOk, OnErr, OnOk, false, true, is_some, length, nat_le};
ghost use Rattle.std.specs.List.{AllByRecursion};
ghost use Rattle.enq_server.specs.Replica.{IsLostWith, KeepsOn};
ghost use Rattle.enq_server.specs.Server.{of_user};
ghost use Rattle.hall_model.specs.declared.command.Command.TheVariants as command;
ghost use Rattle.enq_base.specs.declared.unit.Num.{Num as Number};
ghost use Rattle.hall_model.specs.Acts.{Admits};
ghost use Rattle.hall_calls.specs.Written.{IsWritten, OnAnswer, IsRegained, OnFailure, OnStoreFailure, locks_posted, ranges_behind, written_reply};
ghost use Rattle.hall_calls.specs.Commits.{AnswersCommit, IsChange, IsCommitting, IsOfCommit, RecordsNumbers, RecordsUnit, SavesList, TellsNoFault, unsaved};
ghost use Rattle.hall_calls.specs.Marking.{EndsList, IsMarked, IsNoted, Readmits, ServesOn, orders_behind, to_post};
ghost use Rattle.hall_calls.specs.declared.units.Written.TheVariants.{Answered};
ghost use Rattle.hall_model.specs.Calls.{post_of};
ghost use Rattle.hall_model.specs.Orders as claims;
ghost use Rattle.hall_model.specs.Kept.{HasGoodLocks, HaveMarks, IsAhead, IsYoung, draws_in};
ghost use Rattle.hall_calls.specs.Leaving.{HasStoreCause, KeepsStore, LeavesWritten};
ghost use Rattle.hall_model.specs.Sessions.{owners_of};
ghost use Rattle.hall_model.specs.State.{State};
ghost use Rattle.hall_model.specs.Step as step;
ghost use Rattle.hall_calls.specs.Storing.{EndsAs};
ghost use Rattle.module_effects.specs.Effects.{applied};
ghost use Rattle.hall_calls.specs.Filing.{ChangesLevels, FilesAs, FreesList, HasOpenLists, IsSaved, IsUnrefused, is_open, locks_ended, ungranted};
ghost use Rattle.lock_entry.specs.Table.{IsTable, with_entries};
ghost use Rattle.ledger_steps.specs.Intervals.{with_intervals, MayStore};
ghost use Rattle.ledger_steps.specs.declared.step.Step.TheVariants.{Record, Note};
ghost use Rattle.update_records.specs.Growing.{with_mark, with_unit};
ghost use Rattle.update_records.specs.Marks.{status_of};
ghost use Rattle.hall_calls.specs.Remaking.{no_failure};
ghost use Rattle.ledger_steps.specs.Parts.{is_first};
ghost use Rattle.ledger_steps.specs.Posts.{WaitsFor, effects_of, entries_of, kind_for};
ghost use Rattle.posting.specs.BooksView.{IsReady, IsUnmoved, IsUsable};
ghost use Rattle.ledger_steps.specs.Steps.{HasMarksLeft, IsDrawing, IsNewUnit, IsOutcome, MayGet};
ghost use Rattle.ledger_steps.specs.Drawn.{AreDrawnRight, IsStock, drawn_of};
ghost use Rattle.ledger_steps.specs.declared.range.NumberRange.{NumberRange};
ghost use Rattle.number_ranges.specs.Intervals.{is_buffered};
ghost use Rattle.ledger_steps.specs.Levels.{intervals_of, level_in, present};
ghost use Rattle.update_records.specs.Business.{numbers_of, tables_of};
ghost use Rattle.update_records.specs.declared.records.MarkKind.TheVariants.{Again1, Again2};

use crate::locks::table_refusal_of;
use crate::numbers::{DRAWS_LIMIT, settled_rows};
use crate::orders::{order_for, worker_of};
use crate::sessions::{Sessions, session_of, unit_key};
use crate::writing::{prepare_unit, write, write_numbers};
use backup_file::WriteFault;
use bk_disk::Disk;
use enq_base::{Failed, Items, Key, Name, NoMemory, Num, Owner, Parts, Refusal, Status, UnitKey};
use enq_server::{EnqServer, ServerFault};
use hall_model::{Reply, Session};
use keeper_api::{KeepFault, Keeper};
use ledger_steps::{Outcome, Part, Step};
use lock_entry::{Asker, Entry, LockStore, hand_over};
use posting::{Books, Prepared, Worked};
use range_list::Ranges;
use replica_link::Link;
use std::alloc::Global;
use update_records::{MarkKind, StoredInterval, Unit};

const EFFECTS_LIMIT: usize = 200;

/// How a call ends that uses the store.
#[derive(Drop)]
pub(crate) enum Written {
    Answered(Reply),
    /// The store failed with this step in flight, if there is one, which it may have taken or not.
    Failed(Option<Step>),
    /// The disk of the backup file failed. What the store took before stands.
    Unfiled,
}

/// What a restart goes by where the server is in doubt.
#[derive(Drop)]
pub(crate) struct Failure {
    /// The change that the store may have taken or not, if there is one.
    pub(crate) in_flight: Option<Step>,
    /// Whether it has, where a restart that failed later has read it.
    pub(crate) found: Option<bool>,
    /// The session in whose call a device failed.
    pub(crate) caller: Option<Name>,
}

impl Failure {
    /// That of a server that isn't in doubt.
    pub(crate) fn none() -> Failure
        ensures { result ≡ no_failure }
    {
        Failure {
            in_flight: None,
            found: None,
            caller: None,
        }
    }
}

/// A mark of a unit that is to be written, whether the unit's locks end with it, and what is answered then.
#[derive(Drop)]
struct Noted {
    unit: UnitKey,
    kind: MarkKind,
    ends: bool,
    reply: Reply,
}

/// A worker's call that posts a part, and how many marks there may be.
#[derive(Clone, Copy)]
pub(crate) struct PostCall {
    pub(crate) worker: u8,
    pub(crate) part: Part,
    pub(crate) max_marks: u32,
}

/// A session's commit of these effects and of these numbers of a stock, and how many marks there may be.
#[derive(Drop)]
pub(crate) struct CommitCall<'a> {
    pub(crate) session: &'a Name,
    pub(crate) parts: &'a Parts,
    pub(crate) stock: &'a [Num],
    pub(crate) max_marks: u32,
}

/// What a commit records.
#[derive(Drop)]
enum Change {
    Numbers(NewNumbers),
    Unit(NewUnit),
}

/// Numbers that are recorded alone, under the unit that their session has open, with the levels of their intervals.
#[derive(Drop)]
struct NewNumbers {
    unit: UnitKey,
    numbers: Items<Num>,
    levels: Items<StoredInterval>,
}

/// A unit with the levels of the intervals of its numbers.
#[derive(Drop)]
struct NewUnit {
    unit: Unit,
    levels: Items<StoredInterval>,
}

/// A unit whose list the backup file has, and what was made ready to record it.
#[derive(Drop)]
struct SavedUnit {
    made: NewUnit,
    prepared: Prepared,
}

/// Posts a part of the unit that a worker has an order for, or records where it is refused. With the V1 part the unit's
/// locks end, in the backup file and then in the table, and the order goes. What the part came to outside is taken
/// where it still holds.
pub(crate) fn post<T: LockStore, K: Keeper, D: Disk, L: Link>(
    alloc: Global,
    orders: &mut Vec<Option<UnitKey>>,
    locks: &mut EnqServer<T, D, L>,
    books: &mut Books<K>,
    call: PostCall,
    worked: Option<&Worked>,
) -> Written
    requires usable { IsUsable K.held K.is_open books.old }
    requires limited { call.max_marks ≤ 1048576 }
    requires places { length orders.old.items ≡ 256 }
    requires filed { HasOpenLists D.tells D.reads D.may_leave books.old.ledger locks.old.file }
    ensures act { (s : State) → s.orders ≡ orders.old.items
        → (is_first call.part ≡ true → s.locks ≡ locks.old.table.entries)
        → s.stored ≡ books.old.ledger → s.mark_limit ≡ call.max_marks → Admits s (post_of call.part call.worker)
        → IsWritten s (post_of call.part call.worker)
        (record s {
          orders = orders.new.items;
          locks = locks_posted call.part s.locks locks.new.table.entries;
          stored = books.new.ledger;
        })
        result }
    ensures limit { locks.new.table.limit ≡ locks.old.table.limit }
    ensures standing { locks.new.stands ≡ locks.old.stands }
    ensures file { FilesAs D.tells D.reads D.may_leave D.faults books.new.ledger locks.old.file locks.new.file result }
    ensures unfiled { is_first call.part ≡ false → locks.new.file ≡ locks.old.file }
    ensures unshipped { is_first call.part ≡ false → locks.new.replica ≡ locks.old.replica }
    ensures second { is_first call.part ≡ false → locks.new.table.entries ≡ locks.old.table.entries }
    ensures table { OnFailure result (locks.new.table ≡ locks.old.table) }
    ensures replica { KeepsOn L.applied L.faults L.refusals locks.old.replica locks.new.replica }
    ensures lost { IsLostWith locks.old.replica locks.new.replica locks.old.table locks.new.table }
    ensures orders { OnFailure result (orders.new.items ≡ orders.old.items) }
    ensures ledger { OnStoreFailure result (books.new.ledger ≡ books.old.ledger) }
    ensures usable { OnAnswer result (IsUsable K.held K.is_open books.new) }
    ensures told { is_some (K.held books.new.keeper) ≡ is_some (K.held books.old.keeper) }
    ensures left { LeavesWritten K.held K.may_leave books.new result }
    ensures cause { HasStoreCause (K.faults books.old.keeper) (K.faults books.new.keeper) (written_reply result) }
    ensures kept { KeepsStore K.held K.may_leave books.old.keeper books.new.keeper (written_reply result) }
{
    let written = post_held(alloc, orders.as_slice(), locks, books, call, worked);
    end_order(orders, call.worker, &written);
    written
}

/// The order of a part that was tried goes.
fn end_order(orders: &mut Vec<Option<UnitKey>>, worker: u8, written: &Written)
    requires { length orders.old.items ≡ 256 }
    ensures { orders.new.items ≡ orders_behind orders.old.items worker written.now }
{
    match written {
        Written::Answered(Reply::Refused(_)) | Written::Failed(_) | Written::Unfiled => {}
        Written::Answered(_) => orders[worker as usize] = None,
    }
}

/// Posts the part that a worker has an order for. The order stays.
fn post_held<T: LockStore, K: Keeper, D: Disk, L: Link>(
    alloc: Global,
    orders: &[Option<UnitKey>],
    locks: &mut EnqServer<T, D, L>,
    books: &mut Books<K>,
    call: PostCall,
    worked: Option<&Worked>,
) -> Written
    requires usable { IsUsable K.held K.is_open books.old }
    requires limited { call.max_marks ≤ 1048576 }
    requires filed { HasOpenLists D.tells D.reads D.may_leave books.old.ledger locks.old.file }
    ensures act { (s : State) → s.orders ≡ orders.now
        → (is_first call.part ≡ true → s.locks ≡ locks.old.table.entries)
        → s.stored ≡ books.old.ledger → s.mark_limit ≡ call.max_marks → Admits s (post_of call.part call.worker)
        → IsWritten s (post_of call.part call.worker)
        (record s {
          orders = orders_behind s.orders call.worker result;
          locks = locks_posted call.part s.locks locks.new.table.entries;
          stored = books.new.ledger;
        })
        result }
    ensures serves { ServesOn L.applied L.faults L.refusals locks.old locks.new }
    ensures table { OnFailure result (locks.new.table ≡ locks.old.table) }
    ensures second { is_first call.part ≡ false → locks.new ≡ locks.old }
    ensures file { FilesAs D.tells D.reads D.may_leave D.faults books.new.ledger locks.old.file locks.new.file result }
    ensures store { EndsAs K.held K.is_open K.may_leave K.faults books.old books.new result }
{
    match to_post(orders, books, call) {
        Ok(unit) => post_unit(alloc, locks, books, unit, call.part, worked),
        Err(refusal) => Written::Answered(Reply::Refused(refusal)),
    }
}

/// The unit whose part a worker may post now, or why there is none.
fn to_post<K: Keeper>(
    orders: &[Option<UnitKey>],
    books: &Books<K>,
    call: PostCall,
) -> Result<UnitKey, Refusal>
    ensures { result ≡ to_post call.part books.now.ledger orders.now call.max_marks call.worker }
{
    let Some(unit) = order_for(orders, books, call.worker, call.part) else {
        return Err(Refusal::NoOrder);
    };
    if is_full(books, call.max_marks) {
        return Err(Refusal::StoreFull(call.max_marks));
    }
    Ok(unit)
}

/// Posts a part of a unit that waits for it.
fn post_unit<T: LockStore, K: Keeper, D: Disk, L: Link>(
    alloc: Global,
    locks: &mut EnqServer<T, D, L>,
    books: &mut Books<K>,
    unit: UnitKey,
    part: Part,
    worked: Option<&Worked>,
) -> Written
    requires usable { IsUsable K.held K.is_open books.old }
    requires marks { HasMarksLeft books.old.ledger }
    requires waits { WaitsFor part books.old.ledger unit }
    requires filed { HasOpenLists D.tells D.reads D.may_leave books.old.ledger locks.old.file }
    ensures act { (s : State) (worker : ℕ) → (is_first part ≡ true → s.locks ≡ locks.old.table.entries)
        → s.stored ≡ books.old.ledger → Admits s (post_of part worker)
        → claims.order_for part books.old.ledger s.orders worker ≡ Some unit
        → nat_le s.mark_limit (length books.old.ledger.marks) ≡ false
        → IsWritten s (post_of part worker)
        (record s {
          orders = orders_behind s.orders worker result;
          locks = locks_posted part s.locks locks.new.table.entries;
          stored = books.new.ledger;
        })
        result }
    ensures serves { ServesOn L.applied L.faults L.refusals locks.old locks.new }
    ensures table { OnFailure result (locks.new.table ≡ locks.old.table) }
    ensures second { is_first part ≡ false → locks.new ≡ locks.old }
    ensures file { FilesAs D.tells D.reads D.may_leave D.faults books.new.ledger locks.old.file locks.new.file result }
    ensures store { EndsAs K.held K.is_open K.may_leave K.faults books.old books.new result }
{
    let (prepared, outcome) = match prepare(alloc, books, &unit, part, worked) {
        Ok(ready) => ready,
        Err(_) => return Written::Answered(Reply::Refused(Refusal::NoMemory)),
    };
    let noted = Noted {
        unit,
        kind: part.kind_for(outcome),
        ends: part.is_first(),
        reply: posted(unit, part, outcome),
    };
    note(locks, books, prepared, noted)
}

/// Writes the mark of a unit that was made ready. Then its locks end, where they are to end.
fn note<T: LockStore, K: Keeper, D: Disk, L: Link>(
    locks: &mut EnqServer<T, D, L>,
    books: &mut Books<K>,
    prepared: Prepared,
    noted: Noted,
) -> Written
    requires usable { IsUsable K.held K.is_open books.old }
    requires ready { IsReady K.held K.has_room books.old prepared }
    requires step { prepared.step ≡ Note noted.unit noted.kind }
    requires ends { EndsList noted.ends books.old.ledger (with_mark books.old.ledger noted.unit noted.kind) noted.unit }
    requires answer { IsUnrefused (Answered noted.reply) }
    requires filed { HasOpenLists D.tells D.reads D.may_leave books.old.ledger locks.old.file }
    ensures outcome { IsNoted books.old.ledger books.new.ledger locks.old.table.entries locks.new.table.entries
        noted.ends noted.unit noted.kind noted.reply result }
    ensures serves { ServesOn L.applied L.faults L.refusals locks.old locks.new }
    ensures table { OnFailure result (locks.new.table ≡ locks.old.table) }
    ensures apart { noted.ends ≡ false → locks.new ≡ locks.old }
    ensures file { FilesAs D.tells D.reads D.may_leave D.faults books.new.ledger locks.old.file locks.new.file result }
    ensures store { EndsAs K.held K.is_open K.may_leave K.faults books.old books.new result }
{
    match write(books, prepared) {
        Ok(()) => match end_locks(locks, &noted.unit, noted.ends) {
            Ok(()) => Written::Answered(noted.reply),
            Err(Failed) => Written::Unfiled,
        },
        Err(_) => Written::Failed(Some(Step::Note {
            unit: noted.unit,
            kind: noted.kind,
        })),
    }
}

/// Ends the locks of a unit, where they are to end: its list in the backup file goes first, and then what stands in the
/// table.
fn end_locks<T: LockStore, D: Disk, L: Link>(
    locks: &mut EnqServer<T, D, L>,
    unit: &UnitKey,
    ends: bool,
) -> Result<(), Failed>
    requires usable { locks.old.file.failed ≡ false }
    ensures table { OnOk result
        (locks.new.table ≡ with_entries locks.old.table (locks_ended ends locks.old.table.entries unit.now)) }
    ensures kept { OnErr result (locks.new.table ≡ locks.old.table) }
    ensures apart { ends ≡ false → locks.new ≡ locks.old }
    ensures serves { ServesOn L.applied L.faults L.refusals locks.old locks.new }
    ensures file { FreesList D.tells D.reads D.may_leave D.faults ends unit.now locks.old.file locks.new.file result }
{
    if ends { locks.end_unit(unit) } else { Ok(()) }
}

/// Makes ready to post a part of a unit that waits for it.
fn prepare<K: Keeper>(
    alloc: Global,
    books: &mut Books<K>,
    unit: &UnitKey,
    part: Part,
    worked: Option<&Worked>,
) -> Result<(Prepared, Outcome), NoMemory>
    requires usable { IsUsable K.held K.is_open books.old }
    requires marks { HasMarksLeft books.old.ledger }
    requires waits { WaitsFor part books.old.ledger unit.now }
    ensures ready { IfOk result (λ r. IsReady K.held K.has_room books.new r.0) }
    ensures step { IfOk result (λ r. r.0.step ≡ Note unit.now (kind_for part r.1)) }
    ensures outcome { IfOk result (λ r. IsOutcome (applied (effects_of part books.old.ledger.units unit.now)
        (tables_of books.old.ledger.units books.old.ledger.marks)) r.1) }
    ensures usable { IsUsable K.held K.is_open books.new }
    ensures unmoved { IsUnmoved K.held K.may_leave K.faults books.old books.new }
{
    match part {
        Part::V1 => books.prepare_post1(alloc, unit, worked),
        Part::V2 => match books.prepare_post2(alloc, unit) {
            Ok(ready) => Ok(ready),
            Err(_) => Err(NoMemory),
        },
    }
}

fn posted(unit: UnitKey, part: Part, outcome: Outcome) -> Reply
    ensures { result ≡ step.posted_reply part unit outcome }
{
    match outcome {
        Outcome::Done => match part {
            Part::V1 => Reply::Posted(unit),
            Part::V2 => Reply::Closed(unit),
        },
        Outcome::Refused { index, reason } => match part {
            Part::V1 => Reply::Bad {
                unit,
                index,
                reason,
            },
            Part::V2 => Reply::Bad2 {
                unit,
                index,
                reason,
            },
        },
    }
}

/// Records a unit of a session with the effects of its two parts, the numbers that the session has drawn and those of a
/// stock, or such numbers alone. A unit's locks are handed over to the update, and the session's next unit is open.
/// Memory hands out what is behind the numbers of the stock then. Without effects and numbers nothing changes.
pub(crate) fn commit<T: LockStore, K: Keeper, D: Disk, L: Link>(
    alloc: Global,
    sessions: &mut Sessions,
    ranges: &mut Ranges,
    locks: &mut EnqServer<T, D, L>,
    books: &mut Books<K>,
    call: &CommitCall<'_>,
) -> Written
    requires usable { IsUsable K.held K.is_open books.old }
    requires limited { call.now.max_marks ≤ 1048576 }
    requires started { 1 ≤ books.old.ledger.start }
    requires young { AllByRecursion (IsYoung 262145) sessions.old }
    requires fresh { AllByRecursion (IsAhead books.old.ledger) sessions.old }
    requires marked { HaveMarks books.old.ledger }
    requires drawn { AreDrawnRight ranges.old books.old.ledger.levels (draws_in sessions.old)
        (numbers_of books.old.ledger.units books.old.ledger.marks) }
    requires filed { HasOpenLists D.tells D.reads D.may_leave books.old.ledger locks.old.file }
    requires stock { IsStock (intervals_of ranges.old) books.old.ledger.levels (draws_in sessions.old)
        (numbers_of books.old.ledger.units books.old.ledger.marks) call.now.stock.now }
    ensures act { (s : State) → s.sessions ≡ sessions.old → s.ranges ≡ ranges.old → s.locks ≡ locks.old.table.entries
        → s.stored ≡ books.old.ledger → s.mark_limit ≡ call.now.max_marks
        → Admits s (command.Commit call.now.session.now call.now.parts.now call.now.stock.now)
        → IsWritten s (command.Commit call.now.session.now call.now.parts.now call.now.stock.now)
        (record s {
          sessions = sessions.new;
          ranges = ranges.new;
          locks = locks.new.table.entries;
          stored = books.new.ledger;
        })
        result }
    ensures limit { locks.new.table.limit ≡ locks.old.table.limit }
    ensures standing { locks.new.stands ≡ locks.old.stands }
    ensures file { FilesAs D.tells D.reads D.may_leave D.faults books.new.ledger locks.old.file locks.new.file result }
    ensures replica { KeepsOn L.applied L.faults L.refusals locks.old.replica locks.new.replica }
    ensures lost { IsLostWith locks.old.replica locks.new.replica locks.old.table locks.new.table }
    ensures table { OnFailure result (locks.new.table ≡ locks.old.table) }
    ensures sessions { OnFailure result (sessions.new ≡ sessions.old) }
    ensures ranges { OnFailure result (ranges.new ≡ ranges_behind call.now.stock.now ranges.old result) }
    ensures store { EndsAs K.held K.is_open K.may_leave K.faults books.old books.new result }
{
    let written = record_commit(alloc, sessions, ranges, locks, books, call);
    pass_recorded(ranges, call.stock, &written);
    written
}

/// Memory hands out what is behind the numbers of a stock, where they were recorded or the store may have them.
fn pass_recorded(ranges: &mut Ranges, stock: &[Num], written: &Written)
    requires { AllByRecursion (λ (num : Number). num.number + 1 < 2 ^ 64) stock.now }
    ensures { ranges.new ≡ ranges_behind stock.now ranges.old written.now }
{
    match written {
        Written::Answered(Reply::Refused(_)) | Written::Unfiled => {}
        Written::Answered(_) | Written::Failed(_) => ranges.pass(stock),
    }
}

/// What is recorded of a commit, in the store and with the session.
fn record_commit<T: LockStore, K: Keeper, D: Disk, L: Link>(
    alloc: Global,
    sessions: &mut Sessions,
    ranges: &Ranges,
    locks: &mut EnqServer<T, D, L>,
    books: &mut Books<K>,
    call: &CommitCall<'_>,
) -> Written
    requires usable { IsUsable K.held K.is_open books.old }
    requires limited { call.now.max_marks ≤ 1048576 }
    requires started { 1 ≤ books.old.ledger.start }
    requires young { AllByRecursion (IsYoung 262145) sessions.old }
    requires fresh { AllByRecursion (IsAhead books.old.ledger) sessions.old }
    requires marked { HaveMarks books.old.ledger }
    requires drawn { AreDrawnRight ranges.now books.old.ledger.levels (draws_in sessions.old)
        (numbers_of books.old.ledger.units books.old.ledger.marks) }
    requires filed { HasOpenLists D.tells D.reads D.may_leave books.old.ledger locks.old.file }
    requires stock { IsStock (intervals_of ranges.now) books.old.ledger.levels (draws_in sessions.old)
        (numbers_of books.old.ledger.units books.old.ledger.marks) call.now.stock.now }
    ensures act { (s : State) → s.sessions ≡ sessions.old → s.ranges ≡ ranges.now → s.locks ≡ locks.old.table.entries
        → s.stored ≡ books.old.ledger → s.mark_limit ≡ call.now.max_marks
        → Admits s (command.Commit call.now.session.now call.now.parts.now call.now.stock.now)
        → IsWritten s (command.Commit call.now.session.now call.now.parts.now call.now.stock.now)
        (record s {
          sessions = sessions.new;
          ranges = ranges_behind call.now.stock.now ranges.now result;
          locks = locks.new.table.entries;
          stored = books.new.ledger;
        })
        result }
    ensures serves { ServesOn L.applied L.faults L.refusals locks.old locks.new }
    ensures file { FilesAs D.tells D.reads D.may_leave D.faults books.new.ledger locks.old.file locks.new.file result }
    ensures table { OnFailure result (locks.new.table ≡ locks.old.table) }
    ensures sessions { OnFailure result (sessions.new ≡ sessions.old) }
    ensures store { EndsAs K.held K.is_open K.may_leave K.faults books.old books.new result }
{
    let session = match to_commit(sessions, books, call) {
        Ok(session) => session,
        Err(reply) => return Written::Answered(reply),
    };
    let Ok(change) = change_of(alloc, ranges, locks, books, session, call) else {
        return Written::Answered(Reply::Refused(Refusal::NoMemory));
    };
    match change {
        Change::Numbers(drawn) => record_numbers(alloc, sessions, books, call.session, drawn),
        Change::Unit(made) => record_unit(alloc, sessions, locks, books, call.session, made),
    }
}

/// The session that commits, or what is answered where nothing is to be recorded.
fn to_commit<'a, K: Keeper>(
    sessions: &'a Sessions,
    books: &Books<K>,
    call: &CommitCall<'_>,
) -> Result<&'a Session, Reply>
    ensures session { IfOk result
        (λ x. IsCommitting sessions.now books.now.ledger call.now.max_marks call.now.session.now call.now.parts.now
        call.now.stock.now x.now) }
    ensures answer { IfErr result
        (AnswersCommit sessions.now books.now.ledger call.now.max_marks call.now.session.now call.now.parts.now
        call.now.stock.now) }
    ensures quiet { IfErr result TellsNoFault }
{
    let session = match session_of(sessions, call.session) {
        Ok(session) => session,
        Err(refusal) => return Err(Reply::Refused(refusal)),
    };
    let effects = effects_in(call.parts);
    let drawn = session.draws.as_slice().len() + call.stock.len();
    if drawn > DRAWS_LIMIT || effects > EFFECTS_LIMIT {
        return Err(Reply::Refused(Refusal::UnitTooLarge));
    }
    if effects == 0 && drawn == 0 {
        return Err(Reply::Done);
    }
    if is_full(books, call.max_marks) {
        return Err(Reply::Refused(Refusal::StoreFull(call.max_marks)));
    }
    Ok(session)
}

/// What a commit of the session records: the numbers that it has drawn and those of the stock, within its open unit
/// where there are effects.
fn change_of<T: LockStore, K: Keeper, D: Disk, L: Link>(
    alloc: Global,
    ranges: &Ranges,
    locks: &EnqServer<T, D, L>,
    books: &Books<K>,
    session: &Session,
    call: &CommitCall<'_>,
) -> Result<Change, NoMemory>
    requires fit { (r : NumberRange) → Contains ranges.now r → is_buffered r.interval ≡ false
        → level_in books.now.ledger.levels r.interval + drawn_of (present books.now.ledger.levels r.interval)
        (session.now.draws ++ call.now.stock.now) ≤ r.interval.to }
    ensures { IfOk result
        (IsChange books.now.ledger ranges.now locks.now.table session.now call.now.parts.now call.now.stock.now) }
{
    let numbers = draws_and(alloc, session, call.stock)?;
    let levels = settled_rows(alloc, ranges, books, numbers.as_slice())?;
    if effects_in(call.parts) == 0 {
        return Ok(Change::Numbers(NewNumbers {
            unit: unit_key(books.start(), session),
            numbers: Items::from_vec(numbers),
            levels: Items::from_vec(levels),
        }));
    }
    let unit = unit_of(alloc, books.start(), locks, session, call.parts, numbers)?;
    Ok(Change::Unit(NewUnit {
        unit,
        levels: Items::from_vec(levels),
    }))
}

/// What a session has drawn, and behind it the numbers of a stock.
fn draws_and(alloc: Global, session: &Session, stock: &[Num]) -> Result<Vec<Num>, NoMemory>
    ensures { IfOk result (λ numbers. numbers.items ≡ session.now.draws ++ stock.now) }
{
    let mut numbers = Vec::from_slice(alloc, session.draws.as_slice())?;
    numbers.extend_from_slice(stock)?;
    Ok(numbers)
}

/// Records a unit whose locks are handed over: its list goes into the backup file first, and then the unit into the
/// store.
fn record_unit<T: LockStore, K: Keeper, D: Disk, L: Link>(
    alloc: Global,
    sessions: &mut Sessions,
    locks: &mut EnqServer<T, D, L>,
    books: &mut Books<K>,
    name: &Name,
    made: NewUnit,
) -> Written
    requires usable { IsUsable K.held K.is_open books.old }
    requires marks { HasMarksLeft books.old.ledger }
    requires fresh { IsNewUnit books.old.ledger made.unit }
    requires store { MayStore books.old.ledger made.levels made.unit.numbers }
    requires young { AllByRecursion (IsYoung 262145) sessions.old }
    requires commits { IsOfCommit books.old.ledger made.unit locks.old.table.entries }
    requires filed { HasOpenLists D.tells D.reads D.may_leave books.old.ledger locks.old.file }
    ensures outcome { RecordsUnit sessions.old sessions.new locks.old.table.entries locks.new.table.entries
        books.old.ledger books.new.ledger
        name.now made.unit made.levels result }
    ensures serves { ServesOn L.applied L.faults L.refusals locks.old locks.new }
    ensures file { FilesAs D.tells D.reads D.may_leave D.faults books.new.ledger locks.old.file locks.new.file result }
    ensures table { OnFailure result (locks.new.table ≡ locks.old.table) }
    ensures sessions { OnFailure result (sessions.new ≡ sessions.old) }
    ensures store { EndsAs K.held K.is_open K.may_leave K.faults books.old books.new result }
{
    match save(alloc, locks, books, &made) {
        Ok(prepared) => record_saved(
            alloc,
            sessions,
            locks,
            books,
            name,
            SavedUnit { made, prepared },
        ),
        Err(fault) => unsaved(fault),
    }
}

/// Makes ready to record a unit, and writes its list into the backup file.
fn save<T: LockStore, K: Keeper, D: Disk, L: Link>(
    alloc: Global,
    locks: &mut EnqServer<T, D, L>,
    books: &mut Books<K>,
    made: &NewUnit,
) -> Result<Prepared, WriteFault>
    requires usable { IsUsable K.held K.is_open books.old }
    requires marks { HasMarksLeft books.old.ledger }
    requires fresh { IsNewUnit books.old.ledger made.now.unit }
    requires store { MayStore books.old.ledger made.now.levels made.now.unit.numbers }
    requires commits { IsOfCommit books.old.ledger made.now.unit locks.old.table.entries }
    requires filed { HasOpenLists D.tells D.reads D.may_leave books.old.ledger locks.old.file }
    ensures ready { IfOk result (λ p. IsReady K.held K.has_room books.new p) }
    ensures step { IfOk result (λ p. p.step ≡ Record made.now.unit made.now.levels) }
    ensures usable { IsUsable K.held K.is_open books.new }
    ensures unmoved { IsUnmoved K.held K.may_leave K.faults books.old books.new }
    ensures list { SavesList D.tells D.reads D.may_leave D.faults books.old.ledger made.now.unit made.now.levels
        locks.old locks.new result }
{
    let Ok(prepared) = prepare_unit(alloc, books, &made.unit, made.levels.as_slice()) else {
        return Err(WriteFault::NoMemory);
    };
    match locks.save(alloc, &made.unit.key, &made.unit.user) {
        Ok(_) => Ok(prepared),
        Err(fault) => {
            drop(prepared);
            Err(fault)
        }
    }
}

/// How a call ends whose unit isn't written into the backup file.
fn unsaved(fault: WriteFault) -> Written
    ensures { result ≡ unsaved fault }
{
    match fault {
        WriteFault::NoMemory => Written::Answered(Reply::Refused(Refusal::NoMemory)),
        WriteFault::Failed => Written::Unfiled,
    }
}

/// Records a unit that was made ready and whose list the backup file has. Then its locks are flagged as handed over.
fn record_saved<T: LockStore, K: Keeper, D: Disk, L: Link>(
    alloc: Global,
    sessions: &mut Sessions,
    locks: &mut EnqServer<T, D, L>,
    books: &mut Books<K>,
    name: &Name,
    saved: SavedUnit,
) -> Written
    requires usable { IsUsable K.held K.is_open books.old }
    requires ready { IsReady K.held K.has_room books.old saved.prepared }
    requires step { saved.prepared.step ≡ Record saved.made.unit saved.made.levels }
    requires young { AllByRecursion (IsYoung 262145) sessions.old }
    requires saved { IsSaved D.tells D.reads D.may_leave books.old.ledger
        (with_intervals saved.made.levels (with_unit books.old.ledger saved.made.unit)) locks.old.file }
    ensures outcome { RecordsUnit sessions.old sessions.new locks.old.table.entries locks.new.table.entries
        books.old.ledger books.new.ledger
        name.now saved.made.unit saved.made.levels result }
    ensures serves { ServesOn L.applied L.faults L.refusals locks.old locks.new }
    ensures file { FilesAs D.tells D.reads D.may_leave D.faults books.new.ledger locks.old.file locks.new.file result }
    ensures answered { IsUnrefused result }
    ensures table { OnFailure result (locks.new.table ≡ locks.old.table) }
    ensures sessions { OnFailure result (sessions.new ≡ sessions.old) }
    ensures store { EndsAs K.held K.is_open K.may_leave K.faults books.old books.new result }
{
    let SavedUnit { made, prepared } = saved;
    match write(books, prepared) {
        Ok(()) => {
            locks.flag(&made.unit.key);
            sessions.begin_unit(alloc, name);
            Written::Answered(Reply::Unit(made.unit.key))
        }
        Err(_) => Written::Failed(Some(Step::Record {
            unit: made.unit,
            levels: made.levels,
        })),
    }
}

/// Records numbers alone, and the session has none drawn.
fn record_numbers<K: Keeper>(
    alloc: Global,
    sessions: &mut Sessions,
    books: &mut Books<K>,
    name: &Name,
    drawn: NewNumbers,
) -> Written
    requires usable { IsUsable K.held K.is_open books.old }
    requires marks { HasMarksLeft books.old.ledger }
    requires drawing { IsDrawing books.old.ledger drawn.unit drawn.numbers }
    requires store { MayStore books.old.ledger drawn.levels drawn.numbers }
    ensures outcome { RecordsNumbers sessions.old sessions.new books.old.ledger books.new.ledger name.now drawn.unit
        drawn.numbers drawn.levels result }
    ensures sessions { OnFailure result (sessions.new ≡ sessions.old) }
    ensures store { EndsAs K.held K.is_open K.may_leave K.faults books.old books.new result }
{
    let numbers = drawn.numbers.as_slice();
    let levels = drawn.levels.as_slice();
    match write_numbers(alloc, books, &drawn.unit, numbers, levels) {
        Ok(()) => {
            sessions.settle_draws(alloc, name);
            Written::Answered(Reply::Done)
        }
        Err(KeepFault::NoMemory) => Written::Answered(Reply::Refused(Refusal::NoMemory)),
        Err(KeepFault::Failed) => Written::Failed(Some(Step::Draw {
            unit: drawn.unit,
            numbers: drawn.numbers,
            levels: drawn.levels,
        })),
    }
}

/// Reads a business row on behalf of a session.
pub(crate) fn read<K: Keeper>(
    alloc: Global,
    sessions: &Sessions,
    books: &mut Books<K>,
    name: &Name,
    table: &Name,
    key: &Key,
) -> Written
    requires usable { IsUsable K.held K.is_open books.old }
    ensures act { (s : State) → s.sessions ≡ sessions.now → s.told ≡ is_some (K.held books.old.keeper)
        → s.stored ≡ books.old.ledger → s.in_flight ≡ None → Admits s (command.Read name.now table.now key.now)
        → IsWritten s (command.Read name.now table.now key.now) (record s { stored = books.new.ledger }) result }
    ensures levels { ChangesLevels books.old.ledger books.new.ledger result }
    ensures ledger { books.new.ledger ≡ books.old.ledger }
    ensures usable { OnAnswer result (IsUsable K.held K.is_open books.new) }
    ensures told { is_some (K.held books.new.keeper) ≡ is_some (K.held books.old.keeper) }
    ensures left { LeavesWritten K.held K.may_leave books.new result }
    ensures cause { HasStoreCause (K.faults books.old.keeper) (K.faults books.new.keeper) (written_reply result) }
    ensures kept { KeepsStore K.held K.may_leave books.old.keeper books.new.keeper (written_reply result) }
{
    if let Err(refusal) = session_of(sessions, name) {
        return Written::Answered(Reply::Refused(refusal));
    }
    match books.read(alloc, table, key) {
        Ok(text) => Written::Answered(Reply::Row(text)),
        Err(KeepFault::NoMemory) => Written::Answered(Reply::Refused(Refusal::NoMemory)),
        Err(KeepFault::Failed) => Written::Failed(None),
    }
}

/// Cancels a unit that waits for its V1 part, or of which a part was refused. The locks of one that waits end, in the
/// backup file and then in the table.
pub(crate) fn cancel<T: LockStore, K: Keeper, D: Disk, L: Link>(
    alloc: Global,
    orders: &[Option<UnitKey>],
    locks: &mut EnqServer<T, D, L>,
    books: &mut Books<K>,
    unit: UnitKey,
    max_marks: u32,
) -> Written
    requires usable { IsUsable K.held K.is_open books.old }
    requires limited { max_marks ≤ 1048576 }
    requires places { length orders.now ≡ 256 }
    requires filed { HasOpenLists D.tells D.reads D.may_leave books.old.ledger locks.old.file }
    ensures act { (s : State) → s.orders ≡ orders.now → s.locks ≡ locks.old.table.entries
        → s.stored ≡ books.old.ledger → s.mark_limit ≡ max_marks → Admits s (command.Cancel unit)
        → IsWritten s (command.Cancel unit)
        (record s { locks = locks.new.table.entries; stored = books.new.ledger })
        result }
    ensures limit { locks.new.table.limit ≡ locks.old.table.limit }
    ensures standing { locks.new.stands ≡ locks.old.stands }
    ensures file { FilesAs D.tells D.reads D.may_leave D.faults books.new.ledger locks.old.file locks.new.file result }
    ensures replica { KeepsOn L.applied L.faults L.refusals locks.old.replica locks.new.replica }
    ensures lost { IsLostWith locks.old.replica locks.new.replica locks.old.table locks.new.table }
    ensures table { OnFailure result (locks.new.table ≡ locks.old.table) }
    ensures ledger { OnStoreFailure result (books.new.ledger ≡ books.old.ledger) }
    ensures usable { OnAnswer result (IsUsable K.held K.is_open books.new) }
    ensures told { is_some (K.held books.new.keeper) ≡ is_some (K.held books.old.keeper) }
    ensures left { LeavesWritten K.held K.may_leave books.new result }
    ensures cause { HasStoreCause (K.faults books.old.keeper) (K.faults books.new.keeper) (written_reply result) }
    ensures kept { KeepsStore K.held K.may_leave books.old.keeper books.new.keeper (written_reply result) }
{
    match to_cancel(orders, books, &unit, max_marks) {
        Ok(status) => cancel_unit(alloc, locks, books, unit, status),
        Err(refusal) => Written::Answered(Reply::Refused(refusal)),
    }
}

/// Cancels a unit of such a status.
fn cancel_unit<T: LockStore, K: Keeper, D: Disk, L: Link>(
    alloc: Global,
    locks: &mut EnqServer<T, D, L>,
    books: &mut Books<K>,
    unit: UnitKey,
    status: Status,
) -> Written
    requires usable { IsUsable K.held K.is_open books.old }
    requires marks { HasMarksLeft books.old.ledger }
    requires status { status_of books.old.ledger.units books.old.ledger.marks unit ≡ Some status }
    requires allowed { step.may_cancel status ≡ true }
    requires filed { HasOpenLists D.tells D.reads D.may_leave books.old.ledger locks.old.file }
    ensures act { (s : State) → s.locks ≡ locks.old.table.entries → s.stored ≡ books.old.ledger
        → step.to_cancel books.old.ledger s.orders s.mark_limit unit ≡ Ok status
        → Admits s (command.Cancel unit)
        → IsWritten s (command.Cancel unit)
        (record s { locks = locks.new.table.entries; stored = books.new.ledger })
        result }
    ensures serves { ServesOn L.applied L.faults L.refusals locks.old locks.new }
    ensures table { OnFailure result (locks.new.table ≡ locks.old.table) }
    ensures file { FilesAs D.tells D.reads D.may_leave D.faults books.new.ledger locks.old.file locks.new.file result }
    ensures store { EndsAs K.held K.is_open K.may_leave K.faults books.old books.new result }
{
    let Ok(prepared) = books.prepare_mark(alloc, &unit, MarkKind::Gone) else {
        return Written::Answered(Reply::Refused(Refusal::NoMemory));
    };
    let noted = Noted {
        unit,
        kind: MarkKind::Gone,
        ends: is_open(status),
        reply: Reply::Unit(unit),
    };
    note(locks, books, prepared, noted)
}

/// The status of a unit that can be cancelled, or why it can't be.
fn to_cancel<K: Keeper>(
    orders: &[Option<UnitKey>],
    books: &Books<K>,
    unit: &UnitKey,
    max_marks: u32,
) -> Result<Status, Refusal>
    requires { length orders.now ≡ 256 }
    ensures { result ≡ step.to_cancel books.now.ledger orders.now max_marks unit.now }
{
    let Some(status) = books.status(unit) else {
        return Err(Refusal::UnknownUnit);
    };
    if !may_cancel(status) {
        return Err(Refusal::WrongStatus {
            unit: *unit,
            status,
        });
    }
    if let Some(worker) = worker_of(orders, unit) {
        return Err(Refusal::UnitClaimed(worker));
    }
    if is_full(books, max_marks) {
        return Err(Refusal::StoreFull(max_marks));
    }
    Ok(status)
}

fn may_cancel(status: Status) -> bool
    ensures { result ≡ step.may_cancel status }
{
    matches!(status, Status::Open | Status::Bad | Status::Bad2)
}

fn is_open(status: Status) -> bool
    ensures { result ≡ is_open status }
{
    matches!(status, Status::Open)
}

/// Tries the part of a unit again that was refused. For its V1 part the unit's stored locks have to stand again, all or
/// none; the unit waits behind all others.
pub(crate) fn resubmit<T: LockStore, K: Keeper, D: Disk, L: Link>(
    alloc: Global,
    locks: &mut EnqServer<T, D, L>,
    books: &mut Books<K>,
    unit: UnitKey,
    max_marks: u32,
) -> Written
    requires stands { locks.old.stands ≡ true }
    requires usable { IsUsable K.held K.is_open books.old }
    requires limited { max_marks ≤ 1048576 }
    requires stored { AllByRecursion HasGoodLocks books.old.ledger.units }
    requires filed { HasOpenLists D.tells D.reads D.may_leave books.old.ledger locks.old.file }
    ensures act { (s : State) → s.locks ≡ locks.old.table.entries → s.limit ≡ locks.old.table.limit
        → s.stored ≡ books.old.ledger → s.mark_limit ≡ max_marks → Admits s (command.Resubmit unit)
        → IsWritten s (command.Resubmit unit)
        (record s { locks = locks.new.table.entries; stored = books.new.ledger })
        result }
    ensures limit { locks.new.table.limit ≡ locks.old.table.limit }
    ensures standing { locks.new.stands ≡ locks.old.stands }
    ensures file { FilesAs D.tells D.reads D.may_leave D.faults books.new.ledger locks.old.file locks.new.file result }
    ensures replica { KeepsOn L.applied L.faults L.refusals locks.old.replica locks.new.replica }
    ensures lost { IsLostWith locks.old.replica locks.new.replica locks.old.table locks.new.table }
    ensures table { OnFailure result
        ((locks.new.table ≡ locks.old.table) ⊎ IsRegained books.old.ledger unit locks.old.table
        locks.new.table.entries) }
    ensures ledger { OnStoreFailure result (books.new.ledger ≡ books.old.ledger) }
    ensures usable { OnAnswer result (IsUsable K.held K.is_open books.new) }
    ensures told { is_some (K.held books.new.keeper) ≡ is_some (K.held books.old.keeper) }
    ensures left { LeavesWritten K.held K.may_leave books.new result }
    ensures cause { HasStoreCause (K.faults books.old.keeper) (K.faults books.new.keeper) (written_reply result) }
    ensures kept { KeepsStore K.held K.may_leave books.old.keeper books.new.keeper (written_reply result) }
{
    match to_resubmit(books, &unit, max_marks) {
        Ok(Status::Bad) => reopen(alloc, locks, books, unit),
        Ok(_) => repost(alloc, locks, books, unit),
        Err(refusal) => Written::Answered(Reply::Refused(refusal)),
    }
}

/// The same of a unit whose V1 part was refused.
fn reopen<T: LockStore, K: Keeper, D: Disk, L: Link>(
    alloc: Global,
    locks: &mut EnqServer<T, D, L>,
    books: &mut Books<K>,
    unit: UnitKey,
) -> Written
    requires stands { locks.old.stands ≡ true }
    requires usable { IsUsable K.held K.is_open books.old }
    requires stored { AllByRecursion HasGoodLocks books.old.ledger.units }
    requires marks { HasMarksLeft books.old.ledger }
    requires follows { MayGet books.old.ledger unit Again1 }
    requires filed { HasOpenLists D.tells D.reads D.may_leave books.old.ledger locks.old.file }
    ensures act { (s : State) → s.locks ≡ locks.old.table.entries → s.limit ≡ locks.old.table.limit
        → s.stored ≡ books.old.ledger → step.to_resubmit books.old.ledger s.mark_limit unit ≡ Ok Status.Bad
        → Admits s (command.Resubmit unit)
        → IsWritten s (command.Resubmit unit)
        (record s { locks = locks.new.table.entries; stored = books.new.ledger })
        result }
    ensures serves { ServesOn L.applied L.faults L.refusals locks.old locks.new }
    ensures table { OnFailure result
        ((locks.new.table ≡ locks.old.table) ⊎ IsRegained books.old.ledger unit locks.old.table
        locks.new.table.entries) }
    ensures file { FilesAs D.tells D.reads D.may_leave D.faults books.new.ledger locks.old.file locks.new.file result }
    ensures store { EndsAs K.held K.is_open K.may_leave K.faults books.old books.new result }
{
    let Ok(prepared) = books.prepare_mark(alloc, &unit, MarkKind::Again1) else {
        return Written::Answered(Reply::Refused(Refusal::NoMemory));
    };
    match regain(alloc, locks, books, &unit) {
        Ok(()) => note_again(books, prepared, unit, MarkKind::Again1),
        Err(fault) => ungranted(fault),
    }
}

/// The locks that were stored with a unit stand again, all or none, and the backup file has them.
fn regain<T: LockStore, K: Keeper, D: Disk, L: Link>(
    alloc: Global,
    locks: &mut EnqServer<T, D, L>,
    books: &Books<K>,
    unit: &UnitKey,
) -> Result<(), ServerFault>
    requires stands { locks.old.stands ≡ true }
    requires usable { locks.old.file.failed ≡ false }
    requires stored { AllByRecursion HasGoodLocks books.now.ledger.units }
    ensures again { Readmits D.tells D.reads D.may_leave D.faults (owners_of unit.now) unit.now
        (entries_of books.now.ledger.units unit.now) locks.old locks.new result }
    ensures serves { ServesOn L.applied L.faults L.refusals locks.old locks.new }
{
    let Ok(entries) = books.unit_locks(alloc, unit) else {
        return Err(ServerFault::NoMemory);
    };
    let owners = owners_of(unit);
    locks.readmit(alloc, &owners, unit, entries.as_slice())
}

/// Writes the mark of a unit whose refused part is tried again.
fn note_again<K: Keeper>(
    books: &mut Books<K>,
    prepared: Prepared,
    unit: UnitKey,
    kind: MarkKind,
) -> Written
    requires usable { IsUsable K.held K.is_open books.old }
    requires ready { IsReady K.held K.has_room books.old prepared }
    requires step { prepared.step ≡ Note unit kind }
    ensures outcome { IsMarked books.old.ledger books.new.ledger unit kind result }
    ensures store { EndsAs K.held K.is_open K.may_leave K.faults books.old books.new result }
{
    match write(books, prepared) {
        Ok(()) => Written::Answered(Reply::Unit(unit)),
        Err(_) => Written::Failed(Some(Step::Note { unit, kind })),
    }
}

/// How a call ends whose locks aren't granted again, or aren't written into the backup file.
fn ungranted(fault: ServerFault) -> Written
    ensures { result ≡ ungranted fault }
{
    match fault {
        ServerFault::Ask(fault) => Written::Answered(Reply::Refused(table_refusal_of(fault))),
        ServerFault::Failed => Written::Unfiled,
        ServerFault::NoMemory => Written::Answered(Reply::Refused(Refusal::NoMemory)),
    }
}

/// The same of a unit whose V2 part was refused. It has no locks.
fn repost<T: LockStore, K: Keeper, D: Disk, L: Link>(
    alloc: Global,
    locks: &EnqServer<T, D, L>,
    books: &mut Books<K>,
    unit: UnitKey,
) -> Written
    requires usable { IsUsable K.held K.is_open books.old }
    requires marks { HasMarksLeft books.old.ledger }
    requires follows { MayGet books.old.ledger unit Again2 }
    requires filed { HasOpenLists D.tells D.reads D.may_leave books.old.ledger locks.now.file }
    ensures act { (s : State) → s.locks ≡ locks.now.table.entries → s.stored ≡ books.old.ledger
        → step.to_resubmit books.old.ledger s.mark_limit unit ≡ Ok Status.Bad2 → Admits s (command.Resubmit unit)
        → IsWritten s (command.Resubmit unit)
        (record s { locks = locks.now.table.entries; stored = books.new.ledger })
        result }
    ensures file { FilesAs D.tells D.reads D.may_leave D.faults books.new.ledger locks.now.file locks.now.file result }
    ensures store { EndsAs K.held K.is_open K.may_leave K.faults books.old books.new result }
{
    let Ok(prepared) = books.prepare_mark(alloc, &unit, MarkKind::Again2) else {
        return Written::Answered(Reply::Refused(Refusal::NoMemory));
    };
    note_again(books, prepared, unit, MarkKind::Again2)
}

/// The status of a unit that can be tried again, or why it can't be.
fn to_resubmit<K: Keeper>(
    books: &Books<K>,
    unit: &UnitKey,
    max_marks: u32,
) -> Result<Status, Refusal>
    ensures { result ≡ step.to_resubmit books.now.ledger max_marks unit.now }
{
    match books.status(unit) {
        None => Err(Refusal::UnknownUnit),
        Some(Status::Bad | Status::Bad2) if is_full(books, max_marks) => {
            Err(Refusal::StoreFull(max_marks))
        }
        Some(status @ (Status::Bad | Status::Bad2)) => Ok(status),
        Some(status) => Err(Refusal::WrongStatus {
            unit: *unit,
            status,
        }),
    }
}

/// The dialogue of the session that recorded a unit, and the unit's update.
fn owners_of(unit: &UnitKey) -> Asker
    ensures { result ≡ owners_of unit.now }
{
    Asker {
        dialogue: Owner::Dlg {
            start: unit.start,
            session: unit.session,
        },
        update: Owner::Upd(*unit),
    }
}

/// Whether the store has as many marks as it may.
fn is_full<K: Keeper>(books: &Books<K>, max_marks: u32) -> bool
    ensures { result ≡ nat_le max_marks (length books.now.ledger.marks) }
{
    books.marks() >= max_marks
}

/// How many effects both parts have.
fn effects_in(parts: &Parts) -> usize
    ensures { result ≡ step.effects_in parts.now }
{
    parts.v1.as_slice().len() + parts.v2.as_slice().len()
}

/// The unit that a session has open, with its locks as they are handed over, under the session's user.
fn unit_of<T: LockStore, D: Disk, L: Link>(
    alloc: Global,
    start: u32,
    locks: &EnqServer<T, D, L>,
    session: &Session,
    parts: &Parts,
    numbers: Vec<Num>,
) -> Result<Unit, NoMemory>
    ensures unit { IfOk result
        (λ unit. unit ≡ step.unit_of start locks.now.table.entries session.now parts.now numbers.items) }
    ensures good { IfOk result (λ _. IsTable locks.now.table) }
{
    let key = unit_key(start, session);
    Ok(Unit {
        key,
        user: session.user,
        numbers: Items::from_vec(numbers),
        parts: parts.copy(alloc)?,
        entries: Items::from_vec(handed_locks(alloc, locks, &session.user, &key)?),
    })
}

/// The locks of a unit as they are handed over to the update, under this user.
fn handed_locks<T: LockStore, D: Disk, L: Link>(
    alloc: Global,
    locks: &EnqServer<T, D, L>,
    user: &Name,
    unit: &UnitKey,
) -> Result<Vec<Entry>, NoMemory>
    ensures locks { IfOk result
        (λ entries. entries.items ≡ step.handed_locks user.now locks.now.table.entries unit.now) }
    ensures good { IfOk result (λ _. IsTable locks.now.table) }
{
    let mut entries = locks.entries_of(alloc, &Owner::Upd(*unit))?;
    hand_over(&mut entries, unit);
    put_under(entries.as_mut_slice(), user);
    Ok(entries)
}

fn put_under(entries: &mut [Entry], user: &Name)
    ensures { entries.new ≡ of_user user.now entries.old }
{
    for entry in entries.iter_mut() {
        entry.user = *user;
    }
}
