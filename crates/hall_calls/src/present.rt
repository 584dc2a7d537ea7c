ghost use Rattle.hall_calls.specs.Drafting.{IsDraft};
ghost use Rattle.hall_calls.specs.Remaking.{over_refusal};
ghost use Rattle.std.specs.Prelude.{◌≡◌, ◌≢◌, ◌&&◌, ℕ, ◌+◌, List, [], if◌then◌else◌, true, false, length, replicate, Option, None, IfOk, IfSome, is_some, IsTrue};
ghost use Rattle.std.specs.List.{All};
ghost use Rattle.enq_server.specs.Replica.{IsLater, KeepsOn, told_list};
ghost use Rattle.enq_server.specs.Server.{recovered};
ghost use Rattle.ledger_steps.specs.Views.{TellsRefusal, open_locks};
ghost use Rattle.hall_model.specs.declared.command.Command.TheVariants as command;
ghost use Rattle.hall_model.specs.Acts.{IsTelling};
ghost use Rattle.hall_calls.specs.Written.{OnAnswer, written_condition, written_failure, written_reply, written_sessions};
ghost use Rattle.hall_model.specs.Kept.{IsDrawn, IsKept};
ghost use Rattle.ledger_steps.specs.Levels.{first_ranges, intervals_of};
ghost use Rattle.hall_calls.specs.Filing.{HasFileCause, HasOpenLists, KeepsFile, LeavesLists};
ghost use Rattle.hall_calls.specs.Leaving.{HasStoreCause, KeepsStore, LeavesState};
ghost use Rattle.keeper_api.specs.Keeping.{IsWithin};
ghost use Rattle.hall_model.specs.Calls.{call_of, fails_over, post_of, renews_replica, restarts, take_of, touches_file};
ghost use Rattle.hall_model.specs.Devices.{reaches_store};
ghost use Rattle.hall_calls.specs.Serving.{HasLinkCause, IsAnswered, IsDue, IsOver, Serves, is_of_locks, with_calls};
ghost use Rattle.hall_calls.specs.Standing.{IsEnded};
ghost use Rattle.hall_model.specs.Sessions.{has_one_of, with_marks};
ghost use Rattle.hall_model.specs.State.{attached_in, is_honest, is_up, opened, seen_locks, unhanded};
ghost use Rattle.hall_model.specs.Unsound.{is_unsound_file, is_unsound_replica, is_unsound_store};
ghost use Rattle.hall_model.specs.Stocks.{IsStockIn, MayCall};
ghost use Rattle.hall_model.specs.History.{after_of, is_unrecorded};
ghost use Rattle.hall_model.specs.Step.{barred, is_full, unavailable};
ghost use Rattle.hall_model.specs.Views.{marks_shown, numbers_shown, ranges_shown, units_shown, waiting_shown};
ghost use Rattle.posting.specs.BooksView.{IsUsable};

use crate::barring::{caller_refusal, down_refusal, server_refusal};
use crate::drafting::draft_for;
use crate::locks::lock;
use crate::numbers::{NumberCall, draw, reserve};
use crate::orders::{drop_order, take, waiting};
use crate::remaking::{Basis, remake, settled};
use crate::sessions::{Sessions, log_on};
use crate::shown::shown_ranges;
use crate::units::{CommitCall, Failure, PostCall, Written, cancel, commit, post, read, resubmit};
use bk_disk::Disk;
use enq_base::{Bad, Condition, Key, Name, NoMemory, Num, Parts, Refusal, UnitKey};
use enq_server::{EnqServer, OverFault};
use hall_model::{After, Answer, Command, PastEntry, Reply};
use keeper_api::Keeper;
use ledger_laws::views_tell_refusals;
use ledger_steps::Part;
use lock_entry::{Entry, LockStore};
use number_ranges::Range;
use posting::{Books, Draft, Worked};
use range_list::Ranges;
use replica_link::{Link, LinkFault};
use std::alloc::Global;
use std::marker::Model;
use update_records::UnitView;

/// How many calls a history keeps.
pub const HISTORY_LIMIT: usize = 262_144;

/// How many locks and how many marks there may be.
#[derive(Clone, Copy)]
pub struct Limits {
    pub max_locks: u32,
    pub max_marks: u32,
}

/// What is present: all that calls change, without what is past. `Hall` has both, the present and the history of calls
/// that led to it. It is seen as a state without a history, and the devices.
#[derive(Drop)]
pub struct Present<T: LockStore, K: Keeper, D: Disk, L: Link> {
    pub(crate) condition: Condition,
    /// Whether the last table came from a replica.
    pub(crate) taken_over: bool,
    pub(crate) sessions: Sessions,
    pub(crate) next_session: u32,
    pub(crate) orders: Vec<Option<UnitKey>>,
    pub(crate) locks: EnqServer<T, D, L>,
    pub(crate) max_locks: u32,
    pub(crate) max_marks: u32,
    pub(crate) ranges: Ranges,
    pub(crate) books: Books<K>,
    pub(crate) failure: Failure,
}

impl<T: LockStore, K: Keeper, D: Disk, L: Link> Model for Present<T, K, D, L> {
    ghost use Rattle.hall_calls.specs.View.{View};
    ghost use Rattle.hall_model.specs.State.{state_of};

    ghost Value = { View K D L };

    ghost use Rattle.std.specs.Coded.{codes};
    ghost use Rattle.update_records.specs.Codes.{levels_code};

    ghost coded = { Prim.hlevel (codes, levels_code, K.code, D.code, L.code) };

    ghost use Rattle.std.specs.Prelude.{[], is_some};
    ghost use Rattle.enq_server.specs.Replica.{told_list};
    ghost use Rattle.hall_calls.specs.Remaking.{flight_over};
    ghost use Rattle.hall_calls.specs.Standing.{IsPresent};

    ghost view = { λ h. record {
      state = state_of (is_some (K.held h.books.keeper)) (is_some (L.applied h.locks.replica.link))
          h.locks.replica.attached h.taken_over h.condition h.sessions h.next_session h.orders.items h.locks.table
          (told_list L.applied h.locks.replica) h.max_locks h.max_marks h.ranges h.books.ledger
          (flight_over h.books.ledger h.failure) h.failure.found h.failure.caller [];
      keeper = h.books.keeper;
      file = h.locks.file;
      replica = h.locks.replica;
    } };

    ghost invariant = { λ h. IsPresent K.held K.is_open K.may_leave D.tells D.reads D.may_leave h.condition h.books
        h.failure h.locks };
}

/// A call that uses store and backup file: its number, that of the start, and the session that makes it, if one does.
#[derive(Drop)]
struct StoreCall {
    number: u64,
    start: u32,
    caller: Option<Name>,
}

impl<T: LockStore, K: Keeper, D: Disk, L: Link> Present<T, K, D, L> {
    /// What is present at a start, before any call.
    pub fn first(
        alloc: Global,
        locks: EnqServer<T, D, L>,
        orders: Vec<Option<UnitKey>>,
        ranges: Ranges,
        limits: Limits,
        books: Books<K>,
    ) -> Present<T, K, D, L>
        requires usable { IsUsable K.held K.is_open books }
        requires stands { locks.stands ≡ true }
        requires locks { locks.table ≡ recovered limits.max_locks (open_locks books.ledger) }
        requires filed { HasOpenLists D.tells D.reads D.may_leave books.ledger locks.file }
        requires detached { locks.replica.attached ≡ false }
        requires orders { orders.items ≡ replicate 256 None }
        requires levels { ranges ≡ first_ranges books.ledger.levels (intervals_of ranges) }
        ensures state { result.state ≡ opened limits.max_locks limits.max_marks (intervals_of ranges)
            (is_some (K.held books.keeper))
            (is_some (L.applied locks.replica.link)) books.ledger }
        ensures keeper { result.keeper ≡ books.keeper }
        ensures file { result.file ≡ locks.file }
        ensures replica { result.replica ≡ locks.replica }
        ensures left { LeavesState K.held K.may_leave result }
        ensures lists { LeavesLists D.tells D.may_leave result }
    {
        Present {
            condition: Condition::Up,
            taken_over: false,
            sessions: Sessions::new(alloc),
            next_session: 1,
            orders,
            locks,
            max_locks: limits.max_locks,
            max_marks: limits.max_marks,
            ranges,
            books,
            failure: Failure::none(),
        }
    }

    /// Whether the server is up, and if not since when.
    pub fn condition(&self) -> Condition
        ensures { result ≡ self.now.state.condition }
    {
        self.condition
    }

    /// What the V1 part is worked from that a worker has an order for: none where the server isn't up, or the worker
    /// has no such order.
    pub fn draft(&self, alloc: Global, worker: u8) -> Result<Option<Draft>, NoMemory>
        ensures { IfOk result (IsDraft self.now.state worker) }
    {
        match self.condition {
            Condition::Up => draft_for(alloc, self.orders.as_slice(), &self.books, worker),
            Condition::NoServer | Condition::Doubt(_) => Ok(None),
        }
    }

    /// Whether a replica follows the table, also where the lock server was ended. A doubt detaches it.
    pub fn attached(&self) -> bool
        ensures flag { result ≡ self.now.state.attached }
        ensures replica { IsTrue result
            → IfSome (L.applied self.now.replica.link) (λ list. list ≡ self.now.state.locks) }
    {
        match self.condition {
            Condition::Up | Condition::NoServer => self.locks.attached(),
            Condition::Doubt(_) => false,
        }
    }

    /// What stands now, as the history keeps it of the last call, which as a restart that was done has found the change
    /// in flight in the store, or hasn't.
    pub fn after(&self, taken: bool) -> After
        ensures { result ≡ after_of taken self.now.state }
    {
        After {
            condition: self.condition,
            attached: self.attached(),
            taken,
        }
    }

    /// The locks in the order in which they were granted: none where the server isn't up.
    pub fn entries(&self, alloc: Global) -> Result<Vec<Entry>, NoMemory>
        ensures { IfOk result (λ list. list.items ≡ seen_locks self.now.state) }
    {
        match self.condition {
            Condition::Up => self.locks.list(alloc),
            Condition::NoServer => Ok(Vec::new(alloc)),
            Condition::Doubt(_) => Ok(Vec::new(alloc)),
        }
    }

    /// How many locks may stand at once.
    pub fn max_locks(&self) -> u32
        ensures { result ≡ self.now.state.max_locks }
    {
        self.max_locks
    }

    /// What is told of each recorded unit, a refusal just of one that is `Bad` or `Bad2`: nothing where the server is
    /// in doubt.
    pub fn units(&self, alloc: Global) -> Result<Vec<UnitView>, NoMemory>
        ensures shown { IfOk result (λ units. units.items ≡ units_shown self.now.state) }
        ensures refused { IfOk result (λ units. All TellsRefusal units.items) }
    {
        views_tell_refusals();
        match self.condition {
            Condition::Up | Condition::NoServer => self.books.views(alloc),
            Condition::Doubt(_) => Ok(Vec::new(alloc)),
        }
    }

    /// The number ranges in the order of the landscape, each as it stands.
    pub fn ranges(&self, alloc: Global) -> Result<Vec<Range>, NoMemory>
        requires drawn { IsDrawn self.now.state }
        ensures { IfOk result (λ ranges. ranges.items ≡ ranges_shown self.now.state) }
    {
        shown_ranges(alloc, &self.sessions, self.ranges.as_slice(), &self.books)
    }

    /// How many marks there are: none where the server is in doubt.
    pub fn marks(&self) -> u32
        ensures { result ≡ marks_shown self.now.state }
    {
        match self.condition {
            Condition::Up | Condition::NoServer => self.books.marks(),
            Condition::Doubt(_) => 0,
        }
    }

    /// How many units wait for a part: none where the server is in doubt.
    pub fn waiting(&self, part: Part) -> u32
        ensures { result ≡ waiting_shown part self.now.state }
    {
        match self.condition {
            Condition::Up | Condition::NoServer => waiting(&self.books, part),
            Condition::Doubt(_) => 0,
        }
    }

    /// How many locks stand: none where the server isn't up.
    pub fn lock_count(&self) -> u32
        ensures { result ≡ length (seen_locks self.now.state) }
    {
        match self.condition {
            Condition::Up => self.locks.len(),
            Condition::NoServer => 0,
            Condition::Doubt(_) => 0,
        }
    }

    /// How many numbers were committed: none where the server is in doubt.
    pub fn numbers(&self) -> u64
        ensures { result ≡ numbers_shown self.now.state }
    {
        match self.condition {
            Condition::Up | Condition::NoServer => self.books.numbers(),
            Condition::Doubt(_) => 0,
        }
    }

    /// The keeper, the disk and the link, as the last call left them.
    pub fn into_devices(self) -> (K, D, L)
        ensures keeper { result.0 ≡ self.keeper }
        ensures disk { result.1 ≡ self.file.disk }
        ensures link { result.2 ≡ self.replica.link }
    {
        let Present {
            locks,
            books,
            failure,
            ..
        } = self;
        drop(failure);
        let (disk, link) = locks.into_parts();
        (books.into_keeper(), disk, link)
    }

    /// Tells what holds of all that is present: what a stop may leave in the store and in the backup file stands for
    /// the state, which has whether the link tells its list.
    pub fn read_invariant(&self)
        ensures left { LeavesState K.held K.may_leave self.now }
        ensures lists { LeavesLists D.tells D.may_leave self.now }
        ensures link { self.now.state.link_told ≡ is_some (L.applied self.now.replica.link) }
        ensures attached { self.now.state.attached ≡ attached_in self.now.state.condition self.now.replica.attached }
    {
        let _ = &self.condition;
    }

    /// Why the call isn't served now.
    fn barred(&self, past: &Vec<PastEntry>, command: &Command) -> Option<Refusal>
        ensures { result ≡ barred (with_calls self.now.state past.now.items) (call_of command.now) }
    {
        if past.len() >= HISTORY_LIMIT {
            return Some(Refusal::LogFull);
        }
        down_refusal(self.condition, command)
    }

    /// Why a call isn't served, whatever it asks for.
    fn unavailable(&self, past: &Vec<PastEntry>, command: &Command) -> Option<Refusal>
        ensures { result ≡ unavailable (with_calls self.now.state past.now.items) (call_of command.now) }
    {
        if let Some(refusal) = self.barred(past, command) {
            return Some(refusal);
        }
        if let Some(refusal) = caller_refusal(&self.sessions, command) {
            return Some(refusal);
        }
        server_refusal(self.condition, command)
    }

    /// Serves a call behind those of the past. It isn't put into the history. What the V1 part of a unit came to
    /// outside is taken by a post of it, where it still holds.
    pub fn serve(
        &mut self,
        alloc: Global,
        past: &Vec<PastEntry>,
        command: &Command,
        worked: Option<&Worked>,
    ) -> Answer
        requires kept { IsKept (with_calls self.old.state past.now.items) }
        requires call { MayCall self.old.state (call_of command.now) }
        ensures call { IsTelling (with_calls self.old.state past.now.items) command.now result.taken
            (with_calls self.new.state past.now.items) result.reply }
        ensures told { is_some (K.held self.new.keeper) ≡ is_some (K.held self.old.keeper) }
        ensures store_cause { HasStoreCause (K.faults self.old.keeper) (K.faults self.new.keeper) result.reply }
        ensures store { restarts (call_of command.now) ≡ false
            → KeepsStore K.held K.may_leave self.old.keeper self.new.keeper result.reply }
        ensures reread { restarts (call_of command.now) ≡ true
            → IsWithin (K.may_leave self.new.keeper) (K.may_leave self.old.keeper) }
        ensures keeper { reaches_store self.old.state (call_of command.now) ≡ false
            → self.new.keeper ≡ self.old.keeper }
        ensures file_cause { HasFileCause (D.faults self.old.file.disk) (D.faults self.new.file.disk) result.reply }
        ensures file { restarts (call_of command.now) ≡ false → KeepsFile self.old.file self.new.file result.reply }
        ensures unfiled { touches_file (call_of command.now) ≡ false → self.new.file ≡ self.old.file }
        ensures link { IsLater L.applied L.faults L.refusals self.old.replica self.new.replica }
        ensures replica { renews_replica (call_of command.now) ≡ false
            → KeepsOn L.applied L.faults L.refusals self.old.replica self.new.replica }
        ensures over { IsOver (fails_over (call_of command.now)) self.new.state.locks (L.gives self.old.replica.link)
            result.reply }
        ensures link_cause { HasLinkCause (L.faults self.old.replica.link) (L.faults self.new.replica.link)
            result.reply }
        ensures room { is_unrecorded result.reply ≡ false → is_full (with_calls self.old.state past.now.items) ≡ false }
        ensures good_file { IsTrue D.tells → IsTrue (is_honest self.old.state) → is_unsound_file result.reply ≡ false }
        ensures good_store { is_some (K.held self.old.keeper) ≡ true → is_unsound_store result.reply ≡ false }
        ensures good_replica { is_some (L.applied self.old.replica.link) ≡ true
            → is_unsound_replica result.reply ≡ false }
    {
        self.answer(alloc, past, command, worked)
    }

    /// Answers a call, served or not.
    fn answer(
        &mut self,
        alloc: Global,
        past: &Vec<PastEntry>,
        command: &Command,
        worked: Option<&Worked>,
    ) -> Answer
        requires kept { IsKept (with_calls self.old.state past.now.items) }
        requires call { MayCall self.old.state (call_of command.now) }
        ensures { IsAnswered K.held K.may_leave K.faults D.tells D.faults L.gives L.applied L.faults L.refusals self.old
            self.new past.now.items command.now result }
    {
        self.read_invariant();
        match self.unavailable(past, command) {
            Some(refusal) => Answer::of(Reply::Refused(refusal)),
            None => match command {
                Command::Restart => self.restart(alloc, past),
                command => Answer::of(self.act(alloc, past, command, worked)),
            },
        }
    }

    /// Does a call that nothing bars, but for a restart.
    fn act(
        &mut self,
        alloc: Global,
        past: &Vec<PastEntry>,
        command: &Command,
        worked: Option<&Worked>,
    ) -> Reply
        requires due { IsDue self.old.state past.now.items command.now }
        requires call { MayCall self.old.state (call_of command.now) }
        requires other { command.now ≢ Command.Restart }
        ensures { Serves K.held K.may_leave K.faults D.faults L.gives L.applied L.faults L.refusals self.old self.new
            past.now.items command.now result }
    {
        match command {
            Command::Kill => self.kill(past),
            Command::FailOver => self.fail_over(alloc, past),
            Command::Attach => self.attach(alloc, past),
            command => self.attend(alloc, past, command, worked),
        }
    }

    /// Does a call of a session or of a worker, or one about a unit.
    fn attend(
        &mut self,
        alloc: Global,
        past: &Vec<PastEntry>,
        command: &Command,
        worked: Option<&Worked>,
    ) -> Reply
        requires due { IsDue self.old.state past.now.items command.now }
        requires call { MayCall self.old.state (call_of command.now) }
        requires no_kill { command.now ≢ Command.Kill }
        requires no_failover { command.now ≢ Command.FailOver }
        requires no_restart { command.now ≢ Command.Restart }
        requires no_attach { command.now ≢ Command.Attach }
        ensures { Serves K.held K.may_leave K.faults D.faults L.gives L.applied L.faults L.refusals self.old self.new
            past.now.items command.now result }
    {
        match command {
            Command::Logon { session, user } => self.log_on(alloc, past, *session, *user),
            Command::Logoff { .. }
            | Command::Ask { .. }
            | Command::Free { .. }
            | Command::FreeAll { .. }
            | Command::Convert { .. }
            | Command::Rollback { .. } => self.lock(alloc, past, command),
            Command::Read {
                session,
                table,
                key,
            } => self.read(alloc, past, session, table, key),
            Command::Number {
                session,
                object,
                nr,
            } => self.draw(alloc, past, session, object, *nr),
            Command::Reserve {
                session,
                object,
                nr,
                upto,
            } => self.reserve(alloc, past, session, object, *nr, *upto),
            Command::Commit {
                session,
                parts,
                stock,
            } => self.commit(alloc, past, session, parts, stock.as_slice()),
            Command::Take1 { worker } => self.take(past, *worker, Part::V1),
            Command::Do1 { worker } => self.post(alloc, past, *worker, Part::V1, worked),
            Command::Take2 { worker } => self.take(past, *worker, Part::V2),
            Command::Do2 { worker } => self.post(alloc, past, *worker, Part::V2, None),
            Command::DropOrder { worker } => self.drop_order(past, *worker),
            Command::Cancel { unit } => self.cancel(alloc, past, *unit),
            Command::Resubmit { unit } => self.resubmit(alloc, past, *unit),
            Command::Kill | Command::FailOver | Command::Restart | Command::Attach =>
                unreachable!(),
        }
    }

    fn log_on(&mut self, alloc: Global, past: &Vec<PastEntry>, session: Name, user: Name) -> Reply
        requires { IsDue self.old.state past.now.items (command.Logon session user) }
        ensures { Serves K.held K.may_leave K.faults D.faults L.gives L.applied L.faults L.refusals self.old self.new
            past.now.items (command.Logon session user) result }
    {
        Reply::of(log_on(
            alloc,
            &mut self.sessions,
            &mut self.next_session,
            session,
            user,
        ))
    }

    /// Does a call that the lock server alone answers.
    fn lock(&mut self, alloc: Global, past: &Vec<PastEntry>, command: &Command) -> Reply
        requires due { IsDue self.old.state past.now.items command.now }
        requires of_locks { is_of_locks (call_of command.now) ≡ true }
        ensures { Serves K.held K.may_leave K.faults D.faults L.gives L.applied L.faults L.refusals self.old self.new
            past.now.items command.now result }
    {
        let start = self.books.start();
        Reply::of(lock(alloc, start, &mut self.sessions, &mut self.locks, command))
    }

    /// Reads a business row.
    fn read(
        &mut self,
        alloc: Global,
        past: &Vec<PastEntry>,
        session: &Name,
        table: &Name,
        key: &Key,
    ) -> Reply
        requires { IsDue self.old.state past.now.items (command.Read session.now table.now key.now) }
        ensures { Serves K.held K.may_leave K.faults D.faults L.gives L.applied L.faults L.refusals self.old self.new
            past.now.items (command.Read session.now table.now key.now) result }
    {
        let call = begun(&self.books, past, Some(*session));
        let written = read(alloc, &self.sessions, &mut self.books, session, table, key);
        ended(
            &mut self.condition,
            &mut self.failure,
            &mut self.sessions,
            &mut self.locks,
            call,
            written,
        )
    }

    /// Draws a number of an interval.
    fn draw<'a>(
        &mut self,
        alloc: Global,
        past: &Vec<PastEntry>,
        session: &'a Name,
        object: &'a Name,
        nr: [u8; 2],
    ) -> Reply
        requires { IsDue self.old.state past.now.items (command.Number session.now object.now nr) }
        ensures { Serves K.held K.may_leave K.faults D.faults L.gives L.applied L.faults L.refusals self.old self.new
            past.now.items (command.Number session.now object.now nr) result }
    {
        let call = begun(&self.books, past, Some(*session));
        let asked = NumberCall {
            session,
            object,
            nr,
        };
        let written = draw(
            alloc,
            &mut self.sessions,
            &mut self.ranges,
            &mut self.books,
            &asked,
        );
        ended(
            &mut self.condition,
            &mut self.failure,
            &mut self.sessions,
            &mut self.locks,
            call,
            written,
        )
    }

    /// Reserves numbers of a buffered interval.
    fn reserve<'a>(
        &mut self,
        alloc: Global,
        past: &Vec<PastEntry>,
        session: &'a Name,
        object: &'a Name,
        nr: [u8; 2],
        upto: u64,
    ) -> Reply
        requires { IsDue self.old.state past.now.items (command.Reserve session.now object.now nr upto) }
        ensures { Serves K.held K.may_leave K.faults D.faults L.gives L.applied L.faults L.refusals self.old self.new
            past.now.items (command.Reserve session.now object.now nr upto) result }
    {
        let call = begun(&self.books, past, Some(*session));
        let asked = NumberCall {
            session,
            object,
            nr,
        };
        let written = reserve(
            alloc,
            &self.sessions,
            &self.ranges,
            &mut self.books,
            &asked,
            upto,
        );
        ended(
            &mut self.condition,
            &mut self.failure,
            &mut self.sessions,
            &mut self.locks,
            call,
            written,
        )
    }

    fn commit<'a>(
        &mut self,
        alloc: Global,
        past: &Vec<PastEntry>,
        session: &'a Name,
        parts: &'a Parts,
        stock: &'a [Num],
    ) -> Reply
        requires due { IsDue self.old.state past.now.items (command.Commit session.now parts.now stock.now) }
        requires stock { IsStockIn self.old.state stock.now }
        ensures { Serves K.held K.may_leave K.faults D.faults L.gives L.applied L.faults L.refusals self.old self.new
            past.now.items (command.Commit session.now parts.now stock.now) result }
    {
        let call = begun(&self.books, past, Some(*session));
        let asked = CommitCall {
            session,
            parts,
            stock,
            max_marks: self.max_marks,
        };
        let written = commit(
            alloc,
            &mut self.sessions,
            &mut self.ranges,
            &mut self.locks,
            &mut self.books,
            &asked,
        );
        ended(
            &mut self.condition,
            &mut self.failure,
            &mut self.sessions,
            &mut self.locks,
            call,
            written,
        )
    }

    /// Gives a worker an order for a part.
    fn take(&mut self, past: &Vec<PastEntry>, worker: u8, part: Part) -> Reply
        requires { IsDue self.old.state past.now.items (take_of part worker) }
        ensures { Serves K.held K.may_leave K.faults D.faults L.gives L.applied L.faults L.refusals self.old self.new
            past.now.items (take_of part worker) result }
    {
        take(&mut self.orders, &self.books, worker, part)
    }

    /// Posts the part that a worker has an order for.
    fn post(
        &mut self,
        alloc: Global,
        past: &Vec<PastEntry>,
        worker: u8,
        part: Part,
        worked: Option<&Worked>,
    ) -> Reply
        requires { IsDue self.old.state past.now.items (post_of part worker) }
        ensures { Serves K.held K.may_leave K.faults D.faults L.gives L.applied L.faults L.refusals self.old self.new
            past.now.items (post_of part worker) result }
    {
        let call = begun(&self.books, past, None);
        let asked = PostCall {
            worker,
            part,
            max_marks: self.max_marks,
        };
        let written = post(
            alloc,
            &mut self.orders,
            &mut self.locks,
            &mut self.books,
            asked,
            worked,
        );
        ended(
            &mut self.condition,
            &mut self.failure,
            &mut self.sessions,
            &mut self.locks,
            call,
            written,
        )
    }

    fn drop_order(&mut self, past: &Vec<PastEntry>, worker: u8) -> Reply
        requires { IsDue self.old.state past.now.items (command.DropOrder worker) }
        ensures { Serves K.held K.may_leave K.faults D.faults L.gives L.applied L.faults L.refusals self.old self.new
            past.now.items (command.DropOrder worker) result }
    {
        drop_order(&mut self.orders, worker)
    }

    /// Ends the lock server: its table goes, and each session that had a lock of its own in it is marked.
    fn kill(&mut self, past: &Vec<PastEntry>) -> Reply
        requires { IsDue self.old.state past.now.items command.Kill }
        ensures { Serves K.held K.may_leave K.faults D.faults L.gives L.applied L.faults L.refusals self.old self.new
            past.now.items command.Kill result }
    {
        let start = self.books.start();
        end_table(start, &mut self.sessions, &mut self.locks);
        self.condition = Condition::NoServer;
        Reply::Done
    }

    /// Makes a table of the list of the replica that followed the one before.
    fn fail_over(&mut self, alloc: Global, past: &Vec<PastEntry>) -> Reply
        requires { IsDue self.old.state past.now.items command.FailOver }
        ensures { Serves K.held K.may_leave K.faults D.faults L.gives L.applied L.faults L.refusals self.old self.new
            past.now.items command.FailOver result }
    {
        match self.condition {
            Condition::Up => Reply::Refused(Refusal::ServerUp),
            Condition::Doubt(call) => Reply::Refused(Refusal::Down(call)),
            Condition::NoServer => match self.locks.fail_over(alloc, self.max_locks) {
                Ok(()) => {
                    self.condition = Condition::Up;
                    self.sessions.forgive();
                    self.taken_over = true;
                    Reply::Done
                }
                Err(fault) => Reply::Refused(over_refusal(fault)),
            },
        }
    }

    /// Has a replica follow the table.
    fn attach(&mut self, alloc: Global, past: &Vec<PastEntry>) -> Reply
        requires { IsDue self.old.state past.now.items command.Attach }
        ensures { Serves K.held K.may_leave K.faults D.faults L.gives L.applied L.faults L.refusals self.old self.new
            past.now.items command.Attach result }
    {
        match self.locks.attach(alloc) {
            Ok(()) => Reply::Done,
            Err(LinkFault::Failed) => Reply::Refused(Refusal::LinkFault),
            Err(LinkFault::NoMemory) => Reply::Refused(Refusal::NoMemory),
        }
    }

    /// Makes a lock server anew.
    fn restart(&mut self, alloc: Global, past: &Vec<PastEntry>) -> Answer
        requires { IsDue self.old.state past.now.items command.Restart }
        ensures serves { Serves K.held K.may_leave K.faults D.faults L.gives L.applied L.faults L.refusals self.old
            self.new past.now.items command.Restart result.reply }
        ensures taken { IsTelling (with_calls self.old.state past.now.items) command.Restart result.taken
            (with_calls self.new.state past.now.items) result.reply }
        ensures good_file { IsTrue D.tells → IsTrue (is_honest self.old.state) → is_unsound_file result.reply ≡ false }
        ensures good_store { is_some (K.held self.old.keeper) ≡ true → is_unsound_store result.reply ≡ false }
    {
        let basis = Basis {
            condition: self.condition,
            failure: &self.failure,
            ranges: &self.ranges,
            max_locks: self.max_locks,
        };
        let remade = remake(
            alloc,
            &basis,
            &mut self.sessions,
            &mut self.orders,
            &mut self.locks,
            &mut self.books,
        );
        settled(
            &mut self.condition,
            &mut self.taken_over,
            &mut self.failure,
            past,
            remade,
        )
    }

    fn cancel(&mut self, alloc: Global, past: &Vec<PastEntry>, unit: UnitKey) -> Reply
        requires { IsDue self.old.state past.now.items (command.Cancel unit) }
        ensures { Serves K.held K.may_leave K.faults D.faults L.gives L.applied L.faults L.refusals self.old self.new
            past.now.items (command.Cancel unit) result }
    {
        let call = begun(&self.books, past, None);
        let written = cancel(
            alloc,
            self.orders.as_slice(),
            &mut self.locks,
            &mut self.books,
            unit,
            self.max_marks,
        );
        ended(
            &mut self.condition,
            &mut self.failure,
            &mut self.sessions,
            &mut self.locks,
            call,
            written,
        )
    }

    fn resubmit(&mut self, alloc: Global, past: &Vec<PastEntry>, unit: UnitKey) -> Reply
        requires { IsDue self.old.state past.now.items (command.Resubmit unit) }
        ensures { Serves K.held K.may_leave K.faults D.faults L.gives L.applied L.faults L.refusals self.old self.new
            past.now.items (command.Resubmit unit) result }
    {
        let call = begun(&self.books, past, None);
        let written = resubmit(
            alloc,
            &mut self.locks,
            &mut self.books,
            unit,
            self.max_marks,
        );
        ended(
            &mut self.condition,
            &mut self.failure,
            &mut self.sessions,
            &mut self.locks,
            call,
            written,
        )
    }
}

/// A call that uses store and backup file as it begins.
fn begun<K: Keeper>(books: &Books<K>, past: &Vec<PastEntry>, caller: Option<Name>) -> StoreCall
    ensures { result ≡ record {
      number = length past.now.items + 1;
      start = books.now.ledger.start;
      caller = caller;
    } }
{
    StoreCall {
        number: past.len() as u64 + 1,
        start: books.start(),
        caller,
    }
}

/// Ends a call that uses store and backup file, and says what it is answered. Where one of them failed the lock table
/// goes that stood, and each session is marked that had a lock of its own in it.
fn ended<T: LockStore, D: Disk, L: Link>(
    condition: &mut Condition,
    failure: &mut Failure,
    sessions: &mut Sessions,
    locks: &mut EnqServer<T, D, L>,
    call: StoreCall,
    written: Written,
) -> Reply
    requires { locks.old.stands ≡ is_up condition.old }
    ensures { (calls start : ℕ) → (caller : Option (List ℕ))
        → call ≡ record { number = calls + 1; start = start; caller = caller }
        → IsEnded (record {
          condition = condition.old;
          failure = failure.old;
          sessions = sessions.old;
          locks = locks.old;
        }) (record {
          condition = condition.new;
          failure = failure.new;
          sessions = sessions.new;
          locks = locks.new;
        }) calls start caller written result }
{
    bring_down(*condition, call.start, sessions, locks, &written);
    answered(condition, failure, call, written)
}

/// Where a device failed in a call the lock table goes that stood, and each session is marked that had a lock of its
/// own in it.
fn bring_down<T: LockStore, D: Disk, L: Link>(
    condition: Condition,
    start: u32,
    sessions: &mut Sessions,
    locks: &mut EnqServer<T, D, L>,
    written: &Written,
)
    requires { locks.old.stands ≡ is_up condition }
    ensures sessions { sessions.new
        ≡ written_sessions condition start locks.old.table.entries sessions.old written.now }
    ensures stands { (calls : ℕ) → locks.new.stands ≡ is_up (written_condition condition calls written.now) }
    ensures kept { OnAnswer written.now (locks.new ≡ locks.old) }
    ensures file { locks.new.file ≡ locks.old.file }
    ensures replica { locks.new.replica ≡ locks.old.replica }
{
    match written {
        Written::Answered(_) => {}
        Written::Failed(_) | Written::Unfiled => match condition {
            Condition::Up => end_table(start, sessions, locks),
            Condition::NoServer | Condition::Doubt(_) => {}
        },
    }
}

/// Ends the lock table, and marks each session that had a lock of its own in it.
fn end_table<T: LockStore, D: Disk, L: Link>(
    start: u32,
    sessions: &mut Sessions,
    locks: &mut EnqServer<T, D, L>,
)
    requires { locks.old.stands ≡ true }
    ensures sessions { sessions.new
        ≡ with_marks (has_one_of start (unhanded locks.old.table.entries)) sessions.old }
    ensures stands { locks.new.stands ≡ false }
    ensures file { locks.new.file ≡ locks.old.file }
    ensures replica { locks.new.replica ≡ locks.old.replica }
    ensures told { told_list L.applied locks.new.replica
        ≡ (if locks.old.replica.attached && is_some (L.applied locks.old.replica.link) then locks.old.table.entries else
        []) }
{
    sessions.mark(start, locks);
    locks.kill();
}

/// What a call that uses store and backup file is answered. Where one of them fails the server is in doubt since this
/// call, of this session if a session made it.
fn answered(
    condition: &mut Condition,
    failure: &mut Failure,
    call: StoreCall,
    written: Written,
) -> Reply
    ensures reply { result ≡ written_reply written }
    ensures condition { (calls : ℕ) → call.number ≡ calls + 1
        → condition.new ≡ written_condition condition.old calls written }
    ensures failure { failure.new ≡ written_failure failure.old call.caller written }
{
    match written {
        Written::Answered(reply) => reply,
        Written::Failed(change) => {
            *condition = Condition::Doubt(call.number);
            drop(std::mem::replace(&mut failure.in_flight, change));
            failure.caller = call.caller;
            Reply::Refused(Refusal::StoreFault)
        }
        Written::Unfiled => {
            *condition = Condition::Doubt(call.number);
            failure.caller = call.caller;
            Reply::Refused(Refusal::BackupFault)
        }
    }
}

/// Why the list of a replica doesn't become the table.
fn over_refusal(fault: OverFault) -> Refusal
    ensures { result ≡ over_refusal fault }
{
    match fault {
        OverFault::NotAttached => Refusal::NotAttached,
        OverFault::Link => Refusal::LinkFault,
        OverFault::Clash { first, second } => Refusal::Unsound(Bad::Replica { first, second }),
        OverFault::NoMemory => Refusal::NoMemory,
    }
}
