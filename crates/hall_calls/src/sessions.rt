ghost use Rattle.std.specs.Prelude.{◌≡◌, ◌&&◌, false, not, ◌+◌, ◌<◌, ◌^◌, ◌++◌, ◌∷◌, [], None, Some, is_some, length, map, set, slice_get, IfErr, IfOk, IfSome, OnErr, OnOk};
ghost use Rattle.std.specs.List.{AllByRecursion, find};
ghost use Rattle.std.specs.Option.{option_copied, option_map};
ghost use Rattle.hall_model.specs.Numbers.{holder_of, holds, other_holder};
ghost use Rattle.hall_model.specs.declared.command.Command.TheVariants as command;
ghost use Rattle.hall_model.specs.Acts.{Admits, IsAct};
ghost use Rattle.hall_model.specs.Kept.{IsYoung};
ghost use Rattle.hall_model.specs.Sessions as sessions;
ghost use Rattle.hall_model.specs.Sessions.{bereft_if, has_one_of, is_called, pair_of, session_at, unit_key, with_fresh_unit, with_mark, with_marks, with_next_unit, with_session, without_draws, without_marks, without_session};
ghost use Rattle.hall_model.specs.declared.command.Session.{Session};
ghost use Rattle.hall_model.specs.State.{State, unhanded};
ghost use Rattle.hall_model.specs.Step.{answer_of};

use crate::numbers::drawn_of;
use bk_disk::Disk;
use enq_base::{Items, Name, Num, Owner, Refusal, UnitKey};
use enq_server::EnqServer;
use hall_model::Session;
use indexmap::IndexMap;
use lock_entry::{Asker, LockStore};
use number_ranges::Interval;
use replica_link::Link;
use std::alloc::Global;
use std::marker::Model;

const SESSIONS_LIMIT: usize = 1_024;

/// The sessions that are logged on, in the order of their logons. Each is found by its name without a walk.
#[derive(Drop)]
pub(crate) struct Sessions {
    by_name: IndexMap<Name, Session>,
}

impl Model for Sessions {
    ghost use Rattle.std.specs.Prelude.{List};
    ghost use Rattle.indexmap.specs.IndexMap.{values};
    ghost use Rattle.hall_calls.specs.Named.{AreNamed};
    ghost use Rattle.hall_model.specs.declared.command.Session.{Session};

    ghost Value = { List Session };

    ghost view = { λ s. values s.by_name };

    ghost invariant = { λ s. AreNamed (λ x. x.name) s.by_name.entries };
}

impl Sessions {
    /// No session. It takes no memory.
    pub(crate) fn new(alloc: Global) -> Sessions
        ensures { result ≡ [] }
    {
        Sessions {
            by_name: IndexMap::new(alloc),
        }
    }

    fn len(&self) -> usize
        ensures { result ≡ length self.now }
    {
        self.by_name.len()
    }

    /// The session of this name.
    pub(crate) fn find(&self, name: &Name) -> Option<&Session>
        ensures { option_copied result ≡ session_at self.now name.now }
    {
        self.by_name.get(name)
    }

    /// Whether a session of this name is logged on.
    fn has(&self, name: &Name) -> bool
        ensures { result ≡ is_some (session_at self.now name.now) }
    {
        self.find(name).is_some()
    }

    /// Another session than this one that has numbers of an interval drawn; of a buffered one there is none.
    pub(crate) fn other_holder(&self, name: &Name, interval: &Interval) -> Option<Name>
        ensures { result ≡ option_map (λ (x : Session). x.name) (other_holder self.now name.now interval.now) }
    {
        if interval.buffer > 0 {
            return None;
        }
        match self.drawing(name, interval) {
            Some(session) => Some(session.name),
            None => None,
        }
    }

    /// The first session but the one of this name that has numbers of an interval drawn.
    fn drawing(&self, name: &Name, interval: &Interval) -> Option<&Session>
        ensures { option_copied result ≡ find (λ x. not (is_called name.now x) && holds interval.now x) self.now }
    {
        let mut sessions = self.by_name.values();
        sessions.find(|session| is_other_holder(session, name, interval))
    }

    /// The session that has numbers of an interval drawn; of a buffered one there is none.
    pub(crate) fn holder(&self, interval: &Interval) -> Option<&Session>
        ensures { option_copied result ≡ holder_of self.now interval.now }
    {
        if interval.buffer > 0 {
            return None;
        }
        let mut sessions = self.by_name.values();
        sessions.find(|session| has_drawn(session, interval))
    }

    /// Puts a session last, whose name none has yet.
    fn push(&mut self, session: Session) -> Result<(), Refusal>
        requires { session_at self.old session.name ≡ None }
        ensures pushed { OnOk result (self.new ≡ self.old ++ session ∷ []) }
        ensures unchanged { OnErr result (self.new ≡ self.old) }
        ensures refused { IfErr result (λ r. r ≡ Refusal.NoMemory) }
    {
        if let Err(_) = self.by_name.reserve(1) {
            return Err(Refusal::NoMemory);
        }
        let _ = self.by_name.insert(session.name, session);
        Ok(())
    }

    /// Takes out the session of this name.
    pub(crate) fn leave(&mut self, name: &Name)
        ensures { self.new ≡ without_session name.now self.old }
    {
        self.by_name.shift_remove(name);
    }

    /// Opens the next unit of the session of this name.
    pub(crate) fn begin_unit(&mut self, alloc: Global, name: &Name)
        requires { AllByRecursion (IsYoung 262145) self.old }
        ensures { self.new ≡ with_session name.now with_next_unit self.old }
    {
        if let Some(session) = self.by_name.get_mut(name) {
            session.luw += 1;
            session.draws = no_numbers(alloc);
        }
    }

    /// Has the session of this name have these numbers drawn.
    pub(crate) fn set_draws(&mut self, name: &Name, draws: Vec<Num>)
        ensures { self.new ≡ with_session name.now (λ (x : Session). record x { draws = draws.items }) self.old }
    {
        if let Some(session) = self.by_name.get_mut(name) {
            session.draws = Items::from_vec(draws);
        }
    }

    /// Forgets what the session of this name has drawn, once it is recorded.
    pub(crate) fn settle_draws(&mut self, alloc: Global, name: &Name)
        ensures { self.new ≡ with_session name.now without_draws self.old }
    {
        if let Some(session) = self.by_name.get_mut(name) {
            session.draws = no_numbers(alloc);
        }
    }

    /// Marks each session that has a lock of its own in the table, one that wasn't handed over, and no other.
    pub(crate) fn mark<T: LockStore, D: Disk, L: Link>(
        &mut self,
        start: u32,
        locks: &EnqServer<T, D, L>,
    )
        ensures { self.new ≡ with_marks (has_one_of start (unhanded locks.now.table.entries)) self.old }
    {
        for place in 0..self.len() {
            self.mark_at(place, start, locks);
        }
    }

    /// The same of the session at this place, from 0.
    fn mark_at<T: LockStore, D: Disk, L: Link>(
        &mut self,
        place: usize,
        start: u32,
        locks: &EnqServer<T, D, L>,
    )
        ensures { (x : Session) → slice_get self.old place ≡ Some x
            → self.new ≡ set self.old place (with_mark (has_one_of start (unhanded locks.now.table.entries)) x) }
    {
        if let Some(session) = self.by_name.get_index_mut(place) {
            session.marked = has_own_lock(start, session, locks);
        }
    }

    /// No session is marked then.
    pub(crate) fn forgive(&mut self)
        ensures { self.new ≡ without_marks self.old }
    {
        for place in 0..self.len() {
            self.forgive_at(place);
        }
    }

    /// The same of the session at this place, from 0.
    fn forgive_at(&mut self, place: usize)
        ensures { (x : Session) → slice_get self.old place ≡ Some x
            → self.new ≡ set self.old place (with_mark (λ _. false) x) }
    {
        if let Some(session) = self.by_name.get_index_mut(place) {
            session.marked = false;
        }
    }

    /// Each session that is marked has lost its locks, and so has the one in whose call a device failed: its open unit
    /// comes to nothing, and it has to roll back first.
    pub(crate) fn bereave(&mut self, alloc: Global, caller: &Option<Name>)
        requires { AllByRecursion (IsYoung 262145) self.old }
        ensures { self.new ≡ map (bereft_if caller.now) self.old }
    {
        for place in 0..self.len() {
            self.bereave_at(alloc, place, caller);
        }
    }

    /// The same of the session at this place, from 0.
    fn bereave_at(&mut self, alloc: Global, place: usize, caller: &Option<Name>)
        requires young { IfSome (slice_get self.old place) (IsYoung 262145) }
        ensures { (x : Session) → slice_get self.old place ≡ Some x
            → self.new ≡ set self.old place (bereft_if caller.now x) }
    {
        if let Some(session) = self.by_name.get_index_mut(place) {
            lose_if(alloc, caller, session);
        }
    }

    /// Opens the next unit of the session of this name, also where it has to roll back before anything else.
    pub(crate) fn begin_fresh_unit(&mut self, alloc: Global, name: &Name)
        requires { AllByRecursion (IsYoung 262145) self.old }
        ensures { self.new ≡ with_session name.now with_fresh_unit self.old }
    {
        let no_draws = no_numbers(alloc);
        if let Some(session) = self.by_name.get_mut(name) {
            session.luw += 1;
            session.draws = no_draws;
            session.lost = false;
        }
    }
}

/// A session that is marked has lost its locks, and so has the one in whose call a device failed.
fn lose_if(alloc: Global, caller: &Option<Name>, session: &mut Session)
    requires { IsYoung 262145 session.old }
    ensures { session.new ≡ bereft_if caller.now session.old }
{
    if session.marked || is_caller(caller, session) {
        session.luw += 1;
        session.draws = no_numbers(alloc);
        session.marked = false;
        session.lost = true;
    }
}

/// Whether the session is the one of this name.
fn is_caller(caller: &Option<Name>, session: &Session) -> bool
    ensures { result ≡ sessions.is_caller caller.now session.now }
{
    match caller {
        Some(name) => session.name.bytes() == name.bytes(),
        None => false,
    }
}

/// Whether the session has a lock of its own in the table, one that wasn't handed over.
fn has_own_lock<T: LockStore, D: Disk, L: Link>(
    start: u32,
    session: &Session,
    locks: &EnqServer<T, D, L>,
) -> bool
    ensures { result ≡ has_one_of start (unhanded locks.now.table.entries) session.now }
{
    let pair = pair_of(start, session);
    locks.has_unhanded(&pair.dialogue) || locks.has_unhanded(&pair.update)
}

/// Whether it is another session than the one of this name, and has numbers of this interval drawn.
fn is_other_holder(session: &Session, name: &Name, interval: &Interval) -> bool
    ensures { result ≡ (not (is_called name.now session.now) && holds interval.now session.now) }
{
    session.name.bytes() != name.bytes() && has_drawn(session, interval)
}

/// Whether the session has numbers of this interval drawn.
fn has_drawn(session: &Session, interval: &Interval) -> bool
    ensures { result ≡ holds interval.now session.now }
{
    drawn_of(interval, session.draws.as_slice()) > 0
}

/// No number is drawn yet. It takes no memory.
fn no_numbers(alloc: Global) -> Items<Num>
    ensures { result ≡ [] }
{
    Items::from_vec(Vec::new(alloc))
}

/// Logs a session on: it goes last, with the next number.
pub(crate) fn log_on(
    alloc: Global,
    sessions: &mut Sessions,
    next: &mut u32,
    name: Name,
    user: Name,
) -> Result<(), Refusal>
    requires { next.old + 1 < 2 ^ 32 }
    ensures act { (s : State) → s.sessions ≡ sessions.old → s.next_session ≡ next.old
        → Admits s (command.Logon name user) → IsAct s (command.Logon name user)
        (record s { sessions = sessions.new; next_session = next.new }) (answer_of result) }
{
    if sessions.has(&name) {
        return Err(Refusal::SessionExists);
    }
    if sessions.len() >= SESSIONS_LIMIT {
        return Err(Refusal::SessionsFull);
    }
    let session = Session {
        name,
        user,
        number: *next,
        luw: 1,
        draws: no_numbers(alloc),
        marked: false,
        lost: false,
    };
    sessions.push(session)?;
    *next += 1;
    Ok(())
}

/// The session of this name, which has to be logged on.
pub(crate) fn session_of<'a>(sessions: &'a Sessions, name: &Name) -> Result<&'a Session, Refusal>
    ensures found { IfOk result (λ x. session_at sessions.now name.now ≡ Some x.now) }
    ensures unknown { IfErr result (λ r.
        (session_at sessions.now name.now ≡ None) × (r ≡ Refusal.UnknownSession)) }
{
    match sessions.find(name) {
        Some(session) => Ok(session),
        None => Err(Refusal::UnknownSession),
    }
}

/// The dialogue owner of a session, and the update owner of its open unit.
pub(crate) fn pair_of(start: u32, session: &Session) -> Asker
    ensures { result ≡ pair_of start session.now }
{
    Asker {
        dialogue: Owner::Dlg {
            start,
            session: session.number,
        },
        update: Owner::Upd(unit_key(start, session)),
    }
}

/// The unit that a session has open.
pub(crate) fn unit_key(start: u32, session: &Session) -> UnitKey
    ensures { result ≡ unit_key start session.now }
{
    UnitKey {
        start,
        session: session.number,
        luw: session.luw,
    }
}
