ghost use Rattle.std.specs.Prelude.{◌≡◌, ◌⊎◌, ◌≤◌, [], List, OnOk, false, true};
ghost use Rattle.lock_objects.specs.Objects.{Object};
ghost use Rattle.script_lang.specs.declared.script_line.ScriptLine.TheVariants as line;
ghost use Rattle.script_runner.specs.Lines.{Calls, effect_line, grows, line_kind, meaning, numbering, reading, settled};
ghost use Rattle.script_runner.specs.Preparing.{HasRoomFor, IsPrepared, MayEnter, has_part, is_other_effect_line, is_other_lock_line, is_request_line, is_sessionless_line, is_text_line};
ghost use Rattle.script_runner.specs.Sides.{variable_room};
ghost use Rattle.script_runner.specs.World.{Setting, setting};

use crate::effects::{Verb, effect_with, key_with};
use crate::monitor::LineKind;
use crate::requests::{asked_of, requests_of};
use crate::sides::Sides;
use crate::words::digits;
use enq_base::{Items, Name, Refusal, Scope};
use hall_model::{Command, Reply};
use lock_objects::LockObject;
use mode_rules::Mode;
use script_lang::{RawValue, ScriptLine};
use std::alloc::Global;

/// What a line comes to that isn't refused before any call.
#[derive(Drop)]
pub enum Prepared {
    Call(Command),
    /// The private side was changed, and there is no call.
    Changed,
}

/// What a line comes to, with the memory for all that it makes before a call. A private side is changed only where
/// there is no call.
pub fn prepare(
    alloc: Global,
    objects: &[LockObject],
    line: &ScriptLine,
    sides: &mut Sides,
) -> Result<Prepared, Refusal>
    requires part { has_part line.now ≡ true }
    requires replied { line_kind line.now ≡ LineKind.Replied }
    ensures prepared { IsPrepared (meaning (setting objects.now sides.old.items) line.now) (grows line.now)
        sides.old.items sides.new.items result }
    ensures room { HasRoomFor line.now result sides.new }
{
    match line {
        ScriptLine::Logon { session, user } => log_on(sides, *session, *user),
        ScriptLine::Logoff { session } => log_off(sides, *session),
        ScriptLine::DeqAll { session } => free_all(sides, *session),
        ScriptLine::Rollback { session } => roll_back(sides, *session),
        ScriptLine::Flush { session } => flush(alloc, sides, *session),
        ScriptLine::Reset { session } => empty(sides, *session),
        ScriptLine::Commit { session } => commit(alloc, sides, *session),
        ScriptLine::Enq { .. } | ScriptLine::Deq { .. } => {
            prepare_request(alloc, objects, line, sides)
        }
        ScriptLine::Collect { .. } | ScriptLine::Convert { .. } => {
            prepare_other_locks(alloc, objects, line, sides)
        }
        ScriptLine::Num {
            session,
            object,
            nr,
            ..
        } => draw(sides, *session, *object, *nr),
        ScriptLine::Read {
            session,
            table,
            key,
            ..
        } => read(alloc, sides, *session, *table, key.as_slice()),
        ScriptLine::Put { .. } | ScriptLine::Ins { .. } => prepare_text(alloc, line, sides),
        ScriptLine::Del { .. } | ScriptLine::Add { .. } => prepare_other_effect(alloc, line, sides),
        _ => Ok(Prepared::Call(sessionless_call(line))),
    }
}

/// The call of a line that names no session: it is the same whatever the private sides are.
fn sessionless_call(line: &ScriptLine) -> Command
    requires { is_sessionless_line line.now ≡ true }
    ensures { (w : Setting) → meaning w line.now ≡ Calls result }
{
    match line {
        ScriptLine::Take1 { worker } => Command::Take1 { worker: *worker },
        ScriptLine::Do1 { worker } => Command::Do1 { worker: *worker },
        ScriptLine::Take2 { worker } => Command::Take2 { worker: *worker },
        ScriptLine::Do2 { worker } => Command::Do2 { worker: *worker },
        ScriptLine::DropOrder { worker } => Command::DropOrder { worker: *worker },
        ScriptLine::Kill => Command::Kill,
        ScriptLine::FailOver => Command::FailOver,
        ScriptLine::Restart => Command::Restart,
        ScriptLine::Attach => Command::Attach,
        ScriptLine::Cancel { unit } => Command::Cancel { unit: *unit },
        ScriptLine::Resubmit { unit } => Command::Resubmit { unit: *unit },
        _ => unreachable!(),
    }
}

/// A line that asks for locks of an object, or gives some back.
fn prepare_request(
    alloc: Global,
    objects: &[LockObject],
    line: &ScriptLine,
    sides: &Sides,
) -> Result<Prepared, Refusal>
    requires { is_request_line line.now ≡ true }
    ensures { IsPrepared (meaning (setting objects.now sides.now.items) line.now) (grows line.now) sides.now.items
        sides.now.items result }
{
    match line {
        ScriptLine::Enq {
            session,
            object,
            mode,
            scope,
            values,
        } => {
            let values = values.as_slice();
            enqueue(
                alloc, objects, sides, *session, object, *mode, *scope, values,
            )
        }
        ScriptLine::Deq {
            session,
            object,
            mode,
            scope,
            values,
        } => {
            let values = values.as_slice();
            dequeue(
                alloc, objects, sides, *session, object, *mode, *scope, values,
            )
        }
        _ => unreachable!(),
    }
}

/// A line that collects locks of an object, or turns optimistic ones into exclusive ones.
fn prepare_other_locks(
    alloc: Global,
    objects: &[LockObject],
    line: &ScriptLine,
    sides: &mut Sides,
) -> Result<Prepared, Refusal>
    requires { is_other_lock_line line.now ≡ true }
    ensures { IsPrepared (meaning (setting objects.now sides.old.items) line.now) (grows line.now)
        sides.old.items sides.new.items result }
{
    match line {
        ScriptLine::Collect {
            session,
            object,
            mode,
            scope,
            values,
        } => {
            let values = values.as_slice();
            collect(
                alloc, objects, sides, *session, object, *mode, *scope, values,
            )
        }
        ScriptLine::Convert {
            session,
            object,
            values,
        } => { convert(alloc, objects, sides, *session, object, values.as_slice()) }
        _ => unreachable!(),
    }
}

/// A line that puts a text into a row.
fn prepare_text(alloc: Global, line: &ScriptLine, sides: &mut Sides) -> Result<Prepared, Refusal>
    requires { is_text_line line.now ≡ true }
    ensures { (objects : List Object)
        → IsPrepared (meaning (setting objects sides.old.items) line.now) (grows line.now)
        sides.old.items sides.new.items result }
{
    match line {
        ScriptLine::Put {
            session,
            part,
            table,
            key,
            text,
        } => {
            let (key, text) = (key.as_slice(), text.as_slice());
            effect(alloc, Verb::Put, sides, *session, *part, *table, key, text)
        }
        ScriptLine::Ins {
            session,
            part,
            table,
            key,
            text,
        } => {
            let (key, text) = (key.as_slice(), text.as_slice());
            effect(alloc, Verb::Ins, sides, *session, *part, *table, key, text)
        }
        _ => unreachable!(),
    }
}

/// A line that deletes a row, or adds a number to it.
fn prepare_other_effect(
    alloc: Global,
    line: &ScriptLine,
    sides: &mut Sides,
) -> Result<Prepared, Refusal>
    requires { is_other_effect_line line.now ≡ true }
    ensures { (objects : List Object)
        → IsPrepared (meaning (setting objects sides.old.items) line.now) (grows line.now)
        sides.old.items sides.new.items result }
{
    match line {
        ScriptLine::Del {
            session,
            part,
            table,
            key,
        } => {
            let key = key.as_slice();
            effect(alloc, Verb::Del, sides, *session, *part, *table, key, &[])
        }
        ScriptLine::Add {
            session,
            part,
            table,
            key,
            number,
        } => {
            let (key, text) = (key.as_slice(), number.as_slice());
            effect(alloc, Verb::Add, sides, *session, *part, *table, key, text)
        }
        _ => unreachable!(),
    }
}

/// A logon, with the memory for a private side.
fn log_on(sides: &mut Sides, session: Name, user: Name) -> Result<Prepared, Refusal>
    ensures prepared { (objects : List Object)
        → IsPrepared (meaning (setting objects sides.old.items) (line.Logon session user)) true sides.old.items
        sides.new.items result }
    ensures room { HasRoomFor (line.Logon session user) result sides.new }
{
    if sides.make_room().is_err() {
        return Err(Refusal::NoMemory);
    }
    Ok(Prepared::Call(Command::Logon { session, user }))
}

/// A logoff.
fn log_off(sides: &Sides, session: Name) -> Result<Prepared, Refusal>
    ensures { (objects : List Object)
        → IsPrepared (meaning (setting objects sides.now.items) (line.Logoff session)) false sides.now.items
        sides.now.items result }
{
    if !sides.has_side(&session) {
        return Err(Refusal::UnknownSession);
    }
    Ok(Prepared::Call(Command::Logoff { session }))
}

/// A call that frees all locks of a session.
fn free_all(sides: &Sides, session: Name) -> Result<Prepared, Refusal>
    ensures { (objects : List Object)
        → IsPrepared (meaning (setting objects sides.now.items) (line.DeqAll session)) false sides.now.items
        sides.now.items result }
{
    if !sides.has_side(&session) {
        return Err(Refusal::UnknownSession);
    }
    Ok(Prepared::Call(Command::FreeAll { session }))
}

/// A rollback.
fn roll_back(sides: &Sides, session: Name) -> Result<Prepared, Refusal>
    ensures { (objects : List Object)
        → IsPrepared (meaning (setting objects sides.now.items) (line.Rollback session)) false sides.now.items
        sides.now.items result }
{
    if !sides.has_side(&session) {
        return Err(Refusal::UnknownSession);
    }
    Ok(Prepared::Call(Command::Rollback { session }))
}

/// A call for all that a session has collected.
fn flush(alloc: Global, sides: &Sides, session: Name) -> Result<Prepared, Refusal>
    ensures { (objects : List Object)
        → IsPrepared (meaning (setting objects sides.now.items) (line.Flush session)) true sides.now.items
        sides.now.items result }
{
    if !sides.has_side(&session) {
        return Err(Refusal::UnknownSession);
    }
    let Ok(requests) = sides.container(alloc, &session) else {
        return Err(Refusal::NoMemory);
    };
    let requests = Items::from_vec(requests);
    Ok(Prepared::Call(Command::Ask { session, requests }))
}

/// A commit of the effects that a session has registered.
fn commit(alloc: Global, sides: &Sides, session: Name) -> Result<Prepared, Refusal>
    ensures { (objects : List Object)
        → IsPrepared (meaning (setting objects sides.now.items) (line.Commit session)) true sides.now.items
        sides.now.items result }
{
    if !sides.has_side(&session) {
        return Err(Refusal::UnknownSession);
    }
    let Ok(parts) = sides.parts(alloc, &session) else {
        return Err(Refusal::NoMemory);
    };
    Ok(Prepared::Call(Command::Commit {
        session,
        parts,
        stock: Items::from_vec(Vec::new(alloc)),
    }))
}

/// A call for a number of an interval, with the memory for the variable that it is for.
fn draw(sides: &mut Sides, session: Name, object: Name, nr: [u8; 2]) -> Result<Prepared, Refusal>
    ensures prepared { (objects : List Object)
        → IsPrepared (numbering (setting objects sides.old.items) session object nr) true sides.old.items
        sides.new.items result }
    ensures room { OnOk result (1 ≤ variable_room sides.new session) }
{
    if !sides.has_side(&session) {
        return Err(Refusal::UnknownSession);
    }
    if sides.make_variable_room(&session).is_err() {
        return Err(Refusal::NoMemory);
    }
    Ok(Prepared::Call(Command::Number {
        session,
        object,
        nr,
    }))
}

/// A call for the text of a row, with the memory for the variable that it is for.
fn read(
    alloc: Global,
    sides: &mut Sides,
    session: Name,
    table: Name,
    key: &[u8],
) -> Result<Prepared, Refusal>
    ensures prepared { (objects : List Object)
        → IsPrepared (reading (setting objects sides.old.items) session table key.now) true sides.old.items
        sides.new.items result }
    ensures room { OnOk result (1 ≤ variable_room sides.new session) }
{
    let Some(side) = sides.side_of(&session) else {
        return Err(Refusal::UnknownSession);
    };
    let key = match key_with(alloc, side, key) {
        Ok(key) => key,
        Err(refusal) => return Err(refusal),
    };
    if sides.make_variable_room(&session).is_err() {
        return Err(Refusal::NoMemory);
    }
    Ok(Prepared::Call(Command::Read {
        session,
        table,
        key,
    }))
}

/// Empties a session's container.
fn empty(sides: &mut Sides, session: Name) -> Result<Prepared, Refusal>
    ensures { (objects : List Object)
        → IsPrepared (meaning (setting objects sides.old.items) (line.Reset session)) false sides.old.items
        sides.new.items result }
{
    if !sides.has_side(&session) {
        return Err(Refusal::UnknownSession);
    }
    sides.reset(&session);
    Ok(Prepared::Changed)
}

/// A call for the locks of a line.
fn enqueue(
    alloc: Global,
    objects: &[LockObject],
    sides: &Sides,
    session: Name,
    object: &Name,
    mode: Mode,
    scope: Scope,
    values: &[RawValue],
) -> Result<Prepared, Refusal>
    ensures { IsPrepared (meaning (setting objects.now sides.now.items)
        (line.Enq session object.now mode scope values.now)) true sides.now.items sides.now.items result }
{
    let Some(side) = sides.side_of(&session) else {
        return Err(Refusal::UnknownSession);
    };
    match requests_of(alloc, side, objects, object, mode, scope, values) {
        Ok(requests) => {
            let requests = Items::from_vec(requests);
            Ok(Prepared::Call(Command::Ask { session, requests }))
        }
        Err(refusal) => Err(refusal),
    }
}

/// A call that takes one from each lock of a line.
fn dequeue(
    alloc: Global,
    objects: &[LockObject],
    sides: &Sides,
    session: Name,
    object: &Name,
    mode: Mode,
    scope: Scope,
    values: &[RawValue],
) -> Result<Prepared, Refusal>
    ensures { IsPrepared (meaning (setting objects.now sides.now.items)
        (line.Deq session object.now mode scope values.now)) true sides.now.items sides.now.items result }
{
    let Some(side) = sides.side_of(&session) else {
        return Err(Refusal::UnknownSession);
    };
    match requests_of(alloc, side, objects, object, mode, scope, values) {
        Ok(requests) => {
            let requests = Items::from_vec(requests);
            Ok(Prepared::Call(Command::Free { session, requests }))
        }
        Err(refusal) => Err(refusal),
    }
}

/// Collects the requests of a line.
fn collect(
    alloc: Global,
    objects: &[LockObject],
    sides: &mut Sides,
    session: Name,
    object: &Name,
    mode: Mode,
    scope: Scope,
    values: &[RawValue],
) -> Result<Prepared, Refusal>
    ensures { IsPrepared (meaning (setting objects.now sides.old.items)
        (line.Collect session object.now mode scope values.now)) true sides.old.items sides.new.items result }
{
    let Some(side) = sides.side_of(&session) else {
        return Err(Refusal::UnknownSession);
    };
    let requests = match requests_of(alloc, side, objects, object, mode, scope, values) {
        Ok(requests) => requests,
        Err(refusal) => return Err(refusal),
    };
    match sides.collect(&session, requests.as_slice()) {
        Ok(()) => Ok(Prepared::Changed),
        Err(refusal) => Err(refusal),
    }
}

/// A call that turns the optimistic locks of a line into exclusive ones.
fn convert(
    alloc: Global,
    objects: &[LockObject],
    sides: &Sides,
    session: Name,
    object: &Name,
    values: &[RawValue],
) -> Result<Prepared, Refusal>
    ensures { IsPrepared (meaning (setting objects.now sides.now.items) (line.Convert session object.now values.now))
        true sides.now.items sides.now.items result }
{
    let Some(side) = sides.side_of(&session) else {
        return Err(Refusal::UnknownSession);
    };
    match asked_of(alloc, side, objects, object, Mode::O, values) {
        Ok(asked) => {
            let asked = Items::from_vec(asked);
            Ok(Prepared::Call(Command::Convert { session, asked }))
        }
        Err(refusal) => Err(refusal),
    }
}

/// Registers an effect. The text is what stands behind the key: nothing, where a row is deleted.
fn effect(
    alloc: Global,
    verb: Verb,
    sides: &mut Sides,
    session: Name,
    part: u8,
    table: Name,
    key: &[u8],
    text: &[u8],
) -> Result<Prepared, Refusal>
    requires part { (part ≡ 1) ⊎ (part ≡ 2) }
    requires nothing { verb ≡ Verb.Del → text.now ≡ [] }
    ensures { (objects : List Object)
        → IsPrepared (meaning (setting objects sides.old.items)
        (effect_line verb session part table key.now text.now)) true sides.old.items sides.new.items result }
{
    let Some(side) = sides.side_of(&session) else {
        return Err(Refusal::UnknownSession);
    };
    let effect = match effect_with(alloc, side, verb, table, key, text) {
        Ok(effect) => effect,
        Err(refusal) => return Err(refusal),
    };
    match sides.register(&session, part, effect) {
        Ok(()) => Ok(Prepared::Changed),
        Err(refusal) => Err(refusal),
    }
}

/// Lets the private sides follow the answer of a line's call.
pub fn settle(alloc: Global, line: &ScriptLine, reply: &Reply, sides: &mut Sides)
    requires { MayEnter line.now reply.now sides.old }
    ensures { sides.new.items ≡ settled line.now reply.now sides.old.items }
{
    match (line, reply) {
        (ScriptLine::Logon { session, .. }, Reply::Done) => sides.enter(alloc, *session),
        (ScriptLine::Logoff { session }, Reply::Done) => sides.leave(session),
        (ScriptLine::Flush { session }, Reply::Done) => sides.reset(session),
        (ScriptLine::Rollback { session }, Reply::Done) => sides.clear(session),
        (ScriptLine::Commit { session }, Reply::Done | Reply::Unit(_)) => {
            sides.drop_effects(session)
        }
        (
            ScriptLine::Num {
                session,
                variable,
                ..
            },
            Reply::Number { number, .. },
        ) => sides.set_variable(session, *variable, digits(*number).as_slice()),
        (
            ScriptLine::Read {
                session,
                variable,
                ..
            },
            Reply::Row(Some(text)),
        ) => sides.set_variable(session, *variable, text.bytes()),
        _ => {}
    }
}
