ghost use Rattle.std.specs.Prelude.{◌≡◌, ◌<◌, ◌++◌, ◌∷◌, [], Some, false, not, true, Ok, IfOk, OnOk, OnErr, vec_capacity, vec_len};
ghost use Rattle.std.specs.List.{AllByRecursion};
ghost use Rattle.ledger_steps.specs.Levels.{intervals_of};
ghost use Rattle.number_ranges.specs.declared.interval.Interval.{Interval};
ghost use Rattle.script_actors.specs.Actors.{AddsDone, AddsPart, ComesTo, DoneAs, HasDraw, HasEnough, MayAskIn, TakesLine, TakesOne};
ghost use Rattle.script_actors.specs.Actors.{called_as, deeds, desk_view, drawn_as, followed, keeps_side, land_of, refused_as};
ghost use Rattle.script_actors.specs.Actors.{saying, session_of};
ghost use Rattle.script_actors.specs.Carried.{AsksLine, CanDraw, DrewFor, IsCalled, IsCalledOrWanting, IsDrawnFrom, Knows, LeavesFor};
ghost use Rattle.script_actors.specs.Carried.{MayHaveTaken, MayMake, TakesFor};
ghost use Rattle.script_actors.specs.Doers.{is_done_by};
ghost use Rattle.script_actors.specs.Drawings.{interval_at, with_stock};
ghost use Rattle.script_runner.specs.Lines.{line_kind};
ghost use Rattle.script_runner.specs.Preparing.{HasRoomFor, has_part};

use crate::asking::{Wanted, give_stock, wanted_of};
use crate::desk::Desk;
use crate::line::{NumberedLine, is_done_by};
use crate::texts::text_of_reply;
use crate::uncommitted::{Uncommitted, settling_of};
use enq_base::{Name, NoMemory, Refusal};
use hall_model::{Command, Reply, Who};
use lock_objects::LockObject;
use monitors::Bytes;
use range_list::Ranges;
use script_lang::ScriptLine;
use script_runner::{LineKind, Prepared, Sides, prepare, settle};
use std::alloc::Global;

/// What a line was answered whose answer isn't in the history.
#[derive(Drop)]
pub struct Said {
    pub line: u32,
    pub text: Bytes,
}

/// What an actor carries from line to line: its private side, and the numbers that it has drawn.
#[derive(Drop)]
struct Carried {
    sides: Sides,
    drawn: Uncommitted,
}

/// Does the lines of one actor, in order: of a session, or of the administrator. What a line comes to before any call
/// is known of the actor's own private side and of its own answers alone. It stops after a call or a drawing that finds
/// the history full, or for which memory is wanting. It gives what the lines are answered whose answer isn't in the
/// history.
pub fn actor_lines<K: Desk>(
    alloc: Global,
    desk: &mut K,
    who: &Who,
    lines: &[NumberedLine],
    objects: &[LockObject],
    ranges: &Ranges,
) -> Result<Vec<Said>, NoMemory>
    requires parts { AllByRecursion (λ l. has_part l.line ≡ true) lines.now }
    requires none { K.entries desk.old ≡ [] }
    requires own { K.session desk.old ≡ session_of who.now }
    requires intervals { K.intervals desk.old ≡ intervals_of ranges.now }
    requires enough { HasEnough (intervals_of ranges.now) who.now lines.now (K.left desk.old) }
    // What it adds is of its lines, in order, each with the answer that the desk gave.
    ensures done { IfOk result (λ said. AddsDone (land_of objects.now (intervals_of ranges.now)) who.now lines.now
        (desk_view K.entries K.full_at desk.old) (desk_view K.entries K.full_at desk.new) said.items) }
    ensures begun { OnErr result (AddsPart (land_of objects.now (intervals_of ranges.now)) who.now lines.now
        (desk_view K.entries K.full_at desk.old) (desk_view K.entries K.full_at desk.new)) }
{
    let mut carried = Carried {
        sides: Sides::new(alloc),
        drawn: Uncommitted::new(alloc),
    };
    let mut said = Vec::new(alloc);
    let mut rest = lines;
    'rest: while let Some((numbered, later)) = rest.split_first() {
        match take_line(
            alloc,
            desk,
            who,
            numbered,
            objects,
            ranges,
            &mut carried,
            &mut said,
        ) {
            Ok(true) => rest = later,
            Ok(false) => return Ok(said),
            Err(NoMemory) => return Err(NoMemory),
        }
    }
    Ok(said)
}

/// Does a line where it is the actor's, and passes it over where it is another's. It tells whether the actor goes on.
fn take_line<K: Desk>(
    alloc: Global,
    desk: &mut K,
    who: &Who,
    numbered: &NumberedLine,
    objects: &[LockObject],
    ranges: &Ranges,
    carried: &mut Carried,
    said: &mut Vec<Said>,
) -> Result<bool, NoMemory>
    requires part { has_part numbered.now.line ≡ true }
    requires own { K.session desk.old ≡ session_of who.now }
    requires intervals { K.intervals desk.old ≡ intervals_of ranges.now }
    requires enough { HasEnough (intervals_of ranges.now) who.now (numbered.now ∷ []) (K.left desk.old) }
    requires knows { Knows (K.entries desk.old) carried.old.drawn.stock.items carried.old.drawn.count }
    ensures takes { IfOk result (λ goes. TakesLine (land_of objects.now (intervals_of ranges.now)) who.now numbered.now
        (deeds carried.old.sides.items (desk_view K.entries K.full_at desk.old) said.old.items false)
        (deeds carried.new.sides.items (desk_view K.entries K.full_at desk.new) said.new.items (not goes))) }
    // Where memory is wanting the line may have been done, whose answer is then lost.
    ensures wanting { OnErr result (MayHaveTaken (land_of objects.now (intervals_of ranges.now)) who.now numbered.now
        (deeds carried.old.sides.items (desk_view K.entries K.full_at desk.old) said.old.items false)
        (desk_view K.entries K.full_at desk.new)) }
    ensures intervals { K.intervals desk.new ≡ K.intervals desk.old }
    ensures session { K.session desk.new ≡ K.session desk.old }
    ensures knows { Knows (K.entries desk.new) carried.new.drawn.stock.items carried.new.drawn.count }
    ensures left { LeavesFor who.now numbered.now (K.left desk.old) (K.left desk.new) }
{
    if !is_done_by(&numbered.line, who) {
        return Ok(true);
    }
    match do_line(alloc, desk, who, numbered, objects, ranges, carried) {
        Done::Called => Ok(true),
        Done::Answered(reply) => {
            say(alloc, said, numbered.number, &reply)?;
            Ok(true)
        }
        Done::Stopped => Ok(false),
        Done::Wanting => Err(NoMemory),
    }
}

/// Notes what a line is answered.
fn say(alloc: Global, said: &mut Vec<Said>, line: u32, reply: &Reply) -> Result<(), NoMemory>
    ensures { OnOk result (said.new.items ≡ said.old.items ++ saying line reply.now ∷ []) }
{
    let text = text_of_reply(alloc, reply)?;
    said.push(Said { line, text })?;
    Ok(())
}

/// What a line of an actor came to.
#[derive(Drop)]
enum Done {
    /// A call, which is in the history.
    Called,
    /// This answer, which isn't in the history.
    Answered(Reply),
    /// A call or a drawing that found the history full, or for which memory was wanting.
    Stopped,
    /// Nothing: there was no memory for it.
    Wanting,
}

/// Does a line that is the actor's.
fn do_line<K: Desk>(
    alloc: Global,
    desk: &mut K,
    who: &Who,
    numbered: &NumberedLine,
    objects: &[LockObject],
    ranges: &Ranges,
    carried: &mut Carried,
) -> Done
    requires part { has_part numbered.now.line ≡ true }
    requires replied { line_kind numbered.now.line ≡ LineKind.Replied }
    requires own { K.session desk.old ≡ session_of who.now }
    requires intervals { K.intervals desk.old ≡ intervals_of ranges.now }
    requires enough { HasEnough (intervals_of ranges.now) who.now (numbered.now ∷ []) (K.left desk.old) }
    requires done { is_done_by who.now numbered.now.line ≡ true }
    requires knows { Knows (K.entries desk.old) carried.old.drawn.stock.items carried.old.drawn.count }
    ensures done { DoneAs (land_of objects.now (intervals_of ranges.now)) who.now numbered.now carried.old.sides.items
        (desk_view K.entries K.full_at desk.old) carried.new.sides.items (desk_view K.entries K.full_at desk.new)
        result }
    ensures intervals { K.intervals desk.new ≡ K.intervals desk.old }
    ensures session { K.session desk.new ≡ K.session desk.old }
    ensures knows { Knows (K.entries desk.new) carried.new.drawn.stock.items carried.new.drawn.count }
    ensures left { LeavesFor who.now numbered.now (K.left desk.old) (K.left desk.new) }
{
    match prepare(alloc, objects, &numbered.line, &mut carried.sides) {
        Ok(Prepared::Call(command)) => ask(alloc, desk, who, numbered, ranges, command, carried),
        Ok(Prepared::Changed) => Done::Answered(Reply::Done),
        Err(refusal) => refused_as(refusal),
    }
}

/// Does a line that comes to a call: it makes the call, or draws the number of a stock that it would ask for.
fn ask<K: Desk>(
    alloc: Global,
    desk: &mut K,
    who: &Who,
    numbered: &NumberedLine,
    ranges: &Ranges,
    command: Command,
    carried: &mut Carried,
) -> Done
    requires own { K.session desk.old ≡ session_of who.now }
    requires intervals { K.intervals desk.old ≡ intervals_of ranges.now }
    requires may { MayMake (intervals_of ranges.now) who.now numbered.now (K.left desk.old) command }
    requires knows { Knows (K.entries desk.old) carried.old.drawn.stock.items carried.old.drawn.count }
    requires room { HasRoomFor numbered.now.line (Ok Prepared.Changed) carried.old.sides }
    ensures done { ComesTo (AsksLine (intervals_of ranges.now) who.now numbered.now command) numbered.now
        carried.old.sides.items (desk_view K.entries K.full_at desk.old) carried.new.sides.items
        (desk_view K.entries K.full_at desk.new) result }
    ensures intervals { K.intervals desk.new ≡ K.intervals desk.old }
    ensures session { K.session desk.new ≡ K.session desk.old }
    ensures knows { Knows (K.entries desk.new) carried.new.drawn.stock.items carried.new.drawn.count }
    ensures left { LeavesFor who.now numbered.now (K.left desk.old) (K.left desk.new) }
{
    match wanted_of(ranges, &command, &mut carried.drawn) {
        Ok(Wanted::Call) => call_with_stock(alloc, desk, who, numbered, command, carried),
        Ok(Wanted::Number) => draw(alloc, desk, numbered, &command, carried),
        Ok(Wanted::TooMany) => Done::Answered(Reply::Refused(Refusal::UnitTooLarge)),
        Err(NoMemory) => Done::Wanting,
    }
}

/// Makes the call of a line, with the numbers that were drawn where it is a COMMIT.
fn call_with_stock<K: Desk>(
    alloc: Global,
    desk: &mut K,
    who: &Who,
    numbered: &NumberedLine,
    command: Command,
    carried: &mut Carried,
) -> Done
    requires allowed { MayAskIn (K.intervals desk.old) (K.entries desk.old)
        (with_stock carried.old.drawn.stock.items command) }
    requires knows { Knows (K.entries desk.old) carried.old.drawn.stock.items carried.old.drawn.count }
    requires room { HasRoomFor numbered.now.line (Ok Prepared.Changed) carried.old.sides }
    ensures called { IsCalledOrWanting numbered.now (with_stock carried.old.drawn.stock.items command)
        carried.old.sides.items (desk_view K.entries K.full_at desk.old) carried.new.sides.items
        (desk_view K.entries K.full_at desk.new) result }
    ensures intervals { K.intervals desk.new ≡ K.intervals desk.old }
    ensures session { K.session desk.new ≡ K.session desk.old }
    ensures knows { Knows (K.entries desk.new) carried.new.drawn.stock.items carried.new.drawn.count }
    ensures left { K.left desk.new ≡ K.left desk.old }
{
    let mut command = command;
    match give_stock(alloc, &mut command, &carried.drawn) {
        Ok(()) => call(alloc, desk, who, numbered, command, carried),
        Err(NoMemory) => Done::Wanting,
    }
}

/// Makes the call of a line.
fn call<K: Desk>(
    alloc: Global,
    desk: &mut K,
    who: &Who,
    numbered: &NumberedLine,
    command: Command,
    carried: &mut Carried,
) -> Done
    requires allowed { MayAskIn (K.intervals desk.old) (K.entries desk.old) command }
    requires knows { Knows (K.entries desk.old) carried.old.drawn.stock.items carried.old.drawn.count }
    requires room { HasRoomFor numbered.now.line (Ok Prepared.Changed) carried.old.sides }
    ensures called { IsCalled numbered.now command carried.old.sides.items (desk_view K.entries K.full_at desk.old)
        carried.new.sides.items (desk_view K.entries K.full_at desk.new) result }
    ensures intervals { K.intervals desk.new ≡ K.intervals desk.old }
    ensures session { K.session desk.new ≡ K.session desk.old }
    ensures knows { Knows (K.entries desk.new) carried.new.drawn.stock.items carried.new.drawn.count }
    ensures left { K.left desk.new ≡ K.left desk.old }
{
    let settling = settling_of(&command);
    let reply = desk.call(numbered.number, who, command);
    follow(alloc, &numbered.line, &reply, &mut carried.sides);
    carried.drawn.follow_call(settling, &reply);
    called_as(reply)
}

/// Draws the number that a line asks for from its stock.
fn draw<K: Desk>(
    alloc: Global,
    desk: &mut K,
    numbered: &NumberedLine,
    command: &Command,
    carried: &mut Carried,
) -> Done
    requires can { CanDraw (K.intervals desk.old) (K.left desk.old) command.now }
    requires knows { Knows (K.entries desk.old) carried.old.drawn.stock.items carried.old.drawn.count }
    requires place { vec_len carried.old.drawn.stock < vec_capacity carried.old.drawn.stock }
    requires room { HasRoomFor numbered.now.line (Ok Prepared.Changed) carried.old.sides }
    ensures drew { DrewFor (K.session desk.old) (K.intervals desk.old) numbered.now carried.old.sides.items
        (desk_view K.entries K.full_at desk.old) carried.new.sides.items (desk_view K.entries K.full_at desk.new)
        result command.now }
    ensures intervals { K.intervals desk.new ≡ K.intervals desk.old }
    ensures session { K.session desk.new ≡ K.session desk.old }
    ensures knows { Knows (K.entries desk.new) carried.new.drawn.stock.items carried.new.drawn.count }
    ensures left { TakesFor (K.left desk.old) (K.left desk.new) command.now }
{
    let Command::Number { object, nr, .. } = command else {
        unreachable!()
    };
    draw_named(alloc, desk, numbered, *object, *nr, carried)
}

fn draw_named<K: Desk>(
    alloc: Global,
    desk: &mut K,
    numbered: &NumberedLine,
    object: Name,
    nr: [u8; 2],
    carried: &mut Carried,
) -> Done
    requires one { HasDraw (K.intervals desk.old) (K.left desk.old) object nr }
    requires knows { Knows (K.entries desk.old) carried.old.drawn.stock.items carried.old.drawn.count }
    requires place { vec_len carried.old.drawn.stock < vec_capacity carried.old.drawn.stock }
    requires room { HasRoomFor numbered.now.line (Ok Prepared.Changed) carried.old.sides }
    ensures drawn { (i : Interval) → interval_at (K.intervals desk.old) object nr ≡ Some i
        → IsDrawnFrom (K.session desk.old) numbered.now i carried.old.sides.items
        (desk_view K.entries K.full_at desk.old) carried.new.sides.items (desk_view K.entries K.full_at desk.new)
        result }
    ensures intervals { K.intervals desk.new ≡ K.intervals desk.old }
    ensures session { K.session desk.new ≡ K.session desk.old }
    ensures knows { Knows (K.entries desk.new) carried.new.drawn.stock.items carried.new.drawn.count }
    ensures left { TakesOne object nr (K.left desk.old) (K.left desk.new) }
{
    let reply = desk.draw(numbered.number, object, nr);
    follow(alloc, &numbered.line, &reply, &mut carried.sides);
    carried.drawn.follow_draw(object, nr, &reply);
    drawn_as(reply)
}

/// What a line came to that is refused before any call.
fn refused_as(refusal: Refusal) -> Done
    ensures { result ≡ refused_as refusal }
{
    match refusal {
        Refusal::NoMemory => Done::Wanting,
        refusal => Done::Answered(Reply::Refused(refusal)),
    }
}

/// What a line came to whose call is answered so.
fn called_as(reply: Reply) -> Done
    ensures { result ≡ called_as reply }
{
    match reply {
        Reply::Refused(Refusal::NoMemory | Refusal::LogFull) => Done::Stopped,
        // No call of an actor is answered so. It wouldn't be in the history.
        Reply::Refused(Refusal::Idle) => Done::Answered(Reply::Refused(Refusal::Idle)),
        _ => Done::Called,
    }
}

/// What a line came to whose drawing is answered so.
fn drawn_as(reply: Reply) -> Done
    ensures { result ≡ drawn_as reply }
{
    match reply {
        Reply::Refused(Refusal::NoMemory | Refusal::LogFull) => Done::Stopped,
        reply => Done::Answered(reply),
    }
}

/// Lets the private sides follow the answer of a call. A session that has one keeps it where it is logged on once more.
fn follow(alloc: Global, line: &ScriptLine, reply: &Reply, sides: &mut Sides)
    requires { HasRoomFor line.now (Ok Prepared.Changed) sides.old }
    ensures { sides.new.items ≡ followed line.now reply.now sides.old.items }
{
    if keeps_side(line, sides) {
        return;
    }
    settle(alloc, line, reply, sides);
}

fn keeps_side(line: &ScriptLine, sides: &Sides) -> bool
    ensures { result ≡ keeps_side line.now sides.now.items }
{
    match line {
        ScriptLine::Logon { session, .. } => sides.has_side(session),
        _ => false,
    }
}
