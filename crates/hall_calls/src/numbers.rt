ghost use Rattle.std.specs.Prelude.{ℕ, ◌≡◌, ◌∷◌, ◌≤◌, ◌<◌, ◌+◌, ◌^◌, [], IfErr, IfOk, IfSome, MatchResult, OnErr, OnOk, is_none, nat_lt, Contains, false};
ghost use Rattle.hall_model.specs.declared.command.Command.TheVariants as command;
ghost use Rattle.hall_calls.specs.declared.units.Written.TheVariants.{Answered};
ghost use Rattle.hall_model.specs.Acts.{Admits, IsAct};
ghost use Rattle.hall_calls.specs.Written.{IsWritten, OnFailure};
ghost use Rattle.hall_calls.specs.Filing.{ChangesLevels, KeepsUnits};
ghost use Rattle.hall_model.specs.Calls.{Draws, Reserves};
ghost use Rattle.hall_model.specs.Devices.{raises_level};
ghost use Rattle.hall_model.specs.Kept.{draws_in};
ghost use Rattle.hall_calls.specs.Leaving.{HasStoreCause};
ghost use Rattle.hall_model.specs.Numbers.{IsNextDraw, IsNextReserve, level_for, next_number, raised_by};
ghost use Rattle.hall_model.specs.Sessions.{with_draw};
ghost use Rattle.hall_model.specs.State.{State};
ghost use Rattle.hall_calls.specs.Storing.{EndsAs, IsRaiseFault};
ghost use Rattle.number_ranges.specs.Intervals.{IsInterval, is_buffered, is_named, with_level};
ghost use Rattle.ledger_steps.specs.Intervals.{MayStore};
ghost use Rattle.posting.specs.BooksView.{IsUsable};
ghost use Rattle.ledger_steps.specs.Drawn.{AreDrawnRight, drawn_of, settled_rows, stored_as};
ghost use Rattle.ledger_steps.specs.Levels.{level_in, present};
ghost use Rattle.ledger_steps.specs.declared.range.NumberRange.{NumberRange};
ghost use Rattle.update_records.specs.Business.{numbers_of};

use crate::sessions::{Sessions, session_of};
use crate::units::Written;
use crate::writing::write_level;
use enq_base::{Name, NoMemory, Num, Refusal};
use hall_model::{Reply, Session};
use keeper_api::{KeepFault, Keeper};
use ledger_steps::{NumberRange, Step};
use number_ranges::{Interval, code, next_block};
use posting::Books;
use range_list::Ranges;
use std::alloc::Global;
use update_records::StoredInterval;

/// The most numbers that a session may have drawn and not recorded.
pub(crate) const DRAWS_LIMIT: usize = 64;

/// A session's call for numbers of an interval, which has this object and these two digits.
#[derive(Drop)]
pub(crate) struct NumberCall<'a> {
    pub(crate) session: &'a Name,
    pub(crate) object: &'a Name,
    pub(crate) nr: [u8; 2],
}

/// A number that a session may draw, the level that reserves it, and what the session has drawn then.
#[derive(Drop)]
struct NextDraw {
    interval: Interval,
    number: u64,
    level: u64,
    draws: Vec<Num>,
}

/// Draws the next number of an interval for a session. Where the interval is buffered and its level doesn't reach the
/// number, the level is raised by whole blocks first, in a commit of its own.
pub(crate) fn draw<K: Keeper>(
    alloc: Global,
    sessions: &mut Sessions,
    ranges: &mut Ranges,
    books: &mut Books<K>,
    call: &NumberCall<'_>,
) -> Written
    requires usable { IsUsable K.held K.is_open books.old }
    requires started { 1 ≤ books.old.ledger.start }
    requires drawn { AreDrawnRight ranges.old books.old.ledger.levels (draws_in sessions.old)
        (numbers_of books.old.ledger.units books.old.ledger.marks) }
    ensures act { (s : State) → s.sessions ≡ sessions.old → s.ranges ≡ ranges.old → s.stored ≡ books.old.ledger
        → Admits s (command.Number call.now.session.now call.now.object.now call.now.nr)
        → IsWritten s (command.Number call.now.session.now call.now.object.now call.now.nr)
        (record s { sessions = sessions.new; ranges = ranges.new; stored = books.new.ledger })
        result }
    ensures sessions { OnFailure result (sessions.new ≡ sessions.old) }
    ensures ranges { OnFailure result (ranges.new ≡ ranges.old) }
    ensures levels { ChangesLevels books.old.ledger books.new.ledger result }
    ensures keeper { (s : State) → s.ranges ≡ ranges.old → s.stored ≡ books.old.ledger
        → raises_level s (Draws call.now.object.now call.now.nr) ≡ false → books.new.keeper ≡ books.old.keeper }
    ensures store { EndsAs K.held K.is_open K.may_leave K.faults books.old books.new result }
{
    let draw = match to_draw(alloc, sessions, ranges, books, call) {
        Ok(draw) => draw,
        Err(refusal) => return Written::Answered(Reply::Refused(refusal)),
    };
    if draw.interval.buffer > 0 {
        if let Err(failed) = raise(alloc, books, &draw.interval, draw.level) {
            return failed;
        }
        ranges.hand_out(call.object, call.nr);
    }
    sessions.set_draws(call.session, draw.draws);
    Written::Answered(Reply::Number {
        number: draw.number,
        code: code(&draw.interval, draw.number),
    })
}

/// Reserves the numbers of a buffered interval up to this one, in whole blocks. A level that reaches them is written
/// nowhere.
pub(crate) fn reserve<K: Keeper>(
    alloc: Global,
    sessions: &Sessions,
    ranges: &Ranges,
    books: &mut Books<K>,
    call: &NumberCall<'_>,
    upto: u64,
) -> Written
    requires usable { IsUsable K.held K.is_open books.old }
    requires started { 1 ≤ books.old.ledger.start }
    requires drawn { AreDrawnRight ranges.now books.old.ledger.levels (draws_in sessions.now)
        (numbers_of books.old.ledger.units books.old.ledger.marks) }
    ensures act { (s : State) → s.sessions ≡ sessions.now → s.ranges ≡ ranges.now → s.stored ≡ books.old.ledger
        → Admits s (command.Reserve call.now.session.now call.now.object.now call.now.nr upto)
        → IsWritten s (command.Reserve call.now.session.now call.now.object.now call.now.nr upto)
        (record s { stored = books.new.ledger }) result }
    ensures levels { ChangesLevels books.old.ledger books.new.ledger result }
    ensures keeper { (s : State) → s.ranges ≡ ranges.now → s.stored ≡ books.old.ledger
        → raises_level s (Reserves call.now.object.now call.now.nr upto) ≡ false → books.new.keeper ≡ books.old.keeper }
    ensures store { EndsAs K.held K.is_open K.may_leave K.faults books.old books.new result }
{
    let (interval, level) = match to_reserve(sessions, ranges, books, call, upto) {
        Ok(found) => found,
        Err(refusal) => return Written::Answered(Reply::Refused(refusal)),
    };
    match raise(alloc, books, &interval, level) {
        Ok(()) => Written::Answered(Reply::Level(level)),
        Err(failed) => failed,
    }
}

/// Raises the level of an interval. A level that stands there already is written nowhere.
fn raise<K: Keeper>(
    alloc: Global,
    books: &mut Books<K>,
    interval: &Interval,
    level: u64,
) -> Result<(), Written>
    requires usable { IsUsable K.held K.is_open books.old }
    requires started { 1 ≤ books.old.ledger.start }
    requires store { MayStore books.old.ledger (stored_as (with_level level interval.now) ∷ []) [] }
    ensures ledger { OnOk result (books.new.ledger ≡ raised_by interval.now level books.old.ledger) }
    ensures done { OnOk result
        (EndsAs K.held K.is_open K.may_leave K.faults books.old books.new (Answered Reply.Done)) }
    ensures fault { IfErr result (IsRaiseFault interval.now level) }
    ensures kept { OnErr result (books.new.ledger ≡ books.old.ledger) }
    ensures levels { MatchResult result
        (λ done. KeepsUnits books.old.ledger books.new.ledger) (ChangesLevels books.old.ledger books.new.ledger) }
    ensures failed { IfErr result (EndsAs K.held K.is_open K.may_leave K.faults books.old books.new) }
    ensures still { level ≡ interval.now.level → books.new.keeper ≡ books.old.keeper }
{
    if level == interval.level {
        return Ok(());
    }
    let raised = stored_at(interval, level);
    match write_level(alloc, books, &raised) {
        Ok(()) => Ok(()),
        Err(KeepFault::NoMemory) => Err(Written::Answered(Reply::Refused(Refusal::NoMemory))),
        Err(KeepFault::Failed) => Err(Written::Failed(Some(Step::Level(raised)))),
    }
}

/// The row of an interval at a level.
fn stored_at(interval: &Interval, level: u64) -> StoredInterval
    ensures { result ≡ stored_as (with_level level interval.now) }
{
    StoredInterval {
        object: interval.object,
        nr: interval.nr,
        from: interval.from,
        to: interval.to,
        level,
        buffered: interval.buffer > 0,
    }
}

/// The number that a session draws next of an interval, or why it draws none.
fn to_draw<K: Keeper>(
    alloc: Global,
    sessions: &Sessions,
    ranges: &Ranges,
    books: &Books<K>,
    call: &NumberCall<'_>,
) -> Result<NextDraw, Refusal>
    requires drawn { AreDrawnRight ranges.now books.now.ledger.levels (draws_in sessions.now)
        (numbers_of books.now.ledger.units books.now.ledger.marks) }
    ensures draw { IfOk result
        (λ d. IsNextDraw sessions.now ranges.now books.now.ledger.levels call.now.session.now call.now.object.now
        call.now.nr d.interval d.number
        d.level d.draws.items) }
    ensures refused { IfErr result
        (λ r. (s : State) → s.sessions ≡ sessions.now → s.ranges ≡ ranges.now → s.stored ≡ books.now.ledger
        → Admits s (command.Number call.now.session.now call.now.object.now call.now.nr)
        → IsAct s (command.Number call.now.session.now call.now.object.now call.now.nr) s (Reply.Refused r)) }
    ensures quiet { IfErr result (λ r. (n : ℕ) → HasStoreCause n n (Reply.Refused r)) }
{
    let session = session_of(sessions, call.session)?;
    let Some(range) = ranges.find(call.object, call.nr) else {
        return Err(Refusal::IntervalNotFound);
    };
    if session.draws.as_slice().len() >= DRAWS_LIMIT {
        return Err(Refusal::UnitTooLarge);
    }
    let interval = present(range, books);
    if let Some(holder) = sessions.other_holder(call.session, &interval) {
        return Err(Refusal::IntervalBusy(holder));
    }
    let number = next_number(range, &interval, session);
    let Some(level) = level_for(&interval, number) else {
        return Err(Refusal::IntervalOverflow(interval.to));
    };
    let num = Num {
        object: interval.object,
        nr: interval.nr,
        number,
    };
    let Ok(draws) = draws_with(alloc, session, num) else {
        return Err(Refusal::NoMemory);
    };
    Ok(NextDraw {
        interval,
        number,
        level,
        draws,
    })
}

/// The interval whose numbers up to this one a session may reserve with the level that reserves them, or why it may
/// not.
fn to_reserve<K: Keeper>(
    sessions: &Sessions,
    ranges: &Ranges,
    books: &Books<K>,
    call: &NumberCall<'_>,
    upto: u64,
) -> Result<(Interval, u64), Refusal>
    requires drawn { AreDrawnRight ranges.now books.now.ledger.levels (draws_in sessions.now)
        (numbers_of books.now.ledger.units books.now.ledger.marks) }
    ensures interval { IfOk result
        (λ f. IsNextReserve sessions.now ranges.now books.now.ledger.levels call.now.session.now call.now.object.now
        call.now.nr upto f.0 f.1) }
    ensures refused { IfErr result
        (λ r. (s : State) → s.sessions ≡ sessions.now → s.ranges ≡ ranges.now → s.stored ≡ books.now.ledger
        → Admits s (command.Reserve call.now.session.now call.now.object.now call.now.nr upto)
        → IsAct s (command.Reserve call.now.session.now call.now.object.now call.now.nr upto) s (Reply.Refused r)) }
    ensures quiet { IfErr result (λ r. (n : ℕ) → HasStoreCause n n (Reply.Refused r)) }
{
    session_of(sessions, call.session)?;
    let Some(range) = ranges.find(call.object, call.nr) else {
        return Err(Refusal::IntervalNotFound);
    };
    let interval = present(range, books);
    if interval.buffer == 0 {
        return Err(Refusal::IntervalNotFound);
    }
    match level_for(&interval, upto) {
        Some(level) => Ok((interval, level)),
        None => Err(Refusal::IntervalOverflow(interval.to)),
    }
}

/// The level that reserves a number, in whole blocks where the interval is buffered. None comes past the end.
fn level_for(interval: &Interval, number: u64) -> Option<u64>
    requires { IsInterval interval.now }
    ensures level { IfSome result (λ level. level ≡ level_for interval.now number) }
    ensures none { is_none result ≡ nat_lt interval.now.to number }
{
    if interval.buffer > 0 {
        return next_block(interval, number);
    }
    (number <= interval.to).then_some(interval.level)
}

/// The interval of a range with the level that the store has.
pub(crate) fn present<K: Keeper>(range: &NumberRange, books: &Books<K>) -> Interval
    ensures { result ≡ present books.now.ledger.levels range.now.interval }
{
    let mut interval = range.interval;
    if let Some(level) = books.level(&interval.object, interval.nr) {
        interval.level = level;
    }
    interval
}

/// The number that a session draws next: from memory, or behind those that it has drawn.
fn next_number(range: &NumberRange, interval: &Interval, session: &Session) -> u64
    requires { interval.now.level + drawn_of interval.now session.now.draws + 1 < 2 ^ 64 }
    ensures { result ≡ next_number range.now interval.now session.now }
{
    if interval.buffer > 0 {
        range.next
    } else {
        interval.level + drawn_of(interval, session.draws.as_slice()) + 1
    }
}

/// How many of these numbers are of the interval.
pub(crate) fn drawn_of(interval: &Interval, numbers: &[Num]) -> u64
    ensures { result ≡ drawn_of interval.now numbers.now }
{
    numbers.iter().filter(|num| is_of(num, interval)).count() as u64
}

/// Whether a number is of the interval.
fn is_of(num: &Num, interval: &Interval) -> bool
    ensures { result ≡ is_named num.now.object num.now.nr interval.now }
{
    interval.object.bytes() == num.object.bytes() && interval.nr == num.nr
}

/// What the session has drawn, and this number.
fn draws_with(alloc: Global, session: &Session, num: Num) -> Result<Vec<Num>, NoMemory>
    ensures { IfOk result (λ draws. draws.items ≡ (with_draw num session.now).draws) }
{
    let mut draws = Vec::from_slice(alloc, session.draws.as_slice())?;
    draws.push(num)?;
    Ok(draws)
}

/// The rows of the intervals without a buffer of which there are numbers, their levels at the last of them, in the
/// order of the landscape. Only the intervals of the numbers are looked at.
pub(crate) fn settled_rows<K: Keeper>(
    alloc: Global,
    ranges: &Ranges,
    books: &Books<K>,
    numbers: &[Num],
) -> Result<Vec<StoredInterval>, NoMemory>
    requires fit { (r : NumberRange) → Contains ranges.now r → is_buffered r.interval ≡ false
        → level_in books.now.ledger.levels r.interval + drawn_of (present books.now.ledger.levels r.interval)
        numbers.now ≤ r.interval.to }
    ensures { IfOk result (λ rows. rows.items ≡ settled_rows books.now.ledger.levels ranges.now numbers.now) }
{
    let mut rows = Vec::new(alloc);
    let list = ranges.as_slice();
    let mut place = ranges.next_place(numbers, 0);
    while place < list.len() {
        let interval = present(&list[place], books);
        let drawn = drawn_of(&interval, numbers);
        if interval.buffer == 0 && drawn > 0 {
            rows.push(stored_at(&interval, interval.level + drawn))?;
        }
        place = ranges.next_place(numbers, place + 1);
    }
    Ok(rows)
}
