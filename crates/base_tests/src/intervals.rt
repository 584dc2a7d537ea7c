ghost use Rattle.std.specs.Prelude.{◌≡◌, ◌<◌, IfOk};
ghost use Rattle.number_ranges.specs.Intervals.{IsInterval};

use enq_base::{Name, read_name};
use number_ranges::{DrawFault, Interval, Range, code, next_block};
use std::alloc::Global;
use std::test::*;

fn name(text: &[u8]) -> Result<Name, Fail> {
    match read_name(text) {
        Some(name) => Ok(name),
        None => Err(Fail::from("a name")),
    }
}

/// The numbers 98 to 100, of which the last 40 percent are critical.
fn small() -> Result<Interval, Fail>
    ensures { IfOk result IsInterval }
{
    Ok(Interval {
        object: name(b"ZSMALL")?,
        nr: *b"01",
        from: 98,
        to: 100,
        level: 97,
        buffer: 0,
        percent: 40,
    })
}

/// The numbers 1 to 1,000, in blocks of 10.
fn buffered() -> Result<Interval, Fail>
    ensures good { IfOk result IsInterval }
    ensures buffered { IfOk result (λ interval. 0 < interval.buffer) }
{
    Ok(Interval {
        object: name(b"ZBUF")?,
        nr: *b"01",
        from: 1,
        to: 1000,
        level: 0,
        buffer: 10,
        percent: 0,
    })
}

/// What a draw is answered: a number, that another session has the interval, that it is at its end, or that memory is
/// empty.
#[derive(Clone, Copy)]
enum Answer {
    Number(u64),
    Busy(&'static [u8]),
    Overflow(u64),
    Empty,
}

fn is_answer(drawn: &Result<u64, DrawFault>, answer: &Answer) -> bool {
    match (drawn, answer) {
        (Ok(number), Answer::Number(wanted)) => number == wanted,
        (Err(DrawFault::Busy(session)), Answer::Busy(wanted)) => session.bytes() == *wanted,
        (Err(DrawFault::Overflow(last)), Answer::Overflow(wanted)) => last == wanted,
        (Err(DrawFault::Empty), Answer::Empty) => true,
        _ => false,
    }
}

/// What is done with a range, and what is to come of it. Sessions stand by their names.
#[derive(Clone, Copy)]
enum Step {
    Draws(&'static [u8], Answer),
    HandsOut(Answer),
    /// The level is raised to the block of this number, and is then that one.
    Raises(u64, u64),
    GivesBack(&'static [u8]),
    Settles(&'static [u8]),
    /// The level, and the session that has the interval.
    Stands(u64, Option<&'static [u8]>),
}

fn draws(range: &mut Range, session: &[u8], answer: &Answer) -> Result<bool, Fail> {
    if range.interval().buffer != 0 {
        return Err(Fail::from("no buffer"));
    }
    Ok(is_answer(&range.draw_plain(name(session)?), answer))
}

fn hands_out(range: &mut Range, answer: &Answer) -> Result<bool, Fail> {
    if range.interval().buffer == 0 {
        return Err(Fail::from("a buffer"));
    }
    Ok(is_answer(&range.draw_buffered(), answer))
}

fn raises(range: &mut Range, upto: u64, level: u64) -> Result<bool, Fail> {
    let interval = range.interval();
    if interval.buffer == 0 {
        return Err(Fail::from("a buffer"));
    }
    let Some(reached) = next_block(&interval, upto) else {
        return Err(Fail::from("a block"));
    };
    range.set_level(reached);
    Ok(range.interval().level == level)
}

fn stands(range: &Range, level: u64, holder: Option<&[u8]>) -> bool {
    let is_held = match (range.holder(), holder) {
        (Some(session), Some(wanted)) => session.bytes() == wanted,
        (None, None) => true,
        _ => false,
    };
    is_held && range.interval().level == level
}

fn take_step(range: &mut Range, step: &Step) -> Result<bool, Fail> {
    match step {
        Step::Draws(session, answer) => draws(range, *session, answer),
        Step::HandsOut(answer) => hands_out(range, answer),
        Step::Raises(upto, level) => raises(range, *upto, *level),
        Step::GivesBack(session) => {
            range.give_back(name(*session)?);
            Ok(true)
        }
        Step::Settles(session) => {
            range.settle(name(*session)?);
            Ok(true)
        }
        Step::Stands(level, holder) => Ok(stands(range, *level, *holder)),
    }
}

/// Takes these steps with a range of its own.
fn take_all(interval: Interval, steps: &[Step]) -> Result<(), Fail>
    requires { IsInterval interval }
{
    let mut range = Range::new(interval);
    for step in steps {
        if !take_step(&mut range, step)? {
            return Err(Fail::from("another answer"));
        }
    }
    Ok(())
}

const TO_THE_LAST: [Step; 4] = [
    Step::Draws(b"A", Answer::Number(98)),
    Step::Draws(b"A", Answer::Number(99)),
    Step::Draws(b"A", Answer::Number(100)),
    Step::Draws(b"A", Answer::Overflow(100)),
];

#[test]
fn numbers_come_up_to_the_last() -> Result<(), Fail> {
    take_all(small()?, &TO_THE_LAST)
}

const BY_TURNS: [Step; 11] = [
    Step::Draws(b"A", Answer::Number(98)),
    Step::Draws(b"B", Answer::Busy(b"A")),
    Step::GivesBack(b"B"),
    Step::Draws(b"A", Answer::Number(99)),
    Step::GivesBack(b"A"),
    Step::Stands(97, None),
    Step::Draws(b"B", Answer::Number(98)),
    Step::Stands(97, Some(b"B")),
    Step::Settles(b"B"),
    Step::Stands(98, None),
    Step::Draws(b"A", Answer::Number(99)),
];

#[test]
fn an_interval_belongs_to_one_session_at_a_time() -> Result<(), Fail> {
    take_all(small()?, &BY_TURNS)
}

const TO_THE_LEVEL: [Step; 5] = [
    Step::HandsOut(Answer::Empty),
    Step::Raises(2, 10),
    Step::HandsOut(Answer::Number(1)),
    Step::HandsOut(Answer::Number(2)),
    Step::Stands(10, None),
];

#[test]
fn buffered_numbers_come_up_to_the_level() -> Result<(), Fail> {
    take_all(buffered()?, &TO_THE_LEVEL)
}

fn is_code(alloc: Global, interval: &Interval, number: u64, text: &str) -> Result<bool, Fail>
    requires { IsInterval interval.now }
{
    if number < interval.from || number > interval.to {
        return Ok(false);
    }
    let code = code(interval, number);
    Ok(format!(in alloc; "{code}")?.as_str() == text)
}

#[test]
fn codes_are_printed(rt: HostRuntime) -> Result<(), Fail> {
    let interval = small()?;
    assert!(rt; is_code(rt.alloc(), &interval, 98, "-")?);
    assert!(rt; is_code(rt.alloc(), &interval, 99, "1")?);
    assert!(rt; is_code(rt.alloc(), &interval, 100, "2")?);
    Ok(())
}

// Numbers, and the level that reaches each.
const BLOCKS: [(u64, Option<u64>); 7] = [
    (0, Some(0)),
    (1, Some(10)),
    (10, Some(10)),
    (25, Some(30)),
    (995, Some(1000)),
    (1000, Some(1000)),
    (1001, None),
];

/// The first of these numbers that another level reaches.
fn wrong_block(interval: &Interval, blocks: &[(u64, Option<u64>)]) -> Option<u64>
    requires good { IsInterval interval.now }
    requires buffered { 0 < interval.now.buffer }
{
    for (upto, level) in blocks {
        if next_block(interval, *upto) != *level {
            return Some(*upto);
        }
    }
    None
}

#[test]
fn a_block_reaches_the_number_and_ends_at_the_last(rt: HostRuntime) -> Result<(), Fail> {
    assert_eq!(rt; wrong_block(&buffered()?, &BLOCKS), None);
    Ok(())
}
