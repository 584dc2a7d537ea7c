ghost use Rattle.hall_model.specs.State.{State};
ghost use Rattle.hall_model.specs.Stocks.{IsStockIn};
ghost use Rattle.ledger_steps.specs.Drawn.{num_of};
ghost use Rattle.ledger_steps.specs.Levels.{AreIntervals, IsUnused};
ghost use Rattle.std.specs.List.{range_with_len};
ghost use Rattle.std.specs.Prelude.{◌≡◌, ◌≤◌, ◌<◌, ◌+◌, ◌^◌, [], ◌∷◌, IfOk, OnOk, map};

use bk_disk::MemDisk;
use enq_base::{
    BackupBad, Bad, Deed, Effect, Items, Key, Name, Num, Owner, Parts, Pattern, Refusal, Text,
    UnitKey, read_name,
};
use hall::{Hall, HallFault};
use hall_model::Reply;
use keeper_mem::MemKeeper;
use lock_entry::{Asked, Entry, Mode, Request};
use lock_table::ListTable;
use number_ranges::{Code, Interval, Range};
use replica_link::MemLink;
use single_calls::SingleCalls;
use std::alloc::Global;
use std::test::*;

pub(crate) type MemHall = Hall<ListTable, MemKeeper, MemDisk, MemLink>;

// A call of the one session, or of a worker.
#[derive(Clone, Copy)]
enum Call {
    Logon,
    Logoff,
    // For an exclusive lock of the dialogue on this order, or of the open unit in this mode.
    Ask(&'static [u8]),
    AskForUnit(&'static [u8], Mode),
    // For an exclusive lock of both owners on this order.
    AskForBoth(&'static [u8]),
    Free(&'static [u8]),
    // A commit of one effect, or of none.
    Commit {
        effects: usize,
    },
    // The same with so many numbers of a stock, from this one on.
    CommitStock {
        effects: usize,
        first: u64,
        count: u64,
    },
    Take(u8),
    Post(u8),
    Drop(u8),
    // Of the first unit.
    Cancel,
    // Of the row that commits are to put.
    Read,
    // Of the buffered interval.
    Number,
    Reserve {
        upto: u64,
    },
}

// What a call is to be answered, where a unit is the first one.
#[derive(Clone, Copy)]
enum Answer {
    Done,
    Unit,
    Posted,
    Row(&'static [u8]),
    NoRow,
    Number(u64, Code),
    Level(u64),
    Refused(Refusal),
}

fn is_answer(reply: &Reply, answer: &Answer) -> bool {
    match (reply, answer) {
        (Reply::Done, Answer::Done) | (Reply::Row(None), Answer::NoRow) => true,
        (Reply::Unit(unit), Answer::Unit) | (Reply::Posted(unit), Answer::Posted) => {
            *unit == FIRST_UNIT
        }
        (Reply::Row(Some(text)), Answer::Row(row)) => text.bytes() == *row,
        (Reply::Number { number, code }, Answer::Number(next, expected)) => {
            number == next && code == expected
        }
        (Reply::Level(level), Answer::Level(reached)) => level == reached,
        (Reply::Refused(refusal), Answer::Refused(expected)) => refusal == expected,
        _ => false,
    }
}

fn effect(alloc: Global) -> Result<Effect, Fail> {
    let (Some(table), Some(key)) = (read_name(b"T"), Key::new(b"1")) else {
        return Err(Fail::from("words"));
    };
    let Ok(text) = Text::new(alloc, b"X") else {
        return Err(Fail::from("a text"));
    };
    Ok(Effect {
        table,
        key,
        deed: Deed::Put(text),
    })
}

fn parts_of(alloc: Global, effects: usize) -> Result<Parts, Fail> {
    let mut v1 = Vec::new(alloc);
    for _ in 0..effects {
        v1.push(effect(alloc)?)?;
    }
    Ok(Parts {
        v1: Items::from_vec(v1),
        v2: Items::from_vec(Vec::new(alloc)),
    })
}

fn buffered_object() -> Result<Name, Fail> {
    Ok(read_name(b"ZBUF").ok_or("a name")?)
}

pub(crate) fn logon(hall: &mut MemHall, session: Name) -> Result<Reply, Fail> {
    let user = read_name(b"MILLER").ok_or("a name")?;
    Ok(hall.logon(1, session, user))
}

// An order's argument, a mode, and whether the dialogue and the unit are to have the lock.
type Wish<'a> = (&'a [u8], Mode, bool, bool);

fn ask(alloc: Global, hall: &mut MemHall, session: Name, wish: Wish) -> Result<Reply, Fail> {
    let (order, mode, dialogue, update) = wish;
    let request = lock(order, mode, dialogue, update).ok_or("a request")?;
    Ok(hall.ask(alloc, 1, session, vec![in alloc; request]?))
}

fn free(alloc: Global, hall: &mut MemHall, session: Name, order: &[u8]) -> Result<Reply, Fail> {
    let request = lock(order, Mode::E, true, false).ok_or("a request")?;
    Ok(hall.free(1, session, vec![in alloc; request]?))
}

fn commit(alloc: Global, hall: &mut MemHall, session: Name, effects: usize) -> Result<Reply, Fail> {
    let parts = parts_of(alloc, effects)?;
    Ok(commit_parts(alloc, hall, session, parts))
}

// A commit of these parts, without numbers of a stock.
pub(crate) fn commit_parts(
    alloc: Global,
    hall: &mut MemHall,
    session: Name,
    parts: Parts,
) -> Reply {
    hall.commit(alloc, 1, session, parts, no_stock(alloc))
}

fn read(alloc: Global, hall: &mut MemHall, session: Name) -> Result<Reply, Fail> {
    let table = read_name(b"T").ok_or("a name")?;
    let key = Key::new(b"1").ok_or("a key")?;
    Ok(hall.read(alloc, 1, session, table, key))
}

fn number(alloc: Global, hall: &mut MemHall, session: Name) -> Result<Reply, Fail> {
    Ok(hall.number(alloc, 1, session, buffered_object()?, *b"01"))
}

fn reserve(alloc: Global, hall: &mut MemHall, session: Name, upto: u64) -> Result<Reply, Fail> {
    Ok(hall.reserve(alloc, 1, session, buffered_object()?, *b"01", upto))
}

// A worker's call, or the administrator's.
fn work(alloc: Global, hall: &mut MemHall, call: &Call) -> Result<Reply, Fail> {
    match call {
        Call::Take(worker) => Ok(hall.take1(1, *worker)),
        Call::Post(worker) => Ok(hall.do1(alloc, 1, *worker)),
        Call::Drop(worker) => Ok(hall.drop_order(1, *worker)),
        Call::Cancel => Ok(hall.cancel(alloc, 1, FIRST_UNIT)),
        _ => Err(Fail::from("a call of a session")),
    }
}

fn make(alloc: Global, hall: &mut MemHall, call: &Call) -> Result<Reply, Fail> {
    let session = read_name(b"A").ok_or("a name")?;
    match call {
        Call::Logon => logon(hall, session),
        Call::Logoff => Ok(hall.logoff(1, session)),
        Call::Ask(order) => ask(alloc, hall, session, (*order, Mode::E, true, false)),
        Call::AskForBoth(order) => ask(alloc, hall, session, (*order, Mode::E, true, true)),
        Call::AskForUnit(order, mode) => ask(alloc, hall, session, (*order, *mode, false, true)),
        Call::Free(order) => free(alloc, hall, session, *order),
        Call::Commit { effects } => commit(alloc, hall, session, *effects),
        Call::CommitStock {
            effects,
            first,
            count,
        } => commit_stock(alloc, hall, session, *effects, (*first, *count)),
        Call::Read => read(alloc, hall, session),
        Call::Number => number(alloc, hall, session),
        Call::Reserve { upto } => reserve(alloc, hall, session, *upto),
        _ => work(alloc, hall, call),
    }
}

fn no_stock(alloc: Global) -> Vec<Num>
    ensures { (s : State) → IsStockIn s result.items }
{
    Vec::new(alloc)
}

// Commits with numbers that memory has yet to hand out, as a stock has them.
fn commit_stock(
    alloc: Global,
    hall: &mut MemHall,
    session: Name,
    effects: usize,
    numbers: (u64, u64),
) -> Result<Reply, Fail> {
    let parts = parts_of(alloc, effects)?;
    let stock = stock_of(alloc, hall, numbers.0, numbers.1)?;
    Ok(hall.commit(alloc, 1, session, parts, stock))
}

// The one interval of the hall has these numbers reserved, and memory has yet to hand them out.
fn stock_of(alloc: Global, hall: &MemHall, first: u64, count: u64) -> Result<Vec<Num>, Fail>
    ensures { IfOk result (λ stock. IsStockIn hall.now.state stock.items) }
{
    hall.read_invariant();
    let range = only_range(hall.ranges(alloc)?)?;
    let interval = reserved_in(range, first, count)?;
    numbers_from(alloc, &interval, first, count)
}

fn only_range(mut ranges: Vec<Range>) -> Result<Range, Fail>
    ensures { IfOk result (λ range. ranges.items ≡ range ∷ []) }
{
    match ranges.pop() {
        Some(range) if ranges.is_empty() => Ok(range),
        _ => Err(Fail::from("one interval")),
    }
}

// The interval of a range, where these numbers are behind the last one that memory handed out.
fn reserved_in(mut range: Range, first: u64, count: u64) -> Result<Interval, Fail>
    ensures few { OnOk result (first + count < 2 ^ 64) }
    ensures interval { IfOk result (λ interval. interval ≡ range.interval) }
    ensures buffered { OnOk result (0 < range.interval.buffer) }
    ensures behind { OnOk result (range.next ≤ first) }
    ensures within { OnOk result (first + count ≤ range.interval.level + 1) }
{
    let interval = range.interval();
    if interval.buffer == 0 {
        return Err(Fail::from("a buffer"));
    }
    let Ok(next) = range.draw_buffered() else {
        return Err(Fail::from("a number"));
    };
    if first < next || first > interval.level || count > interval.level + 1 - first {
        return Err(Fail::from("numbers that are reserved"));
    }
    Ok(interval)
}

fn numbers_from(
    alloc: Global,
    interval: &Interval,
    first: u64,
    count: u64,
) -> Result<Vec<Num>, Fail>
    requires { first + count < 2 ^ 64 }
    ensures { IfOk result (λ numbers. numbers.items ≡ map (num_of interval.now) (range_with_len first count)) }
{
    let mut numbers = Vec::new(alloc);
    for done in 0..count {
        numbers.push(Num {
            object: interval.object,
            nr: interval.nr,
            number: first + done,
        })?;
    }
    Ok(numbers)
}

// What is done with a hall, and what is to come of it.
#[derive(Clone, Copy)]
enum Step {
    // A call is answered so, and leaves so many locks.
    Make(Call, Answer, usize),
    // So many calls are refused, since the worker has no order.
    Refuse(u32),
    // The numbers 1 to this one are drawn.
    Draw(u64),
    // The locks are exclusive ones of the first unit, handed over to the update.
    HandedOver,
    // So many calls are kept.
    Past(usize),
    // There are so many units, marks and numbers.
    Stored(usize, u32, u64),
}

fn is_refused(hall: &mut MemHall, times: u32) -> bool {
    for _ in 0..times {
        let reply = hall.drop_order(0, 1);
        if !is_answer(&reply, &NO_ORDER) {
            return false;
        }
    }
    true
}

fn draws(alloc: Global, hall: &mut MemHall, last: u64) -> Result<bool, Fail> {
    for number in 1..=last {
        let reply = make(alloc, hall, &Call::Number)?;
        if !is_answer(&reply, &Answer::Number(number, Code::Blank)) {
            return Ok(false);
        }
    }
    Ok(true)
}

fn makes(
    alloc: Global,
    hall: &mut MemHall,
    call: &Call,
    answer: &Answer,
    locks: usize,
) -> Result<bool, Fail> {
    let reply = make(alloc, hall, call)?;
    Ok(is_answer(&reply, answer) && hall.entries(alloc)?.len() == locks)
}

fn hands_over(entries: &[Entry]) -> bool {
    let owner = Owner::Upd(FIRST_UNIT);
    for entry in entries {
        if entry.owner != owner || entry.mode != Mode::E || !entry.handed {
            return false;
        }
    }
    true
}

fn stores(
    alloc: Global,
    hall: &MemHall,
    units: usize,
    marks: u32,
    numbers: u64,
) -> Result<bool, Fail> {
    Ok(hall.units(alloc)?.len() == units && hall.marks() == marks && hall.numbers() == numbers)
}

fn take_step(alloc: Global, hall: &mut MemHall, step: &Step) -> Result<bool, Fail> {
    match step {
        Step::Make(call, answer, locks) => makes(alloc, hall, call, answer, *locks),
        Step::Refuse(times) => Ok(is_refused(hall, *times)),
        Step::Draw(last) => draws(alloc, hall, *last),
        Step::HandedOver => Ok(hands_over(hall.entries(alloc)?.as_slice())),
        Step::Past(past) => Ok(hall.past().len() == *past),
        Step::Stored(units, marks, numbers) => stores(alloc, hall, *units, *marks, *numbers),
    }
}

fn take_all(alloc: Global, hall: &mut MemHall, steps: &[Step]) -> Result<(), Fail> {
    for step in steps {
        if !take_step(alloc, hall, step)? {
            return Err(Fail::from("another answer"));
        }
    }
    Ok(())
}

// Goes through these steps with a hall of its own, that has room for so many locks and so many marks, and one interval
// or none.
fn follow(
    alloc: Global,
    max_locks: u32,
    max_marks: u32,
    is_numbered: bool,
    steps: &[Step],
) -> Result<(), Fail>
    requires marks { max_marks ≤ 1048576 }
{
    let intervals = intervals_of(alloc, is_numbered)?;
    match opened(alloc, b"", &[], (max_locks, max_marks), intervals)? {
        Ok(hall) => take_all_in(alloc, hall, steps),
        Err(_) => Err(Fail::from("a hall")),
    }
}

fn take_all_in(alloc: Global, hall: MemHall, steps: &[Step]) -> Result<(), Fail> {
    let mut hall = hall;
    take_all(alloc, &mut hall, steps)
}

// The numbers 1 to 1,000, in blocks of 10.
fn buffered_interval(object: Name) -> Interval
    ensures { IsUnused result }
{
    Interval {
        object,
        nr: *b"01",
        from: 1,
        to: 1_000,
        level: 0,
        buffer: 10,
        percent: 0,
    }
}

fn one_interval(alloc: Global) -> Result<Vec<Interval>, Fail>
    ensures { IfOk result (λ intervals. AreIntervals intervals.items) }
{
    let interval = buffered_interval(buffered_object()?);
    let mut intervals = Vec::new(alloc);
    intervals.push(interval)?;
    Ok(intervals)
}

// A landscape without number ranges.
pub(crate) fn no_intervals(alloc: Global) -> Vec<Interval>
    ensures { AreIntervals result.items }
{
    Vec::new(alloc)
}

fn intervals_of(alloc: Global, is_numbered: bool) -> Result<Vec<Interval>, Fail>
    ensures { IfOk result (λ intervals. AreIntervals intervals.items) }
{
    if is_numbered {
        one_interval(alloc)
    } else {
        Ok(no_intervals(alloc))
    }
}

fn disk_of(alloc: Global, bytes: &[u8], fails: &[u64]) -> Result<MemDisk, Fail> {
    let bytes = bytes.to_vec(alloc)?;
    Ok(MemDisk::new(alloc, bytes, fails.to_vec(alloc)?)?)
}

// The devices of a hall, with a backup file of these bytes on a disk whose calls with these numbers fail.
fn site_of(
    alloc: Global,
    bytes: &[u8],
    fails: &[u64],
) -> Result<(MemKeeper, MemDisk, MemLink), Fail> {
    let keeper = MemKeeper::new(alloc, Vec::new(alloc), Vec::new(alloc))?;
    let disk = disk_of(alloc, bytes, fails)?;
    let link = MemLink::new(alloc, Vec::new(alloc))?;
    Ok((keeper, disk, link))
}

// A hall over such devices, with room for so many locks and so many marks, or why there is none.
fn opened(
    alloc: Global,
    bytes: &[u8],
    fails: &[u64],
    room: (u32, u32),
    intervals: Vec<Interval>,
) -> Result<Result<MemHall, HallFault>, Fail>
    requires marks { room.1 ≤ 1048576 }
    requires intervals { AreIntervals intervals.items }
{
    let (keeper, disk, link) = site_of(alloc, bytes, fails)?;
    match MemHall::open(alloc, keeper, disk, link, room.0, room.1, intervals) {
        Ok(hall) => Ok(Ok(hall)),
        Err((fault, _, _, _)) => Ok(Err(fault)),
    }
}

fn lock(argument: &[u8], mode: Mode, dialogue: bool, update: bool) -> Option<Request> {
    let asked = Asked {
        table: read_name(b"ZORDER")?,
        pattern: Pattern::new(argument)?,
        mode,
    };
    Some(Request {
        asked,
        dialogue,
        update,
    })
}

const FIRST_ORDER: &[u8] = b"1000000000001";

const SECOND_ORDER: &[u8] = b"1000000000002";

const FIRST_UNIT: UnitKey = UnitKey {
    start: 1,
    session: 1,
    luw: 1,
};

const TABLE_FULL: Answer = Answer::Refused(Refusal::LockTableFull { used: 1, limit: 1 });

const STORE_FULL: Answer = Answer::Refused(Refusal::StoreFull(1));

const LOG_FULL: Answer = Answer::Refused(Refusal::LogFull);

const NO_ORDER: Answer = Answer::Refused(Refusal::NoOrder);

const CLAIMED: Answer = Answer::Refused(Refusal::UnitClaimed(1));

const TOO_LARGE: Answer = Answer::Refused(Refusal::UnitTooLarge);

const UNKNOWN_UNIT: Answer = Answer::Refused(Refusal::UnknownUnit);

const UNKNOWN_SESSION: Answer = Answer::Refused(Refusal::UnknownSession);

const PAST_END: Answer = Answer::Refused(Refusal::IntervalOverflow(1_000));

const LOCKS: [Step; 6] = [
    Step::Make(Call::Logon, Answer::Done, 0),
    Step::Make(Call::Ask(FIRST_ORDER), Answer::Done, 1),
    Step::Make(Call::Ask(SECOND_ORDER), TABLE_FULL, 1),
    Step::Make(Call::Free(FIRST_ORDER), Answer::Done, 0),
    Step::Make(Call::Logoff, Answer::Done, 0),
    Step::Past(5),
];

#[test]
fn a_hall_shows_its_locks_and_its_calls(rt: HostRuntime) -> Result<(), Fail> {
    let alloc = rt.alloc();
    follow(alloc, 1, 1, false, &LOCKS)
}

const FULL_HISTORY: [Step; 11] = [
    Step::Refuse(262_144),
    Step::Make(Call::Drop(1), LOG_FULL, 0),
    Step::Make(Call::Logon, LOG_FULL, 0),
    Step::Make(Call::Ask(FIRST_ORDER), LOG_FULL, 0),
    Step::Make(Call::Free(FIRST_ORDER), LOG_FULL, 0),
    Step::Make(Call::Commit { effects: 0 }, LOG_FULL, 0),
    Step::Make(Call::Take(1), LOG_FULL, 0),
    Step::Make(Call::Post(1), LOG_FULL, 0),
    Step::Make(Call::Cancel, LOG_FULL, 0),
    Step::Make(Call::Logoff, LOG_FULL, 0),
    Step::Past(262_144),
];

#[test]
fn a_full_history_does_not_grow(rt: HostRuntime) -> Result<(), Fail> {
    let alloc = rt.alloc();
    follow(alloc, 1, 1, false, &FULL_HISTORY)
}

const HANDED_OVER: [Step; 5] = [
    Step::Make(Call::Logon, Answer::Done, 0),
    Step::Make(Call::AskForUnit(FIRST_ORDER, Mode::O), Answer::Done, 1),
    Step::Make(Call::AskForUnit(FIRST_ORDER, Mode::E), Answer::Done, 2),
    Step::Make(Call::Commit { effects: 1 }, Answer::Unit, 1),
    Step::HandedOver,
];

// An optimistic lock of the unit goes, and its exclusive one is handed over.
#[test]
fn a_commit_hands_its_locks_over(rt: HostRuntime) -> Result<(), Fail> {
    let alloc = rt.alloc();
    follow(alloc, 2, 1, false, &HANDED_OVER)
}

const FREED: [Step; 5] = [
    Step::Make(Call::Logon, Answer::Done, 0),
    Step::Make(Call::AskForBoth(FIRST_ORDER), Answer::Done, 2),
    Step::Make(Call::Commit { effects: 1 }, Answer::Unit, 2),
    Step::Make(Call::Take(1), Answer::Unit, 2),
    Step::Make(Call::Post(1), Answer::Posted, 1),
];

// A lock of both owners is two: that of the unit goes with its post, and that of the dialogue stays.
#[test]
fn a_post_frees_the_locks_of_its_unit_alone(rt: HostRuntime) -> Result<(), Fail> {
    let alloc = rt.alloc();
    follow(alloc, 2, 2, false, &FREED)
}

const FULL_STORE: [Step; 12] = [
    Step::Make(Call::Logon, Answer::Done, 0),
    Step::Make(Call::Cancel, UNKNOWN_UNIT, 0),
    Step::Make(Call::Commit { effects: 1 }, Answer::Unit, 0),
    Step::Make(Call::Take(1), Answer::Unit, 0),
    Step::Make(Call::Cancel, CLAIMED, 0),
    Step::Make(Call::Post(1), STORE_FULL, 0),
    Step::Make(Call::Post(2), NO_ORDER, 0),
    Step::Make(Call::Commit { effects: 1 }, STORE_FULL, 0),
    Step::Make(Call::Commit { effects: 201 }, TOO_LARGE, 0),
    Step::Make(Call::Commit { effects: 0 }, Answer::Done, 0),
    Step::Make(Call::Drop(1), Answer::Unit, 0),
    Step::Make(Call::Cancel, STORE_FULL, 0),
];

// A store that may have one mark takes no second: neither a post nor a commit nor a cancelling. What adds no mark goes
// on.
#[test]
fn a_full_store_takes_no_mark(rt: HostRuntime) -> Result<(), Fail> {
    let alloc = rt.alloc();
    follow(alloc, 1, 1, false, &FULL_STORE)
}

const ROW: [Step; 9] = [
    Step::Make(Call::Read, UNKNOWN_SESSION, 0),
    Step::Make(Call::Logon, Answer::Done, 0),
    Step::Make(Call::Commit { effects: 1 }, Answer::Unit, 0),
    Step::Make(Call::Read, Answer::NoRow, 0),
    Step::Make(Call::Take(1), Answer::Unit, 0),
    Step::Stored(1, 1, 0),
    Step::Make(Call::Post(1), Answer::Posted, 0),
    Step::Make(Call::Read, Answer::Row(b"X"), 0),
    Step::Stored(1, 2, 0),
];

// A row is read as the posted parts have left it, and the hall shows its units and marks.
#[test]
fn a_row_is_read_as_it_was_posted(rt: HostRuntime) -> Result<(), Fail> {
    let alloc = rt.alloc();
    follow(alloc, 1, 2, false, &ROW)
}

const BLOCKS: [Step; 11] = [
    Step::Make(Call::Number, UNKNOWN_SESSION, 0),
    Step::Make(Call::Logon, Answer::Done, 0),
    Step::Make(Call::Number, Answer::Number(1, Code::Blank), 0),
    Step::Make(Call::Reserve { upto: 10 }, Answer::Level(10), 0),
    Step::Make(Call::Reserve { upto: 25 }, Answer::Level(30), 0),
    Step::Make(Call::Reserve { upto: 1_001 }, PAST_END, 0),
    Step::Make(Call::Commit { effects: 1 }, Answer::Unit, 0),
    Step::Make(Call::Number, Answer::Number(2, Code::Blank), 0),
    Step::Make(Call::Commit { effects: 0 }, STORE_FULL, 0),
    Step::Make(Call::Number, Answer::Number(3, Code::Blank), 0),
    Step::Stored(1, 1, 1),
];

// Blocks of ten: a number or a reservation past the level raises it by whole blocks, and one that it reaches leaves it.
// A store that takes no mark leaves the numbers that are drawn with the session.
#[test]
fn numbers_come_in_blocks(rt: HostRuntime) -> Result<(), Fail> {
    let alloc = rt.alloc();
    follow(alloc, 1, 1, true, &BLOCKS)
}

const OF_STOCK: [Step; 8] = [
    Step::Make(Call::Logon, Answer::Done, 0),
    Step::Make(Call::Reserve { upto: 1 }, Answer::Level(10), 0),
    Step::Make(
        Call::CommitStock {
            effects: 1,
            first: 1,
            count: 2,
        },
        Answer::Unit,
        0,
    ),
    Step::Stored(1, 1, 2),
    Step::Make(Call::Number, Answer::Number(3, Code::Blank), 0),
    Step::Make(
        Call::CommitStock {
            effects: 0,
            first: 7,
            count: 2,
        },
        Answer::Done,
        0,
    ),
    Step::Make(Call::Number, Answer::Number(9, Code::Blank), 0),
    Step::Stored(1, 2, 5),
];

// A unit has numbers of a stock that were reserved before, and memory then hands out what is behind them. Numbers alone
// are recorded with those that the session drew.
#[test]
fn numbers_of_a_stock_are_committed(rt: HostRuntime) -> Result<(), Fail> {
    let alloc = rt.alloc();
    follow(alloc, 1, 2, true, &OF_STOCK)
}

const COUNTED: [Step; 6] = [
    Step::Make(Call::Logon, Answer::Done, 0),
    Step::Draw(60),
    Step::Make(Call::Reserve { upto: 101 }, Answer::Level(110), 0),
    Step::Make(
        Call::CommitStock {
            effects: 1,
            first: 101,
            count: 5,
        },
        TOO_LARGE,
        0,
    ),
    Step::Make(
        Call::CommitStock {
            effects: 1,
            first: 101,
            count: 4,
        },
        Answer::Unit,
        0,
    ),
    Step::Stored(1, 1, 64),
];

// What a session has drawn and the numbers of a stock are counted together: 64 are a unit's, and 65 too many.
#[test]
fn draws_and_a_stock_are_counted_together(rt: HostRuntime) -> Result<(), Fail> {
    let alloc = rt.alloc();
    follow(alloc, 1, 1, true, &COUNTED)
}

// Why no hall is opened over a backup file of these bytes, on a disk whose calls with these numbers fail.
fn fault_over(alloc: Global, bytes: &[u8], fails: &[u64]) -> Result<HallFault, Fail> {
    match opened(alloc, bytes, fails, (1, 1), no_intervals(alloc))? {
        Ok(_) => Err(Fail::from("a hall")),
        Err(fault) => Ok(fault),
    }
}

const BAD_BYTES: HallFault = HallFault::Bad(Bad::Backup(BackupBad::Bytes { at: 0 }));

#[test]
fn a_backup_file_that_is_not_opened_is_told(rt: HostRuntime) -> Result<(), Fail> {
    let alloc = rt.alloc();
    assert!(rt; fault_over(alloc, b"ENQBCK02\x01\x02", &[])? == BAD_BYTES);
    assert!(rt; fault_over(alloc, b"", &[1])? == HallFault::Backup);
    Ok(())
}
