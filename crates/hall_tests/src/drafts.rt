use crate::calls::{MemHall, commit_parts, logon, no_intervals};
use bk_disk::MemDisk;
use enq_base::{Deed, Effect, Items, Key, Name, Parts, Reason, Refusal, Text, UnitKey, read_name};
use hall_model::Reply;
use keeper_mem::MemKeeper;
use posting::Worked;
use replica_link::MemLink;
use single_calls::SingleCalls;
use std::alloc::Global;
use std::test::*;

// What a V1 part does to the one row.
#[derive(Clone, Copy)]
enum Act {
    Add,
    Insert,
}

// What is done with a hall whose one session is logged on.
#[derive(Clone, Copy)]
enum Step {
    // The session commits a unit with this V1 part.
    Commit(Act),
    // A worker takes a unit and works its part outside, for later.
    Draft(u8),
    // A worker is given nothing to work.
    NoDraft(u8),
    // A worker takes a unit.
    Take(u8),
    // No unit waits for a worker.
    Idle(u8),
    // The order of a worker is dropped.
    Drop(u8),
    // A worker takes a unit and posts it at once: it is posted, or refused so.
    Post(u8, Option<Reason>),
    // A worker posts with what it worked before: it is posted, or refused so.
    PostDrafted(u8, Option<Reason>),
    // The store fails where a worker posts with what it worked before.
    FailDrafted(u8),
    // The store fails where the session commits a unit with this V1 part.
    FailCommit(Act),
    // The first unit may be tried again.
    Resubmit,
    // A new lock server is made.
    Restart,
    // The session gives up its unit.
    Rollback,
    // The row has this text.
    Row(&'static [u8]),
}

fn session() -> Result<Name, Fail> {
    Ok(read_name(b"A").ok_or("a name")?)
}

fn row() -> Result<(Name, Key), Fail> {
    let table = read_name(b"STAT").ok_or("a name")?;
    let key = Key::new(b"N").ok_or("a key")?;
    Ok((table, key))
}

fn deed_of(alloc: Global, act: Act) -> Result<Deed, Fail> {
    match act {
        Act::Add => Ok(Deed::Add(1)),
        Act::Insert => match Text::new(alloc, b"X") {
            Ok(text) => Ok(Deed::Ins(text)),
            Err(_) => Err(Fail::from("a text")),
        },
    }
}

fn parts_of(alloc: Global, act: Act) -> Result<Parts, Fail> {
    let (table, key) = row()?;
    let deed = deed_of(alloc, act)?;
    let v1 = vec![in alloc; Effect { table, key, deed }]?;
    Ok(Parts {
        v1: Items::from_vec(v1),
        v2: Items::from_vec(Vec::new(alloc)),
    })
}

fn commit(alloc: Global, hall: &mut MemHall, act: Act) -> Result<Reply, Fail> {
    let parts = parts_of(alloc, act)?;
    Ok(commit_parts(alloc, hall, session()?, parts))
}

fn is_unit(reply: &Reply) -> bool {
    matches!(reply, Reply::Unit(_))
}

fn is_fault(reply: &Reply) -> bool {
    matches!(reply, Reply::Refused(Refusal::StoreFault))
}

// What a worker's next unit came to outside.
fn worked_by(alloc: Global, hall: &mut MemHall, worker: u8) -> Result<Worked, Fail> {
    let Reply::Unit(unit) = hall.take1(1, worker) else {
        return Err(Fail::from("a unit"));
    };
    let Some(draft) = hall.draft(alloc, worker)? else {
        return Err(Fail::from("a draft"));
    };
    let worked = draft.work(alloc)?;
    if worked.unit() != unit {
        return Err(Fail::from("the unit of the order"));
    }
    Ok(worked)
}

fn is_posted(reply: &Reply, refusal: Option<Reason>) -> bool {
    match (reply, refusal) {
        (Reply::Posted(_), None) => true,
        (Reply::Bad { index, reason, .. }, Some(expected)) => *index == 1 && *reason == expected,
        _ => false,
    }
}

fn posts(
    alloc: Global,
    hall: &mut MemHall,
    worker: u8,
    refusal: Option<Reason>,
) -> Result<bool, Fail> {
    let Reply::Unit(_) = hall.take1(1, worker) else {
        return Ok(false);
    };
    Ok(is_posted(&hall.do1(alloc, 1, worker), refusal))
}

fn has_text(alloc: Global, hall: &mut MemHall, text: &[u8]) -> Result<bool, Fail> {
    let (table, key) = row()?;
    match hall.read(alloc, 1, session()?, table, key) {
        Reply::Row(Some(found)) => Ok(found.bytes() == text),
        _ => Ok(false),
    }
}

fn resubmits(alloc: Global, hall: &mut MemHall) -> bool {
    let Some(unit) = first_unit(hall) else {
        return false;
    };
    is_unit(&hall.resubmit(alloc, 1, unit))
}

// The unit of the history's first COMMIT.
fn first_unit(hall: &MemHall) -> Option<UnitKey> {
    match &hall.past().get(1)?.reply {
        Reply::Unit(unit) => Some(*unit),
        _ => None,
    }
}

// What the two workers worked and haven't handed in.
#[derive(Drop)]
struct Drafts {
    first: Option<Worked>,
    second: Option<Worked>,
}

impl Drafts {
    fn none() -> Drafts {
        Drafts {
            first: None,
            second: None,
        }
    }

    fn keep(&mut self, worker: u8, worked: Worked) {
        if worker == 1 {
            self.first = Some(worked);
        } else {
            self.second = Some(worked);
        }
    }

    fn take(&mut self, worker: u8) -> Option<Worked> {
        if worker == 1 {
            self.first.take()
        } else {
            self.second.take()
        }
    }
}

// What a worker is answered that posts with what it worked before.
fn post_drafted(alloc: Global, hall: &mut MemHall, drafts: &mut Drafts, worker: u8) -> Reply {
    match drafts.take(worker) {
        Some(worked) => hall.do1_with(alloc, 1, worker, worked),
        None => Reply::Done,
    }
}

// A step of a worker.
fn work(alloc: Global, hall: &mut MemHall, drafts: &mut Drafts, step: &Step) -> Result<bool, Fail> {
    match step {
        Step::Draft(worker) => {
            let worked = worked_by(alloc, hall, *worker)?;
            drafts.keep(*worker, worked);
            Ok(true)
        }
        Step::NoDraft(worker) => Ok(hall.draft(alloc, *worker)?.is_none()),
        Step::Take(worker) => Ok(is_unit(&hall.take1(1, *worker))),
        Step::Idle(worker) => Ok(matches!(hall.take1(1, *worker), Reply::Refused(Refusal::Idle))),
        Step::Drop(worker) => Ok(is_unit(&hall.drop_order(1, *worker))),
        Step::Post(worker, refusal) => posts(alloc, hall, *worker, *refusal),
        Step::PostDrafted(worker, refusal) => {
            Ok(is_posted(&post_drafted(alloc, hall, drafts, *worker), *refusal))
        }
        Step::FailDrafted(worker) => Ok(is_fault(&post_drafted(alloc, hall, drafts, *worker))),
        _ => Err(Fail::from("a step of a worker")),
    }
}

fn take_step(
    alloc: Global,
    hall: &mut MemHall,
    drafts: &mut Drafts,
    step: &Step,
) -> Result<bool, Fail> {
    match step {
        Step::Commit(act) => Ok(is_unit(&commit(alloc, hall, *act)?)),
        Step::FailCommit(act) => Ok(is_fault(&commit(alloc, hall, *act)?)),
        Step::Resubmit => Ok(resubmits(alloc, hall)),
        Step::Restart => Ok(matches!(hall.restart(alloc, 1), Reply::Done)),
        Step::Rollback => Ok(matches!(hall.rollback(1, session()?), Reply::Done)),
        Step::Row(text) => has_text(alloc, hall, *text),
        _ => work(alloc, hall, drafts, step),
    }
}

// Whether each step comes to what it has to.
fn are_taken(alloc: Global, hall: &mut MemHall, steps: &[Step]) -> Result<bool, Fail> {
    let mut drafts = Drafts::none();
    for step in steps {
        if !take_step(alloc, hall, &mut drafts, step)? {
            return Ok(false);
        }
    }
    Ok(true)
}

fn take_all(alloc: Global, hall: &mut MemHall, steps: &[Step]) -> Result<bool, Fail> {
    logon(hall, session()?)?;
    are_taken(alloc, hall, steps)
}

// A hall over a store whose calls with these numbers fail, of them those of the second list once they are done.
fn hall_over(alloc: Global, fails: &[u64], done: &[u64]) -> Result<MemHall, Fail> {
    let keeper = MemKeeper::new(alloc, fails.to_vec(alloc)?, done.to_vec(alloc)?)?;
    let disk = MemDisk::new(alloc, Vec::new(alloc), Vec::new(alloc))?;
    let link = MemLink::new(alloc, Vec::new(alloc))?;
    match MemHall::open(alloc, keeper, disk, link, 8, 32, no_intervals(alloc)) {
        Ok(hall) => Ok(hall),
        Err(_) => Err(Fail::from("a hall")),
    }
}

fn follow(alloc: Global, fails: &[u64], done: &[u64], steps: &[Step]) -> Result<(), Fail> {
    let mut hall = hall_over(alloc, fails, done)?;
    match take_all(alloc, &mut hall, steps) {
        Ok(true) => Ok(()),
        Ok(false) => Err(Fail::from("another answer")),
        Err(fail) => Err(fail),
    }
}

const ADDED: [Step; 7] = [
    Step::Commit(Act::Add),
    Step::Commit(Act::Add),
    Step::Draft(1),
    Step::Draft(2),
    Step::PostDrafted(1, None),
    Step::PostDrafted(2, None),
    Step::Row(b"2"),
];

const ADDED_BACKWARDS: [Step; 7] = [
    Step::Commit(Act::Add),
    Step::Commit(Act::Add),
    Step::Draft(1),
    Step::Draft(2),
    Step::PostDrafted(2, None),
    Step::PostDrafted(1, None),
    Step::Row(b"2"),
];

const INSERTED: [Step; 7] = [
    Step::Commit(Act::Insert),
    Step::Commit(Act::Insert),
    Step::Draft(1),
    Step::Draft(2),
    Step::PostDrafted(1, None),
    Step::PostDrafted(2, Some(Reason::Duplicate)),
    Step::Row(b"X"),
];

#[test]
fn two_drafts_over_one_row_are_posted_one_behind_the_other(rt: HostRuntime) -> Result<(), Fail> {
    let alloc = rt.alloc();
    follow(alloc, &[], &[], &ADDED)?;
    follow(alloc, &[], &[], &ADDED_BACKWARDS)?;
    follow(alloc, &[], &[], &INSERTED)
}

// Behind the draft the row was put by another unit, and the first one refused in another worker's hands. It is tried
// again, and its first worker takes it and hands in the old draft.
const RESUBMITTED: [Step; 10] = [
    Step::Commit(Act::Insert),
    Step::Commit(Act::Insert),
    Step::Draft(1),
    Step::Post(2, None),
    Step::Drop(1),
    Step::Post(2, Some(Reason::Duplicate)),
    Step::Resubmit,
    Step::Take(1),
    Step::PostDrafted(1, Some(Reason::Duplicate)),
    Step::Row(b"X"),
];

// The draft is that of the first unit, and the order that of the second.
const OF_ANOTHER: [Step; 8] = [
    Step::Commit(Act::Add),
    Step::Commit(Act::Insert),
    Step::Draft(1),
    Step::Drop(1),
    Step::Take(2),
    Step::Take(1),
    Step::PostDrafted(1, None),
    Step::Row(b"X"),
];

#[test]
fn a_draft_of_other_rows_or_of_another_unit_counts_for_nothing(
    rt: HostRuntime,
) -> Result<(), Fail> {
    let alloc = rt.alloc();
    follow(alloc, &[], &[], &RESUBMITTED)?;
    follow(alloc, &[], &[], &OF_ANOTHER)
}

// The call of the store behind the opening's ten and the commit of a unit.
const NEXT_CALL: u64 = 12;

// The next unit isn't recorded, and the server is in doubt until the restart. The draft is older.
const RESTARTED: [Step; 9] = [
    Step::Commit(Act::Insert),
    Step::Draft(1),
    Step::FailCommit(Act::Add),
    Step::NoDraft(1),
    Step::Restart,
    Step::Rollback,
    Step::Take(1),
    Step::PostDrafted(1, None),
    Step::Row(b"X"),
];

// The mark of the part isn't written, and the unit waits again.
const UNWRITTEN: [Step; 7] = [
    Step::Commit(Act::Insert),
    Step::Draft(1),
    Step::FailDrafted(1),
    Step::Restart,
    Step::Draft(1),
    Step::PostDrafted(1, None),
    Step::Row(b"X"),
];

// The mark and the row are written, though the call failed.
const WRITTEN: [Step; 6] = [
    Step::Commit(Act::Insert),
    Step::Draft(1),
    Step::FailDrafted(1),
    Step::Restart,
    Step::Idle(1),
    Step::Row(b"X"),
];

#[test]
fn a_draft_outlives_a_doubt_and_a_post_of_one_may_fail(rt: HostRuntime) -> Result<(), Fail> {
    let alloc = rt.alloc();
    follow(alloc, &[NEXT_CALL], &[], &RESTARTED)?;
    follow(alloc, &[NEXT_CALL], &[], &UNWRITTEN)?;
    follow(alloc, &[NEXT_CALL], &[NEXT_CALL], &WRITTEN)
}
