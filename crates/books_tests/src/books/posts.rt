use super::steps::{Step, do_steps};
use super::told::Told;
use super::units::Act;
use enq_base::{Reason, Status};
use ledger_steps::Outcome;
use std::alloc::Global;
use std::test::*;

/// What the three rows are afterwards.
type Texts = [Option<&'static [u8]>; 3];

/// What a part comes to where row 1 is OLD, row 2 is 5 and there is no row 3, and what the three rows are afterwards.
type Case = (&'static [Act], Outcome, Texts);

/// A refused part leaves the rows as they were.
const AS_BEFORE: Texts = [Some(b"OLD"), Some(b"5"), None];

const POSTED: [Case; 6] = [
    (
        &[Act::Put(b"1", b"A")],
        Outcome::Done,
        [Some(b"A"), Some(b"5"), None],
    ),
    (
        &[Act::Put(b"3", b"A")],
        Outcome::Done,
        [Some(b"OLD"), Some(b"5"), Some(b"A")],
    ),
    (
        &[Act::Ins(b"3", b"A")],
        Outcome::Done,
        [Some(b"OLD"), Some(b"5"), Some(b"A")],
    ),
    (&[Act::Del(b"1")], Outcome::Done, [None, Some(b"5"), None]),
    (
        &[Act::Add(b"2", -12)],
        Outcome::Done,
        [Some(b"OLD"), Some(b"-7"), None],
    ),
    (
        &[Act::Add(b"3", 7)],
        Outcome::Done,
        [Some(b"OLD"), Some(b"5"), Some(b"7")],
    ),
];

const REFUSED: [Case; 4] = [
    (
        &[Act::Ins(b"1", b"A")],
        Outcome::Refused {
            index: 1,
            reason: Reason::Duplicate,
        },
        AS_BEFORE,
    ),
    (
        &[Act::Put(b"1", b"A"), Act::Del(b"3")],
        Outcome::Refused {
            index: 2,
            reason: Reason::Missing,
        },
        AS_BEFORE,
    ),
    (
        &[Act::Add(b"2", 1), Act::Add(b"1", 1)],
        Outcome::Refused {
            index: 2,
            reason: Reason::NotNumber,
        },
        AS_BEFORE,
    ),
    (
        &[
            Act::Del(b"1"),
            Act::Add(b"3", 9223372036854775807),
            Act::Add(b"3", 1),
        ],
        Outcome::Refused {
            index: 3,
            reason: Reason::Overflow,
        },
        AS_BEFORE,
    ),
];

/// Unit 1 is to make rows 1 and 2.
const ROWS: [Act; 2] = [Act::Put(b"1", b"OLD"), Act::Put(b"2", b"5")];

/// What is told of unit 2 once its part has come to this: it is closed, or has the status of a refused one.
fn told_of(outcome: &Outcome, refused: Status) -> Told {
    match outcome {
        Outcome::Done => (Some(Status::Closed), None, &[], &[]),
        Outcome::Refused { index, reason } => (Some(refused), Some((*index, *reason)), &[], &[]),
    }
}

/// What the V1 part of unit 2 comes to, which waits behind unit 1, as it is posted or worked outside. It has no V2
/// part, so that it is closed where it is posted.
fn first_part(alloc: Global, case: &Case, is_drafted: bool) -> Result<(), Fail> {
    let (part, outcome, [first, second, third]) = *case;
    let post = if is_drafted {
        Step::PostDrafted(2, outcome)
    } else {
        Step::Post1(2, outcome)
    };
    let recorded = [
        Step::Record(1, &ROWS, &[]),
        Step::Record(2, part, &[]),
        Step::Open(true),
        Step::Post1(1, Outcome::Done),
        Step::Unit(2, (Some(Status::Open), None, &[2], &[])),
    ];
    let steps = [
        post,
        Step::Unit(2, told_of(&outcome, Status::Bad)),
        Step::Row(b"1", first),
        Step::Row(b"2", second),
        Step::Row(b"3", third),
    ];
    do_steps(alloc, &recorded, &steps)
}

/// What the V2 part of unit 2 comes to, whose V1 part is posted.
fn second_part(alloc: Global, case: &Case) -> Result<(), Fail> {
    let (part, outcome, [first, second, third]) = *case;
    let recorded = [
        Step::Record(1, &ROWS, &[]),
        Step::Record(2, &[Act::Put(b"9", b"V1")], part),
        Step::Open(true),
        Step::Post1(1, Outcome::Done),
        Step::Post1(2, Outcome::Done),
        Step::Unit(2, (Some(Status::Posted), None, &[], &[2])),
    ];
    let steps = [
        Step::Post2(2, outcome),
        Step::Unit(2, told_of(&outcome, Status::Bad2)),
        Step::Row(b"9", Some(b"V1")),
        Step::Row(b"1", first),
        Step::Row(b"2", second),
        Step::Row(b"3", third),
    ];
    do_steps(alloc, &recorded, &steps)
}

/// Each case, as a V1 part, posted or worked outside, and as a V2 part.
fn are_posted(alloc: Global, cases: &[Case]) -> Result<(), Fail> {
    for case in cases {
        first_part(alloc, case, false)?;
        first_part(alloc, case, true)?;
        second_part(alloc, case)?;
    }
    Ok(())
}

#[test]
fn parts_are_posted(rt: HostRuntime) -> Result<(), Fail> {
    are_posted(rt.alloc(), &POSTED)
}

#[test]
fn parts_are_refused_whole(rt: HostRuntime) -> Result<(), Fail> {
    are_posted(rt.alloc(), &REFUSED)
}
