use super::steps::{Step, do_steps};
use super::units::Act;
use enq_base::{Reason, Status};
use ledger_steps::Outcome;
use std::test::*;

/// Four units are recorded and read back: 1 makes row 1, the V1 part of 2 is refused while there is that row, the V2
/// part of 3 while there is no row 3, and 4 deletes the one and makes the other.
const RECORDED: [Step; 5] = [
    Step::Record(1, &[Act::Put(b"1", b"OLD")], &[]),
    Step::Record(2, &[Act::Ins(b"1", b"A")], &[]),
    Step::Record(3, &[Act::Put(b"2", b"A")], &[Act::Del(b"3")]),
    Step::Record(4, &[Act::Del(b"1")], &[Act::Put(b"3", b"B")]),
    Step::Open(true),
];

/// The refusals of a part's first effect.
const DUPLICATE: Outcome = Outcome::Refused {
    index: 1,
    reason: Reason::Duplicate,
};

const MISSING: Outcome = Outcome::Refused {
    index: 1,
    reason: Reason::Missing,
};

const FIRST_PART: [Step; 9] = [
    Step::Post1(1, Outcome::Done),
    Step::Post1(2, DUPLICATE),
    Step::Unit(
        2,
        (
            Some(Status::Bad),
            Some((1, Reason::Duplicate)),
            &[3, 4],
            &[],
        ),
    ),
    Step::Again(2),
    Step::Unit(2, (Some(Status::Open), None, &[3, 4, 2], &[])),
    Step::Post1(4, Outcome::Done),
    Step::Post1(2, Outcome::Done),
    Step::Unit(2, (Some(Status::Closed), None, &[3], &[4])),
    Step::Row(b"1", Some(b"A")),
];

#[test]
fn a_first_part_is_tried_again_last(rt: HostRuntime) -> Result<(), Fail> {
    do_steps(rt.alloc(), &RECORDED, &FIRST_PART)
}

const SECOND_PART: [Step; 12] = [
    Step::Post1(1, Outcome::Done),
    Step::Post1(3, Outcome::Done),
    Step::Post2(3, MISSING),
    Step::Post1(4, Outcome::Done),
    Step::Unit(
        3,
        (Some(Status::Bad2), Some((1, Reason::Missing)), &[2], &[4]),
    ),
    Step::Again(3),
    Step::Unit(3, (Some(Status::Posted), None, &[2], &[4, 3])),
    Step::Post2(4, Outcome::Done),
    Step::Row(b"3", Some(b"B")),
    Step::Post2(3, Outcome::Done),
    Step::Unit(3, (Some(Status::Closed), None, &[2], &[])),
    Step::Row(b"3", None),
];

#[test]
fn a_second_part_is_tried_again_last(rt: HostRuntime) -> Result<(), Fail> {
    do_steps(rt.alloc(), &RECORDED, &SECOND_PART)
}

const CANCELLED: [Step; 14] = [
    Step::Post1(1, Outcome::Done),
    Step::Post1(2, DUPLICATE),
    Step::Post1(3, Outcome::Done),
    Step::Post2(3, MISSING),
    Step::Cancel(2),
    Step::Unit(2, (Some(Status::Cancelled), None, &[4], &[])),
    Step::Cancel(3),
    Step::Unit(3, (Some(Status::Cancelled), None, &[4], &[])),
    Step::Cancel(4),
    Step::Unit(4, (Some(Status::Cancelled), None, &[], &[])),
    Step::Unit(2, (Some(Status::Cancelled), None, &[], &[])),
    Step::Unit(3, (Some(Status::Cancelled), None, &[], &[])),
    Step::Row(b"1", Some(b"OLD")),
    Step::Row(b"2", Some(b"A")),
];

#[test]
fn a_cancelled_unit_is_offered_no_more(rt: HostRuntime) -> Result<(), Fail> {
    do_steps(rt.alloc(), &RECORDED, &CANCELLED)
}
