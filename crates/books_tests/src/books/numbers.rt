use super::steps::{Step, do_steps};
use super::told::Seen;
use super::units::Act;
use enq_base::Status;
use ledger_steps::Outcome;
use std::test::*;

const STORED: [Step; 4] = [
    Step::Store,
    Step::Numbers(0, Some(0)),
    Step::Open(true),
    Step::Numbers(0, Some(0)),
];

#[test]
fn an_interval_is_stored(rt: HostRuntime) -> Result<(), Fail> {
    do_steps(rt.alloc(), &[], &STORED)
}

const NUMBERS: [Step; 12] = [
    Step::Draw(1),
    Step::Numbers(2, Some(2)),
    Step::Started(1, 1),
    Step::Views(&[]),
    Step::Unit(1, (None, None, &[], &[])),
    Step::Numbers(2, Some(2)),
    Step::Started(2, 1),
    Step::Views(&[]),
    Step::Record(1, &[Act::Put(b"1", b"A")], &[]),
    Step::Started(2, 2),
    Step::Unit(1, (Some(Status::Open), None, &[1], &[])),
    Step::Numbers(2, Some(2)),
];

#[test]
fn numbers_alone_are_no_unit(rt: HostRuntime) -> Result<(), Fail> {
    do_steps(rt.alloc(), &[], &NUMBERS)
}

const OPEN: [Seen; 2] = [
    (1, Status::Open, [1, 0], 1, 2),
    (2, Status::Open, [1, 2], 0, 0),
];

const POSTED: [Seen; 2] = [
    (1, Status::Open, [1, 0], 1, 2),
    (2, Status::Posted, [1, 2], 0, 0),
];

const TWO_UNITS: [Step; 7] = [
    Step::Lock(1, &[Act::Put(b"1", b"A")]),
    Step::Record(
        2,
        &[Act::Put(b"2", b"A")],
        &[Act::Put(b"3", b"B"), Act::Put(b"4", b"C")],
    ),
    Step::Views(&OPEN),
    Step::Waiting(&[(1, 1), (2, 0)]),
    Step::Locks(1, true),
    Step::Locks(2, false),
    Step::Post1(2, Outcome::Done),
];

const TOLD: [Step; 10] = [
    Step::Views(&POSTED),
    Step::Waiting(&[(1, 1)]),
    Step::Locks(1, true),
    Step::Locks(2, false),
    Step::Unit(1, (Some(Status::Open), None, &[1], &[2])),
    Step::Views(&POSTED),
    Step::Waiting(&[(1, 1)]),
    Step::Locks(1, true),
    Step::Locks(2, false),
    Step::Numbers(2, Some(2)),
];

#[test]
fn two_units_are_told(rt: HostRuntime) -> Result<(), Fail> {
    do_steps(rt.alloc(), &TWO_UNITS, &TOLD)
}
