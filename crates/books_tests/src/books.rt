mod calls;
mod drawing;
mod many;
mod marks;
mod numbers;
mod posts;
mod steps;
mod told;
mod units;

use enq_base::Status;
use std::test::*;
use steps::{Step, do_steps};
use units::Act;

const OPENINGS: [Step; 5] = [
    Step::Started(1, 0),
    Step::Open(true),
    Step::Started(2, 0),
    Step::Open(false),
    Step::Started(2, 0),
];

#[test]
fn each_opening_is_the_next_start(rt: HostRuntime) -> Result<(), Fail> {
    do_steps(rt.alloc(), &[], &OPENINGS)
}

const NOTHING: [Step; 7] = [
    Step::Started(1, 0),
    Step::Numbers(0, None),
    Step::Views(&[]),
    Step::Waiting(&[]),
    Step::Locks(1, false),
    Step::Row(b"A", None),
    Step::Unit(1, (None, None, &[], &[])),
];

#[test]
fn a_new_store_has_no_units_and_no_intervals(rt: HostRuntime) -> Result<(), Fail> {
    do_steps(rt.alloc(), &[], &NOTHING)
}

const WAITING: [Step; 10] = [
    Step::Record(1, &[Act::Put(b"1", b"X")], &[Act::Put(b"2", b"Y")]),
    Step::Reopen,
    Step::Started(1, 1),
    Step::Waiting(&[(1, 0)]),
    Step::Open(true),
    Step::Started(2, 1),
    Step::Views(&[(1, Status::Open, [1, 1], 0, 0)]),
    Step::Waiting(&[(1, 0)]),
    Step::Locks(1, false),
    Step::Unit(1, (Some(Status::Open), None, &[1], &[])),
];

#[test]
fn a_recorded_unit_waits_after_an_opening(rt: HostRuntime) -> Result<(), Fail> {
    do_steps(rt.alloc(), &[], &WAITING)
}
