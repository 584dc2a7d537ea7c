use crate::calls::Answer;
use crate::locks::{F1, F2, Row};
use crate::steps::{Act, Devices, Life, Step, check};
use enq_server::OverFault;
use lock_entry::Mode;
use std::alloc::{AllocError, Global};
use std::process::Abort;
use std::test::*;

const NEW: Devices = (b"", &[], &[]);

// The third call of the link fails.
const FAILING: Devices = (b"", &[], &[3]);

const OPTIMISTIC: Row = (1, F1, Mode::O, 1, false);

const EXCLUSIVE: Row = (1, F1, Mode::E, 1, false);

const SHARED: Row = (1, F2, Mode::S, 1, false);

const FLAGGED: [Row; 2] = [(1, F1, Mode::E, 1, true), (1, F2, Mode::S, 1, true)];

const ATTACH: Step = (Act::Attach, Answer::Done, &[]);

const ASK: Step = (Act::Ask(1, F1, Mode::O), Answer::Done, &[OPTIMISTIC]);

/// Steps, each of which sends the replica operations of its own kind.
const STEPS: [Step; 8] = [
    ATTACH,
    ASK,
    (Act::Convert(F1), Answer::Done, &[EXCLUSIVE]),
    (Act::Ask(1, F2, Mode::S), Answer::Done, &[EXCLUSIVE, SHARED]),
    (
        Act::Ask(1, F2, Mode::S),
        Answer::Done,
        &[EXCLUSIVE, (1, F2, Mode::S, 2, false)],
    ),
    (Act::Free(F2, Mode::S), Answer::Done, &[EXCLUSIVE, SHARED]),
    (Act::Flag, Answer::Done, &FLAGGED),
    (Act::FreeAll(1), Answer::Done, &[]),
];

/// These steps, and behind them those of a takeover that brings the table back.
fn with_takeover(alloc: Global, steps: &[Step]) -> Result<Vec<Step>, Fail> {
    let (_, _, rows) = *steps.last().ok_or("a step")?;
    let takeover = [
        (Act::IsAttached, Answer::Attached, rows),
        (Act::Kill, Answer::Done, &[]),
        (Act::IsAttached, Answer::Attached, &[]),
        (Act::FailOver, Answer::Done, rows),
        (Act::IsAttached, Answer::Detached, rows),
    ];
    Ok(joined(alloc, steps, &takeover)?)
}

fn joined(alloc: Global, steps: &[Step], more: &[Step]) -> Result<Vec<Step>, AllocError> {
    let mut list = Vec::from_slice(alloc, steps)?;
    list.extend_from_slice(more)?;
    Ok(list)
}

/// Takes the steps of one server, which is opened without units.
fn check_one(
    rt: &impl Abort,
    alloc: Global,
    devices: &Devices,
    steps: &[Step],
) -> Result<(), Fail> {
    let life: Life = (&[], None, steps);
    check(rt, alloc, devices, &[life])
}

#[test]
fn the_table_is_taken_over_from_the_replica(rt: HostRuntime) -> Result<(), Fail> {
    let alloc = rt.alloc();
    for count in 1..9 {
        let steps = with_takeover(alloc, &STEPS[..count])?;
        check_one(&rt, alloc, &NEW, steps.as_slice())?;
    }
    Ok(())
}

const MISSED: [Step; 3] = [
    (Act::IsAttached, Answer::Detached, &[]),
    (Act::Kill, Answer::Done, &[]),
    (
        Act::FailOver,
        Answer::NotTakenOver(OverFault::NotAttached),
        &[],
    ),
];

#[test]
fn a_replica_that_missed_a_change_is_not_asked(rt: HostRuntime) -> Result<(), Fail> {
    let alloc = rt.alloc();
    let steps = joined(alloc, &STEPS, &MISSED)?;
    check_one(&rt, alloc, &FAILING, steps.as_slice())
}

const WITHOUT_LINK: [Step; 6] = [
    ATTACH,
    ASK,
    (Act::Kill, Answer::Done, &[]),
    (Act::FailOver, Answer::NotTakenOver(OverFault::Link), &[]),
    (
        Act::FailOver,
        Answer::NotTakenOver(OverFault::NotAttached),
        &[],
    ),
    (Act::Restart(&[]), Answer::Done, &[]),
];

#[test]
fn a_server_is_made_anew_where_the_link_fails(rt: HostRuntime) -> Result<(), Fail> {
    check_one(&rt, rt.alloc(), &FAILING, &WITHOUT_LINK)
}
