use crate::rounds::{Round, Row, check};
use lossy_link::Fate;
use std::test::*;

const LOST: Fate = Fate::LosePacket;

const UNHEARD: Fate = Fate::LoseAck;

const EIGHT_LOST: [Fate; 8] = [LOST, LOST, LOST, LOST, LOST, LOST, LOST, LOST];

const ONE: &[Row] = &[(b'1', 1)];

const TWO: &[Row] = &[(b'2', 1)];

const BOTH: &[Row] = &[(b'1', 2), (b'2', 1)];

const NONE: &[Row] = &[];

const LOSSLESS: [Round; 1] = [(ONE, BOTH, Some(BOTH))];

#[test]
fn a_wire_without_a_plan_loses_nothing(rt: HostRuntime) -> Result<(), Fail> {
    check(&rt, rt.alloc(), &[], &LOSSLESS)
}

const SOME_LOST: [Fate; 5] = [LOST, UNHEARD, Fate::Pass, Fate::Old(1), Fate::Pass];

const UNTIL_HEARD: [Round; 1] = [(NONE, ONE, Some(ONE))];

#[test]
fn a_packet_is_sent_until_its_own_acknowledgement_comes(rt: HostRuntime) -> Result<(), Fail> {
    check(&rt, rt.alloc(), &SOME_LOST, &UNTIL_HEARD)
}

const ANEW: [Round; 2] = [(NONE, NONE, None), (NONE, ONE, Some(ONE))];

#[test]
fn a_link_fails_after_eight_turns_and_begins_anew(rt: HostRuntime) -> Result<(), Fail> {
    check(&rt, rt.alloc(), &EIGHT_LOST, &ANEW)
}

const TWICE_OR_LATE: [Fate; 5] = [Fate::Twice, Fate::Pass, Fate::Twice, Fate::Old(2), LOST];

const UNCHANGED: [Round; 1] = [(NONE, &[(b'1', 1), (b'1', 2), (b'2', 1)], Some(BOTH))];

#[test]
fn what_comes_twice_or_late_changes_nothing(rt: HostRuntime) -> Result<(), Fail> {
    check(&rt, rt.alloc(), &TWICE_OR_LATE, &UNCHANGED)
}

// The put is lost eight times, and comes once the next epoch has begun.
const PUT_LATE: [Fate; 14] = [
    Fate::Pass,
    LOST,
    LOST,
    LOST,
    LOST,
    LOST,
    LOST,
    LOST,
    LOST,
    Fate::Pass,
    Fate::Old(2),
    Fate::Old(1),
    Fate::Old(0),
    Fate::Old(99),
];

const TWO_EPOCHS: [Round; 2] = [(NONE, ONE, None), (NONE, TWO, Some(TWO))];

#[test]
fn an_operation_of_an_earlier_epoch_changes_nothing(rt: HostRuntime) -> Result<(), Fail> {
    check(&rt, rt.alloc(), &PUT_LATE, &TWO_EPOCHS)
}

const NAMED_TWICE: [Round; 2] = [
    (&[(b'1', 1), (b'1', 2)], NONE, None),
    (ONE, NONE, Some(ONE)),
];

#[test]
fn a_snapshot_with_a_name_twice_is_never_acknowledged(rt: HostRuntime) -> Result<(), Fail> {
    check(&rt, rt.alloc(), &[], &NAMED_TWICE)
}
