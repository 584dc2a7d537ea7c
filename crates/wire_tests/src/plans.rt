use crate::rounds::{entry, given_over, list_of};
use lock_entry::Entry;
use lossy_link::Fate;
use replica_link::{TableOp, apply_op};
use std::alloc::Global;
use std::process::Abort;
use std::test::*;

const FATES: [Fate; 5] = [
    Fate::Pass,
    Fate::LosePacket,
    Fate::LoseAck,
    Fate::Twice,
    Fate::Old(1),
];

/// A put, and a drop of an entry of the snapshot.
fn put_and_drop() -> Result<[TableOp; 2], Fail> {
    let first = entry((b'1', 1))?;
    Ok([
        TableOp::Put(entry((b'3', 2))?),
        TableOp::Drop {
            owner: first.owner,
            asked: first.asked(),
        },
    ])
}

/// The list after a snapshot and operations of which each came once, and in order.
fn modelled(alloc: Global, snapshot: &[Entry], ops: &[TableOp]) -> Result<Vec<Entry>, Fail> {
    let mut list = Vec::from_slice(alloc, snapshot)?;
    for op in ops {
        apply_op(alloc, &mut list, op)?;
    }
    Ok(list)
}

/// Tests a snapshot and operations over a wire whose first turns have these fates.
fn check_plan(
    rt: &impl Abort,
    alloc: Global,
    plan: &[Fate],
    snapshot: &[Entry],
    ops: &[TableOp],
    wanted: &[Entry],
) -> Result<(), Fail> {
    let plan = Vec::from_slice(alloc, plan)?;
    let given = given_over(alloc, plan, snapshot, ops)?;
    assert_eq!(rt; given.as_slice(), wanted);
    Ok(())
}

/// Tests them with each three fates.
fn check_plans(
    rt: &impl Abort,
    alloc: Global,
    snapshot: &[Entry],
    ops: &[TableOp],
    wanted: &[Entry],
) -> Result<(), Fail> {
    for first in &FATES {
        for second in &FATES {
            for third in &FATES {
                let plan = [*first, *second, *third];
                check_plan(rt, alloc, &plan, snapshot, ops, wanted)?;
            }
        }
    }
    Ok(())
}

#[test]
fn whatever_becomes_of_three_packets_the_list_is_the_same(rt: HostRuntime) -> Result<(), Fail> {
    let alloc = rt.alloc();
    let ops = put_and_drop()?;
    let snapshot = list_of(alloc, &[(b'1', 1), (b'2', 1)])?;
    let wanted = modelled(alloc, snapshot.as_slice(), &ops)?;
    check_plans(&rt, alloc, snapshot.as_slice(), &ops, wanted.as_slice())
}
