ghost use Rattle.std.specs.Prelude.{◌≡◌, IfOk, IfSome};
ghost use Rattle.replica_link.specs.Operations.{after_ops};

use enq_base::{Owner, Pattern, UnitKey, read_name};
use lock_entry::{Entry, Mode};
use lock_index::IndexLink;
use replica_link::{Link, LinkFault, MemLink, TableOp, apply_op};
use std::alloc::Global;
use std::process::Abort;
use std::test::*;

/// What a link gives after a snapshot and operations.
fn given_after<L: Link>(
    alloc: Global,
    link: &mut L,
    snapshot: &[Entry],
    ops: &[TableOp],
) -> Result<Vec<Entry>, LinkFault>
    ensures { IfOk result (λ list. IfSome (L.applied link.old) (λ _. list.items ≡ after_ops snapshot.now ops.now)) }
{
    link.attach(alloc, snapshot)?;
    let mut seq = 1;
    for op in ops {
        link.ship(alloc, seq, op)?;
        seq += 1;
    }
    link.hand_over(alloc)
}

const UNIT: UnitKey = UnitKey {
    start: 1,
    session: 1,
    luw: 1,
};

const UPDATE: Owner = Owner::Upd(UNIT);

const DIALOGUE: Owner = Owner::Dlg {
    start: 1,
    session: 1,
};

/// The owner, the mode, the count and the flag of an entry.
type Row = (Owner, Mode, u16, bool);

const OPTIMISTIC: Row = (UPDATE, Mode::O, 5000, false);

const LOWERED: Row = (UPDATE, Mode::O, 4999, false);

const TURNED: Row = (UPDATE, Mode::E, 5000, false);

const EXCLUSIVE: Row = (UPDATE, Mode::E, 6000, false);

const JOINED: Row = (UPDATE, Mode::E, 9999, false);

const HANDED: Row = (UPDATE, Mode::E, 6000, true);

const FOREIGN: Row = (DIALOGUE, Mode::O, 2, false);

fn entry(row: Row) -> Result<Entry, Fail> {
    let (owner, mode, count, handed) = row;
    Ok(Entry {
        owner,
        user: read_name(b"MILLER").ok_or("a name")?,
        table: read_name(b"ZORDER").ok_or("a name")?,
        pattern: Pattern::new(b"1000000000001").ok_or("an argument")?,
        mode,
        count,
        handed,
    })
}

fn list_of(alloc: Global, rows: &[Row]) -> Result<Vec<Entry>, Fail> {
    let mut list = Vec::new(alloc);
    for row in rows {
        list.push(entry(*row)?)?;
    }
    Ok(list)
}

/// A change of a table, by the entries that it names.
#[derive(Clone, Copy, Debug)]
enum Change {
    Put(Row),
    Drop(Row),
    Turn(Row),
    Handed,
}

fn op_of(change: &Change) -> Result<TableOp, Fail> {
    match change {
        Change::Put(row) => Ok(TableOp::Put(entry(*row)?)),
        Change::Drop(row) => {
            let entry = entry(*row)?;
            Ok(TableOp::Drop {
                owner: entry.owner,
                asked: entry.asked(),
            })
        }
        Change::Turn(row) => {
            let entry = entry(*row)?;
            Ok(TableOp::Turn {
                owner: entry.owner,
                table: entry.table,
                pattern: entry.pattern,
            })
        }
        Change::Handed => Ok(TableOp::Handed(UNIT)),
    }
}

fn ops_of(alloc: Global, changes: &[Change]) -> Result<Vec<TableOp>, Fail> {
    let mut ops = Vec::new(alloc);
    for change in changes {
        ops.push(op_of(change)?)?;
    }
    Ok(ops)
}

/// The snapshot, what is shipped behind it, and what is then given, if the link doesn't fail.
type Round = (&'static [Row], &'static [Change], Option<&'static [Row]>);

/// Tests that these are the entries, in order.
fn check_list(rt: &impl Abort, alloc: Global, list: &[Entry], rows: &[Row]) -> Result<(), Fail> {
    let wanted = list_of(alloc, rows)?;
    assert_eq!(rt; list, wanted.as_slice());
    Ok(())
}

/// What the link comes to in one round.
fn given_in<L: Link>(
    alloc: Global,
    link: &mut L,
    round: &Round,
) -> Result<Result<Vec<Entry>, LinkFault>, Fail> {
    let (snapshot, changes, _) = *round;
    let snapshot = list_of(alloc, snapshot)?;
    let ops = ops_of(alloc, changes)?;
    Ok(given_after(alloc, link, snapshot.as_slice(), ops.as_slice()))
}

/// Tests what the link comes to in one round.
fn check_round<L: Link>(
    rt: &impl Abort,
    alloc: Global,
    link: &mut L,
    round: &Round,
) -> Result<(), Fail> {
    let (_, _, wanted) = *round;
    match (given_in(alloc, link, round)?, wanted) {
        (Ok(list), Some(rows)) => check_list(rt, alloc, list.as_slice(), rows),
        (Err(LinkFault::Failed), None) => Ok(()),
        _ => Err(Fail::from("another answer")),
    }
}

fn check_rounds<L: Link>(
    rt: &impl Abort,
    alloc: Global,
    link: &mut L,
    rounds: &[Round],
) -> Result<(), Fail> {
    for round in rounds {
        check_round(rt, alloc, link, round)?;
    }
    Ok(())
}

/// Tests rounds of a link whose replica is an index.
fn check_index(rt: &impl Abort, alloc: Global, rounds: &[Round]) -> Result<(), Fail> {
    let mut link = IndexLink::new(alloc);
    check_rounds(rt, alloc, &mut link, rounds)
}

/// Tests rounds of a link whose replica is a list. The calls with these numbers fail.
fn check_memory(
    rt: &impl Abort,
    alloc: Global,
    fails: &[u64],
    rounds: &[Round],
) -> Result<(), Fail> {
    let fails = fails.to_vec(alloc)?;
    let mut link = MemLink::new(alloc, fails)?;
    check_rounds(rt, alloc, &mut link, rounds)
}

const TWO: &[Row] = &[OPTIMISTIC, FOREIGN];

const ALL: &[Row] = &[OPTIMISTIC, FOREIGN, EXCLUSIVE];

const CHANGES: [Round; 6] = [
    (TWO, &[Change::Put(EXCLUSIVE)], Some(ALL)),
    (
        ALL,
        &[Change::Put(LOWERED)],
        Some(&[LOWERED, FOREIGN, EXCLUSIVE]),
    ),
    (
        ALL,
        &[Change::Drop(OPTIMISTIC)],
        Some(&[FOREIGN, EXCLUSIVE]),
    ),
    (TWO, &[Change::Turn(OPTIMISTIC)], Some(&[TURNED, FOREIGN])),
    (ALL, &[Change::Turn(OPTIMISTIC)], Some(&[FOREIGN, JOINED])),
    (ALL, &[Change::Handed], Some(&[FOREIGN, HANDED])),
];

/// The list that the changes make of the snapshot.
fn modelled(alloc: Global, round: &Round) -> Result<Vec<Entry>, Fail> {
    let (snapshot, changes, _) = *round;
    let mut list = list_of(alloc, snapshot)?;
    for change in changes {
        apply_op(alloc, &mut list, &op_of(change)?)?;
    }
    Ok(list)
}

#[test]
fn operations_change_the_entries_that_they_name(rt: HostRuntime) -> Result<(), Fail> {
    let alloc = rt.alloc();
    for round in &CHANGES {
        let list = modelled(alloc, round)?;
        check_list(&rt, alloc, list.as_slice(), round.2.unwrap_or(&[]))?;
    }
    check_index(&rt, alloc, &CHANGES)
}

const SHIPPED: [Round; 1] = [(
    &[EXCLUSIVE],
    &[Change::Put(FOREIGN), Change::Handed],
    Some(&[HANDED, FOREIGN]),
)];

#[test]
fn a_link_gives_the_snapshot_after_what_was_shipped(rt: HostRuntime) -> Result<(), Fail> {
    check_memory(&rt, rt.alloc(), &[], &SHIPPED)?;
    check_index(&rt, rt.alloc(), &SHIPPED)
}

const NAMED_TWICE: [Round; 2] = [
    (&[EXCLUSIVE, FOREIGN, HANDED], &[], None),
    (&[FOREIGN, HANDED], &[], Some(&[FOREIGN, HANDED])),
];

#[test]
fn an_index_takes_no_snapshot_with_a_name_twice(rt: HostRuntime) -> Result<(), Fail> {
    check_index(&rt, rt.alloc(), &NAMED_TWICE)
}

const SECOND_FAILS: [Round; 2] = [
    (&[], &[Change::Put(EXCLUSIVE)], None),
    (&[], &[Change::Put(EXCLUSIVE)], Some(&[EXCLUSIVE])),
];

#[test]
fn a_link_fails_at_its_second_call_alone(rt: HostRuntime) -> Result<(), Fail> {
    check_memory(&rt, rt.alloc(), &[2], &SECOND_FAILS)
}
