ghost use Rattle.std.specs.Prelude.{◌≡◌, IfOk, IfSome};
ghost use Rattle.replica_link.specs.Operations.{after_ops};

use enq_base::{Owner, Pattern, read_name};
use lock_entry::{Entry, Mode};
use lossy_link::{Fate, LossyLink, MemWire};
use replica_link::{Link, LinkFault, TableOp};
use std::alloc::Global;
use std::process::Abort;
use std::test::Fail;

/// What a link gives after a snapshot and operations.
fn given_after<L: Link>(
    alloc: Global,
    link: &mut L,
    snapshot: &[Entry],
    ops: &[TableOp],
) -> Result<Vec<Entry>, LinkFault>
    ensures { IfOk result (λ list. IfSome (L.applied link.old) (λ _. list.items ≡ after_ops snapshot.now ops.now)) }
{
    link.attach(alloc, snapshot)?;
    let mut seq = 1;
    for op in ops {
        link.ship(alloc, seq, op)?;
        seq += 1;
    }
    link.hand_over(alloc)
}

/// What a link gives over a wire whose turns have these fates.
pub(crate) fn given_over(
    alloc: Global,
    plan: Vec<Fate>,
    snapshot: &[Entry],
    ops: &[TableOp],
) -> Result<Vec<Entry>, LinkFault> {
    let mut link = LossyLink::new(MemWire::new(alloc, plan));
    given_after(alloc, &mut link, snapshot, ops)
}

/// A lock at an order, by the last digit of its number, and how often it is held.
pub(crate) type Row = (u8, u16);

/// The snapshot, the puts that are shipped behind it, and what is then given, if the link doesn't fail.
pub(crate) type Round = (&'static [Row], &'static [Row], Option<&'static [Row]>);

pub(crate) fn entry(row: Row) -> Result<Entry, Fail> {
    let (digit, count) = row;
    let mut number = *b"1000000000000";
    number[12] = digit;
    Ok(Entry {
        owner: Owner::Dlg {
            start: 1,
            session: 1,
        },
        user: read_name(b"MILLER").ok_or("a name")?,
        table: read_name(b"ZORDER").ok_or("a name")?,
        pattern: Pattern::new(&number).ok_or("an argument")?,
        mode: Mode::E,
        count,
        handed: false,
    })
}

pub(crate) fn list_of(alloc: Global, rows: &[Row]) -> Result<Vec<Entry>, Fail> {
    let mut list = Vec::new(alloc);
    for row in rows {
        list.push(entry(*row)?)?;
    }
    Ok(list)
}

fn puts_of(alloc: Global, rows: &[Row]) -> Result<Vec<TableOp>, Fail> {
    let mut ops = Vec::new(alloc);
    for row in rows {
        ops.push(TableOp::Put(entry(*row)?))?;
    }
    Ok(ops)
}

/// Tests that these are the entries, in order.
pub(crate) fn check_list(
    rt: &impl Abort,
    alloc: Global,
    list: &[Entry],
    rows: &[Row],
) -> Result<(), Fail> {
    let wanted = list_of(alloc, rows)?;
    assert_eq!(rt; list, wanted.as_slice());
    Ok(())
}

/// What the link comes to in one round.
fn given_in<L: Link>(
    alloc: Global,
    link: &mut L,
    round: &Round,
) -> Result<Result<Vec<Entry>, LinkFault>, Fail> {
    let (snapshot, puts, _) = *round;
    let snapshot = list_of(alloc, snapshot)?;
    let puts = puts_of(alloc, puts)?;
    Ok(given_after(alloc, link, snapshot.as_slice(), puts.as_slice()))
}

/// Tests what the link comes to in one round.
fn check_round<L: Link>(
    rt: &impl Abort,
    alloc: Global,
    link: &mut L,
    round: &Round,
) -> Result<(), Fail> {
    let (_, _, wanted) = *round;
    match given_in(alloc, link, round)? {
        Ok(list) => check_list(
            rt,
            alloc,
            list.as_slice(),
            wanted.ok_or("the link gave a list")?,
        ),
        Err(fault) => {
            assert_eq!(rt; (fault, wanted), (LinkFault::Failed, None));
            Ok(())
        }
    }
}

fn check_rounds<L: Link>(
    rt: &impl Abort,
    alloc: Global,
    link: &mut L,
    rounds: &[Round],
) -> Result<(), Fail> {
    for round in rounds {
        check_round(rt, alloc, link, round)?;
    }
    Ok(())
}

/// Tests rounds over one wire whose turns have these fates.
pub(crate) fn check(
    rt: &impl Abort,
    alloc: Global,
    plan: &[Fate],
    rounds: &[Round],
) -> Result<(), Fail> {
    let plan = Vec::from_slice(alloc, plan)?;
    let mut link = LossyLink::new(MemWire::new(alloc, plan));
    check_rounds(rt, alloc, &mut link, rounds)
}
