use crate::rounds::{Row, check_list, entry, list_of};
use enq_base::Items;
use lossy_link::{Ack, Packet, Replica};
use replica_link::TableOp;
use std::alloc::Global;
use std::process::Abort;
use std::test::*;

const LAST: u32 = u32::MAX;

const ONE: &[Row] = &[(b'1', 1)];

const TWO: &[Row] = &[(b'2', 1)];

/// A packet, by what it brings.
#[derive(Debug)]
enum Sent {
    /// The snapshot of an epoch.
    Begin(u32, &'static [Row]),
    /// The put of an epoch that has this number.
    Put(u32, u64, Row),
}

/// What is sent, and what is answered.
type Step = (Sent, Ack);

fn packet_of(alloc: Global, sent: &Sent) -> Result<Packet, Fail> {
    match sent {
        Sent::Begin(epoch, rows) => Ok(Packet::Begin {
            epoch: *epoch,
            entries: Items::from_vec(list_of(alloc, rows)?),
        }),
        Sent::Put(epoch, seq, row) => Ok(Packet::Op {
            epoch: *epoch,
            seq: *seq,
            op: TableOp::Put(entry(*row)?),
        }),
    }
}

/// What the replica answers to a packet.
fn answered(alloc: Global, replica: &mut Replica, sent: &Sent) -> Result<Ack, Fail> {
    let packet = packet_of(alloc, sent)?;
    Ok(replica.take(alloc, &packet)?)
}

/// Tests each answer, and what is then held.
fn check_steps(
    rt: &impl Abort,
    alloc: Global,
    replica: &mut Replica,
    steps: &[Step],
    rows: &[Row],
) -> Result<(), Fail> {
    for (sent, wanted) in steps {
        assert_eq!(rt; answered(alloc, replica, sent)?, *wanted, "{sent:?}");
    }
    let list = replica.list(alloc)?;
    check_list(rt, alloc, list.as_slice(), rows)
}

fn check(rt: &impl Abort, alloc: Global, steps: &[Step], rows: &[Row]) -> Result<(), Fail> {
    let mut replica = Replica::new(alloc);
    check_steps(rt, alloc, &mut replica, steps, rows)
}

const EARLY: [Step; 3] = [
    (Sent::Put(0, 2, (b'1', 1)), Ack { epoch: 0, seq: 0 }),
    (Sent::Put(0, 1, (b'1', 1)), Ack { epoch: 0, seq: 1 }),
    (Sent::Put(0, 1, (b'1', 1)), Ack { epoch: 0, seq: 1 }),
];

#[test]
fn a_replica_answers_where_it_stands(rt: HostRuntime) -> Result<(), Fail> {
    check(&rt, rt.alloc(), &EARLY, ONE)
}

const BEGUN: Ack = Ack {
    epoch: LAST,
    seq: 0,
};

const AFTER_ONE: Ack = Ack {
    epoch: LAST,
    seq: 1,
};

const LAST_EPOCH: [Step; 6] = [
    (Sent::Begin(LAST, ONE), BEGUN),
    (Sent::Begin(LAST, TWO), BEGUN),
    (Sent::Begin(0, TWO), BEGUN),
    (Sent::Begin(1, TWO), BEGUN),
    (Sent::Put(LAST, 1, (b'2', 1)), AFTER_ONE),
    (Sent::Begin(LAST, TWO), AFTER_ONE),
];

#[test]
fn no_epoch_is_behind_the_last(rt: HostRuntime) -> Result<(), Fail> {
    check(&rt, rt.alloc(), &LAST_EPOCH, &[(b'1', 1), (b'2', 1)])
}
