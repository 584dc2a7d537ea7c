use crate::targets::{keeper, key, opened, reads, text};
use enq_base::Reason;
use keeper_mem::MemKeeper;
use remote_target::{CallOutcome, Carrier, Fate, MemCarrier};
use std::alloc::Global;
use std::process::Abort;
use std::test::Fail;

/// An identifier with its outcome.
type Answer = (&'static [u8], CallOutcome);

/// The identifier and the text of a call that is sent, and the answer that comes back.
type Turn = (&'static [u8], &'static [u8], Option<Answer>);

/// Turns over a target whose keeper fails at some of its calls, commits on the side after at others.
struct Case {
    fails: &'static [u64],
    after: &'static [u64],
    plan: &'static [Fate],
    turns: &'static [Turn],
}

const DONE: Option<Answer> = Some((b"C1", CallOutcome::Done));

const MISSING: Option<Answer> = Some((b"C2", CallOutcome::Refused(Reason::Missing)));

const LOST_ONCE: [Turn; 3] = [
    (b"C1", b"ADD STAT N 5", None),
    (b"C1", b"ADD STAT N 5", DONE),
    (b"C2", b"DEL T 9", MISSING),
];

// The seventh call of the keeper is the commit of the first call.
const CASES: [Case; 6] = [
    Case {
        fails: &[],
        after: &[],
        plan: &[Fate::LoseAck],
        turns: &LOST_ONCE,
    },
    Case {
        fails: &[7],
        after: &[7],
        plan: &[],
        turns: &LOST_ONCE,
    },
    Case {
        fails: &[7],
        after: &[],
        plan: &[],
        turns: &LOST_ONCE,
    },
    Case {
        fails: &[],
        after: &[],
        plan: &[Fate::LosePacket; 8],
        turns: &[
            (b"C1", b"ADD STAT N 5", None),
            (b"C1", b"ADD STAT N 5", None),
            (b"C1", b"ADD STAT N 5", None),
            (b"C1", b"ADD STAT N 5", None),
            (b"C1", b"ADD STAT N 5", None),
            (b"C1", b"ADD STAT N 5", None),
            (b"C1", b"ADD STAT N 5", None),
            (b"C1", b"ADD STAT N 5", None),
            (b"C1", b"ADD STAT N 5", DONE),
        ],
    },
    Case {
        fails: &[],
        after: &[],
        plan: &[Fate::Twice, Fate::Twice],
        turns: &[(b"C1", b"ADD STAT N 5", DONE), (b"C2", b"DEL T 9", MISSING)],
    },
    Case {
        fails: &[],
        after: &[],
        plan: &[Fate::Pass, Fate::Old(1), Fate::Old(9)],
        turns: &[
            (b"C1", b"ADD STAT N 5", DONE),
            (b"C2", b"DEL T 9", DONE),
            (b"C2", b"DEL T 9", None),
            (b"C2", b"DEL T 9", MISSING),
        ],
    },
];

/// Whether a turn gives its answer.
fn tells(alloc: Global, carrier: &mut MemCarrier<MemKeeper>, turn: &Turn) -> Result<bool, Fail> {
    let (tid, bytes, wanted) = turn;
    let tid = key(tid)?;
    let text = text(alloc, bytes)?;
    match (carrier.turn(alloc, &tid, &text)?, wanted) {
        (Some(answer), Some((tid, outcome))) => {
            Ok(answer.tid.bytes() == *tid && answer.outcome == *outcome)
        }
        (None, None) => Ok(true),
        _ => Ok(false),
    }
}

fn all_tell(
    alloc: Global,
    carrier: &mut MemCarrier<MemKeeper>,
    turns: &[Turn],
) -> Result<bool, Fail> {
    let mut all = true;
    for turn in turns {
        all = tells(alloc, carrier, turn)? && all;
    }
    Ok(all)
}

/// Whether all turns give their answers, and the row of the first call is then as after executing it once.
fn holds(alloc: Global, case: &Case) -> Result<bool, Fail> {
    let target = opened(alloc, keeper(alloc, case.fails, case.after)?)?;
    let mut carrier = MemCarrier::new(alloc, target, Vec::from_slice(alloc, case.plan)?);
    let all = all_tell(alloc, &mut carrier, case.turns)?;
    let mut target = carrier.into_target();
    match target.reopen(alloc) {
        Ok(()) => Ok(reads(alloc, &mut target, b"N", Some(b"5"))? && all),
        Err(_) => Err(Fail::from("not opened anew")),
    }
}

#[test]
fn a_call_is_executed_once_whatever_is_lost(rt: HostRuntime) -> Result<(), Fail> {
    let alloc = rt.alloc();
    for case in &CASES {
        assert!(rt; holds(alloc, case)?);
    }
    Ok(())
}
