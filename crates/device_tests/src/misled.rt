use crate::calls::Answer;
use crate::locks::{F1, F2, Row, disk_of, link_of, list_of};
use crate::steps::{Act, Life, Step, live};
use bk_disk::MemDisk;
use enq_server::OverFault;
use lock_entry::{Entry, Mode};
use lock_table::ListTable;
use replica_link::{Link, LinkFault, MemLink, TableOp};
use std::alloc::Global;
use std::process::Abort;
use std::test::*;

/// A link over which a replica gets another table than the one that is sent. It doesn't tell its list.
#[derive(Drop)]
struct Misleading {
    link: MemLink,
    table: Vec<Entry>,
}

impl Link for Misleading {
    ghost use Rattle.std.specs.Prelude.{None};

    ghost gives = { λ l. l.link.list };

    ghost applied = { λ l. None };

    ghost next = { λ l. l.link.next };

    ghost faults = { λ l. l.link.faults };

    ghost refusals = { λ l. l.link.refusals };

    ghost honest = { λ l. tt };

    fn attach(&mut self, alloc: Global, _entries: &[Entry]) -> Result<(), LinkFault> {
        self.link.attach(alloc, self.table.as_slice())
    }

    fn ship(&mut self, alloc: Global, seq: u64, op: &TableOp) -> Result<(), LinkFault> {
        self.link.ship(alloc, seq, op)
    }

    fn hand_over(&mut self, alloc: Global) -> Result<Vec<Entry>, LinkFault> {
        self.link.hand_over(alloc)
    }
}

const ASKED: Row = (1, F1, Mode::E, 1, false);

const HANDED: Row = (1, F1, Mode::E, 1, true);

const SECOND: Row = (2, F1, Mode::E, 1, false);

const SHARED: Row = (3, F2, Mode::S, 1, false);

const NONE_HELD: Row = (1, F2, Mode::S, 0, false);

const ASK: Step = (Act::Ask(1, F1, Mode::E), Answer::Done, &[ASKED]);

const SAVE: Step = (Act::Save, Answer::Saved(1), &[ASKED]);

const FLAG: Step = (Act::Flag, Answer::Done, &[HANDED]);

const ATTACH: Step = (Act::Attach, Answer::Done, &[]);

const KILL: Step = (Act::Kill, Answer::Done, &[]);

const NOT_ATTACHED: Step = (
    Act::FailOver,
    Answer::NotTakenOver(OverFault::NotAttached),
    &[],
);

/// The table of the replica, and steps of the server.
type Case = (&'static [Row], &'static [Step]);

const TAKEN_OVER: [Case; 5] = [
    (
        &[HANDED],
        &[
            ASK,
            FLAG,
            (Act::Attach, Answer::Done, &[HANDED]),
            KILL,
            (Act::FailOver, Answer::Done, &[HANDED]),
            (Act::IsAttached, Answer::Detached, &[HANDED]),
        ],
    ),
    (
        &[],
        &[
            ASK,
            (Act::Attach, Answer::Done, &[ASKED]),
            KILL,
            (Act::FailOver, Answer::Done, &[]),
            (Act::IsAttached, Answer::Detached, &[]),
        ],
    ),
    // A list that lacks a lock that was handed over: it is free until the table is made anew.
    (
        &[],
        &[
            ASK,
            SAVE,
            FLAG,
            (Act::Attach, Answer::Done, &[HANDED]),
            KILL,
            (Act::FailOver, Answer::Done, &[]),
            (Act::Ask(2, F1, Mode::E), Answer::Done, &[SECOND]),
            KILL,
            NOT_ATTACHED,
            (Act::Restart(&[(1, &[HANDED])]), Answer::Done, &[HANDED]),
            (Act::Ask(2, F1, Mode::E), Answer::First, &[HANDED]),
        ],
    ),
    (
        &[ASKED],
        &[
            ATTACH,
            KILL,
            (Act::FailOver, Answer::Done, &[ASKED]),
            (Act::IsAttached, Answer::Detached, &[ASKED]),
        ],
    ),
    (
        &[SECOND, SHARED],
        &[
            ASK,
            (Act::Attach, Answer::Done, &[ASKED]),
            KILL,
            (Act::FailOver, Answer::Done, &[SECOND, SHARED]),
            (Act::Ask(1, F1, Mode::E), Answer::First, &[SECOND, SHARED]),
        ],
    ),
];

/// The first lock that can't stand with those before it is told, behind the first of these that it can't stand with.
const REFUSED: [Case; 3] = [
    // An exclusive lock of another.
    (
        &[SHARED, ASKED, SECOND, SHARED],
        &[
            ATTACH,
            KILL,
            (
                Act::FailOver,
                Answer::NotTakenOver(OverFault::Clash {
                    first: 2,
                    second: 3,
                }),
                &[],
            ),
            (Act::IsAttached, Answer::Detached, &[]),
            NOT_ATTACHED,
            (Act::Restart(&[]), Answer::Done, &[]),
        ],
    ),
    // The same lock.
    (
        &[ASKED, SHARED, ASKED],
        &[
            ATTACH,
            KILL,
            (
                Act::FailOver,
                Answer::NotTakenOver(OverFault::Clash {
                    first: 1,
                    second: 3,
                }),
                &[],
            ),
            NOT_ATTACHED,
        ],
    ),
    // A lock that nobody holds, against itself.
    (
        &[ASKED, NONE_HELD],
        &[
            ATTACH,
            KILL,
            (
                Act::FailOver,
                Answer::NotTakenOver(OverFault::Clash {
                    first: 2,
                    second: 2,
                }),
                &[],
            ),
            NOT_ATTACHED,
        ],
    ),
];

/// Takes the steps with a replica that has this table.
fn check_misled(rt: &impl Abort, alloc: Global, rows: &[Row], steps: &[Step]) -> Result<(), Fail> {
    let table = list_of(alloc, rows)?;
    let disk = disk_of(alloc, b"", &[])?;
    let link = link_of(alloc, &[])?;
    let misleading = Misleading { link, table };
    let life: Life = (&[], None, steps);
    let _disk = live::<ListTable, MemDisk, Misleading>(rt, alloc, disk, misleading, &life)?;
    Ok(())
}

fn check_all(rt: &impl Abort, alloc: Global, cases: &[Case]) -> Result<(), Fail> {
    for (rows, steps) in cases {
        check_misled(rt, alloc, rows, steps)?;
    }
    Ok(())
}

#[test]
fn a_list_whose_locks_can_stand_together_is_taken_over(rt: HostRuntime) -> Result<(), Fail> {
    check_all(&rt, rt.alloc(), &TAKEN_OVER)
}

#[test]
fn a_list_whose_locks_can_not_is_told_by_the_places_of_two(rt: HostRuntime) -> Result<(), Fail> {
    check_all(&rt, rt.alloc(), &REFUSED)
}
