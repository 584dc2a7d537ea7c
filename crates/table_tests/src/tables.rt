use crate::steps::{Act, Answer, Case, Place, Row, Who, entries, load, take_all};
use lock_entry::{LoadFault, LockStore, Mode};
use lock_index::IndexTable;
use lock_table::ListTable;
use std::alloc::Global;
use std::process::Abort;
use std::test::*;

const E1: Place = (b"ZORDER", b"1000000000001", Mode::E);

const E2: Place = (b"ZORDER", b"1000000000002", Mode::E);

const E3: Place = (b"ZORDER", b"1000000000003", Mode::E);

const S1: Place = (b"ZORDER", b"1000000000001", Mode::S);

const X1: Place = (b"ZORDER", b"1000000000001", Mode::X);

const O1: Place = (b"ZORDER", b"1000000000001", Mode::O);

// Client 100 with any order, and with the initial one.
const S_ANY: Place = (b"ZORDER", b"100@@@@@@@@@@", Mode::S);

const O_ANY: Place = (b"ZORDER", b"100@@@@@@@@@@", Mode::O);

const E_INITIAL: Place = (b"ZORDER", b"100          ", Mode::E);

const OTHER_ANY: Place = (b"ZORDER", b"200@@@@@@@@@@", Mode::E);

const OTHER_INITIAL: Place = (b"ZORDER", b"200          ", Mode::E);

const D1: Who = Who::Dialogue(1);

const D2: Who = Who::Dialogue(2);

const D3: Who = Who::Dialogue(3);

const U1: Who = Who::Update(1);

const D1_E1: Row = (D1, E1, 1, false);

const D1_O1: Row = (D1, O1, 1, false);

const D2_O1: Row = (D2, O1, 1, false);

const D2_E1: Row = (D2, E1, 1, false);

const RULES: [Case; 7] = [
    // A generic request meets each key that it covers.
    Case {
        limit: 1000,
        loaded: &[],
        steps: &[
            (Act::Ask(1, &[(E1, false)]), Answer::Done(0), &[D1_E1]),
            (
                Act::Ask(2, &[(S_ANY, false)]),
                Answer::Foreign(D1, E1),
                &[D1_E1],
            ),
        ],
    },
    // An initial field is a key of its own.
    Case {
        limit: 1000,
        loaded: &[D1_E1],
        steps: &[
            (
                Act::Ask(2, &[(E_INITIAL, false)]),
                Answer::Done(0),
                &[D1_E1, (D2, E_INITIAL, 1, false)],
            ),
            (
                Act::Ask(2, &[(OTHER_ANY, false)]),
                Answer::Done(0),
                &[D1_E1, (D2, E_INITIAL, 1, false), (D2, OTHER_ANY, 1, false)],
            ),
            (
                Act::Ask(1, &[(OTHER_INITIAL, false)]),
                Answer::Foreign(D2, OTHER_ANY),
                &[D1_E1, (D2, E_INITIAL, 1, false), (D2, OTHER_ANY, 1, false)],
            ),
        ],
    },
    // An exclusive lock cumulates, and is freed one by one.
    Case {
        limit: 1000,
        loaded: &[],
        steps: &[
            (Act::Ask(1, &[(E1, false)]), Answer::Done(0), &[D1_E1]),
            (
                Act::Ask(1, &[(E1, false)]),
                Answer::Done(0),
                &[(D1, E1, 2, false)],
            ),
            (Act::Free(D1, E1), Answer::Done(1), &[D1_E1]),
            (
                Act::Ask(2, &[(E1, false)]),
                Answer::Foreign(D1, E1),
                &[D1_E1],
            ),
            (Act::Free(D1, E1), Answer::Done(1), &[]),
            (Act::Free(D1, E1), Answer::Done(0), &[]),
            (Act::Ask(2, &[(E1, false)]), Answer::Done(0), &[D2_E1]),
        ],
    },
    // An X lock bars its own session.
    Case {
        limit: 1000,
        loaded: &[],
        steps: &[
            (
                Act::Ask(1, &[(X1, false)]),
                Answer::Done(0),
                &[(D1, X1, 1, false)],
            ),
            (
                Act::Ask(1, &[(X1, false)]),
                Answer::Foreign(D1, X1),
                &[(D1, X1, 1, false)],
            ),
        ],
    },
    // A third entry exceeds a limit of two; one more of an entry doesn't.
    Case {
        limit: 2,
        loaded: &[D1_E1],
        steps: &[
            (
                Act::Ask(1, &[(E2, false)]),
                Answer::Done(0),
                &[D1_E1, (D1, E2, 1, false)],
            ),
            (
                Act::Ask(1, &[(E3, false)]),
                Answer::Full(2, 2),
                &[D1_E1, (D1, E2, 1, false)],
            ),
            (
                Act::Ask(1, &[(E1, false)]),
                Answer::Done(0),
                &[(D1, E1, 2, false), (D1, E2, 1, false)],
            ),
        ],
    },
    // A count ends at 9,999.
    Case {
        limit: 3,
        loaded: &[(D1, E1, 9998, false)],
        steps: &[
            (
                Act::Ask(1, &[(E1, false)]),
                Answer::Done(0),
                &[(D1, E1, 9999, false)],
            ),
            (
                Act::Ask(1, &[(E1, false)]),
                Answer::Count,
                &[(D1, E1, 9999, false)],
            ),
        ],
    },
    // Locks of one session are loaded as they are, handed over or not.
    Case {
        limit: 3,
        loaded: &[(D1, X1, 1, false), (D2, E2, 1, false), (U1, X1, 1, true)],
        steps: &[],
    },
];

/// Takes the steps of each case with the list, and with the index.
fn take_both(rt: &impl Abort, alloc: Global, cases: &[Case]) -> Result<(), Fail> {
    take_all::<ListTable>(rt, alloc, cases)?;
    take_all::<IndexTable>(rt, alloc, cases)
}

#[test]
fn locks_are_granted_by_the_rules(rt: HostRuntime) -> Result<(), Fail> {
    take_both(&rt, rt.alloc(), &RULES)
}

const T1_GENERIC: Place = (b"T1", b"AB@", Mode::E);

const T2_GENERIC: Place = (b"T2", b"@", Mode::E);

const CONTAINERS: [Case; 3] = [
    // The requests of one call don't bar each other.
    Case {
        limit: 1000,
        loaded: &[],
        steps: &[(
            Act::Ask(1, &[(X1, false), (X1, true)]),
            Answer::Done(0),
            &[(D1, X1, 2, false), (U1, X1, 1, false)],
        )],
    },
    // A clash on the second table grants nothing.
    Case {
        limit: 1000,
        loaded: &[],
        steps: &[
            (
                Act::Ask(1, &[(T1_GENERIC, false), (T2_GENERIC, false)]),
                Answer::Done(0),
                &[(D1, T1_GENERIC, 1, false), (D1, T2_GENERIC, 1, false)],
            ),
            (
                Act::Ask(
                    2,
                    &[
                        ((b"T1", b"CDZ", Mode::E), false),
                        ((b"T2", b"Z", Mode::E), false),
                    ],
                ),
                Answer::Foreign(D1, T2_GENERIC),
                &[(D1, T1_GENERIC, 1, false), (D1, T2_GENERIC, 1, false)],
            ),
        ],
    },
    // A container is granted whole or not at all.
    Case {
        limit: 1000,
        loaded: &[(D2, E3, 1, false)],
        steps: &[
            (
                Act::Ask(1, &[(E1, false), (E2, false), (E3, false)]),
                Answer::Foreign(D2, E3),
                &[(D2, E3, 1, false)],
            ),
            (
                Act::Ask(3, &[(E1, false)]),
                Answer::Done(0),
                &[(D2, E3, 1, false), (D3, E1, 1, false)],
            ),
            (Act::Free(D3, E1), Answer::Done(1), &[(D2, E3, 1, false)]),
            (Act::Free(D2, E3), Answer::Done(1), &[]),
            (
                Act::Ask(1, &[(E1, false), (E2, false), (E3, false)]),
                Answer::Done(0),
                &[D1_E1, (D1, E2, 1, false), (D1, E3, 1, false)],
            ),
        ],
    },
];

#[test]
fn a_container_is_granted_whole_or_not_at_all(rt: HostRuntime) -> Result<(), Fail> {
    take_both(&rt, rt.alloc(), &CONTAINERS)
}

const CONVERSIONS: [Case; 5] = [
    // The first conversion takes the optimistic locks of others.
    Case {
        limit: 1000,
        loaded: &[D1_O1, D2_O1],
        steps: &[
            (Act::Convert(1, E1), Answer::Done(1), &[D1_E1]),
            (Act::Convert(2, E1), Answer::Lost, &[D1_E1]),
            (
                Act::Ask(2, &[(S1, false)]),
                Answer::Foreign(D1, E1),
                &[D1_E1],
            ),
        ],
    },
    // A shared lock withstands a conversion.
    Case {
        limit: 1000,
        loaded: &[D1_O1, (D3, S1, 1, false)],
        steps: &[(
            Act::Convert(1, E1),
            Answer::Foreign(D3, S1),
            &[D1_O1, (D3, S1, 1, false)],
        )],
    },
    // A generic optimistic lock of another goes too, and the count stays.
    Case {
        limit: 3,
        loaded: &[(D1, O1, 2, false), (D2, O_ANY, 1, false)],
        steps: &[(Act::Convert(1, E1), Answer::Done(1), &[(D1, E1, 2, false)])],
    },
    // An optimistic lock adds its count to the exclusive one.
    Case {
        limit: 3,
        loaded: &[(D1, E1, 9997, false), (D1, O1, 2, false)],
        steps: &[(
            Act::Convert(1, E1),
            Answer::Done(0),
            &[(D1, E1, 9999, false)],
        )],
    },
    Case {
        limit: 3,
        loaded: &[(D1, E1, 9998, false), (D1, O1, 2, false)],
        steps: &[(
            Act::Convert(1, E1),
            Answer::Count,
            &[(D1, E1, 9998, false), (D1, O1, 2, false)],
        )],
    },
];

#[test]
fn optimistic_locks_are_converted(rt: HostRuntime) -> Result<(), Fail> {
    take_both(&rt, rt.alloc(), &CONVERSIONS)
}

const UNITS: [Case; 4] = [
    // A unit is handed over, without its optimistic locks, and freed.
    Case {
        limit: 1000,
        loaded: &[],
        steps: &[
            (
                Act::Ask(1, &[(E1, true), (O1, true)]),
                Answer::Done(0),
                &[D1_E1, (U1, E1, 1, false), D1_O1, (U1, O1, 1, false)],
            ),
            (
                Act::Hand(1),
                Answer::Done(2),
                &[D1_E1, (U1, E1, 1, true), D1_O1],
            ),
            (Act::FreeOwner(U1), Answer::Done(1), &[D1_E1, D1_O1]),
            (Act::FreeOwner(U1), Answer::Done(0), &[D1_E1, D1_O1]),
            (Act::Free(D1, O1), Answer::Done(1), &[D1_E1]),
        ],
    },
    // A stored lock is readmitted where there is room, and nothing in its way.
    Case {
        limit: 1,
        loaded: &[D2_E1],
        steps: &[
            (Act::Readmit(1, E2), Answer::Full(1, 1), &[D2_E1]),
            (Act::Readmit(1, E1), Answer::Foreign(D2, E1), &[D2_E1]),
        ],
    },
    Case {
        limit: 2,
        loaded: &[D2_E1],
        steps: &[(
            Act::Readmit(1, E2),
            Answer::Done(0),
            &[D2_E1, (U1, E2, 1, true)],
        )],
    },
    // It comes in place of the owner's entries.
    Case {
        limit: 3,
        loaded: &[(U1, E1, 3, false)],
        steps: &[(Act::Readmit(1, E2), Answer::Done(0), &[(U1, E2, 1, true)])],
    },
];

#[test]
fn a_unit_is_handed_over_freed_and_readmitted(rt: HostRuntime) -> Result<(), Fail> {
    take_both(&rt, rt.alloc(), &UNITS)
}

const U1_E1: Row = (U1, E1, 1, false);

const U1_E1_HANDED: Row = (U1, E1, 1, true);

const UNHANDED: [Case; 2] = [
    // One that was handed over beside one that wasn't.
    Case {
        limit: 3,
        loaded: &[(U1, X1, 1, true), (U1, E2, 1, false)],
        steps: &[
            (
                Act::HasUnhanded(U1),
                Answer::Done(1),
                &[(U1, X1, 1, true), (U1, E2, 1, false)],
            ),
            (Act::Free(U1, E2), Answer::Done(1), &[(U1, X1, 1, true)]),
            (Act::HasUnhanded(U1), Answer::Done(0), &[(U1, X1, 1, true)]),
        ],
    },
    // An owner without entries has none that wasn't handed over, nor has a unit once all of its own were.
    Case {
        limit: 1000,
        loaded: &[],
        steps: &[
            (Act::HasUnhanded(U1), Answer::Done(0), &[]),
            (Act::Ask(1, &[(E1, true)]), Answer::Done(0), &[D1_E1, U1_E1]),
            (Act::HasUnhanded(U1), Answer::Done(1), &[D1_E1, U1_E1]),
            (Act::HasUnhanded(D2), Answer::Done(0), &[D1_E1, U1_E1]),
            (Act::Hand(1), Answer::Done(1), &[D1_E1, U1_E1_HANDED]),
            (
                Act::HasUnhanded(U1),
                Answer::Done(0),
                &[D1_E1, U1_E1_HANDED],
            ),
            (
                Act::HasUnhanded(D1),
                Answer::Done(1),
                &[D1_E1, U1_E1_HANDED],
            ),
        ],
    },
];

#[test]
fn locks_that_were_not_handed_over_are_told(rt: HostRuntime) -> Result<(), Fail> {
    take_both(&rt, rt.alloc(), &UNHANDED)
}

const D3_E2: Row = (D3, E2, 1, false);

const ORDERS: [Case; 3] = [
    // A lock that is freed in the middle leaves the others in order, and comes last when it is granted again.
    Case {
        limit: 3,
        loaded: &[D1_E1, D3_E2, (D1, E3, 1, false)],
        steps: &[
            (
                Act::Free(D3, E2),
                Answer::Done(1),
                &[D1_E1, (D1, E3, 1, false)],
            ),
            (
                Act::Ask(3, &[(E2, false)]),
                Answer::Done(0),
                &[D1_E1, (D1, E3, 1, false), D3_E2],
            ),
            (Act::FreeOwner(D1), Answer::Done(2), &[D3_E2]),
        ],
    },
    // The oldest lock in the way is told, be it generic or not.
    Case {
        limit: 3,
        loaded: &[(D2, S1, 1, false), (D1, S_ANY, 1, false)],
        steps: &[(
            Act::Ask(3, &[(E1, false)]),
            Answer::Foreign(D2, S1),
            &[(D2, S1, 1, false), (D1, S_ANY, 1, false)],
        )],
    },
    Case {
        limit: 3,
        loaded: &[(D1, S_ANY, 1, false), (D2, S1, 1, false)],
        steps: &[
            (
                Act::Ask(3, &[(E1, false)]),
                Answer::Foreign(D1, S_ANY),
                &[(D1, S_ANY, 1, false), (D2, S1, 1, false)],
            ),
            (
                Act::Ask(3, &[(E2, false)]),
                Answer::Foreign(D1, S_ANY),
                &[(D1, S_ANY, 1, false), (D2, S1, 1, false)],
            ),
        ],
    },
];

#[test]
fn locks_stand_in_order_of_granting(rt: HostRuntime) -> Result<(), Fail> {
    take_both(&rt, rt.alloc(), &ORDERS)
}

/// Entries, and the places of the first two that clash.
const LOADED: [(&[Row], Option<(u32, u32)>); 6] = [
    // Two exclusive locks of two sessions are no table.
    (&[D1_E1, D2_E1], Some((1, 2))),
    // A count is 1 to 9,999.
    (&[(D1, E1, 9999, false), (D2, E2, 0, false)], Some((2, 2))),
    (&[(D1, E1, 9999, false), (D2, E2, 1, false)], None),
    (&[(D1, E1, 9999, false), (D2, E2, 9999, false)], None),
    (
        &[(D1, E1, 9999, false), (D2, E2, 10000, false)],
        Some((2, 2)),
    ),
    // Locks of one session stand side by side.
    (&[(D1, X1, 1, false), (U1, X1, 1, true)], None),
];

fn clash_of<T: LockStore>(alloc: Global, rows: &[Row]) -> Result<Option<(u32, u32)>, Fail> {
    match load::<T>(alloc, 3, entries(alloc, rows)?) {
        Ok(_table) => Ok(None),
        Err(LoadFault::Clash { first, second }) => Ok(Some((first, second))),
        Err(LoadFault::NoMemory) => Err(Fail::from("no memory")),
    }
}

#[test]
fn entries_that_clash_are_no_table(rt: HostRuntime) -> Result<(), Fail> {
    for (rows, clash) in LOADED {
        let of_list = clash_of::<ListTable>(rt.alloc(), rows)?;
        let of_index = clash_of::<IndexTable>(rt.alloc(), rows)?;
        assert_eq!(rt; (of_list, of_index), (clash, clash));
    }
    Ok(())
}
