use crate::calls::Answer;
use crate::locks::{F1, F2, Row, Unit};
use crate::steps::{Act, Devices, Life, Step, check};
use enq_base::{BackupBad, UnitKey};
use enq_server::OpenFault;
use lock_entry::Mode;
use std::test::*;

const NEW: Devices = (b"", &[], &[]);

const ASKED: Row = (1, F1, Mode::E, 1, false);

const HANDED: Row = (1, F1, Mode::E, 1, true);

const OTHER_HANDED: Row = (2, F1, Mode::E, 1, true);

const WITH_LOCK: &[Unit] = &[(1, &[HANDED])];

const ASK: Step = (Act::Ask(1, F1, Mode::E), Answer::Done, &[ASKED]);

const SAVE: Step = (Act::Save, Answer::Saved(1), &[ASKED]);

const FLAG: Step = (Act::Flag, Answer::Done, &[HANDED]);

const KILL: Step = (Act::Kill, Answer::Done, &[]);

// The table has an E lock of unit 1 of session 1, which stands in the file too.
const HAND: Life = (&[], None, &[ASK, SAVE, FLAG]);

const UNIT: UnitKey = UnitKey {
    start: 1,
    session: 1,
    luw: 1,
};

const MISSING: OpenFault = OpenFault::Bad(BackupBad::Missing { unit: UNIT, at: 1 });

const REFUSED: Life = (WITH_LOCK, Some(MISSING), &[]);

const OUTLIVED: [Life; 2] = [
    HAND,
    (
        WITH_LOCK,
        None,
        &[
            (Act::Look, Answer::Done, &[HANDED]),
            (Act::Ask(2, F1, Mode::E), Answer::First, &[HANDED]),
        ],
    ),
];

#[test]
fn locks_that_were_handed_over_outlive_the_table(rt: HostRuntime) -> Result<(), Fail> {
    check(&rt, rt.alloc(), &NEW, &OUTLIVED)
}

const ENDED: [Life; 2] = [
    (
        &[],
        None,
        &[
            ASK,
            SAVE,
            FLAG,
            (Act::End(2), Answer::Done, &[HANDED]),
            (Act::End(1), Answer::Done, &[]),
        ],
    ),
    REFUSED,
];

#[test]
fn the_list_of_a_unit_that_ended_is_freed(rt: HostRuntime) -> Result<(), Fail> {
    check(&rt, rt.alloc(), &NEW, &ENDED)
}

const NOT_OPEN: [Life; 3] = [
    HAND,
    (&[], None, &[(Act::Look, Answer::Done, &[])]),
    REFUSED,
];

#[test]
fn the_list_of_a_unit_that_is_not_open_is_freed(rt: HostRuntime) -> Result<(), Fail> {
    check(&rt, rt.alloc(), &NEW, &NOT_OPEN)
}

const LONGER: [Life; 2] = [HAND, (&[(1, &[])], Some(MISSING), &[])];

const SECOND_MISSING: OpenFault = OpenFault::Bad(BackupBad::Missing { unit: UNIT, at: 2 });

const SHORTER: [Life; 2] = [
    HAND,
    (
        &[(1, &[HANDED, (1, F2, Mode::E, 1, true)])],
        Some(SECOND_MISSING),
        &[],
    ),
];

#[test]
fn a_list_that_is_longer_or_differs_is_told_by_its_place(rt: HostRuntime) -> Result<(), Fail> {
    check(&rt, rt.alloc(), &NEW, &LONGER)?;
    check(&rt, rt.alloc(), &NEW, &SHORTER)
}

const CLASH: OpenFault = OpenFault::Bad(BackupBad::Clash {
    first: 1,
    second: 2,
});

// The file has an E lock of the same argument for two units, which no table has at one time.
const CLASHING: [Life; 2] = [
    (
        &[],
        None,
        &[
            (Act::Readmit(1), Answer::Done, &[HANDED]),
            (Act::FreeAll(1), Answer::Done, &[]),
            (Act::Readmit(2), Answer::Done, &[OTHER_HANDED]),
        ],
    ),
    (&[(1, &[HANDED]), (2, &[OTHER_HANDED])], Some(CLASH), &[]),
];

#[test]
fn lists_that_clash_are_told_by_their_places(rt: HostRuntime) -> Result<(), Fail> {
    check(&rt, rt.alloc(), &NEW, &CLASHING)
}

const RETURNED: [Life; 2] = [
    (&[], None, &[(Act::Readmit(1), Answer::Done, &[HANDED])]),
    (WITH_LOCK, None, &[(Act::Look, Answer::Done, &[HANDED])]),
];

#[test]
fn locks_that_return_stand_in_the_file_again(rt: HostRuntime) -> Result<(), Fail> {
    check(&rt, rt.alloc(), &NEW, &RETURNED)
}

const MADE_ANEW: [Life; 1] = [(
    &[],
    None,
    &[
        ASK,
        SAVE,
        FLAG,
        KILL,
        (Act::Restart(WITH_LOCK), Answer::Done, &[HANDED]),
        KILL,
        (Act::Restart(&[]), Answer::Done, &[]),
        KILL,
        (
            Act::FailToRestart(WITH_LOCK),
            Answer::NotOpened(MISSING),
            &[],
        ),
    ],
)];

#[test]
fn the_table_is_made_anew_from_the_file(rt: HostRuntime) -> Result<(), Fail> {
    check(&rt, rt.alloc(), &NEW, &MADE_ANEW)
}

const FAILING: Devices = (b"", &[12], &[]);

const READ_ANEW: [Life; 1] = [(
    &[],
    None,
    &[ASK, (Act::FailToSave, Answer::Done, &[]), ASK, SAVE],
)];

#[test]
fn a_file_that_failed_is_read_anew(rt: HostRuntime) -> Result<(), Fail> {
    check(&rt, rt.alloc(), &FAILING, &READ_ANEW)
}

const DIGITS: Devices = (b"0123456789", &[], &[]);

const NOTHING: [Life; 1] = [(&[], Some(OpenFault::Bad(BackupBad::Bytes { at: 0 })), &[])];

#[test]
fn a_file_that_stands_for_nothing_is_told(rt: HostRuntime) -> Result<(), Fail> {
    check(&rt, rt.alloc(), &DIGITS, &NOTHING)
}

const SHARED: Row = (1, F2, Mode::S, 1, false);

const CONVERTED: [Life; 1] = [(
    &[],
    None,
    &[
        (
            Act::Ask(1, F1, Mode::O),
            Answer::Done,
            &[(1, F1, Mode::O, 1, false)],
        ),
        (Act::Convert(F1), Answer::Done, &[ASKED]),
        (Act::Ask(1, F2, Mode::S), Answer::Done, &[ASKED, SHARED]),
        (Act::Free(F2, Mode::S), Answer::Done, &[ASKED]),
        (Act::FreeAll(1), Answer::Done, &[]),
    ],
)];

#[test]
fn locks_are_freed_and_converted_in_the_table(rt: HostRuntime) -> Result<(), Fail> {
    check(&rt, rt.alloc(), &NEW, &CONVERTED)
}
