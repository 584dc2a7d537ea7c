ghost use Rattle.std.specs.Prelude.{◌<◌};

use crate::steps::{Act, Place, Who, find, take};
use lock_entry::{LockStore, Mode};
use lock_index::IndexTable;
use lock_table::ListTable;
use std::alloc::Global;
use std::process::Abort;
use std::test::*;

const CALLS: u32 = 1_000;

// So few locks may stand that the table is full now and then.
const LIMIT: u32 = 12;

const SESSIONS: u32 = 4;

const PLACES: [Place; 9] = [
    (b"ZORDER", b"1000000000001", Mode::S),
    (b"ZORDER", b"1000000000001", Mode::E),
    (b"ZORDER", b"1000000000001", Mode::O),
    (b"ZORDER", b"1000000000002", Mode::X),
    (b"ZORDER", b"100@@@@@@@@@@", Mode::S),
    (b"ZORDER", b"100@@@@@@@@@@", Mode::O),
    (b"ZORDER", b"@@@@@@@@@@@@@", Mode::S),
    (b"ZITEM", b"1000000000001", Mode::E),
    (b"ZITEM", b"@@@0000000001", Mode::O),
];

const ASKS: [&[(Place, bool)]; 6] = [
    &[((b"ZORDER", b"1000000000001", Mode::S), true)],
    &[((b"ZORDER", b"1000000000002", Mode::E), false)],
    &[((b"ZORDER", b"100@@@@@@@@@@", Mode::O), false)],
    &[((b"ZORDER", b"1000000000001", Mode::O), true)],
    &[
        ((b"ZITEM", b"1000000000001", Mode::E), true),
        ((b"ZITEM", b"1000000000002", Mode::E), false),
    ],
    &[
        ((b"ZITEM", b"@@@0000000001", Mode::O), false),
        ((b"ZORDER", b"1000000000003", Mode::X), false),
    ],
];

// Numbers that look like chance, and are the same at each run.
#[derive(Drop)]
struct Chance {
    seed: u32,
}

impl Chance {
    // A number below this one.
    fn below(&mut self, bound: u32) -> u32
        requires { 0 < bound }
    {
        self.seed = self
            .seed
            .wrapping_mul(1_664_525)
            .wrapping_add(1_013_904_223);
        (self.seed >> 16) % bound
    }
}

fn any_session(chance: &mut Chance) -> u32 {
    chance.below(SESSIONS).saturating_add(1)
}

fn anyone(chance: &mut Chance) -> Who {
    let session = any_session(chance);
    if chance.below(2) == 0 {
        Who::Dialogue(session)
    } else {
        Who::Update(session)
    }
}

fn any_place(chance: &mut Chance) -> Result<Place, Fail> {
    let place = chance.below(9) as usize;
    Ok(*PLACES.get(place).ok_or("a place")?)
}

fn any_ask(chance: &mut Chance) -> Result<Act, Fail> {
    let session = any_session(chance);
    let ask = chance.below(6) as usize;
    Ok(Act::Ask(session, ASKS.get(ask).ok_or("an ask")?))
}

fn any_act(chance: &mut Chance) -> Result<Act, Fail> {
    match chance.below(12) {
        0 | 1 => Ok(Act::Free(anyone(chance), any_place(chance)?)),
        2 => Ok(Act::FreeOwner(anyone(chance))),
        3 => Ok(Act::Convert(any_session(chance), any_place(chance)?)),
        4 => Ok(Act::Hand(any_session(chance))),
        5 => Ok(Act::Readmit(any_session(chance), any_place(chance)?)),
        _ => any_ask(chance),
    }
}

/// Tests that both tables answer an act alike, and then show one name alike.
fn answer_alike<A: LockStore, B: LockStore>(
    rt: &impl Abort,
    alloc: Global,
    one: &mut A,
    other: &mut B,
    chance: &mut Chance,
) -> Result<(), Fail> {
    let act = any_act(chance)?;
    let (answer, other_answer) = (take(alloc, one, act)?, take(alloc, other, act)?);
    assert_eq!(rt; answer, other_answer);
    let (who, place) = (anyone(chance), any_place(chance)?);
    let (found, other_found) = (find(one, who, place)?, find(other, who, place)?);
    assert_eq!(rt; (found, one.len()), (other_found, other.len()));
    Ok(())
}

fn stay_alike<A: LockStore, B: LockStore>(
    rt: &impl Abort,
    alloc: Global,
    one: &mut A,
    other: &mut B,
) -> Result<(), Fail> {
    let mut chance = Chance { seed: 1 };
    for _ in 0..CALLS {
        answer_alike(rt, alloc, one, other, &mut chance)?;
    }
    let (list, other_list) = (one.list(alloc)?, other.list(alloc)?);
    assert_eq!(rt; list.as_slice(), other_list.as_slice());
    Ok(())
}

#[test]
fn the_index_answers_as_the_list(rt: HostRuntime) -> Result<(), Fail> {
    let alloc = rt.alloc();
    let mut list = ListTable::empty(alloc, LIMIT)?;
    let mut index = IndexTable::empty(alloc, LIMIT)?;
    stay_alike(&rt, alloc, &mut list, &mut index)
}
