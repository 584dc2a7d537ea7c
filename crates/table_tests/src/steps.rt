ghost use Rattle.std.specs.Prelude.{◌≡◌};
ghost use Rattle.lock_entry.specs.Pairs.{IsPair};

use enq_base::{Name, Owner, Pattern, UnitKey, read_name};
use lock_entry::{AskFault, Asked, Asker, Entry, LoadFault, LockStore, Mode, Request};
use std::alloc::{AllocError, Global};
use std::process::Abort;
use std::test::Fail;

/// One of the two owners of a session.
#[derive(Clone, Copy, Debug, PartialEq, Eq)]
pub(crate) enum Who {
    Dialogue(u32),
    Update(u32),
}

/// A table, an argument and a mode.
pub(crate) type Place = (&'static [u8], &'static [u8], Mode);

/// An entry: its owner, its place, its count, and whether it was handed over.
pub(crate) type Row = (Who, Place, u16, bool);

#[derive(Clone, Copy)]
pub(crate) enum Act {
    /// A session asks for places, each for its dialogue owner, and where this is set for its update owner too.
    Ask(u32, &'static [(Place, bool)]),
    Free(Who, Place),
    FreeOwner(Who),
    Convert(u32, Place),
    Hand(u32),
    /// Asks whether an owner has an entry that wasn't handed over.
    HasUnhanded(Who),
    /// A session's unit asks for an exclusive lock that was stored with it.
    Readmit(u32, Place),
}

#[derive(Clone, Copy, Debug)]
pub(crate) enum Answer {
    /// How many entries were freed, handed over or taken away; 0 for a grant and for a no, 1 for a yes.
    Done(u32),
    /// The entry that stands in the way is of this owner and at this place.
    Foreign(Who, Place),
    Full(u32, u32),
    Count,
    Lost,
}

/// What is done, what it is answered, and which entries stand then.
pub(crate) type Step = (Act, Answer, &'static [Row]);

/// Steps from a table with these entries.
pub(crate) struct Case {
    pub(crate) limit: u32,
    pub(crate) loaded: &'static [Row],
    pub(crate) steps: &'static [Step],
}

fn unit(session: u32) -> UnitKey
    ensures { result ≡ record { start = 1; session = session; luw = 1 } }
{
    UnitKey {
        start: 1,
        session,
        luw: 1,
    }
}

fn pair(session: u32) -> Asker
    ensures { IsPair result }
{
    Asker {
        dialogue: Owner::Dlg { start: 1, session },
        update: Owner::Upd(unit(session)),
    }
}

fn owner(who: Who) -> Owner {
    match who {
        Who::Dialogue(session) => Owner::Dlg { start: 1, session },
        Who::Update(session) => Owner::Upd(unit(session)),
    }
}

fn user() -> Result<Name, Fail> {
    Ok(read_name(b"MILLER").ok_or("a name")?)
}

fn asked(place: Place) -> Result<Asked, Fail> {
    let (table, argument, mode) = place;
    Ok(Asked {
        table: read_name(table).ok_or("a name")?,
        pattern: Pattern::new(argument).ok_or("an argument")?,
        mode,
    })
}

fn entry(row: Row) -> Result<Entry, Fail> {
    let (who, place, count, handed) = row;
    let Asked {
        table,
        pattern,
        mode,
    } = asked(place)?;
    Ok(Entry {
        owner: owner(who),
        user: user()?,
        table,
        pattern,
        mode,
        count,
        handed,
    })
}

pub(crate) fn entries(alloc: Global, rows: &[Row]) -> Result<Vec<Entry>, Fail> {
    let mut list = Vec::new(alloc);
    for row in rows {
        list.push(entry(*row)?)?;
    }
    Ok(list)
}

fn requests(alloc: Global, places: &[(Place, bool)]) -> Result<Vec<Request>, Fail> {
    let mut list = Vec::new(alloc);
    for (place, update) in places {
        list.push(Request {
            asked: asked(*place)?,
            dialogue: true,
            update: *update,
        })?;
    }
    Ok(list)
}

fn ask<T: LockStore>(
    alloc: Global,
    table: &mut T,
    session: u32,
    user: &Name,
    requests: &[Request],
) -> Result<u32, AskFault> {
    table.ask(alloc, &pair(session), user, requests)?;
    Ok(0)
}

fn convert<T: LockStore>(
    alloc: Global,
    table: &mut T,
    session: u32,
    asked: &Asked,
) -> Result<u32, AskFault> {
    let removed = table.convert(alloc, &pair(session), &[*asked])?;
    Ok(u32::try_from(removed.len()).unwrap_or(u32::MAX))
}

fn readmit<T: LockStore>(
    alloc: Global,
    table: &mut T,
    session: u32,
    user: &Name,
    place: &Asked,
) -> Result<u32, AskFault> {
    let pair = pair(session);
    let given = [Entry {
        owner: pair.update,
        user: *user,
        table: place.table,
        pattern: place.pattern,
        mode: Mode::E,
        count: 1,
        handed: true,
    }];
    table.readmit(alloc, &pair, &given)?;
    Ok(0)
}

/// The entry of an owner at a place, if it stands.
pub(crate) fn find<T: LockStore>(table: &T, who: Who, place: Place) -> Result<Option<Entry>, Fail> {
    Ok(table.find(&owner(who), &asked(place)?))
}

pub(crate) fn take<T: LockStore>(
    alloc: Global,
    table: &mut T,
    act: Act,
) -> Result<Result<u32, AskFault>, Fail> {
    match act {
        Act::Ask(session, places) => {
            let user = user()?;
            let requests = requests(alloc, places)?;
            Ok(ask(alloc, table, session, &user, requests.as_slice()))
        }
        Act::Free(who, place) => Ok(Ok(u32::from(table.free_one(&owner(who), &asked(place)?)))),
        Act::FreeOwner(who) => Ok(Ok(table.free_owner(&owner(who)))),
        Act::Convert(session, place) => Ok(convert(alloc, table, session, &asked(place)?)),
        Act::Hand(session) => Ok(Ok(table.hand(&unit(session)))),
        Act::HasUnhanded(who) => Ok(Ok(u32::from(table.has_unhanded(&owner(who))))),
        Act::Readmit(session, place) => {
            Ok(readmit(alloc, table, session, &user()?, &asked(place)?))
        }
    }
}

fn is_answer(got: &Result<u32, AskFault>, answer: &Answer) -> Result<bool, Fail> {
    match (got, answer) {
        (Ok(count), Answer::Done(wanted)) => Ok(*count == *wanted),
        (Err(AskFault::Foreign(entry)), Answer::Foreign(who, place)) => {
            Ok(entry.owner == owner(*who) && entry.asked() == asked(*place)?)
        }
        (Err(AskFault::Full { used, limit }), Answer::Full(u, l)) => {
            Ok(*used == *u && *limit == *l)
        }
        (Err(AskFault::Count), Answer::Count) => Ok(true),
        (Err(AskFault::Lost), Answer::Lost) => Ok(true),
        _ => Ok(false),
    }
}

/// Whether the table has each of these entries at its place, and by its name.
fn has_each<T: LockStore>(table: &T, entries: &[Entry]) -> bool {
    let mut place = 0_u32;
    for entry in entries {
        place = place.saturating_add(1);
        if table.at(place) != Some(*entry) {
            return false;
        }
        if table.find(&entry.owner, &entry.asked()) != Some(*entry) {
            return false;
        }
    }
    table.len() == place && table.at(0).is_none() && table.at(place.saturating_add(1)).is_none()
}

/// Tests that the table tells the entries of each owner.
fn has_own<T: LockStore>(
    rt: &impl Abort,
    alloc: Global,
    table: &T,
    entries: &[Entry],
) -> Result<(), Fail> {
    for entry in entries {
        let own = table.entries_of(alloc, &entry.owner)?;
        let wanted = own_of(alloc, entries, &entry.owner)?;
        assert_eq!(rt; own.as_slice(), wanted.as_slice());
    }
    Ok(())
}

fn own_of(alloc: Global, entries: &[Entry], owner: &Owner) -> Result<Vec<Entry>, AllocError> {
    entries
        .iter()
        .filter(|e| e.owner == *owner)
        .copied()
        .collect(alloc)
}

/// Tests that the table has just these entries.
fn has_all<T: LockStore>(
    rt: &impl Abort,
    alloc: Global,
    table: &T,
    rows: &[Row],
) -> Result<(), Fail> {
    let wanted = entries(alloc, rows)?;
    let list = table.list(alloc)?;
    assert_eq!(rt; list.as_slice(), wanted.as_slice());
    assert!(rt; has_each(table, list.as_slice()));
    has_own(rt, alloc, table, wanted.as_slice())
}

pub(crate) fn load<T: LockStore>(
    alloc: Global,
    limit: u32,
    entries: Vec<Entry>,
) -> Result<T, LoadFault> {
    if entries.len() > limit as usize {
        return Err(LoadFault::NoMemory);
    }
    T::load(alloc, limit, entries)
}

fn first_table<T: LockStore>(alloc: Global, limit: u32, rows: &[Row]) -> Result<T, Fail> {
    if rows.is_empty() {
        return Ok(T::empty(alloc, limit)?);
    }
    match load(alloc, limit, entries(alloc, rows)?) {
        Ok(table) => Ok(table),
        Err(_) => Err(Fail::from("no table")),
    }
}

fn take_step<T: LockStore>(
    rt: &impl Abort,
    alloc: Global,
    table: &mut T,
    step: &Step,
) -> Result<(), Fail> {
    let (act, answer, rows) = step;
    let got = take(alloc, table, *act)?;
    assert!(rt; is_answer(&got, answer)?, "{answer:?}");
    has_all(rt, alloc, table, rows)
}

fn take_steps<T: LockStore>(
    rt: &impl Abort,
    alloc: Global,
    table: &mut T,
    case: &Case,
) -> Result<(), Fail> {
    has_all(rt, alloc, table, case.loaded)?;
    for step in case.steps {
        take_step(rt, alloc, table, step)?;
    }
    Ok(())
}

/// Takes the steps of each case.
pub(crate) fn take_all<T: LockStore>(
    rt: &impl Abort,
    alloc: Global,
    cases: &[Case],
) -> Result<(), Fail> {
    for case in cases {
        let mut table: T = first_table(alloc, case.limit, case.loaded)?;
        take_steps(rt, alloc, &mut table, case)?;
    }
    Ok(())
}
