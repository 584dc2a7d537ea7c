use enq_base::{Name, Owner, Pattern, UnitKey, read_name};
use lock_entry::{Asker, Entry, Mode, are_related, bars, fits_key, meets};
use std::test::*;

const F1: &[u8] = b"1000000000001";

const DIALOGUE: Owner = Owner::Dlg {
    start: 1,
    session: 1,
};

const OTHER: Owner = Owner::Dlg {
    start: 1,
    session: 2,
};

const UPDATE: Owner = Owner::Upd(UnitKey {
    start: 1,
    session: 1,
    luw: 1,
});

const NEXT_UNIT: Owner = Owner::Upd(UnitKey {
    start: 1,
    session: 1,
    luw: 2,
});

// Two arguments, and whether they meet.
const ARGUMENTS: [(&[u8], &[u8], bool); 8] = [
    (F1, F1, true),
    (F1, b"1000000000002", false),
    (F1, b"100@@@@@@@@@@", true),
    (b"100          ", b"100@@@@@@@@@@", true),
    (F1, b"100          ", false),
    (b"200@@@@@@@@@@", b"100@@@@@@@@@@", false),
    (b"@00", b"1@@", true),
    (b"100", b"100@", false),
];

fn meet(a: &[u8], b: &[u8]) -> Option<bool> {
    let p = Pattern::new(a)?;
    let q = Pattern::new(b)?;
    if meets(&p, &q) == meets(&q, &p) {
        Some(meets(&p, &q))
    } else {
        None
    }
}

/// The first of these arguments that aren't so, or not both ways.
fn wrong_pair(rows: &[(&'static [u8], &'static [u8], bool)]) -> Option<&'static [u8]> {
    for (a, b, wanted) in rows {
        if meet(*a, *b) != Some(*wanted) {
            return Some(*a);
        }
    }
    None
}

#[test]
fn arguments_meet_where_each_place_is_equal_or_generic(rt: HostRuntime) {
    assert_eq!(rt; wrong_pair(&ARGUMENTS), None);
}

// A key, an argument, and whether the key fits.
const KEYS: [(&[u8], &[u8], bool); 5] = [
    (F1, F1, true),
    (F1, b"100@@@@@@@@@@", true),
    (F1, b"200@@@@@@@@@@", false),
    (F1, b"100@@@@@@@@@", false),
    (b"100          ", b"100@@@@@@@@@@", true),
];

fn fits(key: &[u8], argument: &[u8]) -> Option<bool> {
    let p = Pattern::new(argument)?;
    Some(fits_key(&p, key))
}

/// The first of these arguments that a key fits and is not to, or the other way round.
fn wrong_key(rows: &[(&'static [u8], &'static [u8], bool)]) -> Option<&'static [u8]> {
    for (key, argument, wanted) in rows {
        if fits(*key, *argument) != Some(*wanted) {
            return Some(*argument);
        }
    }
    None
}

#[test]
fn a_key_fits_where_each_place_is_its_byte_or_generic(rt: HostRuntime) {
    assert_eq!(rt; wrong_key(&KEYS), None);
}

// Two owners, and whether they are related.
const OWNERS: [(Owner, Owner, bool); 7] = [
    (DIALOGUE, DIALOGUE, true),
    (DIALOGUE, UPDATE, true),
    (UPDATE, DIALOGUE, true),
    (DIALOGUE, NEXT_UNIT, true),
    (UPDATE, NEXT_UNIT, false),
    (DIALOGUE, OTHER, false),
    (OTHER, UPDATE, false),
];

fn wrong_owners(rows: &[(Owner, Owner, bool)]) -> Option<(Owner, Owner)> {
    for (a, b, related) in rows {
        if are_related(a, b) != *related {
            return Some((*a, *b));
        }
    }
    None
}

#[test]
fn a_session_is_related_to_its_own_units_alone(rt: HostRuntime) {
    assert_eq!(rt; wrong_owners(&OWNERS), None);
}

fn entry(owner: Owner, argument: &[u8], mode: Mode, count: u16) -> Option<Entry> {
    Some(Entry {
        owner,
        user: name()?,
        table: read_name(b"ZORDER")?,
        pattern: Pattern::new(argument)?,
        mode,
        count,
        handed: false,
    })
}

fn name() -> Option<Name> {
    read_name(b"MILLER")
}

// An owner and a mode that are held, a mode that the pair of session 1 asks for, and whether it is barred.
const BARS: [(Owner, Mode, Mode, bool); 9] = [
    (DIALOGUE, Mode::E, Mode::E, false),
    (DIALOGUE, Mode::E, Mode::X, true),
    (DIALOGUE, Mode::X, Mode::X, true),
    (UPDATE, Mode::X, Mode::S, true),
    (UPDATE, Mode::S, Mode::E, false),
    (OTHER, Mode::S, Mode::O, false),
    (OTHER, Mode::S, Mode::E, true),
    (OTHER, Mode::O, Mode::E, true),
    (NEXT_UNIT, Mode::E, Mode::E, true),
];

fn is_barred(owner: Owner, held: Mode, wanted: Mode) -> Option<bool> {
    let asker = Asker {
        dialogue: DIALOGUE,
        update: UPDATE,
    };
    let held = entry(owner, F1, held, 1)?;
    let asked = entry(owner, b"100@@@@@@@@@@", wanted, 1)?.asked();
    Some(bars(&held, &asker, &asked))
}

fn wrong_bar(rows: &[(Owner, Mode, Mode, bool)]) -> Option<(Owner, Mode)> {
    for (owner, held, wanted, barred) in rows {
        if is_barred(*owner, *held, *wanted) != Some(*barred) {
            return Some((*owner, *wanted));
        }
    }
    None
}

#[test]
fn an_entry_bars_by_its_mode_or_within_the_pair_by_x(rt: HostRuntime) {
    assert_eq!(rt; wrong_bar(&BARS), None);
}
