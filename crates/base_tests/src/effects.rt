use enq_base::{Deed, Effect, Key, Name, Reason, Text, read_name};
use module_effects::{EffectFault, Spot, apply, covers, read_integer};
use std::alloc::Global;
use std::test::*;

/// What is done to a row.
#[derive(Clone, Copy)]
enum Verb {
    Put(&'static [u8]),
    Insert(&'static [u8]),
    Delete,
    Add(i64),
}

/// A row's key, and its text, where it is there.
type Row = (&'static [u8], Option<&'static [u8]>);

/// Rows, the effects of a part on them, and their texts afterwards, or the first effect that is refused and why.
#[derive(Clone, Copy)]
struct Part {
    rows: &'static [Row],
    effects: &'static [(&'static [u8], Verb)],
    after: Result<&'static [Option<&'static [u8]>], (u32, Reason)>,
}

const NUMBERS: &[Row] = &[(b"7", Some(b"OLD")), (b"8", None)];

const PARTS: [Part; 6] = [
    Part {
        rows: &[
            (b"6", None),
            (b"7", Some(b"OLD")),
            (b"8", Some(b"5")),
            (b"9", None),
        ],
        effects: &[
            (b"6", Verb::Put(b"A")),
            (b"7", Verb::Delete),
            (b"7", Verb::Insert(b"B")),
            (b"8", Verb::Add(-12)),
            (b"6", Verb::Delete),
            (b"9", Verb::Add(3)),
        ],
        after: Ok(&[None, Some(b"B"), Some(b"-7"), Some(b"3")]),
    },
    Part {
        rows: &[(b"6", None), (b"7", Some(b"OLD")), (b"8", None)],
        effects: &[
            (b"6", Verb::Put(b"A")),
            (b"7", Verb::Insert(b"B")),
            (b"8", Verb::Put(b"C")),
        ],
        after: Err((2, Reason::Duplicate)),
    },
    Part {
        rows: NUMBERS,
        effects: &[(b"8", Verb::Delete)],
        after: Err((1, Reason::Missing)),
    },
    Part {
        rows: NUMBERS,
        effects: &[(b"7", Verb::Add(1))],
        after: Err((1, Reason::NotNumber)),
    },
    Part {
        rows: NUMBERS,
        effects: &[(b"8", Verb::Add(i64::MAX)), (b"8", Verb::Add(1))],
        after: Err((2, Reason::Overflow)),
    },
    Part {
        rows: NUMBERS,
        effects: &[(b"8", Verb::Add(i64::MIN)), (b"8", Verb::Add(-1))],
        after: Err((2, Reason::Overflow)),
    },
];

fn words(bytes: &[u8]) -> Result<(Name, Key), Fail> {
    match (read_name(b"ZORDER"), Key::new(bytes)) {
        (Some(table), Some(key)) => Ok((table, key)),
        _ => Err(Fail::from("words")),
    }
}

fn text_of(alloc: Global, bytes: &[u8]) -> Result<Text, Fail> {
    match Text::new(alloc, bytes) {
        Ok(text) => Ok(text),
        Err(_) => Err(Fail::from("a text")),
    }
}

fn text_at(alloc: Global, text: Option<&[u8]>) -> Result<Option<Text>, Fail> {
    match text {
        Some(bytes) => Ok(Some(text_of(alloc, bytes)?)),
        None => Ok(None),
    }
}

fn spot(alloc: Global, row: &Row) -> Result<Spot, Fail> {
    let (at, text) = *row;
    let (table, key) = words(at)?;
    let text = text_at(alloc, text)?;
    Ok(Spot { table, key, text })
}

fn spots(alloc: Global, rows: &[Row]) -> Result<Vec<Spot>, Fail> {
    let mut spots = Vec::new(alloc);
    for row in rows {
        spots.push(spot(alloc, row)?)?;
    }
    Ok(spots)
}

fn deed(alloc: Global, verb: &Verb) -> Result<Deed, Fail> {
    match verb {
        Verb::Put(bytes) => Ok(Deed::Put(text_of(alloc, *bytes)?)),
        Verb::Insert(bytes) => Ok(Deed::Ins(text_of(alloc, *bytes)?)),
        Verb::Delete => Ok(Deed::Del),
        Verb::Add(number) => Ok(Deed::Add(*number)),
    }
}

fn effect(alloc: Global, at: &[u8], verb: &Verb) -> Result<Effect, Fail> {
    let (table, key) = words(at)?;
    let deed = deed(alloc, verb)?;
    Ok(Effect { table, key, deed })
}

fn effects(alloc: Global, steps: &[(&'static [u8], Verb)]) -> Result<Vec<Effect>, Fail> {
    let mut effects = Vec::new(alloc);
    for (at, verb) in steps {
        effects.push(effect(alloc, *at, verb)?)?;
    }
    Ok(effects)
}

fn are_texts(spots: &[Spot], texts: &[Option<&'static [u8]>]) -> bool {
    for (spot, text) in spots.iter().zip(texts) {
        if spot.text.as_ref().map(|text| text.bytes()) != *text {
            return false;
        }
    }
    spots.len() == texts.len()
}

/// Whether a part comes to this on spots that there is one of for each of its effects.
fn comes_to(
    alloc: Global,
    spots: &[Spot],
    effects: &[Effect],
    after: &Result<&'static [Option<&'static [u8]>], (u32, Reason)>,
) -> bool {
    if !covers(spots, effects) {
        return false;
    }
    match (apply(alloc, spots, effects), after) {
        (Ok(spots), Ok(texts)) => are_texts(spots.as_slice(), *texts),
        (Err(EffectFault::Refused { index, reason }), Err((at, why))) => {
            index == *at && reason == *why
        }
        _ => false,
    }
}

fn is_done(alloc: Global, part: &Part) -> Result<bool, Fail> {
    let spots = spots(alloc, part.rows)?;
    let effects = effects(alloc, part.effects)?;
    Ok(comes_to(alloc, &spots, &effects, &part.after))
}

fn are_done(alloc: Global, parts: &[Part]) -> Result<(), Fail> {
    for part in parts {
        if !is_done(alloc, part)? {
            return Err(Fail::from("another end"));
        }
    }
    Ok(())
}

#[test]
fn effects_are_done_in_order_or_the_first_refused_is_told(rt: HostRuntime) -> Result<(), Fail> {
    are_done(rt.alloc(), &PARTS)
}

const INTEGERS: [(&[u8], Option<i64>); 13] = [
    (b"0", Some(0)),
    (b"-1", Some(-1)),
    (b"9223372036854775807", Some(i64::MAX)),
    (b"-9223372036854775808", Some(i64::MIN)),
    (b"", None),
    (b"-", None),
    (b"-0", None),
    (b"007", None),
    (b"+5", None),
    (b"1X", None),
    (b"9223372036854775808", None),
    (b"-9223372036854775809", None),
    (b"99999999999999999999", None),
];

/// The first of these texts that is read as another number.
fn wrong_integer(texts: &[(&'static [u8], Option<i64>)]) -> Option<&'static [u8]> {
    for (text, number) in texts {
        if read_integer(*text) != *number {
            return Some(*text);
        }
    }
    None
}

#[test]
fn numbers_are_read_in_shortest_form_alone(rt: HostRuntime) {
    assert_eq!(rt; wrong_integer(&INTEGERS), None);
}
