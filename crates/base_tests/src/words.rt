use enq_base::{
    Key, Owner, Pattern, Short, Text, TextFault, UnitKey, put_number, read_name, read_number,
    read_unit_key,
};
use std::alloc::Global;
use std::test::*;

const LONGEST_NAME: &[u8] = b"A23456789012345678901234567890";

// Bytes, and whether they are a name, a value of a field, a key of a row and a lock argument.
const WORDS: [(&[u8], [bool; 4]); 10] = [
    (b"", [false, true, false, false]),
    (b"MILLER", [true, true, true, true]),
    (b"A_9", [true, true, true, true]),
    (b"9A", [false, true, true, true]),
    (b"_A", [false, true, true, true]),
    (b"miller", [false, true, true, true]),
    (b"A B", [false, true, false, true]),
    (b"100@@", [false, true, true, true]),
    (b"A\x7f", [false, false, false, false]),
    (LONGEST_NAME, [true, true, true, true]),
];

// The first of these words whose test has another answer.
fn wrong_word(words: &[(&'static [u8], [bool; 4])]) -> Option<&'static [u8]> {
    for word in words {
        let (bytes, [name, short, key, pattern]) = *word;
        if read_name(bytes).is_some() != name
            || Short::new(bytes).is_some() != short
            || Key::new(bytes).is_some() != key
            || Pattern::new(bytes).is_some() != pattern
        {
            return Some(bytes);
        }
    }
    None
}

#[test]
fn words_are_tested_by_their_grammars(rt: HostRuntime) {
    assert_eq!(rt; wrong_word(&WORDS), None);
}

const NUMBERS: [(&str, Option<u64>); 12] = [
    ("0", Some(0)),
    ("7", Some(7)),
    ("10", Some(10)),
    ("18446744073709551615", Some(18446744073709551615)),
    ("18446744073709551616", None),
    ("", None),
    ("01", None),
    ("00", None),
    ("+1", None),
    ("-1", None),
    ("1 ", None),
    ("1X", None),
];

// The first of these texts that is read as another number.
fn wrong_number(texts: &[(&'static str, Option<u64>)]) -> Option<&'static str> {
    for (text, number) in texts {
        if read_number(text.as_bytes()) != *number {
            return Some(*text);
        }
    }
    None
}

#[test]
fn numbers_are_read(rt: HostRuntime) {
    assert_eq!(rt; wrong_number(&NUMBERS), None);
}

const UNITS: [(&str, Option<(u32, u32, u32)>); 9] = [
    ("1.2.3", Some((1, 2, 3))),
    ("4294967295.1.1", Some((4294967295, 1, 1))),
    ("4294967296.1.1", None),
    ("0.1.1", None),
    ("1.1", None),
    ("1.1.1.1", None),
    ("1..1", None),
    ("1.01.1", None),
    ("", None),
];

// The first of these texts that is read as another unit.
fn wrong_unit(texts: &[(&'static str, Option<(u32, u32, u32)>)]) -> Option<&'static str> {
    for (text, wanted) in texts {
        let unit = read_unit_key(text.as_bytes());
        if unit.map(|unit| (unit.start, unit.session, unit.luw)) != *wanted {
            return Some(*text);
        }
    }
    None
}

#[test]
fn unit_keys_are_read(rt: HostRuntime) {
    assert_eq!(rt; wrong_unit(&UNITS), None);
}

// Why these bytes are no text, or None where they are one that keeps them.
fn fault_in(alloc: Global, bytes: &[u8]) -> Result<Option<TextFault>, Fail> {
    match Text::new(alloc, bytes) {
        Ok(text) if text.bytes() == bytes => Ok(None),
        Ok(_) => Err(Fail::from("another text")),
        Err(fault) => Ok(Some(fault)),
    }
}

#[test]
fn texts_are_refused_by_length_and_then_by_byte(rt: HostRuntime) -> Result<(), Fail> {
    let alloc = rt.alloc();
    assert_eq!(rt; fault_in(alloc, b"")?, Some(TextFault::Length));
    assert_eq!(rt; fault_in(alloc, &[0; 513])?, Some(TextFault::Length));
    assert_eq!(rt; fault_in(alloc, b"A\n")?, Some(TextFault::Byte));
    assert_eq!(rt; fault_in(alloc, &[b' '; 512])?, None);
    Ok(())
}

const UNIT: UnitKey = UnitKey {
    start: 1,
    session: 2,
    luw: 3,
};

const DIALOGUE: Owner = Owner::Dlg {
    start: 1,
    session: 2,
};

const UPDATE: Owner = Owner::Upd(UNIT);

fn are_printed(alloc: Global, wanted: &str) -> Result<bool, Fail> {
    let text = format!(in alloc; "{UNIT} {DIALOGUE} {UPDATE}")?;
    Ok(text.as_str() == wanted)
}

fn is_put(number: u64, wanted: &[u8]) -> bool {
    let mut digits = [0; 20];
    let count = put_number(number, &mut digits);
    &digits[..count] == wanted
}

#[test]
fn words_are_printed(rt: HostRuntime) -> Result<(), Fail> {
    assert!(rt; are_printed(rt.alloc(), "1.2.3 D1.2 U1.2.3")?);
    assert!(rt; is_put(18446744073709551615, b"18446744073709551615"));
    Ok(())
}

#[test]
fn owners_are_told_apart(rt: HostRuntime) {
    assert!(rt; !DIALOGUE.is(&UPDATE));
    assert!(rt; UPDATE.is(&Owner::Upd(UNIT)));
}
