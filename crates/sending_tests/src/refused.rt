use crate::rows::Row;
use crate::sending::{End, SEND, run, sender_of, stands};
use remote_sending::TrfcWhy;
use std::alloc::Global;
use std::process::Abort;
use std::test::Fail;

const SYSTEM: [Row; 1] = [(6, b"\x07TRFCOUTC1", b"ADD STAT N 5")];

const GOOD: Row = (0, b"C2", b"\0\0ADD STAT N 1");

/// Rows of an outbox, and the place of the first that is bad.
type Case = (&'static [Row], u64);

const BAD: [Case; 13] = [
    // A key.
    (&[(0, b"C 2", b"\0\0ADD STAT N 1"), GOOD], 1),
    (&[GOOD, (0, b"C2\x7f", b"\0\0ADD STAT N 1")], 2),
    (&[GOOD, (0, &[b'C'; 61], b"\0\0ADD STAT N 1")], 2),
    // A state, a reason, or both together.
    (&[GOOD, (0, b"C3", b"\x04\0ADD STAT N 1")], 2),
    (&[GOOD, (0, b"C3", b"\0\x01ADD STAT N 1")], 2),
    (&[GOOD, (0, b"C3", b"\x01\x01ADD STAT N 1")], 2),
    (&[GOOD, (0, b"C3", b"\x02\x01ADD STAT N 1")], 2),
    (&[GOOD, (0, b"C3", b"\x03\0ADD STAT N 1")], 2),
    (&[GOOD, (0, b"C3", b"\x03\x05ADD STAT N 1")], 2),
    // A text.
    (&[GOOD, (0, b"C3", b"\x01\0"), (0, b"C4", b"")], 2),
    (&[GOOD, (0, b"C3", b"\x01")], 2),
    (&[GOOD, (0, b"C3", b"")], 2),
    (&[GOOD, (0, b"C3", b"\x01\0ADD STAT N 1\n")], 2),
];

/// Whether a run ends so, writes and sends nothing, and leaves system and outbox as they are.
fn is_refused(alloc: Global, words: &[&[u8]], outbox: &[Row], wanted: End) -> Result<bool, Fail> {
    let before = sender_of(alloc, &SYSTEM, outbox, &[], &[], &[])?;
    let ended = run(alloc, words, &[], before)?;
    let quiet = ended.sink.bytes().is_empty() && ended.carrier.turns().is_empty();
    let is_end = ended.end == wanted;
    Ok(stands(alloc, ended, outbox, None)? && quiet && is_end)
}

#[test]
fn a_bad_row_of_the_outbox_is_told(rt: HostRuntime) -> Result<(), Fail> {
    let alloc = rt.alloc();
    for (i, (outbox, row)) in BAD.iter().enumerate() {
        let end = (
            9,
            TrfcWhy::BadRow {
                table: 0,
                row: *row,
            },
        );
        assert!(rt; is_refused(alloc, SEND, outbox, end)?, "case {i}");
    }
    Ok(())
}

const WORDS: [&[&[u8]]; 7] = [
    &[],
    &[b""],
    &[b"SEND"],
    &[b"sen"],
    &[b"send "],
    &[b"send", b"send"],
    &[b"send", b""],
];

#[test]
fn other_words_are_bad(rt: HostRuntime) -> Result<(), Fail> {
    let alloc = rt.alloc();
    for (i, words) in WORDS.iter().enumerate() {
        assert!(rt;
            is_refused(alloc, words, &[GOOD], (2, TrfcWhy::BadWords))?,
            "case {i}"
        );
    }
    Ok(())
}
