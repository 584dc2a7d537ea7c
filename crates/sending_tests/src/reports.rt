use crate::rows::{Row, filled};
use crate::sending::{DONE, SEND, Sender, run, sender_of, stands};
use remote_target::Fate;
use std::alloc::Global;
use std::process::Abort;
use std::test::Fail;

/// A run: its system's rows, what it writes, and the identifiers of the turns in which it sends.
type Run = (&'static [Row], &'static [u8], &'static [u8]);

/// Runs over an outbox, the fates of their turns, and what is left then: the outbox's rows, and a row of the target.
#[derive(Drop)]
struct Case {
    outbox: &'static [Row],
    plan: &'static [Fate],
    runs: &'static [Run],
    left: &'static [Row],
    number: Option<&'static [u8]>,
}

const TWO: [Row; 2] = [
    (6, b"\x07TRFCOUTC1", b"ADD STAT N 5"),
    (6, b"\x07TRFCOUTC2", b"DEL T 9"),
];

const LEFT: [Row; 2] = [
    (0, b"C1", b"\x01\0ADD STAT N 5"),
    (0, b"C2", b"\x03\x02DEL T 9"),
];

const FIVE: Option<&[u8]> = Some(b"5");

const BOTH: &[u8] = b"C1 DONE\nC2 BAD MISSING\nCALLS 2 DONE 1 BAD 1 OPEN 0\n";

const SECOND: &[u8] = b"C1 OPEN\nC2 BAD MISSING\nCALLS 2 DONE 0 BAD 1 OPEN 1\n";

const FIRST: &[u8] = b"C1 DONE\nC2 OPEN\nCALLS 2 DONE 1 BAD 0 OPEN 1\n";

const NEITHER: &[u8] = b"C1 OPEN\nC2 OPEN\nCALLS 2 DONE 0 BAD 0 OPEN 2\n";

const THEN_FIRST: Run = (&TWO, b"C1 DONE\nCALLS 2 DONE 1 BAD 1 OPEN 0\n", b"C1 ");

const THEN_SECOND: Run = (
    &TWO,
    b"C2 BAD MISSING\nCALLS 2 DONE 1 BAD 1 OPEN 0\n",
    b"C2 ",
);

const NONE: &[u8] = b"CALLS 2 DONE 1 BAD 1 OPEN 0\n";

const THEN_NONE: Run = (&TWO, NONE, b"");

const EIGHT: &[u8] = b"C1 C1 C1 C1 C1 C1 C1 C1 C2 ";

const SIXTEEN: &[u8] = b"C1 C1 C1 C1 C1 C1 C1 C1 C2 C2 C2 C2 C2 C2 C2 C2 ";

const NINE: &[u8] = b"C1 C2 C2 C2 C2 C2 C2 C2 C2 ";

/// The fates of turns, and two runs of the same two calls.
type Lost = (&'static [Fate], &'static [Run]);

const LOST: [Lost; 10] = [
    (&[], &[(&TWO, BOTH, b"C1 C2 "), THEN_NONE]),
    (&[Fate::LoseAck], &[(&TWO, BOTH, b"C1 C1 C2 "), THEN_NONE]),
    (&[Fate::LosePacket; 7], &[(&TWO, BOTH, EIGHT), THEN_NONE]),
    (&[Fate::LosePacket; 8], &[(&TWO, SECOND, EIGHT), THEN_FIRST]),
    (
        &[Fate::LosePacket; 16],
        &[(&TWO, NEITHER, SIXTEEN), (&TWO, BOTH, b"C1 C2 ")],
    ),
    // It was executed, though no answer comes in the first run.
    (&[Fate::LoseAck; 8], &[(&TWO, SECOND, EIGHT), THEN_FIRST]),
    (&[Fate::Twice; 2], &[(&TWO, BOTH, b"C1 C2 "), THEN_NONE]),
    // What comes late is the call itself, another one, or nothing.
    (&LATE, &[(&TWO, BOTH, b"C1 C1 C2 C2 C2 "), THEN_NONE]),
    (&[Fate::Old(9); 8], &[(&TWO, SECOND, EIGHT), THEN_FIRST]),
    // The answer of another call isn't a call's own, however often it comes.
    (&[Fate::Old(1); 9], &[(&TWO, FIRST, NINE), THEN_SECOND]),
];

const LATE: [Fate; 4] = [Fate::LosePacket, Fate::Old(1), Fate::Old(2), Fate::Old(9)];

// What is collected, and what comes of it.
const COLLECTED: [Case; 4] = [
    // Rows of other tables, and what is no key or no text, are no calls.
    Case {
        outbox: &[],
        plan: &[],
        runs: &[(
            &[
                (0, b"S", b"\0\0\0\x01\0\0\0\0\0\0\0\0"),
                (5, b"\x07TRFCOUTC1", b"ADD STAT N 1"),
                (6, b"\x04STATN", b"1"),
                (6, b"\x06TRFCOUC1", b"ADD STAT N 1"),
                (6, b"\x07TRFCOUSC1", b"ADD STAT N 1"),
                (6, b"\x07TRFCOUT", b"ADD STAT N 1"),
                (6, b"\x07TRFCOUTC 1", b"ADD STAT N 1"),
                (6, b"\x07TRFCOUTC1", b""),
                (6, b"\x07TRFCOUTC2", b"ADD STAT N 1\n"),
                (6, b"\x07TRFCOUTC3", &[b'X'; 513]),
                (6, b"\x08TRFCOUT2C1", b"ADD STAT N 1"),
                (7, b"\x07TRFCOUTC1", b"ADD STAT N 1"),
            ],
            b"CALLS 0 DONE 0 BAD 0 OPEN 0\n",
            b"",
        )],
        left: &[],
        number: None,
    },
    // Each outcome that a call can have.
    Case {
        outbox: &[],
        plan: &[],
        runs: &[(
            &[
                (6, b"\x07TRFCOUTC1", b"ADD STAT N 9223372036854775807"),
                (6, b"\x07TRFCOUTC2", b"ADD STAT N 1"),
                (6, b"\x07TRFCOUTC3", b"INS STAT N 1"),
                (6, b"\x07TRFCOUTC4", b"PUT STAT T 5 "),
                (6, b"\x07TRFCOUTC5", b"ADD STAT T 1"),
                (6, b"\x07TRFCOUTC6", b"GET STAT N"),
                (6, b"\x07TRFCOUTC7", b"PUT STAT N"),
                (6, b"\x07TRFCOUTC8", b"ADD STAT N 05"),
                (6, b"\x07TRFCOUTC9", b"DEL STAT N 5"),
            ],
            b"C1 DONE\nC2 BAD OVERFLOW\nC3 BAD DUPLICATE\nC4 DONE\nC5 BAD NOT_NUMBER\n\
                C6 BAD TEXT\nC7 BAD TEXT\nC8 BAD TEXT\nC9 BAD TEXT\nCALLS 9 DONE 2 BAD 7 OPEN 0\n",
            b"C1 C2 C3 C4 C5 C6 C7 C8 C9 ",
        )],
        left: &[
            (0, b"C1", b"\x01\0ADD STAT N 9223372036854775807"),
            (0, b"C2", b"\x03\x04ADD STAT N 1"),
            (0, b"C3", b"\x03\x01INS STAT N 1"),
            (0, b"C4", b"\x01\0PUT STAT T 5 "),
            (0, b"C5", b"\x03\x03ADD STAT T 1"),
            (0, b"C6", b"\x02\0GET STAT N"),
            (0, b"C7", b"\x02\0PUT STAT N"),
            (0, b"C8", b"\x02\0ADD STAT N 05"),
            (0, b"C9", b"\x02\0DEL STAT N 5"),
        ],
        number: Some(b"9223372036854775807"),
    },
    // A row that is changed once it was collected is sent as it was, and one that is taken away is sent all the same.
    Case {
        outbox: &[],
        plan: &[Fate::LosePacket; 16],
        runs: &[
            (&TWO, NEITHER, SIXTEEN),
            (&[(6, b"\x07TRFCOUTC1", b"ADD STAT N 7")], BOTH, b"C1 C2 "),
            (&[(6, b"\x07TRFCOUTC1", b"ADD STAT N 7")], NONE, b""),
        ],
        left: &LEFT,
        number: FIVE,
    },
    // New calls beside older ones in each state; the order is that of the identifiers' bytes.
    Case {
        outbox: &[
            (0, b"C2", b"\0\0ADD STAT N 5"),
            (0, b"C3", b"\x01\0ADD STAT N 1"),
            (0, b"C4", b"\x02\0ADD STAT N 1"),
            (0, b"C5", b"\x03\x04ADD STAT N 1"),
        ],
        plan: &[],
        runs: &[(
            &[
                (6, b"\x07TRFCOUTC1", b"PUT STAT N 1"),
                (6, b"\x07TRFCOUTC10", b"INS STAT N 2"),
                (6, b"\x07TRFCOUTC3", b"ADD STAT N 3"),
                (6, b"\x07TRFCOUTc", b"ADD STAT N -2"),
            ],
            b"C1 DONE\nC10 BAD DUPLICATE\nC2 DONE\nc DONE\nCALLS 7 DONE 4 BAD 3 OPEN 0\n",
            b"C1 C10 C2 c ",
        )],
        left: &[
            (0, b"C1", b"\x01\0PUT STAT N 1"),
            (0, b"C10", b"\x03\x01INS STAT N 2"),
            (0, b"C2", b"\x01\0ADD STAT N 5"),
            (0, b"C3", b"\x01\0ADD STAT N 1"),
            (0, b"C4", b"\x02\0ADD STAT N 1"),
            (0, b"C5", b"\x03\x04ADD STAT N 1"),
            (0, b"c", b"\x01\0ADD STAT N -2"),
        ],
        number: Some(b"4"),
    },
];

fn is_told(sender: &Sender, wanted: &Run) -> bool {
    let (_, text, turns) = wanted;
    sender.end == DONE && sender.sink.bytes() == *text && sender.carrier.turns() == *turns
}

/// Runs one behind the other, and tells whether all come to what they have to.
fn all_come(alloc: Global, first: Sender, runs: &[Run]) -> Result<(bool, Sender), Fail> {
    let mut sender = first;
    let mut all = true;
    for wanted in runs {
        sender.rows = wanted.0;
        sender.system = filled(alloc, wanted.0)?;
        sender = run(alloc, SEND, &[], sender)?;
        all = is_told(&sender, wanted) && all;
        sender.carrier.forget();
    }
    Ok((all, sender))
}

fn holds(alloc: Global, case: &Case) -> Result<bool, Fail> {
    let first = sender_of(alloc, &[], case.outbox, case.plan, &[], &[])?;
    let (all, last) = all_come(alloc, first, case.runs)?;
    Ok(stands(alloc, last, case.left, case.number)? && all)
}

fn case_of(lost: &Lost) -> Case {
    Case {
        outbox: &[],
        plan: lost.0,
        runs: lost.1,
        left: &LEFT,
        number: FIVE,
    }
}

#[test]
fn a_call_is_sent_until_its_answer_comes(rt: HostRuntime) -> Result<(), Fail> {
    let alloc = rt.alloc();
    for (i, lost) in LOST.iter().enumerate() {
        assert!(rt; holds(alloc, &case_of(lost))?, "case {i}");
    }
    Ok(())
}

#[test]
fn each_call_of_the_system_is_told(rt: HostRuntime) -> Result<(), Fail> {
    let alloc = rt.alloc();
    for (i, case) in COLLECTED.iter().enumerate() {
        assert!(rt; holds(alloc, case)?, "case {i}");
    }
    Ok(())
}
