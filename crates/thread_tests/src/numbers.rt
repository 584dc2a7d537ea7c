use crate::halls::{Failing, NONE};
use crate::runs::{Heard, lines_in, run_over, run_well};
use script_actors::Drawing;
use script_runner::Why;
use std::alloc::Global;
use std::sync::Wait;
use std::test::*;
use std::thread::Threads;
use turn_desks::NoGate;

/// The numbers that were drawn, the smallest first.
fn numbers_of(alloc: Global, drawn: &[Drawing]) -> Result<Vec<u64>, Fail> {
    let mut numbers = Vec::with_capacity(alloc, drawn.len())?;
    for drawing in drawn {
        numbers.push(drawing.num.number)?;
    }
    numbers.sort_unstable_by_key(|number: &u64| *number);
    Ok(numbers)
}

/// Whether they are 1, 2, 3 and so on.
fn are_first(numbers: &[u64]) -> bool {
    let mut next = 1u64;
    let mut are = true;
    for number in numbers {
        are = *number == next && are;
        next = next.saturating_add(1);
    }
    are
}

/// Whether each is larger than the one before it.
fn are_apart(numbers: &[u64]) -> bool {
    let mut last = 0u64;
    let mut are = true;
    for number in numbers {
        are = *number > last && are;
        last = *number;
    }
    are
}

/// Whether the drawings stand in the order of their lines.
fn are_in_order(drawn: &[Drawing]) -> bool {
    let mut last = 0u32;
    let mut are = true;
    for drawing in drawn {
        are = drawing.line > last && are;
        last = drawing.line;
    }
    are
}

fn log_on(alloc: Global, script: &mut String, sessions: u64) -> Result<(), Fail> {
    for session in 0..sessions {
        let line = format!(in alloc; "S{session} LOGON MILLER\n")?;
        script.push_str(line.as_str())?;
    }
    Ok(())
}

// So many lines of the session, each for one number of the interval with these digits.
fn draw(
    alloc: Global,
    script: &mut String,
    session: u64,
    digits: &str,
    numbers: u64,
) -> Result<(), Fail> {
    for _ in 0..numbers {
        let line = format!(in alloc; "S{session} NUM ZORDNR {digits} N\n")?;
        script.push_str(line.as_str())?;
    }
    Ok(())
}

// A unit of the session with the numbers that it drew.
fn commit(alloc: Global, script: &mut String, session: u64, unit: u64) -> Result<(), Fail> {
    let effect = format!(in alloc; "S{session} V1 PUT T {session}-{unit} X\n")?;
    script.push_str(effect.as_str())?;
    let commit = format!(in alloc; "S{session} COMMIT\n")?;
    script.push_str(commit.as_str())?;
    Ok(())
}

// 64 numbers are as many as a session may have that aren't committed. Of 1,000 there are fifteen such units and one of
// 40.
fn thousands(alloc: Global) -> Result<String, Fail> {
    let mut script = String::new(alloc);
    log_on(alloc, &mut script, 64)?;
    for unit in 0..16u64 {
        let numbers = if unit < 15 { 64 } else { 40 };
        for session in 0..64u64 {
            draw(alloc, &mut script, session, "02", numbers)?;
            commit(alloc, &mut script, session, unit)?;
        }
    }
    Ok(script)
}

// Each number of a line is answered behind the history, as its V1 line is. No ticket is left over where no call fails,
// so that the numbers are the first 64,000.
#[test]
fn sixty_four_sessions_draw_a_thousand_numbers_each(rt: HostRuntime) -> Result<(), Fail> {
    let alloc = rt.alloc();
    let script = thousands(alloc)?;
    let heard = run_well(&rt, alloc, 4, script.as_bytes(), &NoGate)?;
    assert_eq!(rt; heard.why, Why::Done);
    let numbers = numbers_of(alloc, heard.drawn.as_slice())?;
    assert_eq!(rt; numbers.len(), 64_000);
    assert!(rt; are_first(numbers.as_slice()));
    assert!(rt; are_in_order(heard.drawn.as_slice()));
    assert_eq!(rt;
        lines_in(heard.text.as_slice()),
        heard.calls.saturating_add(64_000 + 64 * 16)
    );
    Ok(())
}

// Four sessions ask for 40 numbers of an interval that has 25. The others are refused, each by the call that would
// reserve it.
#[test]
fn an_interval_overflows_under_four_sessions(rt: HostRuntime) -> Result<(), Fail> {
    let alloc = rt.alloc();
    let mut script = String::new(alloc);
    log_on(alloc, &mut script, 4)?;
    for session in 0..4u64 {
        draw(alloc, &mut script, session, "03", 10)?;
    }
    let heard = run_well(&rt, alloc, 1, script.as_bytes(), &NoGate)?;
    assert_eq!(rt; heard.why, Why::Done);
    let numbers = numbers_of(alloc, heard.drawn.as_slice())?;
    assert_eq!(rt; numbers.len(), 25);
    assert!(rt; are_first(numbers.as_slice()));
    assert_eq!(rt;
        lines_in(heard.text.as_slice()),
        heard.calls.saturating_add(40)
    );
    Ok(())
}

// A unit of each session, with numbers of a stock, and a start anew.
const UNITS: &str = "A NUM ZORDNR 02 N
B NUM ZORDNR 02 N
A V1 PUT T $N X
B V1 PUT T $N X
A COMMIT
! RESTART
A NUM ZORDNR 02 M
B COMMIT
";

fn restarts(alloc: Global) -> Result<String, Fail> {
    let mut script = String::new(alloc);
    script.push_str("A LOGON MILLER\nB LOGON SMITH\n")?;
    for _ in 0..8 {
        script.push_str(UNITS)?;
    }
    Ok(script)
}

/// Whether a run whose store fails at this call drew no number twice, and each for a line. None where it fails before
/// the store is open.
fn drew_apart<R: Threads + Wait + Sync>(
    rt: &R,
    alloc: Global,
    keeper: u64,
) -> Result<Option<bool>, Fail> {
    let script = restarts(alloc)?;
    let failing = Failing { keeper, ..NONE };
    match run_over(rt, alloc, 2, script.as_bytes(), failing, &NoGate)? {
        Some(heard) => {
            let numbers = numbers_of(alloc, heard.drawn.as_slice())?;
            let apart = are_apart(numbers.as_slice()) && are_in_order(heard.drawn.as_slice());
            Ok(Some(apart && ends_so(&heard)))
        }
        None => Ok(None),
    }
}

// A start anew behind the call that fails lets the run go on.
fn ends_so(heard: &Heard) -> bool {
    matches!(heard.why, Why::StoreFault(_) | Why::Done)
}

// The calls of the opening, and 40 behind it: reservations and commits are among them.
const CALLS: u64 = 60;

#[test]
fn no_number_is_drawn_twice_over_a_failing_store(rt: HostRuntime) -> Result<(), Fail> {
    let mut met = 0u64;
    for keeper in 1..=CALLS {
        if let Some(apart) = drew_apart(&rt, rt.alloc(), keeper)? {
            assert!(rt; apart, "{keeper}");
            met = met.saturating_add(1);
        }
    }
    assert!(rt; met >= 40);
    Ok(())
}
