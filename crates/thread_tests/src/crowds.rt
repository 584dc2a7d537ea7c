ghost use Rattle.std.specs.Prelude.{◌≤◌};

use crate::runs::{lines_in, run_well};
use script_runner::Why;
use std::alloc::Global;
use std::sync::Wait;
use std::test::*;
use std::thread::Threads;
use turn_desks::NoGate;

fn log_on(alloc: Global, script: &mut String, sessions: u64) -> Result<(), Fail> {
    for session in 0..sessions {
        let line = format!(in alloc; "S{session} LOGON MILLER\n")?;
        script.push_str(line.as_str())?;
    }
    Ok(())
}

// A unit of the session: a lock that nobody else asks for, eight effects, a commit.
fn order(alloc: Global, script: &mut String, session: u64, place: u64) -> Result<(), Fail> {
    let ask = format!(in alloc; "S{session} ENQ EZORDER E 2 MANDT=100 ORDNR={place}\n")?;
    script.push_str(ask.as_str())?;
    for row in 1..=8 {
        let effect = format!(in alloc; "S{session} V1 PUT T {place}-{row} X\n")?;
        script.push_str(effect.as_str())?;
    }
    let commit = format!(in alloc; "S{session} COMMIT\n")?;
    script.push_str(commit.as_str())?;
    Ok(())
}

// So many sessions log on, and then so many units are done, by the sessions in turn.
fn orders_of(alloc: Global, sessions: u64, units: u64) -> Result<String, Fail> {
    let mut script = String::new(alloc);
    log_on(alloc, &mut script, sessions)?;
    for place in 0..units {
        let session = place.checked_rem(sessions).unwrap_or(0);
        order(alloc, &mut script, session, place)?;
    }
    Ok(script)
}

// How a run ends in which so many sessions log on, and how many lines it writes.
fn end_of_logons<R: Threads + Wait + Sync>(
    rt: &R,
    alloc: Global,
    sessions: u64,
) -> Result<(Why, usize), Fail> {
    let script = orders_of(alloc, sessions, 0)?;
    let heard = run_well(rt, alloc, 1, script.as_bytes(), &NoGate)?;
    Ok((heard.why, lines_in(heard.text.as_slice())))
}

#[test]
fn sixty_four_sessions_log_on_and_one_more_is_a_bad_line(rt: HostRuntime) -> Result<(), Fail> {
    let alloc = rt.alloc();
    assert_eq!(rt; end_of_logons(&rt, alloc, 64)?, (Why::Done, 64));
    assert_eq!(rt; end_of_logons(&rt, alloc, 65)?, (Why::BadLine(65), 0));
    Ok(())
}

// With the 64 lines before them these units are 20,064 lines. Of a unit there are four calls, its ask and its commit,
// and that a worker takes it and posts it; its effects are answered behind the history.
#[test]
fn many_sessions_and_workers_post_all_units(rt: HostRuntime) -> Result<(), Fail> {
    let alloc = rt.alloc();
    let script = orders_of(alloc, 64, 2_000)?;
    assert_eq!(rt; lines_in(script.as_bytes()), 20_064);
    let heard = run_well(&rt, alloc, 16, script.as_bytes(), &NoGate)?;
    assert_eq!(rt; (heard.why, heard.again), (Why::Done, true));
    assert_eq!(rt; heard.calls, 64 + 4 * 2_000);
    assert_eq!(rt; lines_in(heard.text.as_slice()), 64 + (4 + 8) * 2_000);
    Ok(())
}

// One run, which ends by itself with all done.
fn ends<R: Threads + Wait + Sync>(
    rt: &R,
    alloc: Global,
    workers: u8,
    script: &[u8],
) -> Result<bool, Fail>
    requires workers { (1 ≤ workers) × (workers ≤ 16) }
{
    let heard = run_well(rt, alloc, workers, script, &NoGate)?;
    Ok(heard.why == Why::Done && heard.again && heard.calls == 3 + 4 * 6)
}

// Fifty of them, one behind another.
fn all_end<R: Threads + Wait + Sync>(rt: &R, alloc: Global, workers: u8) -> Result<bool, Fail>
    requires workers { (1 ≤ workers) × (workers ≤ 16) }
{
    let script = orders_of(alloc, 3, 6)?;
    let mut all = true;
    for _ in 0..50 {
        all = ends(rt, alloc, workers, script.as_bytes())? && all;
    }
    Ok(all)
}

#[test]
fn every_run_with_one_worker_ends(rt: HostRuntime) -> Result<(), Fail> {
    assert!(rt; all_end(&rt, rt.alloc(), 1)?);
    Ok(())
}

#[test]
fn every_run_with_two_workers_ends(rt: HostRuntime) -> Result<(), Fail> {
    assert!(rt; all_end(&rt, rt.alloc(), 2)?);
    Ok(())
}

#[test]
fn every_run_with_four_workers_ends(rt: HostRuntime) -> Result<(), Fail> {
    assert!(rt; all_end(&rt, rt.alloc(), 4)?);
    Ok(())
}

#[test]
fn every_run_with_sixteen_workers_ends(rt: HostRuntime) -> Result<(), Fail> {
    assert!(rt; all_end(&rt, rt.alloc(), 16)?);
    Ok(())
}
