use crate::runs::{contains, lines_in, run_well};
use hall_model::Who;
use script_runner::Why;
use std::alloc::Global;
use std::sync::Wait;
use std::test::*;
use std::thread::Threads;
use turn_desks::{HoldGate, NoGate};

const KILLS: &[u8] = b"A LOGON MILLER
B LOGON SMITH
! ATTACH
A ENQ EZORDER E 2 MANDT=100 ORDNR=1
A V1 PUT T 1 X
A COMMIT
B V1 PUT T 2 X
B COMMIT
! KILL
A ENQ EZORDER E 2 MANDT=100 ORDNR=3
A V1 PUT T 3 X
A COMMIT
! FAILOVER
B V1 PUT T 4 X
B COMMIT
! KILL
! RESTART
A ROLLBACK
A V1 PUT T 5 X
A COMMIT
";

// The effects come to no call.
const EFFECTS: usize = 5;

// Only the administrator ends a server and makes one anew, and the link doesn't fail.
const ADMIN_ANSWERS: [&[u8]; 5] = [
    b" ! 3 OK\n",
    b" ! 9 OK\n",
    b" ! 13 OK\n",
    b" ! 16 OK\n",
    b" ! 17 OK\n",
];

fn has_all(text: &[u8], parts: &[&[u8]]) -> bool {
    for part in parts {
        if !contains(text, part) {
            return false;
        }
    }
    true
}

// One run in which the first KILL and the second call of a worker wait for one another. Each of the 20 lines is
// answered once, and all is done.
fn is_killed_well<R: Threads + Wait + Sync>(rt: &R, alloc: Global) -> Result<bool, Fail> {
    let gate = HoldGate::new(Who::Admin, 2, Who::Worker(1), 2);
    let heard = run_well(rt, alloc, 4, KILLS, &gate)?;
    let text = heard.text.as_slice();
    let is_whole = heard.calls >= 20 - EFFECTS
        && lines_in(text).checked_sub(EFFECTS) == Some(heard.calls);
    let is_done = heard.why == Why::Done && has_all(text, &ADMIN_ANSWERS);
    Ok(is_whole && is_done && heard.again && !gate.ran_out())
}

#[test]
fn a_server_is_killed_amid_workers_and_made_anew(rt: HostRuntime) -> Result<(), Fail> {
    for _ in 0..40 {
        assert!(rt; is_killed_well(&rt, rt.alloc())?);
    }
    Ok(())
}

const LOGONS: &[u8] = b"A LOGON MILLER
A V1 PUT T 1 X
A LOGON MILLER
A COMMIT
B V1 PUT T 2 X
B COMMIT
B ENQ EZORDER E 2 MANDT=100 ORDNR=1
";

// A session keeps its effects where it is logged on once more.
const ANSWERS: &[u8] = b"1 A 1 OK
2 A 3 SESSION_EXISTS
3 A 4 OK 1.1.1
4 @1 0 OK 1.1.1
5 @1 0 POSTED 1.1.1
2 OK
5 UNKNOWN_SESSION
6 UNKNOWN_SESSION
7 UNKNOWN_SESSION
";

#[test]
fn a_session_logs_on_twice_and_another_never(rt: HostRuntime) -> Result<(), Fail> {
    let heard = run_well(&rt, rt.alloc(), 1, LOGONS, &NoGate)?;
    assert_eq!(rt; heard.text.as_slice(), ANSWERS);
    assert_eq!(rt; (heard.why, heard.again), (Why::Done, true));
    Ok(())
}
