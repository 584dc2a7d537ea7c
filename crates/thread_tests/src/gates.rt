use crate::halls::name_of;
use crate::runs::run_well;
use hall_model::Who;
use script_runner::Why;
use std::test::*;
use turn_desks::HoldGate;

pub(crate) const ORDER: &[u8] = b"A LOGON MILLER
A NUM ZORDNR 01 N
A ENQ EZORDER E 2 MANDT=100 ORDNR=$N
A V1 INS VBAK $N MILLER 2026-07-01
A V1 INS VBAP $N-10 PUMP 2
A V1 INS VBAP $N-20 SEAL 8
A V2 ADD STAT ORDERS 1
A V2 ADD STAT ITEMS 2
A COMMIT
";

// The one worker finds a unit behind the COMMIT alone, so that its calls come last.
pub(crate) const ORDERED: &[u8] = b"1 A 1 OK
2 A 2 OK 1 -
3 A 3 OK
4 A 9 OK 1.1.1
5 @1 0 OK 1.1.1
6 @1 0 POSTED 1.1.1
7 @1 0 OK 1.1.1
8 @1 0 CLOSED 1.1.1
4 OK
5 OK
6 OK
7 OK
8 OK
";

// Done one behind another, the first of the two would wait in vain, and the gate would tell.
#[test]
fn a_session_and_a_worker_run_at_once(rt: HostRuntime) -> Result<(), Fail> {
    let gate = HoldGate::new(Who::Session(name_of(b"A")?), 1, Who::Worker(1), 1);
    let heard = run_well(&rt, rt.alloc(), 1, ORDER, &gate)?;
    assert!(rt; !gate.ran_out());
    assert_eq!(rt; heard.text.as_slice(), ORDERED);
    assert_eq!(rt; (heard.why, heard.again), (Why::Done, true));
    Ok(())
}

const LOGONS: &[u8] = b"A LOGON MILLER
B LOGON SMITH
";

const A_FIRST: &[u8] = b"1 A 1 OK
2 B 2 OK
";

const B_FIRST: &[u8] = b"1 B 2 OK
2 A 1 OK
";

#[test]
fn two_sessions_run_at_once(rt: HostRuntime) -> Result<(), Fail> {
    let (one, other) = (name_of(b"A")?, name_of(b"B")?);
    let gate = HoldGate::new(Who::Session(one), 1, Who::Session(other), 1);
    let heard = run_well(&rt, rt.alloc(), 1, LOGONS, &gate)?;
    let text = heard.text.as_slice();
    assert!(rt; !gate.ran_out());
    assert!(rt; text == A_FIRST || text == B_FIRST);
    assert_eq!(rt; (heard.why, heard.again), (Why::Done, true));
    Ok(())
}
