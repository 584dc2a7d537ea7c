use crate::halls::name_of;
use crate::runs::run_well;
use enq_base::Readings;
use hall_model::Who;
use script_runner::Why;
use std::sync::atomic::{AtomicBool, Ordering};
use std::test::*;
use std::thread;
use turn_desks::Gate;

// How often one of the two tries whether the other has come.
const TRIES: u32 = 1_000_000_000;

// After so many tries it yields the processor.
const TRIES_BETWEEN_YIELDS: u32 = 1024;

// The session's call that stands between the worker's take and its post.
const CALL_BETWEEN: u64 = 3;

const SCRIPT: &[u8] = b"A LOGON MILLER
A V1 PUT T 1 X
A COMMIT
A READ T 1 V
";

const ANSWERED: &[u8] = b"1 A 1 OK
2 A 3 OK 1.1.1
3 @1 0 OK 1.1.1
4 A 4 NONE
5 @1 0 POSTED 1.1.1
2 OK
";

/// A gate that holds a session before its third call until the worker is about to work a part that it has taken, and
/// the worker there until that call was answered.
#[derive(Drop)]
struct DraftGate {
    session: Who,
    /// Whether the worker has come to the part.
    came: AtomicBool,
    /// Whether the session's call was answered.
    answered: AtomicBool,
    /// Whether one of the two gave up waiting.
    ran_out: AtomicBool,
}

impl DraftGate {
    fn new(session: Who) -> DraftGate {
        DraftGate {
            session,
            came: AtomicBool::new(false),
            answered: AtomicBool::new(false),
            ran_out: AtomicBool::new(false),
        }
    }

    fn wait_for(&self, event: &AtomicBool) {
        for one_try in 0..TRIES {
            if event.load(Ordering::SeqCst) {
                return;
            }
            if one_try % TRIES_BETWEEN_YIELDS == 0 {
                thread::yield_now();
            }
        }
        self.ran_out.store(true, Ordering::SeqCst);
    }

    fn is_between(&self, who: &Who, call: u64) -> bool {
        call == CALL_BETWEEN && self.session == *who
    }
}

impl Gate for DraftGate {
    fn before(&self, who: &Who, call: u64) {
        if self.is_between(who, call) {
            self.wait_for(&self.came);
        }
    }

    fn after(&self, who: &Who, call: u64) {
        if self.is_between(who, call) {
            self.answered.store(true, Ordering::SeqCst);
        }
    }

    fn look(&self, _who: &Who, _now: &Readings) {}

    fn work(&self, _who: &Who) {
        self.came.store(true, Ordering::SeqCst);
        self.wait_for(&self.answered);
    }
}

#[test]
fn a_call_stands_between_a_take_and_its_post(rt: HostRuntime) -> Result<(), Fail> {
    let gate = DraftGate::new(Who::Session(name_of(b"A")?));
    let heard = run_well(&rt, rt.alloc(), 1, SCRIPT, &gate)?;
    assert!(rt; !gate.ran_out.load(Ordering::SeqCst));
    assert_eq!(rt; heard.text.as_slice(), ANSWERED);
    assert_eq!(rt; (heard.why, heard.again), (Why::Done, true));
    Ok(())
}
