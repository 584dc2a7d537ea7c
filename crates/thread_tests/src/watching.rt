use crate::gates::{ORDER, ORDERED};
use crate::halls::name_of;
use crate::runs::run_well;
use enq_base::Readings;
use hall_model::Who;
use script_runner::Why;
use std::sync::atomic::{AtomicBool, AtomicU64, Ordering};
use std::test::*;
use std::thread;
use turn_desks::Gate;

// How often the session tries whether the worker has seen enough.
const TRIES: u32 = 1_000_000_000;

// After so many tries it yields the processor.
const TRIES_BETWEEN_YIELDS: u32 = 1024;

/// A gate that holds a session before its first call until the one worker has looked at the gauges, and before its
/// second until a look showed the first.
#[derive(Drop)]
struct WatchGate {
    session: Who,
    looks: AtomicU64,
    /// What the first look showed.
    first_past: AtomicU64,
    first_condition: AtomicU64,
    /// How long a history the last look showed.
    past: AtomicU64,
    /// Whether a look showed a shorter one than a look before.
    fell: AtomicBool,
    /// Whether the session gave up waiting.
    ran_out: AtomicBool,
}

impl WatchGate {
    fn new(session: Who) -> WatchGate {
        WatchGate {
            session,
            looks: AtomicU64::new(0),
            first_past: AtomicU64::new(0),
            first_condition: AtomicU64::new(0),
            past: AtomicU64::new(0),
            fell: AtomicBool::new(false),
            ran_out: AtomicBool::new(false),
        }
    }

    // Whether the session may make its call of this number.
    fn is_passable(&self, call: u64) -> bool {
        match call {
            1 => self.looks.load(Ordering::SeqCst) > 0,
            2 => self.past.load(Ordering::SeqCst) > 0,
            _ => true,
        }
    }

    fn wait(&self, call: u64) {
        for one_try in 0..TRIES {
            if self.is_passable(call) {
                return;
            }
            if one_try % TRIES_BETWEEN_YIELDS == 0 {
                thread::yield_now();
            }
        }
        self.ran_out.store(true, Ordering::SeqCst);
    }

    // Whether nobody waited in vain, the first look showed a server that is up before its first call, and no look
    // showed a shorter history than one before or a longer one than this.
    fn has_seen_well(&self, calls: u64) -> bool {
        let is_first = self.first_past.load(Ordering::SeqCst) == 0
            && self.first_condition.load(Ordering::SeqCst) == 0;
        let is_well = !self.ran_out.load(Ordering::SeqCst) && !self.fell.load(Ordering::SeqCst);
        is_first && is_well && self.past.load(Ordering::SeqCst) <= calls
    }
}

impl Gate for WatchGate {
    fn before(&self, who: &Who, call: u64) {
        if self.session == *who {
            self.wait(call);
        }
    }

    fn after(&self, _who: &Who, _call: u64) {}

    fn look(&self, _who: &Who, now: &Readings) {
        if self.looks.load(Ordering::SeqCst) == 0 {
            self.first_past.store(now.past, Ordering::SeqCst);
            self.first_condition.store(now.condition, Ordering::SeqCst);
        }
        if now.past < self.past.load(Ordering::SeqCst) {
            self.fell.store(true, Ordering::SeqCst);
        }
        self.past.store(now.past, Ordering::SeqCst);
        self.looks.fetch_add(1, Ordering::SeqCst);
    }

    fn work(&self, _who: &Who) {}
}

#[test]
fn a_worker_sees_a_history_grow_while_it_rests(rt: HostRuntime) -> Result<(), Fail> {
    let gate = WatchGate::new(Who::Session(name_of(b"A")?));
    let heard = run_well(&rt, rt.alloc(), 1, ORDER, &gate)?;
    assert!(rt; gate.has_seen_well(heard.calls as u64));
    assert_eq!(rt; heard.text.as_slice(), ORDERED);
    assert_eq!(rt; (heard.why, heard.again), (Why::Done, true));
    Ok(())
}
