use enq_base::Readings;
use hall_model::Who;
use std::sync::atomic::{AtomicBool, Ordering};
use std::thread;

// How often one of two actors looks whether the other has come.
const LOOKS: u32 = 1_000_000_000;

// After so many looks it yields the processor.
const LOOKS_BETWEEN_YIELDS: u32 = 1024;

/// What stands round each call that an actor makes of the server, outside the turn. A call that isn't noted, as one
/// that takes no unit, passes it too.
pub trait Gate {
    /// Before the actor's call of this number, counted from 1.
    fn before(&self, who: &Who, call: u64);

    /// After it.
    fn after(&self, who: &Who, call: u64);

    /// After each look of a worker that rests, with what it gave.
    fn look(&self, who: &Who, now: &Readings);

    /// Before a worker works a V1 part that it has an order for.
    fn work(&self, who: &Who);
}

/// A gate that is open.
#[derive(Clone, Copy, Debug)]
pub struct NoGate;

impl Gate for NoGate {
    fn before(&self, _who: &Who, _call: u64) {}

    fn after(&self, _who: &Who, _call: u64) {}

    fn look(&self, _who: &Who, _now: &Readings) {}

    fn work(&self, _who: &Who) {}
}

/// A call that a gate holds.
#[derive(Drop)]
struct Held {
    who: Who,
    call: u64,
    came: AtomicBool,
}

impl Held {
    fn new(who: Who, call: u64) -> Held {
        Held {
            who,
            call,
            came: AtomicBool::new(false),
        }
    }

    fn is(&self, who: &Who, call: u64) -> bool {
        self.call == call && self.who == *who
    }
}

/// A gate at which two actors wait for one another, each before one of its calls. One thread alone can't pass it.
#[derive(Drop)]
pub struct HoldGate {
    one: Held,
    other: Held,
    ran_out: AtomicBool,
}

impl HoldGate {
    pub fn new(one: Who, one_call: u64, other: Who, other_call: u64) -> HoldGate {
        HoldGate {
            one: Held::new(one, one_call),
            other: Held::new(other, other_call),
            ran_out: AtomicBool::new(false),
        }
    }

    /// Whether an actor gave up waiting.
    pub fn ran_out(&self) -> bool {
        self.ran_out.load(Ordering::SeqCst)
    }

    // Says that the one has come, and waits until the other has.
    fn meet(&self, one: &Held, other: &Held) {
        one.came.store(true, Ordering::SeqCst);
        for look in 0..LOOKS {
            if other.came.load(Ordering::SeqCst) {
                return;
            }
            if look % LOOKS_BETWEEN_YIELDS == 0 {
                thread::yield_now();
            }
        }
        self.ran_out.store(true, Ordering::SeqCst);
    }
}

impl Gate for HoldGate {
    fn before(&self, who: &Who, call: u64) {
        if self.one.is(who, call) {
            self.meet(&self.one, &self.other);
        } else if self.other.is(who, call) {
            self.meet(&self.other, &self.one);
        }
    }

    fn after(&self, _who: &Who, _call: u64) {}

    fn look(&self, _who: &Who, _now: &Readings) {}

    fn work(&self, _who: &Who) {}
}
